//! Scripts of `fleet`.
ghost use Rattle.std.specs.Prelude.{◌≡◌, IfOk, IsErrOf};
ghost use Rattle.json_forms.specs.View.{view};
ghost use Rattle.json_forms.specs.Reading.{Reads};
ghost use Rattle.json_scripts.specs.Fleet.Placed.{IsPlaced};
ghost use Rattle.json_scripts.specs.Fleet.Script.{fleet_script_at, IsFleetScript};

use crate::buckets::read_bucket_terms;
use crate::client::members::exact_members;
use crate::fleet::callers::read_callers;
use crate::fleet::terms::FleetScript;
use crate::read_words;
use json_forms::{Arena, ReadError, Value, read};
use std::alloc::Global;

/// How many members a script has.
const SCRIPT_MEMBERS: usize = 4;

/// The script that the bytes are the text of. It is refused exactly where they are the text of
/// none. It has a caller, each client's bucket is the script's or none, and each invocation's
/// client is its caller's.
pub fn read_fleet_script(alloc: Global, bytes: &[u8]) -> Result<FleetScript, ReadError>
    ensures found { IfOk result (λ s. IsFleetScript bytes.now s) }
    ensures placed { IfOk result IsPlaced }
    ensures refused { IsErrOf result ReadError.Refused → (s : FleetScript) →
        IsFleetScript bytes.now s → ⊥ }
{
    let mut arena = Arena::new(alloc);
    let value = arena.read(bytes)?;
    script_in(alloc, &value)
}

#[tactic(auto, unfolding(crate::specs::Fleet::Script::fleet_script_at))]
fn script_in(alloc: Global, value: &Value) -> Result<FleetScript, ReadError>
    ensures { Reads result (fleet_script_at (view value.now)) }
{
    exact_members(alloc, SCRIPT_MEMBERS, value)?;
    let bucket = read_bucket_terms(read::member(value, "bucket")?)?;
    let start = read::number(read::member(value, "start")?)?;
    let words = read_words(alloc, read::member(value, "words")?)?;
    let callers = read_callers(alloc, read::member(value, "callers")?)?;
    Ok(FleetScript {
        bucket,
        start,
        words,
        callers,
    })
}
