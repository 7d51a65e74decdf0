//! The members of a script's objects.
ghost use Rattle.json_forms.specs.View.{view};
ghost use Rattle.json_scripts.specs.Members.{only_among};
ghost use Rattle.json_forms.specs.Reading.{Reads};
ghost use Rattle.cli_waiters.specs.Script.Members.{script_members, waiter_members};

use json_forms::{ReadError, Value};
use json_scripts::only_members;

/// No member stands beside those of a script.
#[tactic(auto, unfolding(crate::specs::Script::Members::script_members))]
pub fn only_of_script(value: &Value) -> Result<(), ReadError>
    ensures { Reads result (only_among script_members (view value.now)) }
{
    only_members(&["bucket", "start", "words", "fuel", "waiters"], value)
}

/// No member stands beside those of a waiter.
#[tactic(auto, unfolding(crate::specs::Script::Members::waiter_members))]
pub fn only_of_waiter(value: &Value) -> Result<(), ReadError>
    ensures { Reads result (only_among waiter_members (view value.now)) }
{
    only_members(&["min", "max", "max_wait", "polls"], value)
}
