//! The reader of stop points.
ghost use Rattle.std.specs.Prelude.{◌≡◌};
ghost use Rattle.json_forms.specs.View.{view};
ghost use Rattle.json_forms.specs.Reading.{Reads};
ghost use Rattle.json_scripts.specs.Stop.{stop_at};

use json_forms::{ReadError, Value, read};
use json_values::names::stop_named;
use smithy_types::StopPoint;

/// The stop point that the value names. Refused where it names none.
#[tactic(auto, unfolding(crate::specs::Stop::stop_at))]
pub fn read_stop(value: &Value) -> Result<StopPoint, ReadError>
    ensures { Reads result (stop_at (view value.now)) }
{
    match stop_named(read::str(value)?) {
        Some(stop) => Ok(stop),
        None => Err(ReadError::Refused),
    }
}
