//! The sleep of a load.
ghost use Rattle.std.specs.Prelude.{◌≡◌, IfOk};
ghost use Rattle.identity_cell.specs.LoadSleep.{GivesUp, AsksSleep, timeout_text};

use smithy_types::{OutOfMemory, Text, Timers};
use std::alloc::Global;

/// The sleep isn't asked again, where there is one.
pub(crate) fn give_up<T: Timers>(timers: &mut T, sleep: Option<u64>)
    ensures asked { GivesUp T.relates sleep timers.old timers.new }
    ensures same_sleeps { T.sleeps timers.new ≡ T.sleeps timers.old }
{
    if let Some(sleep) = sleep {
        timers.give_up(sleep);
    }
}

/// Whether the sleep is over. Where there is none, it never is.
pub(crate) fn is_over<T: Timers>(timers: &mut T, sleep: Option<u64>) -> bool
    ensures asked { AsksSleep T.relates sleep result timers.old timers.new }
    ensures same_sleeps { T.sleeps timers.new ≡ T.sleeps timers.old }
{
    match sleep {
        Some(sleep) => timers.ready(sleep),
        None => false,
    }
}

/// Why a load failed that took longer than so many nanoseconds.
pub(crate) fn timed_out(alloc: Global, nanos: u64) -> Result<Text, OutOfMemory>
    ensures { IfOk result (λ t. t ≡ timeout_text nanos) }
{
    let text = format!(in alloc; "identity resolver timed out after {nanos} ns")?;
    Text::from_string(text)
}
