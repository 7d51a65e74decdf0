//! How a waiter ended.
ghost use Rattle.std.specs.Prelude.{◌≡◌, Some, Err, IfOk};
ghost use Rattle.cli_wait.specs.Endings.{came_to, ending_of, final_ending};

use crate::PolledValue;
use cli_shell::status::PrintStatus;
use smithy_types::{OutOfMemory, Payload};
use waiters::{FinalPoll, WaiterError};

/// What a waiter over a script answers.
pub type Waited = Result<
    FinalPoll<PolledValue, PolledValue>,
    WaiterError<PolledValue, PolledValue>,
>;

/// How a waiter ended.
#[derive(Debug, Drop)]
pub enum WaitEnding {
    /// With an output.
    Output(Payload),
    /// With an error of the operation's model that was waited for.
    Service(Payload),
    /// A poll failed.
    OperationFailed,
    /// The state that is waited for can't come any more.
    FailureState,
    /// The longest wait is over. Times are in nanoseconds.
    ExceededMaxWait {
        /// How long the waiter may wait in all.
        max_wait: u64,
        /// From the waiter's start to its last poll.
        elapsed: u64,
        /// How many polls were answered, at most `u32::MAX`.
        poll_count: u32,
    },
    /// The fuel was used up.
    Unfinished,
}

impl WaitEnding {
    /// The ending that a waiter's answer tells.
    pub fn of(waited: &Waited) -> Result<WaitEnding, OutOfMemory>
        ensures { IfOk result (λ e. ending_of waited.now ≡ Some e) }
    {
        match waited {
            Ok(last) => WaitEnding::of_final(&last.result),
            Err(error) => WaitEnding::of_error(error),
        }
    }

    // The ending of a waiter that found what it waits for.
    fn of_final(found: &Result<PolledValue, PolledValue>) -> Result<WaitEnding, OutOfMemory>
        ensures { IfOk result (λ e. e ≡ final_ending found.now) }
    {
        match found {
            Ok(output) => Ok(WaitEnding::Output(output.payload.clone()?)),
            Err(error) => Ok(WaitEnding::Service(error.payload.clone()?)),
        }
    }

    // The ending of a waiter that didn't.
    fn of_error(error: &WaiterError<PolledValue, PolledValue>) -> Result<WaitEnding, OutOfMemory>
        ensures { IfOk result (λ e. ending_of (Err error.now) ≡ Some e) }
    {
        match error {
            WaiterError::OperationFailed(_) => Ok(WaitEnding::OperationFailed),
            WaiterError::FailureState(_) => Ok(WaitEnding::FailureState),
            WaiterError::ExceededMaxWait {
                max_wait,
                elapsed,
                poll_count,
            } => Ok(WaitEnding::ExceededMaxWait {
                max_wait: *max_wait,
                elapsed: *elapsed,
                poll_count: *poll_count,
            }),
            WaiterError::Unfinished => Ok(WaitEnding::Unfinished),
            WaiterError::OutOfMemory => Err(OutOfMemory),
        }
    }

    /// What the ending comes to.
    pub fn status(&self) -> PrintStatus
        ensures { result ≡ came_to self.now }
    {
        match self {
            WaitEnding::Output(_) => PrintStatus::Ok,
            WaitEnding::Service(_) => PrintStatus::Ok,
            WaitEnding::OperationFailed => PrintStatus::WaiterFailed,
            WaitEnding::FailureState => PrintStatus::WaiterFailed,
            WaitEnding::ExceededMaxWait { .. } => PrintStatus::WaiterFailed,
            WaitEnding::Unfinished => PrintStatus::WaiterFailed,
        }
    }
}
