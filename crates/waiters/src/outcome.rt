//! What a waiter ends with.

use smithy_types::{OutOfMemory, SdkError};
use std::error::Error;
use std::fmt;

/// The poll that ended a waiter: an output, or an error of the operation's model.
#[derive(Debug, Drop)]
pub struct FinalPoll<O, E> {
    /// What it answered.
    pub result: Result<O, E>,
}

/// Why a waiter ended without success.
#[derive(Debug, Drop)]
pub enum WaiterError<O, E> {
    /// A poll failed with an error that isn't of the operation's model, or that no acceptor
    /// matched.
    OperationFailed(SdkError<E>),
    /// An acceptor said that the resource can't come into the desired state any more.
    FailureState(FinalPoll<O, E>),
    /// The longest wait is over. Times are in nanoseconds.
    ExceededMaxWait {
        /// How long the waiter may wait in all.
        max_wait: u64,
        /// From the waiter's start to its last poll.
        elapsed: u64,
        /// How many polls were answered, at most `u32::MAX`.
        poll_count: u32,
    },
    /// The fuel was spent before the walk ended.
    Unfinished,
    /// An allocation was refused.
    OutOfMemory,
}

/// A poll that failed has the text of its `SdkError`.
impl<O, E> fmt::Display for WaiterError<O, E> {
    fn fmt<W: fmt::Write>(&self, f: &mut fmt::Formatter<W>) -> fmt::Result {
        match self {
            WaiterError::OperationFailed(error) => fmt::Display::fmt(error, f),
            WaiterError::FailureState(_) => f.write_str("the resource is in a failure state"),
            WaiterError::ExceededMaxWait { .. } => f.write_str("the longest wait is over"),
            WaiterError::Unfinished => f.write_str("the fuel is spent before the wait's end"),
            WaiterError::OutOfMemory => fmt::Display::fmt(&OutOfMemory, f),
        }
    }
}

impl<O: fmt::Debug + Drop, E: fmt::Debug + Drop> Error for WaiterError<O, E> {}
