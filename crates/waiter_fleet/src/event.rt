//! What happens to the waiters of a fleet.

use smithy_types::{AcceptorState, Payload};
use std::alloc::AllocError;

/// What a poll of a waiter's operation came to.
#[derive(Debug, Drop, PartialEq, Eq)]
pub enum Seen {
    /// The operation's output.
    Output(Payload),
    /// An error of the operation's model.
    Service(Payload),
    /// An error that isn't of the operation's model.
    Unmodeled,
}

impl Clone for Seen {
    ghost is_clone = { λ seen copy. copy ≡ seen };

    ghost use Rattle.std.specs.Prelude.{◌≡◌};

    fn clone(&self) -> Result<Seen, AllocError> {
        match self {
            Seen::Output(payload) => Ok(Seen::Output(payload.clone()?)),
            Seen::Service(payload) => Ok(Seen::Service(payload.clone()?)),
            Seen::Unmodeled => Ok(Seen::Unmodeled),
        }
    }
}

/// What a waiter of a fleet ended with.
#[derive(Clone, Copy, Debug, PartialEq, Eq)]
pub enum FleetEnd {
    /// The resource is in the desired state.
    Ok,
    /// A poll failed with an error that isn't of the operation's model, or that no acceptor
    /// matched.
    OperationFailed,
    /// An acceptor said that the resource can't come into the desired state any more.
    FailureState,
    /// The longest wait is over. Times are in nanoseconds.
    ExceededMaxWait {
        /// How long the waiter may wait in all.
        max_wait: u64,
        /// From the fleet's start to the waiter's last poll.
        elapsed: u64,
        /// How many polls were answered, at most `u32::MAX`.
        poll_count: u32,
    },
    /// The bucket had fewer tokens than the next poll costs.
    NoQuota {
        /// In tokens.
        cost: u32,
    },
    /// The fuel was spent before the waiter ended.
    Unfinished,
}

/// What happened to a waiter of a fleet. Waiters are named by their numbers, moments and times are
/// in nanoseconds.
#[derive(Debug, Drop, PartialEq, Eq)]
pub enum FleetEvent {
    /// A poll was answered.
    Poll {
        /// The waiter's number, from 0 on, as in every event.
        waiter: u32,
        /// The number of the waiter's poll, from 1 on, at most `u32::MAX`.
        number: u32,
        /// What the clock answered after it.
        moment: u64,
        /// What was seen of the answer.
        seen: Seen,
        /// What the acceptor said of it.
        state: AcceptorState,
    },
    /// The poll doesn't end the waiter, which sleeps now.
    Sleep {
        /// Who sleeps.
        waiter: u32,
        /// How long. A delay of 0 starts no sleep.
        nanos: u64,
        /// From the fleet's start to the poll.
        elapsed: u64,
        /// The random bits that the delay was drawn by.
        word: u64,
    },
    /// The next poll was paid for.
    Charged {
        /// Whose poll it is.
        waiter: u32,
        /// When, by the clock.
        moment: u64,
    },
    /// The bucket had fewer tokens than the next poll costs.
    Refused {
        /// Whose poll it is.
        waiter: u32,
        /// What the poll costs, in tokens.
        cost: u32,
        /// When, by the clock.
        moment: u64,
    },
    /// The waiter ended.
    End {
        /// Who ended.
        waiter: u32,
        /// What it ended with.
        end: FleetEnd,
    },
}
