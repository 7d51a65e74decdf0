//! The fleets that are printed.

use smithy_types::AcceptorState;
use waiter_fleet::Plan;
use waiters::backoff::SECOND;

/// The delays of 2, 120 and 300 seconds.
pub const PLAN: Plan = Plan {
    min_delay: 2 * SECOND,
    max_delay: 120 * SECOND,
    max_wait: 300 * SECOND,
};

/// What a poll of a waiter's operation comes to.
#[derive(Clone, Copy, Drop)]
pub enum Told {
    Output,
    Service,
    Unmodeled,
}

/// A poll of a waiter's operation.
#[derive(Clone, Copy, Drop)]
pub struct ScriptedPoll {
    /// How long it takes from its first ask, in nanoseconds.
    pub nanos: u64,
    pub told: Told,
    pub state: AcceptorState,
}

/// Polled again once, and then done.
pub const SECOND_TIME: &[ScriptedPoll] = &[
    ScriptedPoll {
        nanos: 0,
        told: Told::Output,
        state: AcceptorState::Retry,
    },
    ScriptedPoll {
        nanos: 0,
        told: Told::Output,
        state: AcceptorState::Success,
    },
];

/// Polled again twice, and then done.
pub const THIRD_TIME: &[ScriptedPoll] = &[
    ScriptedPoll {
        nanos: 0,
        told: Told::Output,
        state: AcceptorState::Retry,
    },
    ScriptedPoll {
        nanos: 0,
        told: Told::Service,
        state: AcceptorState::Retry,
    },
    ScriptedPoll {
        nanos: 0,
        told: Told::Output,
        state: AcceptorState::Success,
    },
];

/// A poll of 5 seconds that fails.
pub const FAILURE: &[ScriptedPoll] = &[ScriptedPoll {
    nanos: 5 * SECOND,
    told: Told::Service,
    state: AcceptorState::Failure,
}];

/// An error of the model that no acceptor matched.
pub const UNMATCHED: &[ScriptedPoll] = &[ScriptedPoll {
    nanos: 0,
    told: Told::Service,
    state: AcceptorState::NoAcceptorsMatched,
}];

/// An error that isn't of the model, whatever its state.
pub const UNMODELED: &[ScriptedPoll] = &[ScriptedPoll {
    nanos: 0,
    told: Told::Unmodeled,
    state: AcceptorState::Success,
}];

/// Polled again without an end.
pub const FOREVER: &[ScriptedPoll] = &[ScriptedPoll {
    nanos: 0,
    told: Told::Output,
    state: AcceptorState::NoAcceptorsMatched,
}];
