//! Scripts of waiters, and whole scripts.

use crate::form::Form;
use crate::shape::{Member, Shape, Table};

/// The tables of waiters and of whole scripts, from that of `Span` on in the order of the forms.
pub const TABLES: &[Table] = &[
    Table {
        name: "span",
        wanted: "a span of nanoseconds, a whole number of 64 bits",
        shape: Shape::Number(0, u64::MAX),
    },
    Table {
        name: "minimum_delay",
        wanted: "a span of at least 1000000000 nanoseconds",
        shape: Shape::Number(1_000_000_000, u64::MAX),
    },
    Table {
        name: "timeout",
        wanted: "\"Timeout\"",
        shape: Shape::Word(&["Timeout"]),
    },
    Table {
        name: "tagged_service",
        wanted: "[\"Service\", payload]",
        shape: Shape::Tagged("Service", &[Form::Payload]),
    },
    Table {
        name: "poll_result",
        wanted: "a result: [\"Output\", payload], [\"Service\", payload] or \"Timeout\"",
        shape: Shape::Choice(&[Form::TaggedOutput, Form::TaggedService, Form::TimeoutWord]),
    },
    Table {
        name: "acceptor_state",
        wanted: "what acceptors say",
        shape: Shape::Word(&["NoAcceptorsMatched", "Success", "Failure", "Retry"]),
    },
    Table {
        name: "poll",
        wanted: "a poll, [nanos, result, state]",
        shape: Shape::Row(&[Form::Number, Form::PollResult, Form::AcceptorState]),
    },
    Table {
        name: "polls",
        wanted: "a list of polls, at least one",
        shape: Shape::List(Form::Poll, 1),
    },
    Table {
        name: "waiter",
        wanted: "a waiter, an object with min, max, max_wait and polls",
        shape: Shape::Object(WAITER),
    },
    Table {
        name: "waiters",
        wanted: "a list of waiters, at least one",
        shape: Shape::List(Form::Waiter, 1),
    },
    Table {
        name: "replay_script",
        wanted: "a script of replay, an object",
        shape: Shape::Object(REPLAY),
    },
    Table {
        name: "client_script",
        wanted: "a script of client, an object",
        shape: Shape::Object(CLIENT),
    },
    Table {
        name: "fleet_script",
        wanted: "a script of fleet, an object",
        shape: Shape::Object(FLEET),
    },
    Table {
        name: "wait_script",
        wanted: "a script of wait, an object",
        shape: Shape::Object(WAIT),
    },
];

/// The table of the last form, a script of waiters.
pub const WAITERS_SCRIPT: Table = Table {
    name: "waiters_script",
    wanted: "a script of waiters, an object",
    shape: Shape::Object(WAITERS),
};

const REPLAY: &[Member] = &[
    Member {
        name: "fuel",
        form: Form::Fuel,
        is_needed: true,
    },
    Member {
        name: "input",
        form: Form::Payload,
        is_needed: true,
    },
    Member {
        name: "output_kind",
        form: Form::Number,
        is_needed: true,
    },
    Member {
        name: "error_kind",
        form: Form::Number,
        is_needed: true,
    },
    Member {
        name: "stop",
        form: Form::StopPoint,
        is_needed: false,
    },
    Member {
        name: "answers",
        form: Form::Answers,
        is_needed: true,
    },
];

const CLIENT: &[Member] = &[
    Member {
        name: "buckets",
        form: Form::Buckets,
        is_needed: true,
    },
    Member {
        name: "start",
        form: Form::Number,
        is_needed: true,
    },
    Member {
        name: "words",
        form: Form::RandomNumbers,
        is_needed: true,
    },
    Member {
        name: "clients",
        form: Form::Clients,
        is_needed: true,
    },
    Member {
        name: "invocations",
        form: Form::Invocations,
        is_needed: true,
    },
];

const FLEET: &[Member] = &[
    Member {
        name: "bucket",
        form: Form::Bucket,
        is_needed: true,
    },
    Member {
        name: "start",
        form: Form::Number,
        is_needed: true,
    },
    Member {
        name: "words",
        form: Form::RandomNumbers,
        is_needed: true,
    },
    Member {
        name: "callers",
        form: Form::Callers,
        is_needed: true,
    },
];

const WAIT: &[Member] = &[
    Member {
        name: "min",
        form: Form::MinimumDelay,
        is_needed: true,
    },
    Member {
        name: "max",
        form: Form::Span,
        is_needed: true,
    },
    Member {
        name: "max_wait",
        form: Form::Span,
        is_needed: true,
    },
    Member {
        name: "start",
        form: Form::Number,
        is_needed: true,
    },
    Member {
        name: "fuel",
        form: Form::Fuel,
        is_needed: true,
    },
    Member {
        name: "words",
        form: Form::RandomNumbers,
        is_needed: true,
    },
    Member {
        name: "polls",
        form: Form::Polls,
        is_needed: true,
    },
];

const WAITER: &[Member] = &[
    Member {
        name: "min",
        form: Form::MinimumDelay,
        is_needed: true,
    },
    Member {
        name: "max",
        form: Form::Span,
        is_needed: true,
    },
    Member {
        name: "max_wait",
        form: Form::Span,
        is_needed: true,
    },
    Member {
        name: "polls",
        form: Form::Polls,
        is_needed: true,
    },
];

const WAITERS: &[Member] = &[
    Member {
        name: "bucket",
        form: Form::Bucket,
        is_needed: true,
    },
    Member {
        name: "start",
        form: Form::Number,
        is_needed: true,
    },
    Member {
        name: "words",
        form: Form::RandomNumbers,
        is_needed: true,
    },
    Member {
        name: "fuel",
        form: Form::Fuel,
        is_needed: true,
    },
    Member {
        name: "waiters",
        form: Form::Waiters,
        is_needed: true,
    },
];
