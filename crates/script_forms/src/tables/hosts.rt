//! What a host says: the description that it begins with, and its messages.

use crate::form::Form;
use crate::shape::{Member, Shape, Table};

/// The tables of a host's lines, from that of `Seat` on in the order of the forms.
pub const TABLES: &[Table] = &[
    Table {
        name: "seat",
        wanted: "the number of a seat, a whole number of 64 bits",
        shape: Shape::Number(0, u64::MAX),
    },
    Table {
        name: "moment",
        wanted: "a moment in nanoseconds, a whole number of 64 bits",
        shape: Shape::Number(0, u64::MAX),
    },
    Table {
        name: "call_number",
        wanted: "the number of a call, a whole number of 64 bits",
        shape: Shape::Number(0, u64::MAX),
    },
    Table {
        name: "response_event",
        wanted: "[\"response\", call, status, headers]",
        shape: Shape::Tagged(
            "response",
            &[Form::CallNumber, Form::Number16, Form::Headers],
        ),
    },
    Table {
        name: "data_event",
        wanted: "[\"data\", call, blob]",
        shape: Shape::Tagged("data", &[Form::CallNumber, Form::Blob]),
    },
    Table {
        name: "trailers_event",
        wanted: "[\"trailers\", call]",
        shape: Shape::Tagged("trailers", &[Form::CallNumber]),
    },
    Table {
        name: "end_event",
        wanted: "[\"end\", call]",
        shape: Shape::Tagged("end", &[Form::CallNumber]),
    },
    Table {
        name: "broken_event",
        wanted: "[\"broken\", call, fault]",
        shape: Shape::Tagged("broken", &[Form::CallNumber, Form::Fault]),
    },
    Table {
        name: "failed_event",
        wanted: "[\"failed\", call, connector kind, text]",
        shape: Shape::Tagged(
            "failed",
            &[Form::CallNumber, Form::ConnectorKind, Form::Text],
        ),
    },
    Table {
        name: "identity_event",
        wanted: "[\"identity\", scheme, identity]",
        shape: Shape::Tagged("identity", &[Form::Text, Form::Identity]),
    },
    Table {
        name: "no_identity_event",
        wanted: "[\"no_identity\", scheme, text]",
        shape: Shape::Tagged("no_identity", &[Form::Text, Form::Text]),
    },
    Table {
        name: "event",
        wanted: "an event: \"response\", \"data\", \"trailers\", \"end\", \"broken\", \"failed\", \"identity\" or \"no_identity\", and what belongs to it",
        shape: Shape::Choice(&[
            Form::ResponseEvent,
            Form::DataEvent,
            Form::TrailersEvent,
            Form::EndEvent,
            Form::BrokenEvent,
            Form::FailedEvent,
            Form::IdentityEvent,
            Form::NoIdentityEvent,
        ]),
    },
    Table {
        name: "events",
        wanted: "a list of events",
        shape: Shape::List(Form::Event, 0),
    },
    Table {
        name: "invoke_message",
        wanted: "[\"invoke\", seat, now, payload, fuel, stop, log]",
        shape: Shape::Tagged(
            "invoke",
            &[
                Form::Seat,
                Form::Moment,
                Form::Payload,
                Form::Fuel,
                Form::StopPoint,
                Form::Truth,
            ],
        ),
    },
    Table {
        name: "at_message",
        wanted: "[\"at\", seat, now, [event, ..]]",
        shape: Shape::Tagged("at", &[Form::Seat, Form::Moment, Form::Events]),
    },
    Table {
        name: "give_up_message",
        wanted: "[\"give_up\", seat, now]",
        shape: Shape::Tagged("give_up", &[Form::Seat, Form::Moment]),
    },
    Table {
        name: "sums_message",
        wanted: "[\"sums\"]",
        shape: Shape::Tagged("sums", &[]),
    },
    Table {
        name: "close_message",
        wanted: "[\"close\"]",
        shape: Shape::Tagged("close", &[]),
    },
    Table {
        name: "message",
        wanted: "a message: \"invoke\", \"at\", \"give_up\", \"sums\" or \"close\", and what belongs to it",
        shape: Shape::Choice(&[
            Form::InvokeMessage,
            Form::AtMessage,
            Form::GiveUpMessage,
            Form::SumsMessage,
            Form::CloseMessage,
        ]),
    },
    Table {
        name: "rule_headers",
        wanted: "a list of headers, [[name, blob], ..]",
        shape: Shape::List(Form::Header, 0),
    },
    Table {
        name: "optional_blob",
        wanted: "bytes, a text or {\"hex\":\"00ff\"} with pairs in lower case, or null",
        shape: Shape::Choice(&[Form::Blob, Form::Null]),
    },
    Table {
        name: "error_rule",
        wanted: "a rule, [status, headers, word or null, name]",
        shape: Shape::Row(&[
            Form::Number16,
            Form::RuleHeaders,
            Form::OptionalBlob,
            Form::Blob,
        ]),
    },
    Table {
        name: "error_rules",
        wanted: "a list of rules",
        shape: Shape::List(Form::ErrorRule, 0),
    },
    Table {
        name: "header_unit",
        wanted: "[name, unit] of a header",
        shape: Shape::Row(&[Form::Text, Form::Number]),
    },
    Table {
        name: "optional_header_unit",
        wanted: "[name, unit] of a header or null",
        shape: Shape::Choice(&[Form::HeaderUnit, Form::Null]),
    },
    Table {
        name: "host_client",
        wanted: "an object with client, errors, retry_after and seed",
        shape: Shape::Object(HOST_CLIENT),
    },
    Table {
        name: "host_clients",
        wanted: "a list of clients, each an object with client, errors, retry_after and seed",
        shape: Shape::List(Form::HostClient, 0),
    },
    Table {
        name: "description",
        wanted: "a description, an object with buckets, start and clients",
        shape: Shape::Object(DESCRIPTION),
    },
];

const HOST_CLIENT: &[Member] = &[
    Member {
        name: "client",
        form: Form::Client,
        is_needed: true,
    },
    Member {
        name: "errors",
        form: Form::ErrorRules,
        is_needed: true,
    },
    Member {
        name: "retry_after",
        form: Form::OptionalHeaderUnit,
        is_needed: true,
    },
    Member {
        name: "seed",
        form: Form::Number,
        is_needed: true,
    },
];

const DESCRIPTION: &[Member] = &[
    Member {
        name: "buckets",
        form: Form::Buckets,
        is_needed: true,
    },
    Member {
        name: "start",
        form: Form::Number,
        is_needed: true,
    },
    Member {
        name: "clients",
        form: Form::HostClients,
        is_needed: true,
    },
];
