//! Kinds of questions, and their answers.

use crate::form::Form;
use crate::shape::{Keys, Shape, Table};

/// The tables of kinds of questions and of answers, from that of `Absent` on in the order of the forms.
pub const TABLES: &[Table] = &[
    Table {
        name: "absent",
        wanted: "\"Absent\"",
        shape: Shape::Word(&["Absent"]),
    },
    Table {
        name: "pending_or_absent",
        wanted: "\"Pending\" or \"Absent\"",
        shape: Shape::Word(&["Pending", "Absent"]),
    },
    Table {
        name: "pending_or_ready",
        wanted: "\"Pending\" or \"Ready\"",
        shape: Shape::Word(&["Pending", "Ready"]),
    },
    Table {
        name: "done",
        wanted: "\"Done\"",
        shape: Shape::Word(&["Done"]),
    },
    Table {
        name: "abandoned",
        wanted: "\"Abandoned\"",
        shape: Shape::Word(&["Abandoned"]),
    },
    Table {
        name: "parked",
        wanted: "\"Parked\"",
        shape: Shape::Word(&["Parked"]),
    },
    Table {
        name: "initial_word",
        wanted: "\"Go\", \"No\" or \"Absent\"",
        shape: Shape::Word(&["Go", "No", "Absent"]),
    },
    Table {
        name: "started_or_absent",
        wanted: "\"Started\" or \"Absent\"",
        shape: Shape::Word(&["Started", "Absent"]),
    },
    Table {
        name: "not_streaming_or_absent",
        wanted: "\"NotStreaming\" or \"Absent\"",
        shape: Shape::Word(&["NotStreaming", "Absent"]),
    },
    Table {
        name: "decision_word",
        wanted: "\"No\" or \"Yes\"",
        shape: Shape::Word(&["No", "Yes"]),
    },
    Table {
        name: "no_yes_or_absent",
        wanted: "\"No\", \"Yes\" or \"Absent\"",
        shape: Shape::Word(&["No", "Yes", "Absent"]),
    },
    Table {
        name: "remark_word",
        wanted: "a remark of Chosen",
        shape: Shape::Word(&["Hit", "Load", "Uncached"]),
    },
    Table {
        name: "optional_remark",
        wanted: "a remark of Chosen or null",
        shape: Shape::Choice(&[Form::RemarkWord, Form::Null]),
    },
    Table {
        name: "tagged_layer",
        wanted: "[\"Layer\", layer]",
        shape: Shape::Tagged("Layer", &[Form::Layer]),
    },
    Table {
        name: "tagged_failed",
        wanted: "[\"Failed\", text]",
        shape: Shape::Tagged("Failed", &[Form::ShortText]),
    },
    Table {
        name: "tagged_request",
        wanted: "[\"Request\", request]",
        shape: Shape::Tagged("Request", &[Form::Request]),
    },
    Table {
        name: "tagged_loaded",
        wanted: "[\"Loaded\", blob]",
        shape: Shape::Tagged("Loaded", &[Form::BodyBlob]),
    },
    Table {
        name: "tagged_delay",
        wanted: "[\"Delay\", n]",
        shape: Shape::Tagged("Delay", &[Form::Number]),
    },
    Table {
        name: "tagged_no_after",
        wanted: "[\"NoAfter\", n]",
        shape: Shape::Tagged("NoAfter", &[Form::Number]),
    },
    Table {
        name: "tagged_chosen",
        wanted: "[\"Chosen\", scheme, identity, endpoint or null, layer, remark or null]",
        shape: Shape::Tagged(
            "Chosen",
            &[
                Form::ShortText,
                Form::Identity,
                Form::OptionalEndpoint,
                Form::Layer,
                Form::OptionalRemark,
            ],
        ),
    },
    Table {
        name: "tagged_endpoint",
        wanted: "[\"Endpoint\", endpoint]",
        shape: Shape::Tagged("Endpoint", &[Form::Endpoint]),
    },
    Table {
        name: "tagged_response",
        wanted: "[\"Response\", response]",
        shape: Shape::Tagged("Response", &[Form::Response]),
    },
    Table {
        name: "tagged_connector_failed",
        wanted: "[\"Failed\", connector kind, text]",
        shape: Shape::Tagged("Failed", &[Form::ConnectorKind, Form::ShortText]),
    },
    Table {
        name: "tagged_outcome",
        wanted: "[\"Outcome\", outcome]",
        shape: Shape::Tagged("Outcome", &[Form::Outcome]),
    },
    Table {
        name: "tagged_read",
        wanted: "[\"Read\", blob]",
        shape: Shape::Tagged("Read", &[Form::BodyBlob]),
    },
    Table {
        name: "tagged_noted",
        wanted: "[\"Noted\", choice, remark]",
        shape: Shape::Tagged("Noted", &[Form::Decision, Form::DecideRemark]),
    },
    Table {
        name: "tagged_input",
        wanted: "[\"Input\", payload]",
        shape: Shape::Tagged("Input", &[Form::Payload]),
    },
    Table {
        name: "tagged_hook",
        wanted: "[\"Hook\", change or null, layer, text or null]",
        shape: Shape::Tagged(
            "Hook",
            &[Form::OptionalChange, Form::Layer, Form::OptionalText],
        ),
    },
    Table {
        name: "optional_change",
        wanted: "a change or null",
        shape: Shape::Choice(&[
            Form::TaggedInput,
            Form::TaggedRequest,
            Form::TaggedResponse,
            Form::TaggedOutcome,
            Form::Null,
        ]),
    },
    Table {
        name: "decision",
        wanted: "a choice: \"No\", [\"NoAfter\", n], \"Yes\" or [\"Delay\", n]",
        shape: Shape::Choice(&[Form::DecisionWord, Form::TaggedNoAfter, Form::TaggedDelay]),
    },
    Table {
        name: "verdict_word",
        wanted: "\"NoActionIndicated\" or \"RetryForbidden\"",
        shape: Shape::Word(&["NoActionIndicated", "RetryForbidden"]),
    },
    Table {
        name: "indicated",
        wanted: "[\"RetryIndicated\", error kind, retry_after or null]",
        shape: Shape::Tagged("RetryIndicated", &[Form::ErrorKind, Form::OptionalNumber]),
    },
    Table {
        name: "verdict",
        wanted: "a verdict",
        shape: Shape::Choice(&[Form::VerdictWord, Form::Indicated]),
    },
    Table {
        name: "reason_word",
        wanted: "\"NotIndicated\" or \"OutOfAttempts\"",
        shape: Shape::Word(&["NotIndicated", "OutOfAttempts"]),
    },
    Table {
        name: "tagged_no_quota",
        wanted: "[\"NoQuota\", cost]",
        shape: Shape::Tagged("NoQuota", &[Form::Number32]),
    },
    Table {
        name: "tagged_granted",
        wanted: "[\"Granted\", amount]",
        shape: Shape::Tagged("Granted", &[Form::Number32]),
    },
    Table {
        name: "reason",
        wanted: "a reason",
        shape: Shape::Choice(&[Form::ReasonWord, Form::TaggedNoQuota, Form::TaggedGranted]),
    },
    Table {
        name: "sums",
        wanted: "[capacity, granted, available, held, forgotten]",
        shape: Shape::Row(&[
            Form::Number,
            Form::Number,
            Form::Number,
            Form::Number,
            Form::Number,
        ]),
    },
    Table {
        name: "optional_sums",
        wanted: "[capacity, granted, available, held, forgotten] or null",
        shape: Shape::Choice(&[Form::Sums, Form::Null]),
    },
    Table {
        name: "decide_remark",
        wanted: "[verdict, moment or null, random number, reason, sums or null]",
        shape: Shape::Row(&[
            Form::Verdict,
            Form::OptionalNumber,
            Form::Number,
            Form::Reason,
            Form::OptionalSums,
        ]),
    },
    Table {
        name: "configured",
        wanted: "an answer to Configure: [\"Layer\", layer], [\"Failed\", text] or \"Absent\"",
        shape: Shape::Choice(&[Form::TaggedLayer, Form::TaggedFailed, Form::Absent]),
    },
    Table {
        name: "hooked",
        wanted: "an answer to a hook: \"Done\" or [\"Hook\", change or null, layer, text or null]",
        shape: Shape::Choice(&[Form::Done, Form::TaggedHook]),
    },
    Table {
        name: "requested",
        wanted: "[\"Request\", request], [\"Failed\", text] or \"Absent\"",
        shape: Shape::Choice(&[Form::TaggedRequest, Form::TaggedFailed, Form::Absent]),
    },
    Table {
        name: "loaded",
        wanted: "an answer to Load: \"Pending\", [\"Loaded\", blob], [\"Failed\", text] or \"Absent\"",
        shape: Shape::Choice(&[
            Form::TaggedLoaded,
            Form::TaggedFailed,
            Form::PendingOrAbsent,
        ]),
    },
    Table {
        name: "initial",
        wanted: "an answer to Initial: \"Go\", \"No\", [\"Delay\", n], [\"Failed\", text] or \"Absent\"",
        shape: Shape::Choice(&[Form::InitialWord, Form::TaggedDelay, Form::TaggedFailed]),
    },
    Table {
        name: "choosing",
        wanted: "an answer to Choose: \"Pending\", [\"Chosen\", scheme, identity, endpoint or null, layer, remark or null], [\"Failed\", text] or \"Absent\"",
        shape: Shape::Choice(&[
            Form::TaggedChosen,
            Form::TaggedFailed,
            Form::PendingOrAbsent,
        ]),
    },
    Table {
        name: "resolved",
        wanted: "an answer to Endpoint: \"Pending\", [\"Endpoint\", endpoint], [\"Failed\", text] or \"Absent\"",
        shape: Shape::Choice(&[
            Form::TaggedEndpoint,
            Form::TaggedFailed,
            Form::PendingOrAbsent,
        ]),
    },
    Table {
        name: "transmitted",
        wanted: "an answer to Transmit: \"Pending\", [\"Response\", response], [\"Failed\", connector kind, text] or \"Absent\"",
        shape: Shape::Choice(&[
            Form::TaggedResponse,
            Form::TaggedConnectorFailed,
            Form::PendingOrAbsent,
        ]),
    },
    Table {
        name: "streamed",
        wanted: "an answer to Stream: \"NotStreaming\", [\"Outcome\", outcome] or \"Absent\"",
        shape: Shape::Choice(&[Form::NotStreamingOrAbsent, Form::TaggedOutcome]),
    },
    Table {
        name: "body_read",
        wanted: "an answer to Body: \"Pending\", [\"Read\", blob], [\"Failed\", text] or \"Absent\"",
        shape: Shape::Choice(&[Form::TaggedRead, Form::TaggedFailed, Form::PendingOrAbsent]),
    },
    Table {
        name: "deserialized",
        wanted: "an answer to Deserialize: [\"Outcome\", outcome] or \"Absent\"",
        shape: Shape::Choice(&[Form::TaggedOutcome, Form::Absent]),
    },
    Table {
        name: "decided",
        wanted: "an answer to Decide: \"No\", [\"NoAfter\", n], \"Yes\", [\"Delay\", n], [\"Noted\", choice, remark], [\"Failed\", text] or \"Absent\"",
        shape: Shape::Choice(&[
            Form::NoYesOrAbsent,
            Form::TaggedNoAfter,
            Form::TaggedDelay,
            Form::TaggedNoted,
            Form::TaggedFailed,
        ]),
    },
    Table {
        name: "answer",
        wanted: "[kind, answer]",
        shape: Shape::Keyed(Keys::Questions),
    },
    Table {
        name: "answers",
        wanted: "a list of [kind, answer]",
        shape: Shape::List(Form::Answer, 0),
    },
];

/// The kinds of questions.
pub const KINDS: &[&str] = &[
    "Configure Client",
    "Configure Operation",
    "Configure Final",
    "Hook read_before_execution client",
    "Hook read_before_execution operation",
    "Hook modify_before_serialization",
    "Hook read_before_serialization",
    "Hook read_after_serialization",
    "Hook modify_before_retry_loop",
    "Hook read_before_attempt",
    "Hook modify_before_signing",
    "Hook read_before_signing",
    "Hook read_after_signing",
    "Hook modify_before_transmit",
    "Hook read_before_transmit",
    "Hook read_after_transmit",
    "Hook modify_before_deserialization",
    "Hook read_before_deserialization",
    "Hook read_after_deserialization",
    "Hook modify_before_attempt_completion",
    "Hook read_after_attempt",
    "Hook modify_before_completion",
    "Hook read_after_execution",
    "Serialize",
    "Load",
    "Initial",
    "Choose",
    "Endpoint",
    "Apply",
    "Sign",
    "Transmit",
    "Stream",
    "Body",
    "Deserialize",
    "Decide",
    "Park",
    "Start Operation",
    "Start Attempt",
    "Start Send",
    "Start Retry",
    "Start LongPoll",
    "Wait Operation",
    "Wait Attempt",
    "Wait Send",
    "Wait Retry",
    "Wait LongPoll",
    "Abandon Load",
    "Abandon Choose",
    "Abandon Endpoint",
    "Abandon Transmit",
    "Abandon Body",
    "Abandon Wait Send",
    "Abandon Wait Retry",
    "Abandon Wait LongPoll",
];

/// What answers a question of this kind, none where it is no kind.
pub fn answer_form(kind: &str) -> Option<Form> {
    if !is_kind(kind) {
        return None;
    }
    match kind {
        "Serialize" | "Apply" | "Sign" => Some(Form::Requested),
        "Load" => Some(Form::Loaded),
        "Initial" => Some(Form::Initial),
        "Choose" => Some(Form::Choosing),
        "Endpoint" => Some(Form::Resolved),
        "Transmit" => Some(Form::Transmitted),
        "Stream" => Some(Form::Streamed),
        "Body" => Some(Form::BodyRead),
        "Deserialize" => Some(Form::Deserialized),
        "Decide" => Some(Form::Decided),
        "Park" => Some(Form::Parked),
        _ => Some(form_by_front(kind)),
    }
}

// Of a kind with a part.
fn form_by_front(kind: &str) -> Form {
    if kind.starts_with("Configure ") {
        Form::Configured
    } else if kind.starts_with("Hook ") {
        Form::Hooked
    } else if kind.starts_with("Start ") {
        Form::StartedOrAbsent
    } else if kind.starts_with("Wait ") {
        Form::PendingOrReady
    } else {
        Form::Abandoned
    }
}

// Whether it is a kind of question.
fn is_kind(word: &str) -> bool {
    for kind in KINDS {
        if *kind == word {
            return true;
        }
    }
    false
}
