//! Settings and layers.

use crate::form::Form;
use crate::shape::{Keys, Shape, Table};

/// The tables of settings, from that of `Timeouts` on in the order of the forms.
pub const TABLES: &[Table] = &[
    Table {
        name: "timeouts",
        wanted: "[connect, read, operation, attempt], each nanoseconds or null",
        shape: Shape::Row(&[
            Form::OptionalNumber,
            Form::OptionalNumber,
            Form::OptionalNumber,
            Form::OptionalNumber,
        ]),
    },
    Table {
        name: "retry_mode",
        wanted: "a retry mode",
        shape: Shape::Word(&["Standard", "Adaptive"]),
    },
    Table {
        name: "reconnect_mode",
        wanted: "a reconnect mode",
        shape: Shape::Word(&["ReconnectOnTransientError", "ReuseAllConnections"]),
    },
    Table {
        name: "spec_version",
        wanted: "a version",
        shape: Shape::Word(&["V2_0", "V2_1"]),
    },
    Table {
        name: "spec",
        wanted: "[version, long_polling, non_throttling_initial]",
        shape: Shape::Row(&[Form::SpecVersion, Form::Truth, Form::Number]),
    },
    Table {
        name: "optional_spec",
        wanted: "[version, long_polling, non_throttling_initial] or null",
        shape: Shape::Choice(&[Form::Spec, Form::Null]),
    },
    Table {
        name: "retry",
        wanted: "[mode, max_attempts, initial, max_backoff, reconnect, static_base, spec]",
        shape: Shape::Row(&[
            Form::RetryMode,
            Form::Number32,
            Form::Number,
            Form::Number,
            Form::ReconnectMode,
            Form::Truth,
            Form::OptionalSpec,
        ]),
    },
    Table {
        name: "stall",
        wanted: "[upload, download, grace]",
        shape: Shape::Row(&[Form::Truth, Form::Truth, Form::Number]),
    },
    Table {
        name: "optional_stall",
        wanted: "[upload, download, grace] or null",
        shape: Shape::Choice(&[Form::Stall, Form::Null]),
    },
    Table {
        name: "setting",
        wanted: "[key, value or null] of a setting",
        shape: Shape::Keyed(Keys::Settings),
    },
    Table {
        name: "layer",
        wanted: "a layer, [[key, value], ..]",
        shape: Shape::List(Form::Setting, 0),
    },
];

/// The keys of settings, without those of a caller's own.
pub const SETTING_KEYS: &[&str] = &[
    "timeouts",
    "retry",
    "stall",
    "load_body",
    "partition",
    "bucket",
    "prefix",
    "preference",
    "v2",
    "endpoint_params",
    "auth_params",
    "enforce_length",
    "disable",
    "capture",
    "poisoned",
    "upload",
];

/// The value of the setting with this key, none where it is no key.
pub fn setting_form(key: &str) -> Option<Form> {
    match key {
        "timeouts" => Some(Form::Timeouts),
        "retry" => Some(Form::Retry),
        "stall" => Some(Form::Stall),
        "load_body" => Some(Form::Truth),
        "bucket" => Some(Form::Number32),
        "capture" | "poisoned" => Some(Form::Number),
        "partition" | "prefix" => Some(Form::ShortText),
        "preference" | "disable" => Some(Form::Texts),
        "v2" | "endpoint_params" | "auth_params" | "enforce_length" | "upload" => Some(Form::True),
        _ => own_setting_form(key),
    }
}

// A setting of the caller's own.
fn own_setting_form(key: &str) -> Option<Form> {
    if key.starts_with("user.") {
        Some(Form::Blob)
    } else {
        None
    }
}
