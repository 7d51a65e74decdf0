//! Plain values, requests, responses, failures and outcomes.

use crate::form::Form;
use crate::shape::{Bytes, Shape, Table, Texts};

/// The tables of plain values, of requests, responses and failures, from that of `Null` on in the order of the forms.
pub const TABLES: &[Table] = &[
    Table {
        name: "null",
        wanted: "null",
        shape: Shape::Null,
    },
    Table {
        name: "truth",
        wanted: "true or false",
        shape: Shape::Truth,
    },
    Table {
        name: "mark",
        wanted: "true",
        shape: Shape::True,
    },
    Table {
        name: "number",
        wanted: "a whole number of 64 bits",
        shape: Shape::Number(0, u64::MAX),
    },
    Table {
        name: "number_32",
        wanted: "a whole number of 32 bits",
        shape: Shape::Number(0, 4294967295),
    },
    Table {
        name: "number_16",
        wanted: "a status, a whole number of 16 bits",
        shape: Shape::Number(0, 65535),
    },
    Table {
        name: "optional_number",
        wanted: "a whole number of 64 bits or null",
        shape: Shape::Choice(&[Form::Number, Form::Null]),
    },
    Table {
        name: "any_text",
        wanted: "a text",
        shape: Shape::Text(Texts::Any),
    },
    Table {
        name: "text",
        wanted: "a text",
        shape: Shape::Text(Texts::Any),
    },
    Table {
        name: "optional_text",
        wanted: "a text or null",
        shape: Shape::Choice(&[Form::ShortText, Form::Null]),
    },
    Table {
        name: "texts",
        wanted: "a list of texts",
        shape: Shape::List(Form::ShortText, 0),
    },
    Table {
        name: "optional_texts",
        wanted: "a list of texts or null",
        shape: Shape::Choice(&[Form::Texts, Form::Null]),
    },
    Table {
        name: "blob",
        wanted: "bytes, a text or {\"hex\":\"00ff\"} with pairs in lower case",
        shape: Shape::Blob(Bytes::Any),
    },
    Table {
        name: "body_blob",
        wanted: "bytes, a text or {\"hex\":\"00ff\"} with pairs in lower case",
        shape: Shape::Blob(Bytes::Any),
    },
    Table {
        name: "payload",
        wanted: "a payload, [kind, blob]",
        shape: Shape::Row(&[Form::Number32, Form::Blob]),
    },
    Table {
        name: "header_name",
        wanted: "the name of a header",
        shape: Shape::Text(Texts::HeaderName),
    },
    Table {
        name: "header_value",
        wanted: "the value of a header, a blob of visible characters, spaces and tabs",
        shape: Shape::Blob(Bytes::HeaderValue),
    },
    Table {
        name: "header",
        wanted: "a header, [name, blob]",
        shape: Shape::Row(&[Form::HeaderName, Form::HeaderValue]),
    },
    Table {
        name: "headers",
        wanted: "a list of headers, [[name, blob], ..]",
        shape: Shape::List(Form::Header, 0),
    },
    Table {
        name: "once",
        wanted: "[\"Once\", blob]",
        shape: Shape::Tagged("Once", &[Form::BodyBlob]),
    },
    Table {
        name: "body",
        wanted: "a body: a blob, [\"Once\", blob] or null",
        shape: Shape::Choice(&[Form::BodyBlob, Form::Once, Form::Null]),
    },
    Table {
        name: "request",
        wanted: "a request, [method, uri, headers, body]",
        shape: Shape::Row(&[Form::ShortText, Form::ShortText, Form::Headers, Form::Body]),
    },
    Table {
        name: "response",
        wanted: "a response, [status, headers, body]",
        shape: Shape::Row(&[Form::Number16, Form::Headers, Form::Body]),
    },
    Table {
        name: "identity",
        wanted: "an identity, [blob, expiration or null]",
        shape: Shape::Row(&[Form::Blob, Form::OptionalNumber]),
    },
    Table {
        name: "endpoint_header",
        wanted: "a header of an endpoint, [name, [values]]",
        shape: Shape::Row(&[Form::Text, Form::Texts]),
    },
    Table {
        name: "endpoint_headers",
        wanted: "a list of headers of an endpoint, [[name, [values]], ..]",
        shape: Shape::List(Form::EndpointHeader, 0),
    },
    Table {
        name: "endpoint",
        wanted: "an endpoint, [url, headers, schemes or null]",
        shape: Shape::Row(&[Form::ShortText, Form::EndpointHeaders, Form::OptionalTexts]),
    },
    Table {
        name: "optional_endpoint",
        wanted: "an endpoint, [url, headers, schemes or null], or null",
        shape: Shape::Choice(&[Form::Endpoint, Form::Null]),
    },
    Table {
        name: "error_kind",
        wanted: "an error kind",
        shape: Shape::Word(&[
            "TransientError",
            "ThrottlingError",
            "ServerError",
            "ClientError",
        ]),
    },
    Table {
        name: "optional_error_kind",
        wanted: "an error kind or null",
        shape: Shape::Choice(&[Form::ErrorKind, Form::Null]),
    },
    Table {
        name: "connector_word",
        wanted: "\"Timeout\", \"User\" or \"Io\"",
        shape: Shape::Word(&["Timeout", "User", "Io"]),
    },
    Table {
        name: "connector_other",
        wanted: "[\"Other\", error kind or null]",
        shape: Shape::Tagged("Other", &[Form::OptionalErrorKind]),
    },
    Table {
        name: "connector_kind",
        wanted: "a connector kind",
        shape: Shape::Choice(&[Form::ConnectorWord, Form::ConnectorOther]),
    },
    Table {
        name: "fault_operation",
        wanted: "[\"Operation\", payload, text]",
        shape: Shape::Tagged("Operation", &[Form::Payload, Form::ShortText]),
    },
    Table {
        name: "fault_connector",
        wanted: "[\"Connector\", kind, text]",
        shape: Shape::Tagged("Connector", &[Form::ConnectorKind, Form::ShortText]),
    },
    Table {
        name: "fault_timeout",
        wanted: "[\"Timeout\", text]",
        shape: Shape::Tagged("Timeout", &[Form::ShortText]),
    },
    Table {
        name: "fault_response",
        wanted: "[\"Response\", text]",
        shape: Shape::Tagged("Response", &[Form::ShortText]),
    },
    Table {
        name: "fault_other",
        wanted: "[\"Other\", text]",
        shape: Shape::Tagged("Other", &[Form::ShortText]),
    },
    Table {
        name: "fault",
        wanted: "a fault",
        shape: Shape::Choice(&[
            Form::FaultOperation,
            Form::FaultConnector,
            Form::FaultTimeout,
            Form::FaultResponse,
            Form::FaultOther,
        ]),
    },
    Table {
        name: "output",
        wanted: "[\"Output\", payload]",
        shape: Shape::Tagged("Output", &[Form::Payload]),
    },
    Table {
        name: "failed",
        wanted: "[\"Failed\", fault]",
        shape: Shape::Tagged("Failed", &[Form::Fault]),
    },
    Table {
        name: "outcome",
        wanted: "an outcome",
        shape: Shape::Choice(&[Form::TaggedOutput, Form::TaggedFault]),
    },
];
