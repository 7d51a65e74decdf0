//! Scripts of clients and callers.

use crate::form::Form;
use crate::shape::{Member, Shape, Table};

/// The tables of clients and of callers, from that of `Capacity` on in the order of the forms.
pub const TABLES: &[Table] = &[
    Table {
        name: "capacity",
        wanted: "a capacity, a whole number of 64 bits",
        shape: Shape::Number(0, u64::MAX),
    },
    Table {
        name: "bucket",
        wanted: "a bucket, [capacity, retry_cost, throttling_cost, transient_cost, reward, rate]",
        shape: Shape::Row(&[
            Form::Capacity,
            Form::Number32,
            Form::Number32,
            Form::Number32,
            Form::Number,
            Form::Number,
        ]),
    },
    Table {
        name: "buckets",
        wanted: "a list of buckets",
        shape: Shape::List(Form::Bucket, 0),
    },
    Table {
        name: "random_numbers",
        wanted: "a list of random numbers",
        shape: Shape::List(Form::Number, 0),
    },
    Table {
        name: "stop_point",
        wanted: "a stop point",
        shape: Shape::Word(&["None", "BeforeTransmit"]),
    },
    Table {
        name: "fuel",
        wanted: "fuel, a whole number of 64 bits",
        shape: Shape::Number(0, u64::MAX),
    },
    Table {
        name: "bucket_place",
        wanted: "the place of a bucket",
        shape: Shape::BucketPlace,
    },
    Table {
        name: "optional_bucket_place",
        wanted: "the place of a bucket or null",
        shape: Shape::Choice(&[Form::BucketPlace, Form::Null]),
    },
    Table {
        name: "client_place",
        wanted: "the place of a client",
        shape: Shape::ClientPlace,
    },
    Table {
        name: "never",
        wanted: "\"never\"",
        shape: Shape::Word(&["never"]),
    },
    Table {
        name: "retry_choice",
        wanted: "\"never\" or [mode, max_attempts, initial, max_backoff, reconnect, static_base, spec]",
        shape: Shape::Choice(&[Form::NeverWord, Form::Retry]),
    },
    Table {
        name: "classifier_word",
        wanted: "\"modeled\" or \"transient\"",
        shape: Shape::Word(&["modeled", "transient"]),
    },
    Table {
        name: "statuses",
        wanted: "a list of statuses",
        shape: Shape::List(Form::Number16, 0),
    },
    Table {
        name: "tagged_status",
        wanted: "[\"status\", [codes]]",
        shape: Shape::Tagged("status", &[Form::Statuses]),
    },
    Table {
        name: "classifier",
        wanted: "a classifier: \"modeled\", \"transient\" or [\"status\", [codes]]",
        shape: Shape::Choice(&[Form::ClassifierWord, Form::TaggedStatus]),
    },
    Table {
        name: "classifiers",
        wanted: "a list of classifiers",
        shape: Shape::List(Form::Classifier, 0),
    },
    Table {
        name: "none",
        wanted: "\"none\"",
        shape: Shape::Word(&["none"]),
    },
    Table {
        name: "source",
        wanted: "an identity source, [id, delay, identity or [\"Failed\", text]]",
        shape: Shape::Row(&[Form::ShortText, Form::Number, Form::IdentityAnswer]),
    },
    Table {
        name: "sources",
        wanted: "a list of identity sources",
        shape: Shape::List(Form::Source, 0),
    },
    Table {
        name: "failed_load",
        wanted: "[\"Failed\", text]",
        shape: Shape::Tagged("Failed", &[Form::ShortText]),
    },
    Table {
        name: "identity_answer",
        wanted: "an identity, [blob, expiration or null], or [\"Failed\", text]",
        shape: Shape::Choice(&[Form::FailedLoad, Form::Identity]),
    },
    Table {
        name: "expiration",
        wanted: "an expiration, a whole number of at least 900000000000",
        shape: Shape::Number(900_000_000_000, u64::MAX),
    },
    Table {
        name: "partitions",
        wanted: "a number of partitions, at least 1",
        shape: Shape::Number(1, u64::MAX),
    },
    Table {
        name: "lazy_terms",
        wanted: "[buffer, expiration, partitions, load_timeout or null]",
        shape: Shape::Row(&[
            Form::Number,
            Form::Expiration,
            Form::Partitions,
            Form::OptionalNumber,
        ]),
    },
    Table {
        name: "tagged_lazy",
        wanted: "[\"lazy\", [buffer, expiration, partitions, load_timeout or null]]",
        shape: Shape::Tagged("lazy", &[Form::LazyTerms]),
    },
    Table {
        name: "cache",
        wanted: "a cache, \"none\" or [\"lazy\", [buffer, expiration, partitions, load_timeout or null]]",
        shape: Shape::Choice(&[Form::NoneWord, Form::TaggedLazy]),
    },
    Table {
        name: "schemes",
        wanted: "[options, schemes, identities, preference or null, cache]",
        shape: Shape::Row(&[
            Form::Texts,
            Form::Texts,
            Form::Sources,
            Form::OptionalTexts,
            Form::Cache,
        ]),
    },
    Table {
        name: "auth",
        wanted: "\"none\" or [options, schemes, identities, preference or null, cache]",
        shape: Shape::Choice(&[Form::NoneWord, Form::Schemes]),
    },
    Table {
        name: "bearer",
        wanted: "[\"bearer\"]",
        shape: Shape::Tagged("bearer", &[]),
    },
    Table {
        name: "key_location",
        wanted: "\"Header\" or \"Query\"",
        shape: Shape::Word(&["Header", "Query"]),
    },
    Table {
        name: "api_key",
        wanted: "[\"api_key\", \"Header\", name, prefix or null] or [\"api_key\", \"Query\", name, null]",
        shape: Shape::Tagged(
            "api_key",
            &[Form::KeyLocation, Form::ShortText, Form::OptionalText],
        ),
    },
    Table {
        name: "http_scheme",
        wanted: "[\"bearer\"] or [\"api_key\", \"Header\" or \"Query\", name, prefix or null]",
        shape: Shape::Choice(&[Form::Bearer, Form::ApiKey]),
    },
    Table {
        name: "http_schemes",
        wanted: "a list of schemes of HTTP",
        shape: Shape::List(Form::HttpScheme, 0),
    },
    Table {
        name: "client",
        wanted: "a client object",
        shape: Shape::Object(CLIENT),
    },
    Table {
        name: "clients",
        wanted: "a list of client objects",
        shape: Shape::List(Form::Client, 0),
    },
    Table {
        name: "failed_record",
        wanted: "[delay, [\"Failed\", connector kind, text]]",
        shape: Shape::Row(&[Form::Number, Form::TaggedConnectorFailed]),
    },
    Table {
        name: "frame",
        wanted: "a frame, [delay, blob]",
        shape: Shape::Row(&[Form::Number, Form::Blob]),
    },
    Table {
        name: "frames",
        wanted: "a list of frames, [[delay, blob], ..]",
        shape: Shape::List(Form::Frame, 0),
    },
    Table {
        name: "response_record",
        wanted: "[delay, status, headers, frames, repeat, clock]",
        shape: Shape::Row(&[
            Form::Number,
            Form::Number16,
            Form::Headers,
            Form::Frames,
            Form::Truth,
            Form::OptionalNumber,
        ]),
    },
    Table {
        name: "record",
        wanted: "[delay, [\"Failed\", connector kind, text]] or [delay, status, headers, frames, repeat, clock]",
        shape: Shape::ByLength(Form::FailedRecord, Form::ResponseRecord),
    },
    Table {
        name: "records",
        wanted: "a list of records",
        shape: Shape::List(Form::Record, 0),
    },
    Table {
        name: "invocation",
        wanted: "an invocation, an object",
        shape: Shape::Object(INVOCATION),
    },
    Table {
        name: "invocations",
        wanted: "a list of invocations",
        shape: Shape::List(Form::Invocation, 0),
    },
    Table {
        name: "caller_invocation",
        wanted: "an invocation of a caller, an object",
        shape: Shape::Object(CALLER_INVOCATION),
    },
    Table {
        name: "caller_invocations",
        wanted: "a list of invocations",
        shape: Shape::List(Form::CallerInvocation, 0),
    },
    Table {
        name: "caller",
        wanted: "a caller, an object with client and invocations",
        shape: Shape::Object(CALLER),
    },
    Table {
        name: "callers",
        wanted: "a list of callers, at least one",
        shape: Shape::List(Form::Caller, 1),
    },
];

const CLIENT: &[Member] = &[
    Member {
        name: "service",
        form: Form::ShortText,
        is_needed: true,
    },
    Member {
        name: "operation",
        form: Form::ShortText,
        is_needed: true,
    },
    Member {
        name: "bucket",
        form: Form::OptionalBucketPlace,
        is_needed: true,
    },
    Member {
        name: "retry",
        form: Form::RetryChoice,
        is_needed: true,
    },
    Member {
        name: "timeouts",
        form: Form::Timeouts,
        is_needed: true,
    },
    Member {
        name: "url",
        form: Form::ShortText,
        is_needed: true,
    },
    Member {
        name: "prefix",
        form: Form::OptionalText,
        is_needed: true,
    },
    Member {
        name: "sleep",
        form: Form::Truth,
        is_needed: true,
    },
    Member {
        name: "time",
        form: Form::Truth,
        is_needed: true,
    },
    Member {
        name: "poisoning",
        form: Form::Truth,
        is_needed: true,
    },
    Member {
        name: "enforce",
        form: Form::Truth,
        is_needed: true,
    },
    Member {
        name: "v2",
        form: Form::Truth,
        is_needed: true,
    },
    Member {
        name: "stall",
        form: Form::OptionalStall,
        is_needed: true,
    },
    Member {
        name: "classifiers",
        form: Form::Classifiers,
        is_needed: true,
    },
    Member {
        name: "auth",
        form: Form::Auth,
        is_needed: true,
    },
    Member {
        name: "http_schemes",
        form: Form::HttpSchemes,
        is_needed: false,
    },
];

const INVOCATION: &[Member] = &[
    Member {
        name: "client",
        form: Form::ClientPlace,
        is_needed: true,
    },
    Member {
        name: "input",
        form: Form::Payload,
        is_needed: true,
    },
    Member {
        name: "fuel",
        form: Form::Fuel,
        is_needed: true,
    },
    Member {
        name: "stop",
        form: Form::StopPoint,
        is_needed: true,
    },
    Member {
        name: "responses",
        form: Form::Records,
        is_needed: true,
    },
];

const CALLER_INVOCATION: &[Member] = &[
    Member {
        name: "input",
        form: Form::Payload,
        is_needed: true,
    },
    Member {
        name: "fuel",
        form: Form::Fuel,
        is_needed: true,
    },
    Member {
        name: "stop",
        form: Form::StopPoint,
        is_needed: true,
    },
    Member {
        name: "responses",
        form: Form::Records,
        is_needed: true,
    },
];

const CALLER: &[Member] = &[
    Member {
        name: "client",
        form: Form::Client,
        is_needed: true,
    },
    Member {
        name: "invocations",
        form: Form::CallerInvocations,
        is_needed: true,
    },
];
