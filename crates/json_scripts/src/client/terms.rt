//! What a script says of buckets, clients and invocations. Times are in nanoseconds.
ghost use Rattle.std.specs.Prelude.{◌≡◌};
ghost use Rattle.json_scripts.specs.Client.Schemes.{id_of};

use http_schemes::{ApiKeyLocation, HTTP_API_KEY_AUTH_SCHEME_ID, HTTP_BEARER_AUTH_SCHEME_ID};
use identity_cell::SharedIdentityCache;
use outside_scripted::{IdentityRecord, ResponseRecord};
use smithy_types::{
    List, Payload, RetryConfig, StalledStreamProtectionConfig, StopPoint, Text, TimeoutConfig,
};

/// How a client retries.
#[derive(Clone, Copy, Debug)]
pub enum RetryChoice {
    /// It never does.
    Never,
    /// By the standard strategy, with this setting.
    Standard(RetryConfig),
}

/// A retry classifier of a client.
#[derive(Debug, Drop)]
pub enum ClassifierChoice {
    /// By the kind that the service's own error says.
    Modeled,
    /// By timeouts and failed connections.
    Transient,
    /// By these statuses of responses.
    Status(List<u16>),
}

/// An API key of requests (Smithy's trait `httpApiKeyAuth`).
#[derive(Debug, Drop)]
pub struct ApiKeyChoice {
    /// Where requests have it.
    pub location: ApiKeyLocation,
    /// The name that it has there.
    pub name: Text,
    /// What stands before it in a header, where something does. In a query nothing does.
    pub prefix: Option<Text>,
}

/// What is said of a scheme of HTTP, whose id is fixed.
#[derive(Debug, Drop)]
pub enum HttpSchemeChoice {
    /// `http-bearer-auth` signs by a bearer token.
    Bearer,
    /// `http-api-key-auth` signs by this API key.
    ApiKey(ApiKeyChoice),
}

impl HttpSchemeChoice {
    /// The id of the scheme.
    pub fn id(&self) -> &str
        ensures { result.now ≡ id_of self.now }
    {
        match self {
            HttpSchemeChoice::Bearer => HTTP_BEARER_AUTH_SCHEME_ID,
            HttpSchemeChoice::ApiKey(_) => HTTP_API_KEY_AUTH_SCHEME_ID,
        }
    }
}

/// The auth schemes of a client and what they sign with.
#[derive(Debug, Drop)]
pub struct AuthSchemes {
    /// The ids that an operation may use, in order.
    pub options: List<Text>,
    /// The ids of the schemes that there are.
    pub schemes: List<Text>,
    /// What is said of those schemes that are HTTP's: no id is among them twice. A scheme of which
    /// nothing is said here is the service's own, whatever its id is.
    pub http_schemes: List<HttpSchemeChoice>,
    /// Where identities come from. Of two with one id the first counts.
    pub identities: List<IdentityRecord>,
    /// The ids in the order in which they are preferred, where an order is given.
    pub preference: Option<List<Text>>,
    /// How identities are kept.
    pub cache: SharedIdentityCache,
}

/// How a client signs.
#[derive(Debug, Drop)]
pub enum AuthChoice {
    /// It doesn't.
    NoAuth,
    /// By one of these schemes.
    Schemes(AuthSchemes),
}

/// What a client has and does, each a yes or no.
#[derive(Clone, Copy, Debug)]
pub struct ClientFlags {
    /// Whether it uses the outside's sleeps.
    pub sleep: bool,
    /// Whether it uses the outside's clock.
    pub time: bool,
    /// Whether connections that failed are given up.
    pub poisoning: bool,
    /// Whether a response's length is held to its header.
    pub enforce: bool,
    /// Whether the endpoint is resolved after the auth scheme was chosen.
    pub v2: bool,
}

/// What a client goes by.
#[derive(Clone, Copy, Debug)]
pub struct ClientRules {
    /// The bucket of a custom partition, by its place in the script. Without it the partition is a
    /// default one.
    pub bucket: Option<usize>,
    /// How it retries.
    pub retry: RetryChoice,
    /// Its deadlines.
    pub timeouts: TimeoutConfig,
    /// Whether streams that stall are given up, where that is set.
    pub stall: Option<StalledStreamProtectionConfig>,
    /// What it has and does.
    pub flags: ClientFlags,
}

/// What a client calls.
#[derive(Debug, Drop)]
pub struct ClientTarget {
    /// The service's name, which names the client's retry partition too.
    pub service: Text,
    /// The operation's name.
    pub operation: Text,
    /// Where requests go.
    pub url: Text,
    /// What stands before the endpoint's host.
    pub prefix: Option<Text>,
}

/// A client.
#[derive(Debug, Drop)]
pub struct ClientObject {
    /// What it calls.
    pub target: ClientTarget,
    /// What it goes by.
    pub rules: ClientRules,
    /// Its retry classifiers.
    pub classifiers: List<ClassifierChoice>,
    /// How it signs.
    pub auth: AuthChoice,
}

/// An invocation of a client's operation.
#[derive(Debug, Drop)]
pub struct InvocationRecord {
    /// The client, by its place in the script.
    pub client: usize,
    /// What is sent.
    pub input: Payload,
    /// The most calls.
    pub fuel: u64,
    /// Where it stops.
    pub stop: StopPoint,
    /// What comes of its requests, in order.
    pub responses: List<ResponseRecord>,
}
