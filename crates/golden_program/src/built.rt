//! Builds an operation by setters that no script of a client comes to, and prints what its client
//! asks and answers.

use anyhow::Result;
use client_auth::{DeserializeResponse, IdentitySource};
use client_builder::{OperationBuilder, Plugin, added, refusal_of};
use client_components::{ClientTypes, RuntimeComponents};
use client_scripted::service::{ServiceDeserializer, ServiceError, ServiceSerializer};
use http_schemes::bearer::HTTP_BEARER_AUTH_SCHEME_ID;
use http_schemes::{BearerAuthScheme, HttpIdentityResolver};
use identity_cell::IdentityCache;
use json_print::print::print_entries;
use orchestrate::Operation;
use outside::Outside;
use outside_scripted::{Row, service};
use rate_limit::ClientRateLimiter;
use retry_policy::{Classifier, ModeledAsRetryableClassifier};
use retry_quota::{Quota, Registry};
use run_grammar::Entry;
use smithy_base::ComponentsDraft;
use smithy_context::{Layer, Setting, Settings};
use smithy_types::{
    Blob, HttpResponse, Identity, List, OutOfMemory, Outcome, Payload, RetryConfig, Text,
    TimeoutConfig,
};
use std::alloc::Global;
use std::fmt::Display;

/// The service's name.
const SERVICE: &str = "Teapots";

/// The operation's name.
const OPERATION: &str = "Brew";

/// Where the service is.
const URL: &str = "http://localhost:1234";

/// The most questions that an invocation asks.
const FUEL: u64 = 200;

/// The service fails for a while, and then it accepts the order.
const ACCEPTED_LATER: &[Row] = &[(503, "transient"), (202, "unread")];

/// The operation `Brew`, over payloads.
type Brew = Operation<Payload, Payload, ServiceError>;

/// Its builder.
type SignedBuilder = OperationBuilder<
    Payload,
    Payload,
    ServiceError,
    BearerAuthScheme,
    HttpIdentityResolver,
    ServiceSerializer,
    HeadDeserializer,
>;

/// Reads a response of 202, Accepted, by its head alone, and any other as the service's
/// deserializer does.
#[derive(Drop)]
struct HeadDeserializer;

impl DeserializeResponse for HeadDeserializer {
    ghost use Rattle.std.specs.Prelude.{◌≡◌, ◌==◌, if◌then◌else◌, codes, None, Some};
    ghost use Rattle.smithy_types.specs.declared.fault.Outcome.TheVariants.{Output};
    ghost use Rattle.client_scripted.specs.Service.Service.{read_outcome};

    ghost streams = { λ _ response _ outcome. outcome ≡ (if response.status == 202
        then Some (Output (record { kind = 1; bytes = codes "accepted" })) else None) };

    ghost deserializes = { λ _ response _ outcome. outcome ≡ read_outcome response };

    fn deserialize_streaming(
        &self,
        alloc: Global,
        response: &HttpResponse,
        _settings: &Settings,
    ) -> Result<Option<Outcome>, OutOfMemory> {
        if response.status != 202 {
            return Ok(None);
        }
        let bytes = Blob::from_slice(alloc, b"accepted")?;
        Ok(Some(Outcome::Output(Payload { kind: 1, bytes })))
    }

    fn deserialize_nonstreaming(
        &self,
        alloc: Global,
        response: &HttpResponse,
        settings: &Settings,
    ) -> Result<Outcome, OutOfMemory> {
        ServiceDeserializer.deserialize_nonstreaming(alloc, response, settings)
    }
}

/// Prints what comes of a client that signs, whose parts of the outside come by a plugin, and which
/// gives a connection up on which a transient failure came.
pub fn print(rt: HostRuntime) -> Result<()> {
    println!(rt;
        "a token, a plugin, and two attempts, the first of which gives its connection up"
    )?;
    let outside = without_facts(service(rt.alloc(), ACCEPTED_LATER))?;
    let buckets: Registry<ClientRateLimiter> = Registry::new(rt.alloc())?;
    brew_signed(&rt, outside, buckets)
}

// The same value, without the facts that are known of it: no goal behind the setters of a builder
// computes on the parts of the empty one then, and none behind a service on its rows.
fn without_facts<T>(value: T) -> T {
    value
}

// A plugin that gives a prefix of the host, and says that all parts of the outside are used.
fn prefixing(alloc: Global) -> Result<Plugin, OutOfMemory> {
    let mut layer = Layer::new();
    layer.put(alloc, Setting::Prefix(Text::from_static("tea.")))?;
    let draft = ComponentsDraft {
        sleep: true,
        time: true,
        client: true,
    };
    Ok(Plugin::Static(layer, draft))
}

// Brews with a bearer token, and with retries. The outside's parts and a prefix come by a plugin.
fn brew_signed<X: Outside + Drop, Q: Quota + Drop>(
    rt: &HostRuntime,
    outside: X,
    quota: Q,
) -> Result<()> {
    let alloc = rt.alloc();
    let plugin = prefixing(alloc)?;
    let options = bearer_options(alloc)?;
    let source = token_source(alloc)?;
    let builder: SignedBuilder = without_facts(OperationBuilder::new());
    let builder = builder
        .service_name(Text::from_static(SERVICE))
        .operation_name(Text::from_static(OPERATION))
        .behavior_version(1)
        .endpoint_url(Text::from_static(URL))
        .standard_retry(retry())
        .timeout_config(TimeoutConfig::disabled())
        .with_connection_poisoning()
        .own_serializer(ServiceSerializer)
        .own_deserializer_impl(HeadDeserializer)
        .auth_scheme_options(options)
        .identity_cache(IdentityCache::no_cache());
    let builder = added(builder.own_auth_scheme(alloc, BearerAuthScheme::new()))?;
    let builder = added(builder.identity_resolver(alloc, bearer_id(), source))?;
    let builder = added(builder.runtime_plugin(alloc, plugin))?;
    let modelled = Classifier::ModeledAsRetryable(ModeledAsRetryableClassifier::new());
    let builder = added(builder.retry_classifier(alloc, modelled))?;
    match builder.build(alloc, outside, quota) {
        Ok((operation, client)) => brew(rt, operation, client),
        Err(back) => Err(refusal_of(back).into()),
    }
}

fn bearer_id() -> Text {
    Text::from_static(HTTP_BEARER_AUTH_SCHEME_ID)
}

// The one option: a bearer token.
fn bearer_options(alloc: Global) -> Result<List<Text>, OutOfMemory> {
    let mut options = List::new();
    options.push(alloc, bearer_id())?;
    Ok(options)
}

// Where the token comes from.
fn token_source(alloc: Global) -> Result<IdentitySource<HttpIdentityResolver>, OutOfMemory> {
    let identity = Identity {
        content: Blob::from_slice(alloc, b"leaf")?,
        expiration: None,
    };
    Ok(IdentitySource::Resolver(HttpIdentityResolver::new(identity)))
}

// At most three attempts, a second and two seconds apart, without a random part.
fn retry() -> RetryConfig {
    let mut retry = RetryConfig::standard();
    retry.static_base = true;
    retry
}

// Brews with this client.
fn brew<T: ClientTypes>(
    rt: &HostRuntime,
    operation: Brew,
    client: RuntimeComponents<T>,
) -> Result<()> {
    let mut client = client;
    print_brewed(rt, &operation, &mut client)
}

// Invokes the operation, and prints the log, the answer, and how many questions were asked.
fn print_brewed<T: ClientTypes>(
    rt: &HostRuntime,
    operation: &Brew,
    client: &mut RuntimeComponents<T>,
) -> Result<()> {
    let answer = brewed(rt.alloc(), operation, client)?;
    print_log(rt, client.entries().as_slice())?;
    let questions = client.entries().len();
    println!(rt; "{answer}, after {questions} questions")?;
    Ok(())
}

// What the invocation answers, in words.
fn brewed<T: ClientTypes>(
    alloc: Global,
    operation: &Brew,
    client: &mut RuntimeComponents<T>,
) -> Result<String> {
    let input = input(alloc)?;
    said(alloc, operation.invoke(alloc, client, input, FUEL))
}

// The output's text, or the error in words.
fn said<E: Display + Drop>(alloc: Global, answer: Result<Payload, E>) -> Result<String> {
    match answer {
        Ok(output) => text_of(alloc, output.bytes.as_slice()),
        Err(error) => Ok(format!(in alloc; "{error}")?),
    }
}

// What is to be brewed.
fn input(alloc: Global) -> Result<Payload, OutOfMemory> {
    Ok(Payload {
        kind: 1,
        bytes: Blob::from_slice(alloc, b"hi")?,
    })
}

// The text of these bytes.
fn text_of(alloc: Global, bytes: &[u8]) -> Result<String> {
    let mut text = Vec::new(alloc);
    text.extend_from_slice(bytes)?;
    Ok(String::from_utf8(text)?)
}

// Prints the log as the command `replay` does.
fn print_log(rt: &HostRuntime, entries: &[Entry]) -> Result<()> {
    let mut lines = Vec::new(rt.alloc());
    print_entries(rt.alloc(), entries, &mut lines)?;
    let text = String::from_utf8(lines)?;
    print!(rt; "{text}")?;
    Ok(())
}
