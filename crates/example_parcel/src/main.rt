//! A client of a parcel service: a parcel is sent, which takes two attempts, and then a waiter asks
//! for it until it is delivered. The service stands in memory (`ANSWERS`).
#![tactic(auto)]

mod model;

use anyhow::Result;
use json_payloads::Json;
use model::{Parcel, ParcelError, ParcelFault, SendInput, SendOutput, TrackInput, TrackOutput};
use smithy_runtime::{
    AcceptorState, BearerAuthScheme, Classifier, ClientRateLimiter, ClientTypes, JsonBuilder,
    JsonDeserializer, JsonSerializer, ModeledAsRetryableClassifier, Operation, OperationBuilder,
    Quota, Registry, Row, RuntimeComponents, SleepingOutside, SleepingTypes, Text, TimeoutConfig,
    Watch, added, bearer_id, refusal_of, service, signing_by, steady_retry, taken_apart,
    without_facts,
};

/// The service's name, by which its retries share a bucket.
const SERVICE: &str = "Parcels";

/// Where the service is.
const URL: &str = "http://localhost:1234";

/// The token that requests are signed by.
const TOKEN: &str = "stamp";

/// The most questions of an invocation, and the most polls and asked sleeps of the waiter.
const FUEL: u64 = 200;

/// A second, in nanoseconds.
const SECOND: u64 = 1_000_000_000;

/// Too many parcels are sent, and then it is taken; at the second question it was delivered.
const ANSWERS: &[Row] = &[
    (429, r#"{"message":"a moment, please"}"#),
    (200, r#"{"number":"p-7","priceCents":495}"#),
    (200, r#"{"delivered":false}"#),
    (200, r#"{"delivered":true,"seen":"2026-12-01T05:30:00Z"}"#),
];

fn main(rt: HostRuntime) -> Result<()> {
    let outside = service(rt.alloc(), ANSWERS)?;
    let buckets: Registry<ClientRateLimiter> = Registry::new(rt.alloc())?;
    let (parcel, outside, buckets) = send_parcel(&rt, outside, buckets)?;
    track_parcel(&rt, parcel, outside, buckets)
}

// Builds `SendParcel` and sends a parcel. Outside and quota come back.
fn send_parcel<X: SleepingOutside + Drop, Q: Quota + Drop>(
    rt: &HostRuntime,
    outside: X,
    quota: Q,
) -> Result<(Text, X, Q)> {
    let alloc = rt.alloc();
    let builder: JsonBuilder<SendInput, SendOutput, ParcelFault> = without_facts(
        OperationBuilder::new(),
    );
    let signing = signing_by(alloc, TOKEN)?;
    let builder = builder
        .service_name(Text::from_static(SERVICE))
        .operation_name(Text::from_static("SendParcel"))
        .http_client()
        .sleep_impl()
        .time_source()
        .endpoint_url(Text::from_static(URL))
        .standard_retry(steady_retry())
        .timeout_config(TimeoutConfig::disabled())
        .own_serializer(JsonSerializer::Post { path: "/parcels" })
        .own_deserializer(JsonDeserializer::new(2))
        .auth_scheme_options(signing.options);
    let builder = added(builder.own_auth_scheme(alloc, BearerAuthScheme::new()))?;
    let builder = added(builder.identity_resolver(alloc, bearer_id(), signing.source))?;
    let modeled = Classifier::ModeledAsRetryable(ModeledAsRetryableClassifier::new());
    let builder = added(builder.retry_classifier(alloc, modeled))?;
    match builder.build(alloc, outside, quota) {
        Ok((operation, client)) => send(rt, operation, client),
        Err(back) => Err(refusal_of(back).into()),
    }
}

// Sends the parcel, and answers its number.
fn send<T: ClientTypes>(
    rt: &HostRuntime,
    operation: Operation<SendInput, SendOutput, ParcelError>,
    client: RuntimeComponents<T>,
) -> Result<(Text, T::Outside, T::Quota)> {
    let mut client = client;
    let parcel = Parcel {
        recipient: Text::from_static("Ada"),
        weight_grams: 500,
        note: None,
    };
    let sent = operation.invoke(rt.alloc(), &mut client, Json::new(parcel), FUEL);
    let (outside, quota) = taken_apart(client);
    let receipt = sent?.into_value();
    println!(rt;
        "Sent: {} for {} cents",
        receipt.number, receipt.price_cents
    )?;
    Ok((receipt.number, outside, quota))
}

// Builds `TrackParcel` over what the other operation left, and waits for the parcel.
fn track_parcel<X: SleepingOutside + Drop, Q: Quota + Drop>(
    rt: &HostRuntime,
    parcel: Text,
    outside: X,
    quota: Q,
) -> Result<()> {
    let alloc = rt.alloc();
    let builder: JsonBuilder<TrackInput, TrackOutput, ParcelFault> = without_facts(
        OperationBuilder::new(),
    );
    let signing = signing_by(alloc, TOKEN)?;
    let builder = builder
        .service_name(Text::from_static(SERVICE))
        .operation_name(Text::from_static("TrackParcel"))
        .http_client()
        .sleep_impl()
        .time_source()
        .endpoint_url(Text::from_static(URL))
        .standard_retry(steady_retry())
        .timeout_config(TimeoutConfig::disabled())
        .own_serializer(JsonSerializer::Get {
            path: "/parcels/",
            input: 3,
        })
        .own_deserializer(JsonDeserializer::new(4))
        .auth_scheme_options(signing.options);
    let builder = added(builder.own_auth_scheme(alloc, BearerAuthScheme::new()))?;
    let builder = added(builder.identity_resolver(alloc, bearer_id(), signing.source))?;
    match builder.build(alloc, outside, quota) {
        Ok((operation, client)) => track(rt, operation, client, parcel),
        Err(back) => Err(refusal_of(back).into()),
    }
}

// Waits until the parcel is delivered, and tells how that ended.
fn track<T: SleepingTypes>(
    rt: &HostRuntime,
    operation: Operation<TrackInput, TrackOutput, ParcelError>,
    client: RuntimeComponents<T>,
    parcel: Text,
) -> Result<()> {
    let mut watch = Watch::new(rt.alloc(), operation, client, Json::new(parcel), FUEL);
    match watch.wait(delivered, 2 * SECOND, 120 * SECOND, 300 * SECOND, FUEL) {
        Ok(_) => println!(rt; "Delivered after {} polls.", watch.polls)?,
        Err(error) => println!(rt; "Not delivered after {} polls: {error}", watch.polls)?,
    }
    Ok(())
}

// Whether the parcel was delivered. An error of the model ends the wait.
fn delivered(seen: Result<&TrackOutput, &ParcelError>) -> AcceptorState {
    match seen {
        Ok(output) if output.get().delivered => AcceptorState::Success,
        Ok(_) => AcceptorState::Retry,
        Err(_) => AcceptorState::Failure,
    }
}
