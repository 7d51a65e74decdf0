//! A client of a bakery, as its user writes it: an order is placed, which takes three attempts, and
//! then a waiter asks for it until it is ready. The service stands in memory (`ANSWERS`).
#![tactic(auto)]

use anyhow::Result;
use client_builder::{OperationBuilder, added, refusal_of};
use client_components::{ClientTypes, RuntimeComponents};
use client_operations::{
    SleepingOutside, SleepingTypes, Watch, bearer_id, signing_by, steady_retry, taken_apart,
    without_facts,
};
use example_bakery_client::{BakeryBuilder, BakeryOperation, Ending, invoke, wait};
use example_bakery_service::{
    BakeryDeserializer, BakerySerializer, ClientNameInterceptor, ERROR, GET_ORDER_OUTPUT,
    GetOrderInput, GetOrderOutput, PLACE_ORDER_OUTPUT, PlaceOrderInput, PlaceOrderOutput,
    TooEarlyClassifier,
};
use http_schemes::BearerAuthScheme;
use json_print::print::print_run;
use json_print::{Ending as RunEnding, RunHead};
use outside::Outside;
use outside_scripted::{Row, service};
use rate_limit::ClientRateLimiter;
use retry_policy::{Classifier, ModeledAsRetryableClassifier};
use retry_quota::{Quota, Registry};
use run_grammar::Entry;
use smithy_types::{Fault, OutOfMemory, SdkError, StopPoint, Text, TimeoutConfig, Timers, Wire};
use std::alloc::Global;
use std::fmt::Display;
use waiters::WaiterError;
use waiters::backoff::SECOND;

/// The service's name, by which its retries share a bucket.
const SERVICE: &str = "Bakery";

/// Where the service is.
const URL: &str = "http://localhost:1234";

/// The token that requests are signed by.
const TOKEN: &str = "flour";

/// The most questions that an invocation asks.
const FUEL: u64 = 200;

/// The most polls and asked sleeps of the waiter.
const WAIT_FUEL: u64 = 100;

/// The operation `PlaceOrder`.
type PlaceOrder = BakeryOperation<PlaceOrderInput, PlaceOrderOutput>;

/// The operation `GetOrder`.
type GetOrder = BakeryOperation<GetOrderInput, GetOrderOutput>;

/// It is too early, the oven is busy, and then the order is taken; at the third question it is
/// baked.
const ANSWERS: &[Row] = &[
    (425, ""),
    (429, "OvenBusy"),
    (200, "order-7"),
    (200, "baking"),
    (200, "baking"),
    (200, "ready"),
];

fn main(rt: HostRuntime) -> Result<()> {
    let outside = service(rt.alloc(), ANSWERS)?;
    let buckets: Registry<ClientRateLimiter> = Registry::new(rt.alloc())?;
    let (order, outside, buckets) = place_order(&rt, outside, buckets)?;
    get_order(&rt, order, outside, buckets)
}

// Builds `PlaceOrder` with a header and two classifiers, and places an order. Outside and quota
// come back as the invocation left them.
fn place_order<X: Outside + Drop, Q: Quota + Drop>(
    rt: &HostRuntime,
    outside: X,
    quota: Q,
) -> Result<(Text, X, Q)> {
    let alloc = rt.alloc();
    let signing = signing_by(alloc, TOKEN)?;
    let early = Box::new(alloc, TooEarlyClassifier)?;
    let name = Box::new(alloc, ClientNameInterceptor)?;
    let builder: BakeryBuilder<PlaceOrderInput, PlaceOrderOutput> = without_facts(
        OperationBuilder::new(),
    );
    let builder = builder
        .service_name(Text::from_static(SERVICE))
        .operation_name(Text::from_static("PlaceOrder"))
        .http_client()
        .sleep_impl()
        .time_source()
        .endpoint_url(Text::from_static(URL))
        .standard_retry(steady_retry())
        .timeout_config(TimeoutConfig::disabled())
        .own_serializer(posting_to("/place-order"))
        .own_deserializer(reading(PLACE_ORDER_OUTPUT))
        .auth_scheme_options(signing.options);
    let builder = added(builder.own_auth_scheme(alloc, BearerAuthScheme::new()))?;
    let builder = added(builder.identity_resolver(alloc, bearer_id(), signing.source))?;
    let builder = added(builder.retry_classifier(alloc, Classifier::Boxed(early)))?;
    let modelled = Classifier::ModeledAsRetryable(ModeledAsRetryableClassifier::new());
    let builder = added(builder.retry_classifier(alloc, modelled))?;
    let builder = added(builder.interceptor(alloc, name))?;
    match builder.build(alloc, outside, quota) {
        Ok((operation, client)) => place(rt, operation, client),
        Err(back) => Err(refusal_of(back).into()),
    }
}

// Posts inputs to this path.
fn posting_to(path: &'static str) -> BakerySerializer {
    BakerySerializer {
        path: Text::from_static(path),
    }
}

// Reads outputs of this kind.
fn reading(output_kind: u32) -> BakeryDeserializer {
    BakeryDeserializer { output_kind }
}

// Places the order.
fn place<T: ClientTypes>(
    rt: &HostRuntime,
    operation: PlaceOrder,
    client: RuntimeComponents<T>,
) -> Result<(Text, T::Outside, T::Quota)> {
    let mut client = client;
    let placed = order(rt, &operation, &mut client);
    let (outside, quota) = taken_apart(client);
    Ok((placed?, outside, quota))
}

// Builds `GetOrder` over what another operation left, and waits for an order.
fn get_order<X: SleepingOutside + Drop, Q: Quota + Drop>(
    rt: &HostRuntime,
    order: Text,
    outside: X,
    quota: Q,
) -> Result<()> {
    let alloc = rt.alloc();
    let signing = signing_by(alloc, TOKEN)?;
    let builder: BakeryBuilder<GetOrderInput, GetOrderOutput> = without_facts(
        OperationBuilder::new(),
    );
    let builder = builder
        .service_name(Text::from_static(SERVICE))
        .operation_name(Text::from_static("GetOrder"))
        .http_client()
        .sleep_impl()
        .time_source()
        .endpoint_url(Text::from_static(URL))
        .standard_retry(steady_retry())
        .timeout_config(TimeoutConfig::disabled())
        .own_serializer(posting_to("/get-order"))
        .own_deserializer(reading(GET_ORDER_OUTPUT))
        .auth_scheme_options(signing.options);
    let builder = added(builder.own_auth_scheme(alloc, BearerAuthScheme::new()))?;
    let builder = added(builder.identity_resolver(alloc, bearer_id(), signing.source))?;
    match builder.build(alloc, outside, quota) {
        Ok((operation, client)) => fetch(rt, operation, client, order),
        Err(back) => Err(refusal_of(back).into()),
    }
}

// Orders a loaf, prints the invocation's log and what the bucket holds, and answers the order's
// id.
fn order<T: ClientTypes>(
    rt: &HostRuntime,
    operation: &PlaceOrder,
    client: &mut RuntimeComponents<T>,
) -> Result<Text> {
    let output = invoke(rt.alloc(), operation, client, input(), FUEL)?;
    print_log(rt, client.entries().as_slice(), &output)?;
    println!(rt; "Ordered: {}", output.order)?;
    print_bucket(rt, &client.parts.quota)?;
    Ok(output.order)
}

// What is ordered.
fn input() -> PlaceOrderInput {
    PlaceOrderInput {
        loaf: Text::from_static("rye"),
    }
}

// What the bucket of the service's partition holds.
fn print_bucket<Q: Quota>(rt: &HostRuntime, quota: &Q) -> Result<()> {
    if !quota.has(0) {
        return Ok(());
    }
    if let Some(sums) = quota.sums(0) {
        let capacity = sums.capacity;
        println!(rt; "The bucket has {} of {capacity} tokens.", sums.available)?;
    }
    Ok(())
}

// Prints the log as the command `replay` does.
fn print_log(rt: &HostRuntime, entries: &[Entry], output: &PlaceOrderOutput) -> Result<()> {
    let text = String::from_utf8(log_bytes(rt.alloc(), entries, output)?)?;
    print!(rt; "{text}")?;
    Ok(())
}

// The bytes of that print.
fn log_bytes(
    alloc: Global,
    entries: &[Entry],
    output: &PlaceOrderOutput,
) -> Result<Vec<u8>, OutOfMemory> {
    let head = head(alloc)?;
    let ending = RunEnding::Output(output.to_payload(alloc)?);
    print_run(alloc, &head, entries, &ending)
}

// What the invocation is begun with, as its print tells it.
fn head(alloc: Global) -> Result<RunHead, OutOfMemory> {
    Ok(RunHead {
        input: input().to_payload(alloc)?,
        fuel: FUEL,
        stop: StopPoint::None,
        output_kind: PLACE_ORDER_OUTPUT as u64,
        error_kind: ERROR as u64,
    })
}

// Waits for the order, and tells how that ended.
fn fetch<T: SleepingTypes>(
    rt: &HostRuntime,
    operation: GetOrder,
    client: RuntimeComponents<T>,
    order: Text,
) -> Result<()> {
    let mut watch = Watch::new(rt.alloc(), operation, client, GetOrderInput { order }, FUEL);
    let ending = wait(&mut watch, WAIT_FUEL);
    let seconds = watch.now() / SECOND;
    let order = watch.input.order.as_str();
    tell(rt, order, watch.polls, seconds, &ending)
}

// Tells how the wait ended. A poll that failed says why in its fault, where it has one.
fn tell(rt: &HostRuntime, order: &str, polls: u32, seconds: u64, ending: &Ending) -> Result<()> {
    match ending {
        Ok(_) => tell_ready(rt, order, polls, seconds),
        Err(error) => match fault_of_poll(error) {
            Some(fault) => tell_refused(rt, order, polls, &fault.text),
            None => tell_refused(rt, order, polls, error),
        },
    }
}

// The fault of the poll that ended the wait, where it failed with one.
fn fault_of_poll<O, E>(error: &WaiterError<O, E>) -> Option<&Fault> {
    match error {
        WaiterError::OperationFailed(error) => fault_of(error),
        _ => None,
    }
}

// The fault of an operation's error. An error of the model has none.
fn fault_of<E>(error: &SdkError<E>) -> Option<&Fault> {
    match error {
        SdkError::ConstructionFailure(fault)
        | SdkError::TimeoutError(fault)
        | SdkError::DispatchFailure(fault)
        | SdkError::ResponseError(fault, _) => Some(fault),
        SdkError::ServiceError(_, _) => None,
    }
}

// Tells of an order that is ready.
fn tell_ready(rt: &HostRuntime, order: &str, polls: u32, seconds: u64) -> Result<()> {
    println!(rt; "{order} is ready after {polls} polls, {seconds} s after the start.")?;
    Ok(())
}

// Tells of an order that isn't.
fn tell_refused<D: Display>(rt: &HostRuntime, order: &str, polls: u32, reason: &D) -> Result<()> {
    println!(rt; "{order} isn't ready after {polls} polls: {reason}")?;
    Ok(())
}
