//! A client of weather stations, as its user writes it who copied that of the bakery: a forecast is
//! asked for, which takes two attempts. The service stands in memory (`ANSWERS`).
#![tactic(auto)]

ghost use Rattle.std.specs.Prelude.{◌≡◌};
ghost use Rattle.example_forecast.specs.Forecasts.Model.{error_of, is_error, is_sky, sky_of};
ghost use Rattle.smithy_runtime.specs.Answered.{InputAnswered};
ghost use Rattle.smithy_runtime.specs.Growth.{GrewByAtMost};
ghost use Rattle.smithy_runtime.specs.Text.{is_text};

mod forecasts;

use crate::forecasts::{
    ForecastDeserializer, ForecastError, ForecastSerializer, GetForecastInput, GetForecastOutput,
    Sky,
};
use anyhow::Result;
use smithy_runtime::{
    Classifier, ClientRateLimiter, ClientTypes, InvokeError, ModeledAsRetryableClassifier,
    NoAuthIdentityResolver, NoAuthScheme, Operation, OperationBuilder, Outside, Quota, Registry,
    Row, RuntimeComponents, Text, TimeoutConfig, Timers, added, refusal_of, service, steady_retry,
    without_facts,
};
use std::alloc::Global;

/// The service's name, by which its retries share a bucket.
const SERVICE: &str = "Forecasts";

/// Where the service is.
const URL: &str = "http://localhost:1234";

/// The station that is asked for.
const STATION: &str = "Hilltop";

/// The most questions that the invocation asks.
const FUEL: u64 = 200;

/// A second, in nanoseconds.
const SECOND: u64 = 1_000_000_000;

/// The station sleeps, and then it answers.
const ANSWERS: &[Row] = &[(503, "StationAsleep"), (200, "rain")];

/// The operation `GetForecast`.
type GetForecast = Operation<GetForecastInput, GetForecastOutput, ForecastError>;

/// Its builder.
type ForecastBuilder = OperationBuilder<
    GetForecastInput,
    GetForecastOutput,
    ForecastError,
    NoAuthScheme,
    NoAuthIdentityResolver,
    ForecastSerializer,
    ForecastDeserializer,
>;

fn main(rt: HostRuntime) -> Result<()> {
    let outside = service(rt.alloc(), ANSWERS)?;
    let buckets: Registry<ClientRateLimiter> = Registry::new(rt.alloc())?;
    get_forecast(&rt, outside, buckets)
}

// Builds the operation and its client, and asks for a forecast.
fn get_forecast<X: Outside + Drop, Q: Quota + Drop>(
    rt: &HostRuntime,
    outside: X,
    quota: Q,
) -> Result<()> {
    let alloc = rt.alloc();
    let builder: ForecastBuilder = without_facts(OperationBuilder::new());
    let builder = builder
        .service_name(Text::from_static(SERVICE))
        .operation_name(Text::from_static("GetForecast"))
        .http_client()
        .sleep_impl()
        .time_source()
        .endpoint_url(Text::from_static(URL))
        .standard_retry(steady_retry())
        .timeout_config(TimeoutConfig::disabled())
        .own_serializer(ForecastSerializer)
        .own_deserializer(ForecastDeserializer)
        .no_auth();
    let modelled = Classifier::ModeledAsRetryable(ModeledAsRetryableClassifier::new());
    let builder = added(builder.retry_classifier(alloc, modelled))?;
    match builder.build(alloc, outside, quota) {
        Ok((operation, client)) => ask(rt, operation, client),
        Err(back) => Err(refusal_of(back).into()),
    }
}

// Asks for the forecast with this client.
fn ask<T: ClientTypes>(
    rt: &HostRuntime,
    operation: GetForecast,
    client: RuntimeComponents<T>,
) -> Result<()> {
    let mut client = client;
    print_forecast(rt, &operation, &mut client)
}

// Asks for the forecast, and prints what came and what it took.
fn print_forecast<T: ClientTypes>(
    rt: &HostRuntime,
    operation: &GetForecast,
    client: &mut RuntimeComponents<T>,
) -> Result<()> {
    let sky = forecast(rt.alloc(), operation, client)?;
    println!(rt; "{STATION}: {}", word(sky))?;
    let questions = client.entries().len();
    let seconds = client.parts.outside.now() / SECOND;
    println!(rt; "{questions} questions were asked, and {seconds} s passed.")?;
    print_bucket(rt, &client.parts.quota)
}

// The sky of the forecast.
fn forecast<T: ClientTypes>(
    alloc: Global,
    operation: &GetForecast,
    client: &mut RuntimeComponents<T>,
) -> Result<Sky> {
    let input = GetForecastInput {
        station: Text::from_static(STATION),
    };
    let output = invoke(alloc, operation, client, input, FUEL)?;
    Ok(output.sky)
}

// Invokes the operation. At most `fuel` questions are asked. An output or an `SdkError` is the
// outcome of one whole run of the input, and each other answer has its cause.
fn invoke<T: ClientTypes>(
    alloc: Global,
    operation: &GetForecast,
    client: &mut RuntimeComponents<T>,
    input: GetForecastInput,
    fuel: u64,
) -> Result<GetForecastOutput, InvokeError<ForecastError>>
    ensures at_most_fuel { GrewByAtMost fuel client.old.log client.new.log }
    ensures whole_run { InputAnswered (is_text 1) (λ p input. input ≡ record { station = p.bytes })
        is_sky (λ p output. output ≡ record { sky = sky_of p.bytes }) is_error
        (λ p error. error ≡ error_of p.bytes) input fuel result client.old.log client.new.log }
{
    operation.invoke(alloc, client, input, fuel)
}

// A sky in words.
fn word(sky: Sky) -> &'static str {
    match sky {
        Sky::Clear => "clear",
        Sky::Rain => "rain",
        Sky::Snow => "snow",
    }
}

// What the bucket of the service's partition holds.
fn print_bucket<Q: Quota>(rt: &HostRuntime, quota: &Q) -> Result<()> {
    if !quota.has(0) {
        return Ok(());
    }
    if let Some(sums) = quota.sums(0) {
        let capacity = sums.capacity;
        println!(rt; "The bucket has {} of {capacity} tokens.", sums.available)?;
    }
    Ok(())
}
