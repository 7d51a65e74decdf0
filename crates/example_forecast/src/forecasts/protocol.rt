//! The service's protocol: how inputs become requests, and responses outputs and errors.
ghost use Rattle.std.specs.Prelude.{◌≡◌, IfOk};
ghost use Rattle.example_forecast.specs.Forecasts.Protocol.{is_modelled, read_outcome};

use crate::forecasts::payloads::{ERROR, GET_FORECAST_OUTPUT};
use smithy_runtime::{
    Body, DeserializeResponse, FaultKind, Headers, HttpRequest, HttpResponse, OutOfMemory, Outcome,
    Payload, SerializeRequest, Serialized, Settings, Text, body_bytes, failed,
};
use std::alloc::Global;

/// Posts an input to the path of the operation.
#[derive(Clone, Copy, Debug, PartialEq, Eq)]
pub struct ForecastSerializer;

impl SerializeRequest for ForecastSerializer {
    ghost use Rattle.std.specs.Prelude.{◌≡◌};
    ghost use Rattle.smithy_runtime.specs.Types.Serialized.TheVariants.{Request};
    ghost use Rattle.example_forecast.specs.Forecasts.Protocol.{posted};

    ghost serializes = { λ _ input _ serialized. serialized ≡ Request (posted input) };

    fn serialize(
        &self,
        _alloc: Global,
        input: &Payload,
        _settings: &Settings,
    ) -> Result<Serialized, OutOfMemory> {
        Ok(Serialized::Request(HttpRequest {
            method: Text::from_static("POST"),
            uri: Text::from_static("/get-forecast"),
            headers: Headers::new(),
            body: Body::Bytes(input.bytes.clone()?),
        }))
    }
}

/// Reads outputs of the operation, and the service's errors.
#[derive(Clone, Copy, Debug, PartialEq, Eq)]
pub struct ForecastDeserializer;

impl DeserializeResponse for ForecastDeserializer {
    ghost use Rattle.std.specs.Prelude.{◌≡◌, None};
    ghost use Rattle.example_forecast.specs.Forecasts.Protocol.{read_outcome};

    ghost streams = { λ _ _ _ outcome. outcome ≡ None };

    ghost deserializes = { λ _ response _ outcome. outcome ≡ read_outcome response };

    fn deserialize_streaming(
        &self,
        _alloc: Global,
        _response: &HttpResponse,
        _settings: &Settings,
    ) -> Result<Option<Outcome>, OutOfMemory> {
        Ok(None)
    }

    fn deserialize_nonstreaming(
        &self,
        _alloc: Global,
        response: &HttpResponse,
        _settings: &Settings,
    ) -> Result<Outcome, OutOfMemory> {
        read_outcome(response)
    }
}

// What a response comes to.
fn read_outcome(response: &HttpResponse) -> Result<Outcome, OutOfMemory>
    ensures { IfOk result (λ outcome. outcome ≡ read_outcome response.now) }
{
    if response.status == 200 {
        let kind = GET_FORECAST_OUTPUT;
        let bytes = body_bytes(&response.body)?;
        return Ok(Outcome::Output(Payload { kind, bytes }));
    }
    if !is_modelled(response.status) {
        return Ok(failed(FaultKind::Response, "unknown status"));
    }
    let bytes = body_bytes(&response.body)?;
    let kind = FaultKind::Operation(Payload { kind: ERROR, bytes });
    Ok(failed(kind, "refused by the station"))
}

// Whether a response of this status has an error of the model.
fn is_modelled(status: u16) -> bool
    ensures { result ≡ is_modelled status }
{
    status == 404 || status == 503
}
