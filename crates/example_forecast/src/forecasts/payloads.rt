//! The payloads that the model's values are: a kind each, and the bytes of a body.
ghost use Rattle.std.specs.Prelude.{◌≡◌, true, false, MatchOption};
ghost use Rattle.example_forecast.specs.Forecasts.Model.{
  error_name,
  error_of,
  is_error,
  is_sky,
  kind_of_error,
  sky_name,
  sky_of,
};

use crate::forecasts::model::{ForecastError, GetForecastInput, GetForecastOutput, Sky};
use smithy_runtime::{
    Blob, ErrorKind, OutOfMemory, Payload, ProvideErrorKind, Wire, read_text, text_payload,
};
use std::alloc::Global;

/// The kind of an input.
pub const GET_FORECAST_INPUT: u32 = 1;

/// The kind of an output.
pub const GET_FORECAST_OUTPUT: u32 = 2;

/// The kind of an error.
pub const ERROR: u32 = 3;

impl Wire for GetForecastInput {
    ghost use Rattle.std.specs.Prelude.{◌≡◌};
    ghost use Rattle.std.proofs.Common.{◌∙◌, sym};
    ghost use Rattle.smithy_runtime.specs.Text.{is_text};

    ghost accepts = { is_text 1 };

    ghost reads_as = { λ p input. input ≡ record { station = p.bytes } };

    ghost one_value = { λ p x y h g. h ∙ sym g };

    fn to_payload(&self, alloc: Global) -> Result<Payload, OutOfMemory> {
        text_payload(alloc, GET_FORECAST_INPUT, &self.station)
    }

    fn from_payload(
        alloc: Global,
        payload: &Payload,
    ) -> Result<Option<GetForecastInput>, OutOfMemory> {
        match read_text(alloc, GET_FORECAST_INPUT, payload)? {
            Some(station) => Ok(Some(GetForecastInput { station })),
            None => Ok(None),
        }
    }
}

impl Wire for GetForecastOutput {
    ghost use Rattle.std.specs.Prelude.{◌≡◌};
    ghost use Rattle.std.proofs.Common.{◌∙◌, sym};
    ghost use Rattle.example_forecast.specs.Forecasts.Model.{is_sky, sky_of};

    ghost accepts = { is_sky };

    ghost reads_as = { λ p output. output ≡ record { sky = sky_of p.bytes } };

    ghost one_value = { λ p x y h g. h ∙ sym g };

    fn to_payload(&self, alloc: Global) -> Result<Payload, OutOfMemory> {
        Ok(Payload {
            kind: GET_FORECAST_OUTPUT,
            bytes: Blob::from_slice(alloc, sky_name(self.sky))?,
        })
    }

    fn from_payload(
        _alloc: Global,
        payload: &Payload,
    ) -> Result<Option<GetForecastOutput>, OutOfMemory> {
        match read_sky(payload) {
            Some(sky) => Ok(Some(GetForecastOutput { sky })),
            None => Ok(None),
        }
    }
}

// How a sky is spelled.
fn sky_name(sky: Sky) -> &'static [u8]
    ensures { result.now ≡ sky_name sky }
{
    match sky {
        Sky::Clear => b"clear",
        Sky::Rain => b"rain",
        Sky::Snow => b"snow",
    }
}

// The sky that a payload is.
fn read_sky(payload: &Payload) -> Option<Sky>
    ensures { MatchOption result
        (is_sky payload.now ≡ false)
        (λ sky. (is_sky payload.now ≡ true) × (sky ≡ sky_of payload.now.bytes)) }
{
    let bytes = payload.bytes.as_slice();
    if payload.kind != GET_FORECAST_OUTPUT {
        None
    } else if bytes == b"clear".as_slice() {
        Some(Sky::Clear)
    } else if bytes == b"rain".as_slice() {
        Some(Sky::Rain)
    } else if bytes == b"snow".as_slice() {
        Some(Sky::Snow)
    } else {
        None
    }
}

impl Wire for ForecastError {
    ghost use Rattle.std.specs.Prelude.{◌≡◌};
    ghost use Rattle.std.proofs.Common.{◌∙◌, sym};
    ghost use Rattle.example_forecast.specs.Forecasts.Model.{is_error, error_of};

    ghost accepts = { is_error };

    ghost reads_as = { λ p error. error ≡ error_of p.bytes };

    ghost one_value = { λ p x y h g. h ∙ sym g };

    fn to_payload(&self, alloc: Global) -> Result<Payload, OutOfMemory> {
        Ok(Payload {
            kind: ERROR,
            bytes: Blob::from_slice(alloc, error_name(*self))?,
        })
    }

    fn from_payload(
        _alloc: Global,
        payload: &Payload,
    ) -> Result<Option<ForecastError>, OutOfMemory> {
        Ok(read_error(payload))
    }
}

impl ProvideErrorKind for ForecastError {
    ghost use Rattle.example_forecast.specs.Forecasts.Model.{kind_of_error, kind_in};

    ghost kind = { kind_of_error };

    ghost kind_in = { kind_in };

    fn retryable_error_kind(&self) -> Option<ErrorKind> {
        kind_of_error(*self)
    }

    fn kind_of(payload: &Payload) -> Option<ErrorKind> {
        match read_error(payload) {
            Some(error) => kind_of_error(error),
            None => None,
        }
    }
}

// How an error is spelled.
fn error_name(error: ForecastError) -> &'static [u8]
    ensures { result.now ≡ error_name error }
{
    match error {
        ForecastError::StationAsleep => b"StationAsleep",
        ForecastError::NoSuchStation => b"NoSuchStation",
    }
}

// The error that a payload is.
fn read_error(payload: &Payload) -> Option<ForecastError>
    ensures { MatchOption result
        (is_error payload.now ≡ false)
        (λ error. (is_error payload.now ≡ true) × (error ≡ error_of payload.now.bytes)) }
{
    let bytes = payload.bytes.as_slice();
    if payload.kind != ERROR {
        None
    } else if bytes == b"StationAsleep".as_slice() {
        Some(ForecastError::StationAsleep)
    } else if bytes == b"NoSuchStation".as_slice() {
        Some(ForecastError::NoSuchStation)
    } else {
        None
    }
}

// A station that sleeps is the server's fault, and one that isn't there tells nothing of a retry.
fn kind_of_error(error: ForecastError) -> Option<ErrorKind>
    ensures { result ≡ kind_of_error error }
{
    match error {
        ForecastError::StationAsleep => Some(ErrorKind::ServerError),
        ForecastError::NoSuchStation => None,
    }
}
