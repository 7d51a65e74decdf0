//! The service's model: what its operation takes and answers, and the error of its own.

use smithy_runtime::Text;
use thiserror::Error;

/// The input of `GetForecast`.
#[derive(Debug, Drop)]
pub struct GetForecastInput {
    /// The station's name.
    pub station: Text,
}

/// How the sky will be.
#[derive(Clone, Copy, Debug, PartialEq, Eq)]
pub enum Sky {
    /// It is blue.
    Clear,
    /// It rains.
    Rain,
    /// It snows.
    Snow,
}

/// The output of `GetForecast`.
#[derive(Clone, Copy, Debug, PartialEq, Eq)]
pub struct GetForecastOutput {
    /// How the sky will be.
    pub sky: Sky,
}

/// An error of the service's model.
#[derive(Clone, Copy, Debug, PartialEq, Eq, Error)]
pub enum ForecastError {
    /// The station sleeps, and wakes soon.
    #[error("the station sleeps")]
    StationAsleep,
    /// There is no station of this name.
    #[error("there is no such station")]
    NoSuchStation,
}
