//! The service of weather stations, as a code generator would write it: what its operation takes
//! and answers, its error, the payloads that these are, and how the service is spoken to.

mod model;
mod payloads;
mod protocol;

pub use model::{ForecastError, GetForecastInput, GetForecastOutput, Sky};
pub use payloads::{ERROR, GET_FORECAST_INPUT, GET_FORECAST_OUTPUT};
pub use protocol::{ForecastDeserializer, ForecastSerializer};
