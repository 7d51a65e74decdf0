//! The service that the program's clients call: how its requests are made and signed, and how its
//! responses are read.

pub mod deserializer;
pub mod error;
pub mod scheme;
pub mod serializer;

pub use deserializer::{ERROR_KIND, OUTPUT_KIND, ServiceDeserializer};
pub use error::ServiceError;
pub use scheme::{ServiceScheme, own_scheme};
pub use serializer::ServiceSerializer;
