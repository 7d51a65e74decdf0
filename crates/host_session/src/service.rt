//! The service of a host, which makes requests of inputs and outputs of responses itself: an input
//! is a whole request, and an output a whole response.

pub mod classifier;
pub mod deserializer;
pub mod retry_after;
pub mod serializer;

pub use classifier::{HostedClassifier, classifiers_room, with_retry_after};
pub use deserializer::{ERROR_KIND, ErrorRule, HostedDeserializer, OUTPUT_KIND};
pub use retry_after::RetryAfterClassifier;
pub use serializer::HostedSerializer;
