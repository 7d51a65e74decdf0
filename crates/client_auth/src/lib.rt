//! What a client does between its input and its output, kind by kind: serialize, choose a scheme
//! and an identity, resolve and apply the endpoint, sign, and deserialize.
#![tactic(auto)]

pub mod apply;
pub mod cached;
pub mod choose;
pub mod deserialize;
pub mod deserializer;
pub mod identities;
mod reading;
pub mod responses;
pub mod serialize;
pub mod serializer;
pub mod sign;
pub mod sources;

pub use deserializer::{DeserializeResponse, Deserializer};
pub use identities::{CachedIdentities, Identities};
pub use serializer::{SerializeRequest, Serialized, Serializer};
pub use sources::{IdentitySource, RegisteredSource};
