//! Values as payloads of JSON: what a generated `Wire` of a type with members is made of. A payload
//! of a kind carries compact JSON, and what is printed is read as the same value.
#![tactic(auto)]

mod blobs;
mod details;
mod errors;
mod floats;
mod forms;
mod kinds;
mod lists;
mod macros;
mod maps;
mod members;
mod numbers;
mod objects;
mod payloads;
mod printing;
mod reading;
mod times;
mod unions;

pub use details::DetailedError;
pub use errors::{ModeledError, ServiceError};
pub use floats::Double;
pub use forms::JsonForm;
pub use jiff_core::Timestamp;
pub use kinds::{Json, JsonPayload};
pub use lists::SparseList;
pub use maps::TextMap;
pub use members::{JsonMember, JsonMembers, read_members};
pub use objects::Object;
pub use payloads::{json_payload, message_payload, read_json, read_message, read_payload};
pub use printing::{PrintedMembers, add_members, begin_object, end_object, print_members};
pub use reading::{ReadError, Refusal, read_str};
pub use serde_json::Value;
pub use times::{DateTime, EpochSeconds};
pub use unions::{Case, JsonCases, NoCase, print_case, read_case};
