//! The scripts that commands read: what they say of the outside (`records`), scripts of clients and
//! of callers (`client`, `fleet`), and one that is made from a number (`workload`).
//!
//! Here stands what their readers share: objects with no member beside those that are named, stop
//! points, lists of words, the terms of buckets, the limits of fuel, texts and heads, and what is
//! left of a limit.
#![tactic(auto)]

pub mod buckets;
pub mod client;
pub mod fleet;
pub mod fuel;
pub mod heads;
pub mod members;
pub mod records;
pub mod rooms;
pub mod stop;
pub mod texts;
pub mod words;
pub mod workload;

pub use fuel::FUEL_LIMIT;
pub use heads::head_fits;
pub use members::only_members;
pub use rooms::left_of;
pub use stop::read_stop;
pub use texts::{optional_text_fits, optional_texts_fit, text_fits, texts_fit};
pub use words::read_words;
