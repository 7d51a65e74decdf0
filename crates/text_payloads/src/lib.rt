//! Texts as payloads: what a generated `Wire` of a type with one text is made of. A payload of a
//! kind carries the text's bytes, which are UTF-8.
#![tactic(auto)]

mod payloads;

pub use payloads::{read_text, text_payload};
