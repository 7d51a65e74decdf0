//! A law of the scripts that are made: each stands in a text, as if its user had written it.

pub mod laws;
