//! Laws of scripts with clients: what a text must not have to be one.

pub mod laws;
