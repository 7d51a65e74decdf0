//! The values of scripts and prints: each has a printer and a reader, and what is printed of it is
//! read as the same value. No limit of a script stands here.
#![tactic(auto)]

pub mod answer;
pub mod fault;
pub mod http;
pub mod laws;
pub mod names;
pub mod note;
pub mod setting;
