//! A script of clients that is made from a number: many invocations of one client, over a service
//! that fails now and then.

pub mod client;
pub mod invocations;
pub mod script;

pub use script::made_script;
