//! A client's parts as a world: each kind of question is answered by the part that it is for, and
//! the answers are tied to what the outside and the quota answered.
#![tactic(auto)]

pub mod calling;
pub mod choosing;
pub mod laws;
pub mod parts;
pub mod resting;
pub mod retrying;
pub mod serving;
pub mod types;
pub mod world;

pub use parts::{Given, Parts};
pub use types::{ClientMeans, ClientTypes, TypesOf};
pub use world::RuntimeComponents;
