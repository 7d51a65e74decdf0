//! Building an operation together with the client that it is invoked over.
#![tactic(auto)]

pub mod build;
pub mod builder;
pub mod chain;
pub mod classifiers;
pub mod handing_on;
pub mod layer;
pub mod ordered;
pub mod own_interceptor;
pub mod plugin;
pub mod prepared;
pub mod refusal;
pub mod registering;
mod room;
pub mod scheme;
pub mod setting;

pub use build::{BuiltTypes, Client};
pub use builder::{AuthOptions, OperationBuilder, RegisteredDeserializer, StrategyKind};
pub use handing_on::{added, refusal_of};
pub use own_interceptor::OwnInterceptor;
pub use plugin::Plugin;
pub use refusal::BuildRefusal;
pub use scheme::{IdentityResolver, Scheme};
