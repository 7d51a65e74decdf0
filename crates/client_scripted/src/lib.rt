//! The clients that a script describes, built over its buckets, and the service that they call.
#![tactic(auto)]

pub mod auth;
pub mod builder;
pub mod classifiers;
pub mod client;
pub mod clients;
pub mod partition;
pub mod plugins;
pub mod service;

pub use client::{
    BuiltClient, BuiltWorld, ClientQuota, ScriptedClient, ServiceBuilder, ServiceWorld,
    build_client,
};
pub use clients::build_clients;
