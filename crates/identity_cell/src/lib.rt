//! Identities that are kept until they expire. A cell holds one value and loads it when it is asked
//! for: at any moment at most one caller loads, and whoever comes meanwhile waits for that load.
#![tactic(auto)]

pub mod cell;
mod cells;
pub mod clearing;
pub mod event;
pub mod expiring_cache;
pub mod expiry;
pub mod identity_cache;
pub mod identity_load;
pub mod laws;
pub mod lazy_builder;
pub mod lazy_cache;
pub mod lazy_terms;
mod load_sleep;
pub mod loading;
pub mod log;
pub mod looked;
pub mod no_auth;
pub mod resolve_identity;
pub mod scheme_id;
pub mod timeout;

pub use cell::{Begin, CellCore, CellState, Cleared};
pub use clearing::Clearing;
pub use event::{ClearReply, Event};
pub use expiring_cache::ExpiringCache;
pub use expiry::{jitter, stored_expiry};
pub use identity_cache::{IdentityCache, SharedIdentityCache};
pub use identity_load::IdentityLoad;
pub use lazy_builder::LazyCacheBuilder;
pub use lazy_cache::LazyCache;
pub use lazy_terms::LazyCacheTerms;
pub use loading::{CacheAnswer, Held, LoadPoll, Loading};
pub use log::EventLog;
pub use looked::Looked;
pub use no_auth::{NoAuthIdentity, NoAuthIdentityResolver};
pub use resolve_identity::{IdentityPoll, ResolveIdentity};
pub use scheme_id::SchemeId;
pub use timeout::load_timeout;
