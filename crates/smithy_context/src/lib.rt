//! Settings in layers, and the context of a run that interceptors and classifiers read.
#![tactic(auto)]

pub mod cloneable;
pub mod context;
pub mod intercept;
pub mod laws;
pub mod layer;
pub mod setting;
pub mod settings;
pub mod writes;

pub use cloneable::CloneableLayer;
pub use context::{InterceptorContext, RewindResult};
pub use intercept::{Change, HookAnswer, HookReply, HookView};
pub use layer::{Layer, LayerEntry};
pub use setting::{Setting, SettingKey};
pub use settings::{FrozenLayer, Settings};
