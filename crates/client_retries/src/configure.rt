//! Configure.
ghost use Rattle.std.specs.Prelude.{◌≡◌, IfOk};
ghost use Rattle.client_retries.specs.Configuring.{configured, finished, no_sleep, no_time_source};

use run_grammar::{Answer, ConfigureStage};
use smithy_context::Layer;
use smithy_types::{OutOfMemory, Text};

/// What a lazy cache of identities can't do without.
#[derive(Clone, Copy, Debug, PartialEq, Eq)]
pub struct CacheNeeds {
    /// Whether identities are cached lazily.
    pub lazy_cache: bool,
    /// Whether the client has a time source.
    pub time_source: bool,
    /// Whether the client has sleeps.
    pub sleep_impl: bool,
}

/// The layer of a step: the client's own, and empty ones for the others. The last step fails where
/// a lazy cache lacks the time source or the sleeps that it needs.
pub fn configure(
    stage: ConfigureStage,
    client: &Layer,
    needs: CacheNeeds,
) -> Result<Answer, OutOfMemory>
    ensures { IfOk result (λ a. a ≡ configured stage client.now needs) }
{
    Ok(match stage {
        ConfigureStage::Client => Answer::Layer(client.clone()?),
        ConfigureStage::Operation => Answer::Layer(Layer::new()),
        ConfigureStage::Final => finish(needs),
    })
}

// What the last step answers.
fn finish(needs: CacheNeeds) -> Answer
    ensures { result ≡ finished needs }
{
    if needs.lazy_cache && !needs.time_source {
        return Answer::Failed(Text::from_static(no_time_source()));
    }
    if needs.lazy_cache && !needs.sleep_impl {
        return Answer::Failed(Text::from_static(no_sleep()));
    }
    Answer::Layer(Layer::new())
}

// Without a time source a lazy cache can't tell when an identity expires.
#[tactic(auto, unfolding(crate::specs::Configuring::no_time_source))]
fn no_time_source() -> &'static str
    ensures { result.now ≡ no_time_source }
{
    "Lazy identity caching requires a time source to be configured. Set a time source using the \
    `time_source` method on config. If this isn't possible, then disable identity caching by \
    calling the `identity_cache` method on config with `IdentityCache::no_cache()`"
}

// Without sleeps a lazy cache can't time a load out.
#[tactic(auto, unfolding(crate::specs::Configuring::no_sleep))]
fn no_sleep() -> &'static str
    ensures { result.now ≡ no_sleep }
{
    "Lazy identity caching requires an async sleep implementation to be configured. Set a sleep \
    impl using the `sleep_impl` method on config. If this isn't possible, then disable identity \
    caching by calling the `identity_cache` method on config with `IdentityCache::no_cache()`"
}
