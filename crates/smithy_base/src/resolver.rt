//! A resolver of configuration, over the latest configuration and the initial one below it.
ghost use Rattle.std.specs.Prelude.{◌≡◌, ◌||◌, is_some, is_none, Some, None, option_copied};
ghost use Rattle.smithy_context.specs.Settings.{or_else};
ghost use Rattle.std.specs.Borrow.{sem};
ghost use Rattle.smithy_base.specs.Lending.{LendsConfig, LendsComponents};
ghost use Rattle.smithy_base.specs.Resolving.{value_in, initial_value, initial_sleep};

use crate::components::ComponentsDraft;
use crate::initial_config::InitialConfig;
use smithy_context::{CloneableLayer, FrozenLayer, Setting, SettingKey};

/// Looks settings and parts up. The latest ones are those that are being written: the client's own
/// in initial mode, those of an operation in override mode.
#[derive(Drop)]
pub struct Resolver<'a> {
    /// What stands below the latest, in override mode.
    pub initial: Option<InitialConfig>,
    /// The latest settings.
    pub config: &'a mut CloneableLayer,
    /// The latest parts.
    pub components: &'a mut ComponentsDraft,
}

impl<'a> Resolver<'a> {
    /// A resolver in initial mode, on the client's own configuration.
    pub fn initial(
        config: &'a mut CloneableLayer,
        components: &'a mut ComponentsDraft,
    ) -> Resolver<'a>
        ensures same_config { result.config.ghost_name ≡ config.entry.ghost_name }
        ensures same_components { result.components.ghost_name ≡ components.entry.ghost_name }
        ensures config { result.config.now ≡ config.old }
        ensures components { result.components.now ≡ components.old }
        ensures initial { result.initial ≡ None }
    {
        Resolver {
            initial: None,
            config,
            components,
        }
    }

    /// A resolver in override mode, on an operation's configuration over the client's.
    pub fn overrid(
        initial_config: FrozenLayer,
        initial_components: &'a ComponentsDraft,
        config: &'a mut CloneableLayer,
        components: &'a mut ComponentsDraft,
    ) -> Resolver<'a>
        ensures same_config { result.config.ghost_name ≡ config.entry.ghost_name }
        ensures same_components { result.components.ghost_name ≡ components.entry.ghost_name }
        ensures config { result.config.now ≡ config.old }
        ensures components { result.components.now ≡ components.old }
        ensures initial { result.initial ≡
            Some (record { config = initial_config; components = initial_components.now }) }
    {
        Resolver {
            initial: Some(InitialConfig {
                config: initial_config,
                components: *initial_components,
            }),
            config,
            components,
        }
    }

    /// Whether the resolver is in initial mode.
    pub fn is_initial(&self) -> bool
        ensures { result ≡ is_none self.now.initial }
    {
        self.initial.is_none()
    }

    /// The latest settings, to be written.
    pub fn config_mut(&mut self) -> &mut CloneableLayer
        ensures* writes_back { sem 𝓛 (LendsConfig self.entry result) }
        ensures value { result.now ≡ self.old.config.now }
    {
        self.config
    }

    /// The latest parts, to be written.
    pub fn runtime_components_mut(&mut self) -> &mut ComponentsDraft
        ensures* writes_back { sem 𝓛 (LendsComponents self.entry result) }
        ensures value { result.now ≡ self.old.components.now }
    {
        self.components
    }

    /// Whether the latest settings have a value for the key.
    pub fn is_latest_set(&self, key: &SettingKey) -> bool
        ensures { result ≡ is_some (value_in self.now.config.now key.now) }
    {
        self.config.load(key).is_some()
    }

    /// Whether the latest or the initial settings have a value for the key.
    pub fn is_set(&self, key: &SettingKey) -> bool
        ensures { result ≡ (is_some (value_in self.now.config.now key.now)
            || is_some (initial_value self.now.initial key.now)) }
    {
        self.is_latest_set(key) || self.initial_value(key).is_some()
    }

    /// The latest value of the key, else the initial one.
    pub fn resolve_config(&self, key: &SettingKey) -> Option<&Setting>
        ensures { option_copied result ≡
            or_else (value_in self.now.config.now key.now)
            (initial_value self.now.initial key.now) }
    {
        match self.config.load(key) {
            Some(setting) => Some(setting),
            None => self.initial_value(key),
        }
    }

    /// Whether the latest or the initial parts have a sleep.
    pub fn sleep_impl(&self) -> bool
        ensures { result ≡ (self.now.components.now.sleep || initial_sleep self.now.initial) }
    {
        self.components.sleep || self.initial_sleep()
    }

    /// Whether the latest parts have a sleep.
    pub fn latest_sleep_impl(&self) -> bool
        ensures { result ≡ self.now.components.now.sleep }
    {
        self.components.sleep
    }

    fn initial_value(&self, key: &SettingKey) -> Option<&Setting>
        ensures { option_copied result ≡ initial_value self.now.initial key.now }
    {
        match &self.initial {
            Some(initial) => initial.config.load(key),
            None => None,
        }
    }

    fn initial_sleep(&self) -> bool
        ensures { result ≡ initial_sleep self.now.initial }
    {
        match &self.initial {
            Some(initial) => initial.components.sleep,
            None => false,
        }
    }
}
