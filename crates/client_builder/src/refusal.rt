//! Why a build is refused.
ghost use Rattle.std.specs.Prelude.{◌≡◌};
ghost use Rattle.client_builder.specs.Refusal.{first_absent, has_client, lacks, part_checks};
ghost use Rattle.client_builder.specs.Refusal.{setting_checks};

use crate::OperationBuilder;
use crate::plugin::gives_client;
use auth_endpoint::AuthScheme;
use identity_cell::ResolveIdentity;
use smithy_context::{Layer, SettingKey};
use smithy_types::{BuildError, Part};
use thiserror::Error;

/// Why a build is refused. The builder comes back beside it, with the outside and the quota.
#[derive(Clone, Copy, Debug, PartialEq, Eq, Error)]
pub enum BuildRefusal {
    /// A part is absent.
    #[error("{0}")]
    Refused(BuildError),
    /// There is no memory.
    #[error("there is no memory to build the client")]
    OutOfMemory,
}

impl<I, O, E, A: AuthScheme, R: ResolveIdentity, Z, D> OperationBuilder<I, O, E, A, R, Z, D> {
    /// The first part that is absent, of those that aren't settings.
    pub(crate) fn absent_part(&self) -> Option<Part>
        ensures { result ≡ first_absent (part_checks self.now) }
    {
        if self.service_name.is_none() {
            Some(Part::ServiceName)
        } else if self.operation_name.is_none() {
            Some(Part::OperationName)
        } else if !self.has_client() {
            Some(Part::HttpClient)
        } else if self.endpoint_url.is_none() {
            Some(Part::EndpointResolver)
        } else if self.strategy.is_none() {
            Some(Part::RetryStrategy)
        } else if self.serializer.is_none() {
            Some(Part::Serializer)
        } else if self.deserializer.is_none() {
            Some(Part::Deserializer)
        } else {
            None
        }
    }

    // Whether the outside's connector is used.
    fn has_client(&self) -> bool
        ensures { result ≡ has_client self.now }
    {
        self.components.client || gives_client(self.plugins.as_slice())
    }
}

/// The first setting that is absent.
pub(crate) fn absent_setting(layer: &Layer) -> Option<Part>
    ensures { result ≡ first_absent (setting_checks layer.now) }
{
    if lacks(layer, &SettingKey::EndpointParams) {
        Some(Part::EndpointParams)
    } else if lacks(layer, &SettingKey::Timeouts) {
        Some(Part::Timeouts)
    } else {
        None
    }
}

// Whether the settings have no value for the key.
fn lacks(layer: &Layer, key: &SettingKey) -> bool
    ensures { result ≡ lacks layer.now key.now }
{
    layer.load(key).is_none()
}
