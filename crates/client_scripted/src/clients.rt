//! The clients of a script.
ghost use Rattle.std.specs.Prelude.{OnOk};
ghost use Rattle.client_scripted.specs.Clients.{AreBuilt};

use crate::client::{BuiltClient, ClientQuota, build_client};
use crate::service::ServiceError;
use json_scripts::client::ClientObject;
use retry_policy::{Classifier, ClassifyRetry};
use smithy_types::{List, OutOfMemory};
use std::alloc::Global;

/// Puts the clients that these objects describe behind those that are there, built over the
/// registry in their order.
pub fn build_clients(
    alloc: Global,
    objects: List<ClientObject>,
    registry: &mut ClientQuota,
    clients: &mut Vec<BuiltClient>,
) -> Result<(), OutOfMemory>
    ensures { OnOk result (AreBuilt ⟦<Classifier<ServiceError> as ClassifyRetry>⟧.ranked
        registry.old objects clients.old.items clients.new.items registry.new) }
{
    for object in objects.into_vec(alloc) {
        clients.reserve(1)?;
        clients.push_reserved(build_client(alloc, object, registry)?);
    }
    Ok(())
}
