//! What a client's second operation takes over from its first.
ghost use Rattle.std.specs.Prelude.{◌++◌};
ghost use Rattle.client_auth.specs.Identities.{ending_choice};
ghost use Rattle.client_call.specs.Ending.{ending_calls};
ghost use Rattle.client_retries.specs.Strategies.{Closes};
ghost use Rattle.client_retries.specs.declared.strategy.RetryStrategy.{RetryStrategy};
ghost use Rattle.smithy_types.specs.Chain.{Chained};

use client_components::{ClientMeans, ClientTypes, RuntimeComponents};

/// Takes outside and quota out of a client, for that of another operation. First it ends what is
/// open outside (the load of an identity, the call and the sleeps), and gives the permit back that
/// the retry strategy still holds.
pub fn taken_apart<T: ClientTypes>(client: RuntimeComponents<T>) -> (T::Outside, T::Quota)
    ensures outside { Chained T.Outside.makes client.parts.outside
        (ending_choice client.parts.identities
        ++ ending_calls client.parts.sleeps client.parts.call)
        result.0 }
    ensures quota { (emptied : RetryStrategy T.Quota.Permit)
        × Closes ⟦<T as ClientMeans>⟧.means.quota client.parts.strategy client.parts.quota emptied
        result.1 }
{
    let mut client = client;
    client.parts.end_open();
    client.close();
    let parts = client.into_parts();
    (parts.outside, parts.quota)
}
