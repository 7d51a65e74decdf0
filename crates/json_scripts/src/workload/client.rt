//! The script's one client.
ghost use Rattle.std.specs.Prelude.{◌≡◌, ◌∷◌, [], codes, IfOk, None};
ghost use Rattle.json_scripts.specs.Workload.Made.{made_client, made_rules};

use crate::client::{
    AuthChoice, ClassifierChoice, ClientFlags, ClientObject, ClientRules, ClientTarget, RetryChoice,
};
use smithy_types::{List, OutOfMemory, ReconnectMode, RetryConfig, RetryMode, Text, TimeoutConfig};
use std::alloc::Global;

/// A client that signs nothing, and retries what the service fails at.
pub fn made_client(alloc: Global) -> Result<ClientObject, OutOfMemory>
    ensures { IfOk result (λ c. c ≡ made_client) }
{
    Ok(ClientObject {
        target: made_target(),
        rules: made_rules(),
        classifiers: made_classifiers(alloc)?,
        auth: AuthChoice::NoAuth,
    })
}

// What it calls.
fn made_target() -> ClientTarget
    ensures { result ≡ made_client.target }
{
    ClientTarget {
        service: Text::from_static("made"),
        operation: Text::from_static("made"),
        url: Text::from_static("http://localhost:1"),
        prefix: None,
    }
}

// What it goes by.
fn made_rules() -> ClientRules
    ensures { result ≡ made_rules }
{
    ClientRules {
        bucket: Some(0),
        retry: RetryChoice::Standard(RetryConfig {
            mode: RetryMode::Standard,
            max_attempts: 3,
            initial_backoff: 1_000_000_000,
            max_backoff: 20_000_000_000,
            reconnect: ReconnectMode::ReconnectOnTransientError,
            static_base: true,
            spec: None,
        }),
        timeouts: TimeoutConfig::disabled(),
        stall: None,
        flags: ClientFlags {
            sleep: true,
            time: true,
            poisoning: false,
            enforce: false,
            v2: true,
        },
    }
}

// The classifier of statuses alone.
fn made_classifiers(alloc: Global) -> Result<List<ClassifierChoice>, OutOfMemory>
    ensures { IfOk result (λ cs. cs ≡ made_client.classifiers) }
{
    let mut classifiers = List::new();
    classifiers.push(alloc, ClassifierChoice::Status(made_statuses(alloc)?))?;
    Ok(classifiers)
}

// The statuses that are retried.
fn made_statuses(alloc: Global) -> Result<List<u16>, OutOfMemory>
    ensures { IfOk result (λ s. s ≡ 500 ∷ 502 ∷ 503 ∷ 504 ∷ []) }
{
    let mut statuses = List::new();
    statuses.push(alloc, 500)?;
    statuses.push(alloc, 502)?;
    statuses.push(alloc, 503)?;
    statuses.push(alloc, 504)?;
    Ok(statuses)
}
