//! What holds of every list that a client serves. The functions do nothing but call other laws:
//! their contracts are the laws.

ghost use Rattle.laws_client.specs.Retries.Attempting.{SettingsBoundAttempts};
ghost use Rattle.laws_client.specs.Retries.Telling.{DecisionsTellBuckets};

use crate::attempts::attempts_are_bounded;
use client_components::{ClientMeans, ClientTypes};

/// Where nothing behind a noted decision calls the quota, the bucket in force there holds, at the
/// list's end, the sums that the note tells. Only Initial, Decide and the hook before the retry
/// loop call it.
pub fn decisions_tell_the_bucket<T: ClientTypes>()
    ensures { DecisionsTellBuckets ⟦<T as ClientMeans>⟧.means }
{}

/// A whole run whose further attempts are paid for begins as many attempts at most as the settings
/// allow under which it decides, or one where they allow none.
pub fn settings_bound_attempts()
    ensures { SettingsBoundAttempts }
{
    attempts_are_bounded();
}
