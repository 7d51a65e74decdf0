//! Initial.
ghost use Rattle.std.specs.Prelude.{◌≡◌, IfOk, OnErr};
ghost use Rattle.client_retries.specs.Initially.{Begun, answer_of};
ghost use Rattle.retry_quota.specs.Meaning.{IsKept};
ghost use Rattle.smithy_types.specs.Chain.{Chained};

use crate::{QuotaMeaning, RetryStrategy};
use outside::{Outside, present};
use retry_policy::{Initial, StrategyError};
use retry_quota::Quota;
use run_grammar::Answer;
use smithy_context::Settings;
use smithy_types::OutOfMemory;
use std::alloc::Global;

/// Whether an attempt is begun: asks the clock, where the client has a time source, and then the
/// strategy. It is absent where a setting that the strategy needs is missing.
pub fn initial<X: Outside, Q: Quota>(
    alloc: Global,
    time_source: bool,
    strategy: &mut RetryStrategy<Q::Permit>,
    outside: &mut X,
    quota: &mut Q,
    settings: &Settings,
) -> Result<Answer, OutOfMemory>
    ensures ok { IfOk result (λ a. (calls : _) × Chained X.makes outside.old calls outside.new
        × Begun ⟦<Q as QuotaMeaning>⟧.means
        time_source settings.now strategy.old quota.old a strategy.new calls quota.new) }
    ensures outside { OnErr result ((calls : _) × Chained X.makes outside.old calls outside.new) }
    ensures quota { OnErr result (IsKept (Q.meaning quota.old) (Q.meaning quota.new)) }
    ensures strategy { OnErr result (strategy.new ≡ strategy.old) }
{
    match strategy {
        RetryStrategy::Never(never) => Ok(answer_of(never.should_attempt_initial_request())),
        RetryStrategy::Standard(standard) => {
            let now = present(time_source, outside);
            match standard.should_attempt_initial_request(alloc, settings, quota, now) {
                Ok(first) => Ok(answer_of(first)),
                Err(StrategyError::MissingSetting) => Ok(Answer::Absent),
                Err(StrategyError::OutOfMemory) => Err(OutOfMemory),
            }
        }
    }
}

fn answer_of(first: Initial) -> Answer
    ensures { result ≡ answer_of first }
{
    match first {
        Initial::Go => Answer::Go,
        Initial::No => Answer::No,
        Initial::Delay(nanos) => Answer::Delay(nanos),
    }
}
