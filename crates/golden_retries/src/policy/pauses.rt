//! A classifier of the caller's that refines what was said before it.
ghost use Rattle.std.specs.Prelude.{◌≡◌};

use crate::policy::classifiers::failed;
use crate::policy::not_served::NotServed;
use anyhow::Result as Told;
use retry_policy::{Classifier, ClassifyRetry, TransientErrorClassifier, run_classifiers_on_ctx};
use smithy_context::InterceptorContext;
use smithy_types::{ErrorKind, FaultKind, List, OutOfMemory, RetryAction};
use std::alloc::Global;

/// Asks for a pause of so many nanoseconds where a retry was indicated without one.
#[derive(Drop)]
struct AddsAPause {
    nanos: u64,
}

impl ClassifyRetry for AddsAPause {
    ghost use Rattle.std.specs.Prelude.{codes, pos, None, Some};
    ghost use Rattle.smithy_types.specs.declared.notes.RetryAction.TheVariants.{NoActionIndicated};
    ghost use Rattle.smithy_types.specs.declared.notes.RetryAction.TheVariants.{RetryIndicated};
    ghost use Rattle.smithy_types.specs.declared.notes.RetryAction.TheVariants.{RetryForbidden};

    ghost called = { λ _. codes "a pause" };

    ghost ranked = { λ _. pos 30 };

    ghost says = { λ adds _. elim [
      | NoActionIndicated ↦ NoActionIndicated
      | RetryIndicated kind retry_after ↦ elim retry_after
          [ None ↦ RetryIndicated kind (Some adds.nanos) | Some pause ↦ NoActionIndicated ]
      | RetryForbidden ↦ NoActionIndicated
    ] };

    fn name(&self) -> &str {
        "a pause"
    }

    fn priority(&self) -> i8 {
        30
    }

    fn classify_retry_v2(&self, _ctx: &InterceptorContext, previous: &RetryAction) -> RetryAction {
        match *previous {
            RetryAction::RetryIndicated { kind, retry_after } => match retry_after {
                None => retry_of(kind, Some(self.nanos)),
                Some(_) => RetryAction::NoActionIndicated,
            },
            RetryAction::NoActionIndicated => RetryAction::NoActionIndicated,
            RetryAction::RetryForbidden => RetryAction::NoActionIndicated,
        }
    }
}

fn retry_of(kind: ErrorKind, retry_after: Option<u64>) -> RetryAction
    ensures { result ≡ RetryAction.RetryIndicated kind retry_after }
{
    RetryAction::RetryIndicated { kind, retry_after }
}

/// Whether the transient classifier stands in front, and the pauses behind it.
const ROWS: &[(bool, &[u64])] = &[
    (false, &[5_000_000_000]),
    (true, &[5_000_000_000]),
    (true, &[1_000_000_000, 5_000_000_000]),
];

// What the transient classifier, where it stands in front, and the caller's with these pauses
// behind it say of a deadline that passed.
fn verdict(alloc: Global, transient: bool, pauses: &[u64]) -> Result<RetryAction, OutOfMemory> {
    let mut classifiers: List<Classifier<NotServed>> = List::new();
    if transient {
        let own = Classifier::TransientError(TransientErrorClassifier::new());
        classifiers.push(alloc, own)?;
    }
    for nanos in pauses {
        let refiner = Box::new(alloc, AddsAPause { nanos: *nanos })?;
        classifiers.push(alloc, Classifier::Boxed(refiner))?;
    }
    let ctx = failed(alloc, FaultKind::Timeout)?;
    Ok(run_classifiers_on_ctx(classifiers.as_slice(), &ctx))
}

/// Prints the verdicts of the lists.
pub fn print(rt: &HostRuntime) -> Told<()> {
    println!(rt; "a classifier of the caller's refines what was said before it")?;
    for (transient, pauses) in ROWS {
        let verdict = verdict(rt.alloc(), *transient, pauses)?;
        println!(rt; "  transient {transient}, pauses {pauses:?}: {verdict:?}")?;
    }
    Ok(())
}
