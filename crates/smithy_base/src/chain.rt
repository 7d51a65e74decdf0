//! Chains of interceptors.
ghost use Rattle.std.specs.Prelude.{◌≡◌, ◌&&◌, not, List, ◌⊎◌, IfOk, OnOk, OnErr};
ghost use Rattle.std.specs.List.{list_any};
ghost use Rattle.smithy_base.specs.Chain.{is_disabled, is_run, stands_in, Turn, RunsChain};
ghost use Rattle.smithy_base.specs.Chain.{RunsInPart};
ghost use Rattle.smithy_base.specs.Walk.{all_noted};
ghost use Rattle.smithy_context.specs.declared.intercept.HookAnswer.{HookAnswer};

use crate::intercept::{Intercept, Slot};
use crate::walk::Walk;
use smithy_context::{HookAnswer, HookView, Setting, SettingKey};
use smithy_types::{Hook, OutOfMemory, Text};
use std::alloc::Global;

/// Runs a hook of a chain, from left to right: each interceptor that overrides the hook and isn't
/// disabled by its name, on the view with the earlier changes and settings. A change that the hook
/// may not make is ignored, and later ones run after a failure.
///
/// The answer has the last change, the settings of all, and the last failure. Where none overrides
/// the hook nothing is copied. Where memory is wanting, the interceptors that had run keep what they
/// did.
pub fn run_chain<T: Intercept>(
    alloc: Global,
    chain: &mut [Slot<T>],
    hook: Hook,
    view: &HookView,
) -> Result<HookAnswer, OutOfMemory>
    ensures ok { IfOk result (λ answer. RunsChain ⟦<Slot<T> as Intercept>⟧.names
        ⟦<Slot<T> as Intercept>⟧.hooks ⟦<Slot<T> as Intercept>⟧.runs hook view.now chain.old answer
        chain.new) }
    ensures err { OnErr result (RunsInPart ⟦<Slot<T> as Intercept>⟧.names
        ⟦<Slot<T> as Intercept>⟧.hooks ⟦<Slot<T> as Intercept>⟧.runs hook view.now chain.old
        chain.new) }
{
    run_each(alloc, chain, hook, view)
}

/// Runs a hook of a chain of any interceptors, as `run_chain` does.
pub fn run_each<I: Intercept>(
    alloc: Global,
    chain: &mut [I],
    hook: Hook,
    view: &HookView,
) -> Result<HookAnswer, OutOfMemory>
    ensures ok { IfOk result (λ answer. RunsChain I.names I.hooks I.runs hook view.now chain.old
        answer chain.new) }
    ensures err { OnErr result (RunsInPart I.names I.hooks I.runs hook view.now chain.old
        chain.new) }
{
    if !is_overridden(chain, hook) {
        return Ok(HookAnswer::done());
    }
    let mut walk = Walk::begin(view.clone()?);
    for i in 0..chain.len() {
        take_turn(alloc, &mut chain[i], hook, &mut walk)?;
    }
    Ok(walk.answer)
}

// Whether an interceptor of the chain overrides the hook.
fn is_overridden<I: Intercept>(chain: &[I], hook: Hook) -> bool
    ensures { result ≡ list_any (λ one. I.hooks one hook) chain.now }
{
    chain.iter().any(|one| one.overrides(hook))
}

// One interceptor's turn. Without memory it is as it was, or it had its turn.
fn take_turn<I: Intercept>(
    alloc: Global,
    one: &mut I,
    hook: Hook,
    walk: &mut Walk,
) -> Result<(), OutOfMemory>
    ensures ok { OnOk result ((given : List HookAnswer)
        × Turn I.names I.hooks I.runs hook walk.old.view one.old given one.new
        × (walk.new ≡ all_noted hook walk.old given)) }
    ensures err { OnErr result ((one.new ≡ one.old)
        ⊎ ((given : List HookAnswer)
        × Turn I.names I.hooks I.runs hook walk.old.view one.old given one.new)) }
{
    if !is_run(one, hook, &walk.view) {
        return Ok(());
    }
    let answer = one.run(alloc, hook, &walk.view)?;
    walk.note(alloc, hook, answer)
}

// Whether the interceptor is run on this view.
fn is_run<I: Intercept>(one: &I, hook: Hook, view: &HookView) -> bool
    ensures { result ≡ is_run I.names I.hooks I.runs hook view.now one.now }
{
    one.overrides(hook) && !is_disabled(view, one.name())
}

// Whether the Disable setting that is seen has the name.
fn is_disabled(view: &HookView, name: &str) -> bool
    ensures { result ≡ is_disabled view.now name.now }
{
    match view.settings.load(&SettingKey::Disable) {
        Some(Setting::Disable(names)) => stands_in(names.as_slice(), name),
        _ => false,
    }
}

fn stands_in(names: &[Text], name: &str) -> bool
    ensures { result ≡ stands_in names.now name.now }
{
    names.iter().any(|one| one.as_str() == name)
}
