//! A walk over a chain: what is seen, and what was answered so far.
ghost use Rattle.std.specs.Prelude.{◌≡◌, None, [], OnOk};
ghost use Rattle.smithy_context.specs.Hooks.{with_change};
ghost use Rattle.smithy_context.specs.Layer.{merged};
ghost use Rattle.smithy_context.specs.Settings.{or_else, with_merged};
ghost use Rattle.smithy_base.specs.Walk.{noted};

use smithy_context::writes::allowed;
use smithy_context::{Change, HookAnswer, HookView, Layer};
use smithy_types::{Hook, OutOfMemory, Text};
use std::alloc::Global;

/// What a walk over a chain has come to.
#[derive(Drop)]
pub(crate) struct Walk {
    /// What the next interceptor sees.
    pub view: HookView,
    /// What was answered together so far.
    pub answer: HookAnswer,
}

impl Walk {
    /// The walk at the chain's left end.
    pub(crate) fn begin(view: HookView) -> Walk
        ensures view { result.view ≡ view }
        ensures change { result.answer.change ≡ None }
        ensures settings { result.answer.settings ≡ [] }
        ensures failure { result.answer.failure ≡ None }
    {
        Walk {
            view,
            answer: HookAnswer::done(),
        }
    }

    /// Takes an answer in: the change, where the hook may make it, the settings and the failure.
    pub(crate) fn note(
        &mut self,
        alloc: Global,
        hook: Hook,
        answer: HookAnswer,
    ) -> Result<(), OutOfMemory>
        ensures { OnOk result (self.new ≡ noted hook self.old answer) }
    {
        let HookAnswer {
            change,
            settings,
            failure,
        } = answer;
        self.note_change(allowed(hook, change))?;
        self.view.settings.merge(alloc, &settings)?;
        merge_layer(alloc, &mut self.answer.settings, &settings)?;
        self.note_failure(failure);
        Ok(())
    }

    fn note_change(&mut self, change: Option<Change>) -> Result<(), OutOfMemory>
        ensures view { OnOk result (self.new.view ≡ with_change self.old.view change) }
        ensures change { OnOk result
            (self.new.answer.change ≡ or_else change self.old.answer.change) }
        ensures settings { OnOk result (self.new.answer.settings ≡ self.old.answer.settings) }
        ensures failure { OnOk result (self.new.answer.failure ≡ self.old.answer.failure) }
    {
        let Some(change) = change else {
            return Ok(());
        };
        make_change(&mut self.view, &change)?;
        self.answer.change = Some(change);
        Ok(())
    }

    fn note_failure(&mut self, failure: Option<Text>)
        ensures view { self.new.view ≡ self.old.view }
        ensures change { self.new.answer.change ≡ self.old.answer.change }
        ensures settings { self.new.answer.settings ≡ self.old.answer.settings }
        ensures failure { self.new.answer.failure ≡ or_else failure self.old.answer.failure }
    {
        if failure.is_some() {
            self.answer.failure = failure;
        }
    }
}

// Makes the change.
fn make_change(view: &mut HookView, change: &Change) -> Result<(), OutOfMemory>
    ensures { OnOk result (view.new ≡ with_change view.old (Some change.now)) }
{
    match change {
        Change::Input(input) => view.input = Some(input.clone()?),
        Change::Request(request) => view.request = Some(request.clone()?),
        Change::Response(response) => view.response = Some(response.clone()?),
        Change::Outcome(outcome) => view.outcome = Some(outcome.clone()?),
    }
    Ok(())
}

// Makes each key that the second layer mentions stand so in the first.
fn merge_layer(alloc: Global, layer: &mut Layer, other: &Layer) -> Result<(), OutOfMemory>
    ensures { OnOk result (layer.new ≡ merged layer.old other.now) }
{
    for entry in other.entries() {
        layer.set(alloc, entry.clone()?)?;
    }
    Ok(())
}
