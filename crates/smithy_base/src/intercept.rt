//! Interceptors: what a caller brings to see the hooks of a run, and to change it.
ghost use Rattle.std.specs.Prelude.{◌≡◌, IfOk, OnErr};

use smithy_context::{HookAnswer, HookView};
use smithy_types::{Hook, OutOfMemory};
use std::alloc::Global;

/// What is called at the hooks that it overrides. It may change as it runs.
pub trait Intercept: Drop {
    ghost use Rattle.std.specs.Prelude.{◌≡◌, ℕ, List, Bool, IfOk, OnErr};
    ghost use Rattle.smithy_types.specs.declared.hook.Hook.{Hook};
    ghost use Rattle.smithy_context.specs.declared.intercept.HookAnswer.{HookAnswer};
    ghost use Rattle.smithy_context.specs.declared.intercept.HookView.{HookView};

    /// What it is called.
    ghost names: { Self → List ℕ };

    /// Whether it overrides a hook.
    ghost hooks: { Self → Hook → Bool };

    /// What a run of a hook on a view may answer, and what it leaves of the interceptor.
    ghost runs: { Self → Hook → HookView → HookAnswer → Self → Type 0 };

    /// What it is called. The setting Disable has names of this kind.
    fn name(&self) -> &str
        ensures { result.now ≡ names self.now };

    /// Whether the hook is one of its own. It isn't run at any other.
    fn overrides(&self, hook: Hook) -> bool
        ensures { result ≡ hooks self.now hook };

    /// Runs the hook on what stands. After a refusal the interceptor is as it was.
    fn run(&mut self, alloc: Global, hook: Hook, view: &HookView) -> Result<HookAnswer, OutOfMemory>
        ensures ok { IfOk result (λ answer. runs self.old hook view.now answer self.new) }
        ensures err { OnErr result (self.new ≡ self.old) };
}

/// An interceptor of a chain: a box that the caller brings, or one of a known type.
#[derive(Drop)]
pub enum Slot<T: Intercept> {
    /// A box that the caller brings.
    Boxed(Box<dyn Intercept>),
    /// One of the known type.
    Own(T),
}

fn name_of_box(boxed: &Box<dyn Intercept>) -> &str
    ensures { result.now ≡ (Intercept-box boxed.now).names boxed.now.value }
{
    boxed.as_ref().name()
}

fn box_overrides(boxed: &Box<dyn Intercept>, hook: Hook) -> bool
    ensures { result ≡ (Intercept-box boxed.now).hooks boxed.now.value hook }
{
    boxed.as_ref().overrides(hook)
}

// One run through a box.
fn run_box(
    boxed: &mut Box<dyn Intercept>,
    alloc: Global,
    hook: Hook,
    view: &HookView,
) -> Result<HookAnswer, OutOfMemory>
    ensures ok { IfOk result (λ answer. (v : _) × (boxed.new ≡ record boxed.old { value = v })
        × (Intercept-box boxed.old).runs boxed.old.value hook view.now answer v) }
    ensures err { OnErr result (boxed.new ≡ boxed.old) }
{
    let inner = boxed.as_mut();
    inner.run(alloc, hook, view)
}

impl<T: Intercept> Intercept for Slot<T> {
    ghost use Rattle.std.specs.Prelude.{◌≡◌};
    ghost use Rattle.smithy_base.specs.declared.intercept.Slot.TheVariants.{Boxed, Own};

    ghost names = { elim [
      | Boxed b ↦ (Intercept-box b).names b.value
      | Own t ↦ T.names t
    ] };

    ghost hooks = { elim [
      | Boxed b ↦ (Intercept-box b).hooks b.value
      | Own t ↦ T.hooks t
    ] };

    ghost runs = { λ old hook view answer new. elim old [
      | Boxed b ↦ (v : _) × (new ≡ Boxed (record b { value = v }))
          × (Intercept-box b).runs b.value hook view answer v
      | Own t ↦ (u : _) × (new ≡ Own u) × T.runs t hook view answer u
    ] };

    fn name(&self) -> &str {
        match self {
            Slot::Boxed(boxed) => name_of_box(boxed),
            Slot::Own(own) => own.name(),
        }
    }

    fn overrides(&self, hook: Hook) -> bool {
        match self {
            Slot::Boxed(boxed) => box_overrides(boxed, hook),
            Slot::Own(own) => own.overrides(hook),
        }
    }

    fn run(
        &mut self,
        alloc: Global,
        hook: Hook,
        view: &HookView,
    ) -> Result<HookAnswer, OutOfMemory> {
        match self {
            Slot::Boxed(boxed) => run_box(boxed, alloc, hook, view),
            Slot::Own(own) => own.run(alloc, hook, view),
        }
    }
}
