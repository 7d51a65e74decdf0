//! Bodies that are read frame by frame.
ghost use Rattle.std.specs.Prelude.{◌≡◌, true, Some, Ok};

use smithy_types::{OutOfMemory, Polled};
use std::alloc::Global;

/// A body that is read frame by frame. A poll never waits.
pub trait PolledBody: Drop {
    ghost use Rattle.std.specs.Prelude.{◌≡◌, ℕ, Bool, Option, Result};
    ghost use Rattle.smithy_types.specs.declared.polled.Polled.{Polled};
    ghost use Rattle.smithy_types.specs.declared.memory.OutOfMemory.{OutOfMemory};

    /// What a poll may make of the body: the body before it, the answer, and the body after it.
    ghost polls: { Self → Result Polled OutOfMemory → Self → Type 0 };

    /// Whether the body says that it is at its end.
    ghost at_end: { Self → Bool };

    /// How many bytes the body says that it still has, where it says so.
    ghost hint: { Self → Option ℕ };

    /// The next frame, where there is one.
    fn poll_frame(&mut self, alloc: Global) -> Result<Polled, OutOfMemory>
        ensures { polls self.old result self.new };

    /// Whether nothing comes any more. False where that isn't known.
    fn is_end_stream(&self) -> bool
        ensures { result ≡ at_end self.now };

    /// How many bytes are left, where that is known.
    fn size_hint(&self) -> Option<u64>
        ensures { result ≡ hint self.now };
}

/// A body that is at its end.
#[derive(Clone, Copy, Debug)]
pub struct NoBody;

impl PolledBody for NoBody {
    ghost use Rattle.std.specs.Prelude.{◌≡◌, true, Some, Ok};
    ghost use Rattle.smithy_types.specs.declared.polled.Polled.TheVariants.{End};

    ghost polls = { λ old answer new. (answer ≡ Ok End) × (new ≡ old) };

    ghost at_end = { λ _. true };

    ghost hint = { λ _. Some 0 };

    fn poll_frame(&mut self, _alloc: Global) -> Result<Polled, OutOfMemory> {
        Ok(Polled::End)
    }

    fn is_end_stream(&self) -> bool {
        true
    }

    fn size_hint(&self) -> Option<u64> {
        Some(0)
    }
}
