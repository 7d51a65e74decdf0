//! What follows for whole runs of guards.
ghost use Rattle.std.specs.Prelude.{◌≡◌, ℕ, Bool, List, Ok, map};
ghost use Rattle.smithy_types.specs.Chain.{Chained};
ghost use Rattle.smithy_types.specs.declared.timers.TimersCall.{TimersCall};
ghost use Rattle.body_guard.specs.Download.{Judges};
ghost use Rattle.body_guard.specs.Length.{Enforces, HasReceived, guarded};
ghost use Rattle.body_guard.specs.Runs.{EnforcesStep, JudgedStep};
ghost use Rattle.body_guard.specs.declared.content_length.ContentLengthEnforcingBody.{
  ContentLengthEnforcingBody,
};
ghost use Rattle.body_guard.specs.declared.download.MinimumThroughputDownloadBody.{
  MinimumThroughputDownloadBody,
};
ghost use Rattle.smithy_types.specs.declared.polled.Polled.{Polled};

use crate::PolledBody;

/// The answers of a body that was to have n bytes are those of its inner body, but for a failure in
/// place of an end before which the bytes differ from n.
pub fn answers_are_guarded<B: PolledBody>()
    ensures { (body after : ContentLengthEnforcingBody B) → (steps : List JudgedStep)
        → HasReceived body 0 → Chained EnforcesStep body steps after
        → map (λ s. s.answer) steps ≡ guarded body.expected_length (map (λ s. s.inner) steps) }
{}

/// A guard against stalls answers Pending only where the inner body did.
pub fn a_stall_is_no_pending<B: PolledBody>()
    ensures { (sleeps : Bool) → (old new : MinimumThroughputDownloadBody B) → (inner : Polled)
        → (calls : List TimersCall)
        → Judges sleeps old inner (Ok Polled.Pending) new calls → inner ≡ Polled.Pending }
{}

/// A guard of lengths answers Pending only where the inner body did.
pub fn a_length_is_no_pending<B: PolledBody>()
    ensures { (old new : ContentLengthEnforcingBody B) → (inner : Polled) → (count : ℕ)
        → HasReceived old count → Enforces old inner (Ok Polled.Pending) new
        → inner ≡ Polled.Pending }
{}
