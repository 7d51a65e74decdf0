//! Uploads whose stall is seen while the response is waited for.
ghost use Rattle.std.specs.Prelude.{◌≡◌, ◌||◌, List};
ghost use Rattle.smithy_types.specs.Chain.{ByCalls};
ghost use Rattle.stream_guard.specs.Logs.{Keeps};
ghost use Rattle.stream_guard.specs.Report.{Came};
ghost use Rattle.body_guard.specs.Upload.{
  Checks,
  ChecksMaybe,
  Notes,
  NotesEvent,
  PollsNoted,
  completes,
  has_upload,
  is_enabled,
  is_event,
  standing_check,
  upload_answer,
};

use crate::events::push_event;
use crate::rates::upload_rate;
use crate::stalled_stream::standing_stall;
use crate::{Grace, GraceAnswer, PolledBody};
use smithy_context::{SettingKey, Settings};
use smithy_types::{
    ConnectorKind, Fault, FaultKind, OutOfMemory, Polled, StalledStreamProtectionConfig, Text,
    Timers,
};
use std::alloc::Global;
use stream_guard::{MinimumThroughputBodyOptions, ThroughputLogs};

/// What was seen of an upload. The body that is read and the check are lent it in turn.
pub type UploadThroughput = ThroughputLogs;

/// A body whose answers are noted as it is read.
#[derive(Drop)]
pub struct ThroughputReadingBody<B> {
    body: B,
}

impl<B: PolledBody> ThroughputReadingBody<B> {
    /// A body that is read from here on.
    pub fn new(body: B) -> ThroughputReadingBody<B>
        ensures { result.body ≡ body }
    {
        ThroughputReadingBody { body }
    }

    /// The next frame. It is noted, and so is that the body is over.
    pub fn poll_frame<T: Timers>(
        &mut self,
        alloc: Global,
        timers: &mut T,
        upload: &mut UploadThroughput,
    ) -> Result<Polled, OutOfMemory>
        ensures { ByCalls T.relates timers.old
            (PollsNoted B.polls B.at_end self.old upload.old result self.new upload.new)
            timers.new }
    {
        match self.body.poll_frame(alloc) {
            Ok(inner) => {
                let at_end = self.body.is_end_stream();
                note(timers, upload, at_end, &inner);
                Ok(inner)
            }
            Err(refusal) => Err(refusal),
        }
    }

    /// Whether the inner body says that it is at its end.
    pub fn is_end_stream(&self) -> bool
        ensures { result ≡ B.at_end self.now.body }
    {
        self.body.is_end_stream()
    }

    /// How many bytes the inner body says that it still has, where it says so.
    pub fn size_hint(&self) -> Option<u64>
        ensures { result ≡ B.hint self.now.body }
    {
        self.body.size_hint()
    }
}

// Notes an answer of a body that says whether it is at its end.
fn note<T: Timers>(timers: &mut T, upload: &mut UploadThroughput, at_end: bool, answer: &Polled)
    ensures { ByCalls T.relates timers.old
        (Notes at_end upload.old answer.now upload.new) timers.new }
{
    note_event(timers, upload, answer);
    note_end(upload, completes(at_end, answer));
}

// Notes the event of an answer, where it is one.
fn note_event<T: Timers>(timers: &mut T, upload: &mut UploadThroughput, answer: &Polled)
    ensures { ByCalls T.relates timers.old
        (NotesEvent upload.old answer.now upload.new) timers.new }
{
    if !is_event(answer) {
        return;
    }
    let now = timers.now();
    push_event(upload, now, answer);
}

// Notes that the upload is over, where it is.
fn note_end(upload: &mut UploadThroughput, over: bool)
    ensures start { upload.new.start ≡ upload.old.start }
    ensures resolution { upload.new.resolution ≡ upload.old.resolution }
    ensures complete { upload.new.complete ≡ (upload.old.complete || over) }
    ensures kept { (came : List Came) → Keeps upload.old came → Keeps upload.new came }
{
    if over {
        upload.mark_complete();
    }
}

// Whether there are bytes, or nothing yet.
fn is_event(answer: &Polled) -> bool
    ensures { result ≡ is_event answer.now }
{
    matches!(answer, Polled::Data(_) | Polled::Pending)
}

// Whether nothing comes behind this answer.
fn completes(at_end: bool, answer: &Polled) -> bool
    ensures { result ≡ completes at_end answer.now }
{
    match answer {
        Polled::Data(_) => at_end,
        Polled::End => true,
        Polled::Failed(_) => true,
        _ => false,
    }
}

/// A look at an upload, while the connector has no response yet.
#[derive(Drop)]
pub struct UploadThroughputCheck {
    grace: Grace,
}

impl UploadThroughputCheck {
    /// No violation.
    pub fn new(options: MinimumThroughputBodyOptions) -> UploadThroughputCheck
        ensures { result.grace ≡ record { options = options; sleep = None } }
    {
        UploadThroughputCheck {
            grace: Grace::new(options),
        }
    }

    /// Looks at the upload. It is asked only after the connector was pending. A failure says that
    /// the upload stalls. After want of memory the look that was made stands.
    pub fn check<T: Timers>(
        &mut self,
        alloc: Global,
        timers: &mut T,
        upload: &mut UploadThroughput,
    ) -> Result<Option<Fault>, OutOfMemory>
        ensures { ByCalls T.relates timers.old
            (Checks (T.sleeps timers.old) self.old upload.old result self.new upload.new)
            timers.new }
    {
        let now = timers.now();
        let report = upload.report(now);
        let said = self.grace.look(alloc, timers, upload_rate(report));
        upload_answer(said)
    }
}

// What is answered of an upload.
fn upload_answer(said: Result<GraceAnswer, OutOfMemory>) -> Result<Option<Fault>, OutOfMemory>
    ensures { result ≡ upload_answer said }
{
    match said {
        Ok(GraceAnswer::Over(text)) => Ok(Some(timeout(text))),
        Ok(_) => Ok(None),
        Err(refusal) => Err(refusal),
    }
}

// A connector that took too long.
fn timeout(text: Text) -> Fault
    ensures { result ≡ record { kind = FaultKind.Connector ConnectorKind.Timeout; text = text } }
{
    Fault {
        kind: FaultKind::Connector(ConnectorKind::Timeout),
        text,
    }
}

/// A check of an upload, or none.
#[derive(Drop)]
pub enum MaybeUploadThroughputCheck {
    /// The upload is looked at.
    Checked(UploadThroughputCheck),
    /// It isn't.
    Direct,
}

impl MaybeUploadThroughputCheck {
    /// A check where the setting Upload stands and the setting Stall protects a stream.
    pub fn new(settings: &Settings) -> MaybeUploadThroughputCheck
        ensures { result ≡ standing_check settings.now }
    {
        match standing_stall(settings) {
            Some(stall) => {
                if has_upload(settings) && is_enabled(stall) {
                    let options = MinimumThroughputBodyOptions::from(stall);
                    MaybeUploadThroughputCheck::Checked(UploadThroughputCheck::new(options))
                } else {
                    MaybeUploadThroughputCheck::Direct
                }
            }
            None => MaybeUploadThroughputCheck::Direct,
        }
    }

    /// Looks at the upload, where it is looked at.
    pub fn check<T: Timers>(
        &mut self,
        alloc: Global,
        timers: &mut T,
        upload: &mut UploadThroughput,
    ) -> Result<Option<Fault>, OutOfMemory>
        ensures { ByCalls T.relates timers.old
            (ChecksMaybe (T.sleeps timers.old) self.old upload.old result self.new upload.new)
            timers.new }
    {
        match self {
            MaybeUploadThroughputCheck::Checked(check) => check.check(alloc, timers, upload),
            MaybeUploadThroughputCheck::Direct => Ok(None),
        }
    }
}

// Whether the setting Upload stands.
fn has_upload(settings: &Settings) -> bool
    ensures { result ≡ has_upload settings.now }
{
    settings.load(&SettingKey::Upload).is_some()
}

// Whether a stream is protected.
fn is_enabled(stall: StalledStreamProtectionConfig) -> bool
    ensures { result ≡ is_enabled stall }
{
    stall.upload || stall.download
}
