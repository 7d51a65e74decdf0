//! The call that is open, and the body of its response.
ghost use Rattle.std.specs.Prelude.{◌≡◌, ◌<◌, length, MatchResult, is_none};
ghost use Rattle.std.specs.Option.{option_copied};
ghost use Rattle.outside_scripted.specs.Call.{answer_at, body_due, call_after, call_due};
ghost use Rattle.outside_scripted.specs.Call.{coming, following, Flows, Gives};
ghost use Rattle.outside_scripted.specs.Time.{later};

use crate::records::{Frame, RecordAnswer};
use smithy_types::{List, OutOfMemory, Polled};
use std::mem;

/// The body of a response that was handed out.
#[derive(Debug, Drop)]
pub struct OpenBody {
    /// The frames, in order.
    pub frames: List<Frame>,
    /// Which of them comes next.
    pub next: usize,
    /// Whether they begin again at their end.
    pub repeat: bool,
    /// When the frame before the next one was taken, or the response handed out.
    pub since: u64,
}

/// The call that is open.
#[derive(Debug, Drop)]
pub enum OpenCall {
    /// None is.
    Idle,
    /// The request was begun, and this comes of it.
    Waiting {
        /// When it comes.
        due: u64,
        /// What comes.
        answer: RecordAnswer,
    },
    /// The response was handed out.
    Streaming(OpenBody),
}

impl OpenCall {
    /// When the call has something new, if it says so.
    pub fn due(&self) -> Option<u64>
        ensures { result ≡ call_due self.now }
    {
        match self {
            OpenCall::Idle => None,
            OpenCall::Waiting { due, .. } => Some(*due),
            OpenCall::Streaming(body) => body.due(),
        }
    }

    /// Takes what comes of the request, if it is there at this moment.
    pub fn take_answer(&mut self, moment: u64) -> Option<RecordAnswer>
        ensures answer { result ≡ answer_at moment self.old }
        ensures after { self.new ≡ call_after moment self.old }
    {
        match mem::replace(self, OpenCall::Idle) {
            OpenCall::Waiting { due, answer } => {
                if due <= moment {
                    return Some(answer);
                }
                *self = OpenCall::Waiting { due, answer };
                None
            }
            other => {
                *self = other;
                None
            }
        }
    }

    /// What the body gives at this moment. At its end the call is closed.
    pub fn frame(&mut self, moment: u64) -> Result<Polled, OutOfMemory>
        ensures { MatchResult result
            (λ polled. Gives moment self.old polled self.new)
            (λ _. self.new ≡ self.old) }
    {
        match self {
            OpenCall::Idle => Ok(Polled::End),
            OpenCall::Waiting { .. } => Ok(Polled::Pending),
            OpenCall::Streaming(body) => {
                if body.is_at_end() {
                    *self = OpenCall::Idle;
                    return Ok(Polled::End);
                }
                body.frame(moment)
            }
        }
    }
}

impl OpenBody {
    /// The body of a response that is handed out at this moment.
    pub fn new(frames: List<Frame>, repeat: bool, moment: u64) -> OpenBody
        ensures { result ≡ record { frames = frames; next = 0; repeat = repeat; since = moment } }
    {
        OpenBody {
            frames,
            next: 0,
            repeat,
            since: moment,
        }
    }

    /// The frame that comes next, none at the end.
    fn coming(&self) -> Option<&Frame>
        ensures { option_copied result ≡ coming self.now }
    {
        self.frames.as_slice().get(self.next)
    }

    /// Whether no frame is left.
    pub fn is_at_end(&self) -> bool
        ensures { result ≡ is_none (coming self.now) }
    {
        self.coming().is_none()
    }

    /// When the next frame comes, if one does.
    pub fn due(&self) -> Option<u64>
        ensures { result ≡ body_due self.now }
    {
        match self.coming() {
            Some(frame) => Some(frame.due(self.since)),
            None => None,
        }
    }

    // The place behind the next frame.
    fn following(&self) -> usize
        requires { self.now.next < length self.now.frames }
        ensures { result ≡ following self.now }
    {
        let count = self.frames.len();
        let next = self.next + 1;
        if self.repeat && next == count {
            0
        } else {
            next
        }
    }

    /// The next frame, if it is there at this moment, and the end behind the last one.
    pub fn frame(&mut self, moment: u64) -> Result<Polled, OutOfMemory>
        ensures { MatchResult result
            (λ polled. Flows moment self.old (coming self.old) polled self.new)
            (λ _. self.new ≡ self.old) }
    {
        let Some(frame) = self.coming() else {
            return Ok(Polled::End);
        };
        if frame.due(self.since) > moment {
            return Ok(Polled::Pending);
        }
        let bytes = frame.bytes.clone()?;
        self.next = self.following();
        self.since = moment;
        Ok(Polled::Data(bytes))
    }
}

impl Frame {
    /// When the frame comes, if the one before it was taken at this moment.
    pub fn due(&self, since: u64) -> u64
        ensures { result ≡ later since self.now.delay }
    {
        since.saturating_add(self.delay)
    }
}
