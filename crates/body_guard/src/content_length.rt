//! Bodies that have to have the length that was declared.
ghost use Rattle.std.specs.Prelude.{◌≡◌, ◌^◌, ◌-◌, ℕ, IfOk, min};
ghost use Rattle.smithy_types.specs.Frames.{data_len};
ghost use Rattle.body_guard.specs.Length.{Enforces, HasReceived, at_length_end};
ghost use Rattle.body_guard.specs.Texts.{length_text, response_fault};

use crate::PolledBody;
use crate::faults::response_fault;
use smithy_types::{Fault, OutOfMemory, Polled, Text};
use std::alloc::Global;
use std::error::Error;
use std::fmt;

/// A body had another length than was declared.
#[derive(Clone, Copy, Debug, PartialEq, Eq)]
pub struct ContentLengthError {
    /// How many bytes there had to be.
    pub expected: u64,
    /// How many bytes there were, at most `u64::MAX`.
    pub received: u64,
}

impl ContentLengthError {
    /// The failure of the body.
    fn fault(&self, alloc: Global) -> Result<Fault, OutOfMemory>
        ensures { IfOk result (λ f.
            f ≡ response_fault (length_text self.now.expected self.now.received)) }
    {
        let text = format!(in alloc; "{self}")?;
        Ok(response_fault(Text::from_string(text)?))
    }
}

/// The text of the Rust crate.
impl fmt::Display for ContentLengthError {
    ghost use Rattle.std.specs.Prelude.{Some};
    ghost use Rattle.body_guard.specs.Texts.{length_text};

    ghost output = { λ e. Some (length_text e.expected e.received) };

    fn fmt<W: fmt::Write>(&self, f: &mut fmt::Formatter<W>) -> fmt::Result {
        write!(
            f,
            "Invalid Content-Length: Expected {} bytes but {} bytes were received",
            self.expected, self.received
        )
    }
}

impl Error for ContentLengthError {}

/// A body that fails at its end where it had another length than was declared.
#[derive(Drop)]
pub struct ContentLengthEnforcingBody<B> {
    body: B,
    expected_length: u64,
    /// The bytes of data so far. They stop at `u128::MAX`.
    bytes_received: u128,
}

impl<B: PolledBody> ContentLengthEnforcingBody<B> {
    /// A body that has to have so many bytes from here on.
    pub fn wrap(body: B, declared: u64) -> ContentLengthEnforcingBody<B>
        ensures wrapped { result ≡ record {
          body = body;
          expected_length = declared;
          bytes_received = 0;
        } }
        ensures received { HasReceived result 0 }
    {
        ContentLengthEnforcingBody {
            body,
            expected_length: declared,
            bytes_received: 0,
        }
    }

    /// What becomes of an answer of the inner body, which isn't asked.
    pub fn judge(&mut self, alloc: Global, inner: Polled) -> Result<Polled, OutOfMemory>
        ensures { Enforces self.old inner result self.new }
    {
        let bytes = u128::from(inner.data_len());
        self.bytes_received = self.bytes_received.saturating_add(bytes);
        match &inner {
            Polled::End => self.end(alloc),
            _ => Ok(inner),
        }
    }

    // What becomes of the inner body's end.
    fn end(&self, alloc: Global) -> Result<Polled, OutOfMemory>
        ensures { (count : ℕ) → HasReceived self.now count
            → IfOk result (λ a. a ≡ at_length_end self.now.expected_length count) }
    {
        if self.bytes_received == u128::from(self.expected_length) {
            return Ok(Polled::End);
        }
        let error = ContentLengthError {
            expected: self.expected_length,
            received: shown(self.bytes_received),
        };
        Ok(Polled::Failed(error.fault(alloc)?))
    }
}

// A count of bytes as it is shown.
fn shown(bytes: u128) -> u64
    ensures { result ≡ min bytes (2 ^ 64 - 1) }
{
    if bytes < u128::from(u64::MAX) {
        bytes as u64
    } else {
        u64::MAX
    }
}

impl<B: PolledBody> PolledBody for ContentLengthEnforcingBody<B> {
    ghost use Rattle.body_guard.specs.Length.{PollsEnforced};

    ghost polls = { λ old answer new. PollsEnforced B.polls old answer new };

    ghost at_end = { λ body. B.at_end body.body };

    ghost hint = { λ body. B.hint body.body };

    fn poll_frame(&mut self, alloc: Global) -> Result<Polled, OutOfMemory> {
        let inner = self.body.poll_frame(alloc)?;
        self.judge(alloc, inner)
    }

    fn is_end_stream(&self) -> bool {
        self.body.is_end_stream()
    }

    fn size_hint(&self) -> Option<u64> {
        self.body.size_hint()
    }
}
