//! A request's body as a body that is read.
ghost use Rattle.std.specs.Prelude.{◌≡◌, IfOk};
ghost use Rattle.client_call.specs.Uploading.{body_bytes};

use body_guard::PolledBody;
use smithy_types::{Blob, Body, OutOfMemory, Polled};
use std::alloc::Global;
use std::mem;

/// A body that is whole: all its bytes are one frame, and none is a frame without bytes.
#[derive(Drop)]
pub struct WholeBody {
    /// The bytes that weren't read.
    pub bytes: Blob,
}

impl WholeBody {
    /// The body of a request, of which nothing was read. One whose bytes are gone is empty.
    pub fn of(body: &Body) -> Result<WholeBody, OutOfMemory>
        ensures { IfOk result (λ whole. whole ≡ record { bytes = body_bytes body.now }) }
    {
        Ok(WholeBody {
            bytes: match body {
                Body::Bytes(bytes) => bytes.clone()?,
                Body::Once(bytes) => bytes.clone()?,
                Body::Taken => Blob::new(),
            },
        })
    }
}

impl PolledBody for WholeBody {
    ghost use Rattle.std.specs.Prelude.{length, Some};
    ghost use Rattle.client_call.specs.Uploading.{PollsWhole, at_whole_end};

    ghost polls = { PollsWhole };

    ghost at_end = { at_whole_end };

    ghost hint = { λ body. Some (length body.bytes) };

    fn poll_frame(&mut self, _alloc: Global) -> Result<Polled, OutOfMemory> {
        let bytes = mem::replace(&mut self.bytes, Blob::new());
        if bytes.is_empty() {
            return Ok(Polled::End);
        }
        Ok(Polled::Data(bytes))
    }

    fn is_end_stream(&self) -> bool {
        self.bytes.is_empty()
    }

    fn size_hint(&self) -> Option<u64> {
        Some(self.bytes.len() as u64)
    }
}
