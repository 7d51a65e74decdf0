//! The body of a response, as far as it was handed in.
ghost use Rattle.std.specs.Prelude.{◌≡◌, take, IfOk, OnOk, OnErr};
ghost use Rattle.outside_hosted.specs.Body.{no_body, with_data, with_frame, with_own, with_piece};

use crate::events::HostFrame;
use crate::frames::Frames;
use smithy_types::{Blob, OutOfMemory};
use std::alloc::Global;

/// How many bytes of a body's data are taken. What is over stays with the host.
pub const ROOM: usize = 16384;

/// What came of a response's body.
#[derive(Drop)]
pub struct HostBody {
    /// What wasn't asked for yet.
    pub frames: Frames,
    /// How many bytes of data are still taken.
    pub room: usize,
}

impl HostBody {
    /// A body of which nothing came yet. It takes no memory.
    pub fn new(alloc: Global) -> HostBody
        ensures { result ≡ no_body }
    {
        HostBody {
            frames: Frames::new(alloc),
            room: ROOM,
        }
    }

    /// Takes a frame that is of this call, and lets any other go. An error changes nothing.
    pub fn take_own(
        &mut self,
        alloc: Global,
        is_own: bool,
        frame: HostFrame,
    ) -> Result<(), OutOfMemory>
        ensures ok { OnOk result (self.new ≡ with_own is_own frame self.old) }
        ensures err { OnErr result (self.new ≡ self.old) }
    {
        if is_own {
            self.take(alloc, frame)
        } else {
            Ok(())
        }
    }

    // Takes a frame: of data as many bytes as there is room for.
    fn take(&mut self, alloc: Global, frame: HostFrame) -> Result<(), OutOfMemory>
        ensures ok { OnOk result (self.new ≡ with_frame frame self.old) }
        ensures err { OnErr result (self.new ≡ self.old) }
    {
        match frame {
            HostFrame::Data(bytes) => self.take_data(alloc, bytes),
            HostFrame::Trailers => self.frames.push(HostFrame::Trailers),
            HostFrame::End => self.frames.push(HostFrame::End),
            HostFrame::Broken(fault) => self.frames.push(HostFrame::Broken(fault)),
        }
    }

    fn take_data(&mut self, alloc: Global, bytes: Blob) -> Result<(), OutOfMemory>
        ensures ok { OnOk result (self.new ≡ with_data bytes self.old) }
        ensures err { OnErr result (self.new ≡ self.old) }
    {
        let piece = front_of(alloc, bytes, self.room)?;
        self.put(piece)
    }

    fn put(&mut self, piece: Blob) -> Result<(), OutOfMemory>
        ensures ok { OnOk result (self.new ≡ with_piece piece self.old) }
        ensures err { OnErr result (self.new ≡ self.old) }
    {
        let count = piece.len();
        if count == 0 {
            return Ok(());
        }
        self.frames.push(HostFrame::Data(piece))?;
        self.room = self.room.saturating_sub(count);
        Ok(())
    }
}

// The first bytes, as many as there is room for.
fn front_of(alloc: Global, bytes: Blob, room: usize) -> Result<Blob, OutOfMemory>
    ensures { IfOk result (λ b. b ≡ take room bytes) }
{
    if bytes.len() <= room {
        return Ok(bytes);
    }
    Blob::from_slice(alloc, &bytes.as_slice()[..room])
}
