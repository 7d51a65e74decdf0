//! The frames of a body that were handed in and not asked for yet.
ghost use Rattle.std.specs.Prelude.{◌≡◌, ◌==◌, [], ◌∷◌, ◌++◌, drop, length, slice_get, OnOk, OnErr};

use crate::events::HostFrame;
use smithy_types::OutOfMemory;
use std::alloc::Global;
use std::collections::VecDeque;
use std::marker::Model;

/// Frames, the next one first.
#[derive(Drop)]
pub struct Frames {
    queue: VecDeque<HostFrame>,
}

impl Model for Frames {
    ghost use Rattle.std.specs.Prelude.{List};
    ghost use Rattle.outside_hosted.specs.declared.events.HostFrame.{HostFrame};

    ghost Value = { List HostFrame };

    ghost view = { λ f. f.queue.items };
}

impl Frames {
    /// No frame. It takes no memory.
    pub fn new(alloc: Global) -> Frames
        ensures { result ≡ [] }
    {
        Frames {
            queue: VecDeque::new(alloc),
        }
    }

    /// Puts a frame behind the others.
    pub fn push(&mut self, frame: HostFrame) -> Result<(), OutOfMemory>
        ensures ok { OnOk result (self.new ≡ self.old ++ frame ∷ []) }
        ensures err { OnErr result (self.new ≡ self.old) }
    {
        self.queue.push_back(frame)?;
        Ok(())
    }

    /// Takes the next frame.
    pub fn take(&mut self) -> Option<HostFrame>
        ensures next { result ≡ slice_get self.old 0 }
        ensures rest { self.new ≡ drop 1 self.old }
    {
        self.queue.pop_front()
    }

    /// Whether there is none.
    pub fn is_empty(&self) -> bool
        ensures { result ≡ (length self.now == 0) }
    {
        self.queue.is_empty()
    }
}
