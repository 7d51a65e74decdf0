//! What a host does to the outside: it moves the clock, and hands in what came.
ghost use Rattle.std.specs.Prelude.{◌≡◌, [], None, max, OnOk, OnErr};
ghost use Rattle.outside_hosted.specs.Handing.{handed};

use crate::call::HostCall;
use crate::events::HostEvent;
use crate::hosted_outside::HostedOutside;
use crate::load::with_answer;
use smithy_types::OutOfMemory;
use std::alloc::Global;
use std::mem;

impl HostedOutside {
    /// From here on it is this moment, if that is later.
    pub fn move_to(&mut self, moment: u64)
        ensures { self.new ≡ record self.old { moment = max self.old.moment moment } }
    {
        self.moment = self.moment.max(moment);
    }

    /// Takes what came. What belongs to a call or a load that isn't open is let go, and so is a
    /// second answer. An error changes nothing.
    pub fn hand_in(&mut self, alloc: Global, event: HostEvent) -> Result<(), OutOfMemory>
        ensures ok { OnOk result (self.new ≡ handed event self.old) }
        ensures err { OnErr result (self.new ≡ self.old) }
    {
        match event {
            HostEvent::Reply(call, come) => {
                self.call.take_reply(call, come);
                Ok(())
            }
            HostEvent::Frame(call, frame) => self.call.take_frame(alloc, call, frame),
            HostEvent::Load(id, come) => {
                let load = mem::replace(&mut self.load, None);
                self.load = with_answer(&id, come, load);
                Ok(())
            }
        }
    }

    /// Nothing is open from here on: the caller lost interest.
    pub fn let_go(&mut self)
        ensures { self.new ≡ record self.old {
          sleeps = [];
          call = HostCall.Idle;
          load = None;
        } }
    {
        self.sleeps.close_all();
        self.call = HostCall::Idle;
        self.load = None;
    }
}
