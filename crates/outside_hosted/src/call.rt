//! The call that is open.
ghost use Rattle.std.specs.Prelude.{◌≡◌, OnOk, OnErr};
ghost use Rattle.outside_hosted.specs.Call.{call_has_news, first_of, order_left, open_call};
ghost use Rattle.outside_hosted.specs.Call.{with_call_frame, with_own_reply, with_reply};
ghost use Rattle.outside_hosted.specs.Call.{without_order};

use crate::body::HostBody;
use crate::events::{HostFrame, HostReply};
use smithy_types::{HttpRequest, OutOfMemory, TimeoutConfig};
use std::alloc::Global;
use std::mem;

/// What the host is to send.
#[derive(Drop)]
pub struct Order {
    /// The request.
    pub request: HttpRequest,
    /// The deadlines, of which those of the connection are the host's.
    pub timeouts: Option<TimeoutConfig>,
    /// The attempt whose connection the host is to remember.
    pub capture: Option<u64>,
}

/// The call that is open.
#[derive(Drop)]
pub enum HostCall {
    /// None is.
    Idle,
    /// A request was begun, and what came of it wasn't asked for yet.
    Waiting {
        /// The call's number.
        number: u64,
        /// What is to be sent, until the host is told.
        order: Option<Order>,
        /// What came of it.
        reply: Option<HostReply>,
        /// What came of the response's body meanwhile.
        body: HostBody,
    },
    /// The response was handed out.
    Streaming {
        /// The call's number.
        number: u64,
        /// What came of its body.
        body: HostBody,
    },
}

impl HostCall {
    /// Takes what came of the request of the call of this number. It is let go where that call
    /// isn't open, or something came of it before.
    pub fn take_reply(&mut self, call: u64, come: HostReply)
        ensures { self.new ≡ with_reply call come self.old }
    {
        match mem::replace(self, HostCall::Idle) {
            HostCall::Waiting {
                number,
                order,
                reply,
                body,
            } => {
                *self = HostCall::Waiting {
                    number,
                    order,
                    reply: own_reply(number == call, come, reply),
                    body,
                };
            }
            other => *self = other,
        }
    }

    /// Takes a frame of the body of that call's response. It is let go where the call isn't open.
    /// An error changes nothing.
    pub fn take_frame(
        &mut self,
        alloc: Global,
        call: u64,
        frame: HostFrame,
    ) -> Result<(), OutOfMemory>
        ensures ok { OnOk result (self.new ≡ with_call_frame call frame self.old) }
        ensures err { OnErr result (self.new ≡ self.old) }
    {
        match mem::replace(self, HostCall::Idle) {
            HostCall::Idle => Ok(()),
            HostCall::Waiting {
                number,
                order,
                reply,
                mut body,
            } => {
                let done = body.take_own(alloc, number == call, frame);
                *self = HostCall::Waiting {
                    number,
                    order,
                    reply,
                    body,
                };
                done
            }
            HostCall::Streaming { number, mut body } => {
                let done = body.take_own(alloc, number == call, frame);
                *self = HostCall::Streaming { number, body };
                done
            }
        }
    }

    /// Takes what is to be sent, where the host wasn't told yet.
    pub fn take_order(&mut self) -> Option<Order>
        ensures order { result ≡ order_left self.old }
        ensures after { self.new ≡ without_order self.old }
    {
        match mem::replace(self, HostCall::Idle) {
            HostCall::Waiting {
                number,
                order,
                reply,
                body,
            } => {
                *self = HostCall::Waiting {
                    number,
                    order: None,
                    reply,
                    body,
                };
                order
            }
            other => {
                *self = other;
                None
            }
        }
    }

    /// The number of the open call.
    pub fn number(&self) -> Option<u64>
        ensures { result ≡ open_call self.now }
    {
        match self {
            HostCall::Idle => None,
            HostCall::Waiting { number, .. } => Some(*number),
            HostCall::Streaming { number, .. } => Some(*number),
        }
    }

    /// Whether something came that wasn't asked for yet.
    pub fn has_news(&self) -> bool
        ensures { result ≡ call_has_news self.now }
    {
        match self {
            HostCall::Idle => false,
            HostCall::Waiting { reply, .. } => reply.is_some(),
            HostCall::Streaming { body, .. } => !body.frames.is_empty(),
        }
    }
}

// What came of the request, with this, if it is of that call and the first.
fn own_reply(is_own: bool, come: HostReply, reply: Option<HostReply>) -> Option<HostReply>
    ensures { result ≡ with_own_reply is_own come reply }
{
    if is_own {
        Some(first_of(reply, come))
    } else {
        reply
    }
}

// What came first.
fn first_of(earlier: Option<HostReply>, come: HostReply) -> HostReply
    ensures { result ≡ first_of earlier come }
{
    match earlier {
        Some(earlier) => earlier,
        None => come,
    }
}
