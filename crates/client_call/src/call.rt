//! The call at the connector, as far as it went.
ghost use Rattle.std.specs.Prelude.{◌≡◌};
ghost use Rattle.smithy_types.specs.Chain.{Chained};
ghost use Rattle.client_call.specs.Ending.{quiet, quieting};

use crate::{Reading, Upload};
use outside::Outside;

/// The call at the connector.
#[derive(Drop)]
pub enum Call {
    /// None is open.
    Idle,
    /// The request was sent, and no response came yet. The upload is watched or not.
    Sending(Option<Upload>),
    /// The response came, and nothing of its body was read.
    Arrived,
    /// The body is read.
    Reading(Reading),
    /// The call is still open, but its body isn't read on.
    Left,
}

impl Call {
    /// Gives the sleep up that a guard of the open body has open.
    pub fn quiet<X: Outside>(&mut self, outside: &mut X)
        ensures call { self.new ≡ quiet self.old }
        ensures calls { Chained X.makes outside.old (quieting self.old) outside.new }
    {
        match self {
            Call::Reading(reading) => reading.guards.stop(outside),
            _ => {}
        }
    }
}
