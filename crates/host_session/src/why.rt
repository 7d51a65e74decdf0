//! Why a message is refused.
ghost use Rattle.std.specs.Prelude.{◌≡◌};
ghost use Rattle.host_session.specs.Refusing.{refusal_of, why_text};

use json_host::SeatMessage;

/// Why a message is refused. It changed nothing.
#[derive(Clone, Copy, Debug, PartialEq, Eq)]
pub enum Why {
    /// It is for a seat that there isn't.
    NoSeat,
    /// A run would be begun, and the seat's one before isn't over.
    Busy,
    /// The seat has no run.
    Idle,
}

impl Why {
    /// What the host is told.
    pub fn text(self) -> &'static str
        ensures { result.now ≡ why_text self }
    {
        match self {
            Why::NoSeat => "no seat",
            Why::Busy => "busy",
            Why::Idle => "idle",
        }
    }
}

/// Why this message is refused by a seat whose run is under way, or isn't. None where it is taken.
pub fn refusal_of(message: &SeatMessage, is_running: bool) -> Option<Why>
    ensures { result ≡ refusal_of message.now is_running }
{
    match message {
        SeatMessage::Invoke(_) if is_running => Some(Why::Busy),
        SeatMessage::Invoke(_) => None,
        SeatMessage::At(_, _) | SeatMessage::GiveUp(_) if is_running => None,
        SeatMessage::At(_, _) | SeatMessage::GiveUp(_) => Some(Why::Idle),
    }
}
