//! A session: the seats of a host, and what they share.
ghost use Rattle.std.specs.Prelude.{◌≡◌, ◌++◌, ◌<◌, IfOk, OnOk, length};
ghost use Rattle.json_buckets.specs.Buckets.{buckets_text};
ghost use Rattle.json_forms.specs.Lines.{line};
ghost use Rattle.json_host.specs.Replies.{end_data, refused_data};
ghost use Rattle.host_session.specs.Feeding.{Feeds, Meets, MeetsBy, TakesAt};
ghost use Rattle.host_session.specs.Refusing.{TellsWhy, refusal_at, why_text};

use crate::seat::Seat;
use crate::why::{Why, refusal_of};
use crate::world::{HostQuota, HostedMeans, HostedWorld};
use json_buckets::print_buckets;
use json_forms::{Arena, ReadError};
use json_host::{HostMessage, SeatMessage, read_message, write_end, write_refused};
use script_forms::refusal_of_line;
use smithy_types::OutOfMemory;
use std::alloc::Global;

/// What a line came to.
#[derive(Clone, Copy, Debug, PartialEq, Eq)]
pub enum Fed {
    /// The session goes on.
    Open,
    /// It is over.
    Closed,
}

/// The seats of a host, and what they share.
#[derive(Drop)]
pub struct Session<W: HostedWorld + Drop> {
    /// The seats, by their numbers. Each has a quota of its own, which stays as it is.
    pub seats: Vec<Seat<W>>,
    /// The buckets and limiters of all, which a seat has while it takes a message.
    pub quota: HostQuota,
}

impl<W: HostedWorld + Drop> Session<W> {
    /// Takes a line of the host, without its line feed, and writes what the host is told behind
    /// what is there.
    #[tactic(auto, using(crate::proofs::Meeting::feeds_message, crate::proofs::Meeting::feeds_none))]
    pub fn feed(
        &mut self,
        alloc: Global,
        arena: &mut Arena,
        line: &[u8],
        out: &mut Vec<u8>,
    ) -> Result<Fed, OutOfMemory>
        ensures { IfOk result (λ come. Feeds ⟦<W as HostedMeans>⟧.means
            line.now self.old out.old.items self.new out.new.items come) }
    {
        match read_message(alloc, arena, line) {
            Ok(message) => {
                let come = self.take(alloc, message, out)?;
                Ok(come)
            }
            Err(ReadError::Refused) => {
                let come = refuse_line(alloc, line, out)?;
                Ok(come)
            }
            Err(ReadError::Memory) => Err(OutOfMemory),
        }
    }

    // Takes a message.
    fn take(
        &mut self,
        alloc: Global,
        message: HostMessage,
        out: &mut Vec<u8>,
    ) -> Result<Fed, OutOfMemory>
        ensures { IfOk result (λ come. Meets ⟦<W as HostedMeans>⟧.means
            message self.old out.old.items self.new out.new.items come) }
    {
        match message {
            HostMessage::Seat(number, message) => {
                let come = self.take_for(alloc, number, message, out)?;
                Ok(come)
            }
            HostMessage::Sums => {
                self.tell_sums(alloc, out)?;
                Ok(Fed::Open)
            }
            HostMessage::Close => Ok(Fed::Closed),
        }
    }

    // Takes a message for a seat, or refuses it.
    #[tactic(auto, using(crate::proofs::Meeting::meets_refused, crate::proofs::Meeting::meets_taken, crate::proofs::Meeting::is_there))]
    fn take_for(
        &mut self,
        alloc: Global,
        number: u64,
        message: SeatMessage,
        out: &mut Vec<u8>,
    ) -> Result<Fed, OutOfMemory>
        ensures { IfOk result (λ come. MeetsBy ⟦<W as HostedMeans>⟧.means
            (refusal_at self.old.seats.items number message) number message self.old out.old.items
            self.new out.new.items come) }
    {
        match self.refusal_at(number, &message) {
            Some(why) => {
                let come = refuse(alloc, why, out)?;
                Ok(come)
            }
            None => {
                self.take_at(alloc, number as usize, message, out)?;
                Ok(Fed::Open)
            }
        }
    }

    // Why a message for the seat of this number is refused. None where it is taken.
    fn refusal_at(&self, number: u64, message: &SeatMessage) -> Option<Why>
        ensures { result ≡ refusal_at self.now.seats.items number message.now }
    {
        match self.seats.get(number as usize) {
            Some(seat) => refusal_of(message, seat.run.is_some()),
            None => Some(Why::NoSeat),
        }
    }

    // A seat takes a message. Its client has the quota of all meanwhile.
    fn take_at(
        &mut self,
        alloc: Global,
        place: usize,
        message: SeatMessage,
        out: &mut Vec<u8>,
    ) -> Result<(), OutOfMemory>
        requires { place < length self.old.seats.items }
        ensures { OnOk result (TakesAt ⟦<W as HostedMeans>⟧.means
            place message self.old out.old.items self.new out.new.items) }
    {
        let seat = &mut self.seats[place];
        seat.world.exchange_quota(&mut self.quota);
        let taken = seat.take(alloc, message, out);
        seat.world.exchange_quota(&mut self.quota);
        taken?;
        Ok(())
    }

    // Tells what each bucket holds.
    fn tell_sums(&self, alloc: Global, out: &mut Vec<u8>) -> Result<(), OutOfMemory>
        ensures { OnOk result (out.new.items ≡ (out.old.items
            ++ buckets_text 0 self.now.quota.books) ++ line end_data) }
    {
        print_buckets(alloc, &self.quota, out)?;
        write_end(alloc, out)?;
        Ok(())
    }
}

// Refuses a line that is no message, and tells where and why.
#[tactic(auto, using(crate::proofs::Meeting::tells_why))]
fn refuse_line(alloc: Global, line: &[u8], out: &mut Vec<u8>) -> Result<Fed, OutOfMemory>
    ensures text { OnOk result (TellsWhy out.old.items out.new.items) }
    ensures open { IfOk result (λ come. come ≡ Fed.Open) }
{
    let why = refusal_of_line(alloc, line)?;
    write_refused(alloc, why.as_str(), out)?;
    Ok(Fed::Open)
}

// Refuses a message.
fn refuse(alloc: Global, why: Why, out: &mut Vec<u8>) -> Result<Fed, OutOfMemory>
    ensures text { OnOk result (out.new.items ≡ out.old.items
        ++ line (refused_data (why_text why))) }
    ensures open { IfOk result (λ come. come ≡ Fed.Open) }
{
    write_refused(alloc, why.text(), out)?;
    Ok(Fed::Open)
}
