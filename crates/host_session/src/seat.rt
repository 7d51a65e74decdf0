//! A seat of a session: a client, and the run that it is in.
ghost use Rattle.std.specs.Prelude.{◌≡◌, [], IfOk, OnOk};
ghost use Rattle.run_driver.specs.Running.{IsOver};
ghost use Rattle.host_session.specs.Running.{Starts, calls_of};
ghost use Rattle.host_session.specs.Seats.{Begins, Closes, GivesAnyUp, GoesOn, GoesOnAs, Rests};
ghost use Rattle.host_session.specs.Seats.{Takes, Waits, feeding};

use crate::ending::{ending_of, write_done, write_given_up, write_log};
use crate::world::{HostedMeans, HostedWorld};
use json_host::{HostInvocation, SeatMessage, write_poison, write_told};
use json_print::RunHead;
use outside_hosted::HostEvent;
use run_driver::DrivenRun;
use smithy_types::{List, OutOfMemory};
use std::alloc::Global;
use std::mem;

/// What a seat keeps from its opening on.
#[derive(Clone, Copy, Debug, PartialEq, Eq)]
pub struct SeatTerms {
    /// Its number.
    pub number: u64,
    /// The kind of payload that is an output.
    pub output_kind: u64,
    /// The kind of payload that is an error of the operation.
    pub error_kind: u64,
}

/// A run that is under way.
#[derive(Drop)]
pub struct SeatRun {
    /// The run.
    pub driven: DrivenRun,
    /// What it was begun with.
    pub head: RunHead,
    /// Whether its log is told at its end.
    pub is_logged: bool,
}

/// A client, and the run that it is in.
#[derive(Drop)]
pub struct Seat<W: HostedWorld + Drop> {
    /// The client.
    pub world: W,
    /// Its run.
    pub run: Option<SeatRun>,
    /// What it keeps.
    pub terms: SeatTerms,
}

impl<W: HostedWorld + Drop> Seat<W> {
    /// Does what a message for this seat says, and writes what the host is told behind what is
    /// there.
    pub fn take(
        &mut self,
        alloc: Global,
        message: SeatMessage,
        out: &mut Vec<u8>,
    ) -> Result<(), OutOfMemory>
        ensures { OnOk result (Takes ⟦<W as HostedMeans>⟧.means
            message self.old out.old.items self.new out.new.items) }
    {
        match message {
            SeatMessage::Invoke(invocation) => self.invoke(alloc, invocation, out),
            SeatMessage::At(moment, events) => self.hand_in(alloc, moment, events, out),
            SeatMessage::GiveUp(moment) => self.give_up(alloc, moment, out),
        }
    }

    // Begins a run, and drives it on.
    #[tactic(auto, using(crate::proofs::Meeting::begins))]
    fn invoke(
        &mut self,
        alloc: Global,
        invocation: HostInvocation,
        out: &mut Vec<u8>,
    ) -> Result<(), OutOfMemory>
        ensures { OnOk result (Begins ⟦<W as HostedMeans>⟧.means
            invocation self.old.world self.old.terms out.old.items self.new out.new.items) }
    {
        self.world.empty_log();
        self.world.feed(alloc, invocation.moment, List::new())?;
        let run = self.started(alloc, invocation)?;
        self.drive(alloc, run, out)?;
        Ok(())
    }

    // A run that made no call yet.
    #[tactic(auto, using(crate::proofs::Meeting::starts))]
    fn started(&self, alloc: Global, invocation: HostInvocation) -> Result<SeatRun, OutOfMemory>
        ensures { IfOk result (λ run. Starts invocation self.now.terms run) }
    {
        let HostInvocation {
            input,
            fuel,
            stop,
            is_logged,
            ..
        } = invocation;
        let driven = DrivenRun::start(alloc, input.clone()?, stop, fuel)?;
        Ok(SeatRun {
            driven,
            head: RunHead {
                input,
                fuel,
                stop,
                output_kind: self.terms.output_kind,
                error_kind: self.terms.error_kind,
            },
            is_logged,
        })
    }

    // Hands in what came, and drives the run on.
    #[tactic(auto, using(crate::proofs::Meeting::goes_on_fed))]
    fn hand_in(
        &mut self,
        alloc: Global,
        moment: u64,
        events: List<HostEvent>,
        out: &mut Vec<u8>,
    ) -> Result<(), OutOfMemory>
        ensures { OnOk result (GoesOn ⟦<W as HostedMeans>⟧.means
            self.old.run (feeding ⟦<W as HostedMeans>⟧.means moment events self.old.world)
            self.old.terms out.old.items self.new out.new.items) }
    {
        self.world.feed(alloc, moment, events)?;
        self.go_on(alloc, out)?;
        Ok(())
    }

    // Ends the run where it stands.
    #[tactic(auto, using(crate::proofs::Meeting::gives_up_some, crate::proofs::Meeting::gives_up_none))]
    fn give_up(&mut self, alloc: Global, moment: u64, out: &mut Vec<u8>) -> Result<(), OutOfMemory>
        ensures { OnOk result (GivesAnyUp ⟦<W as HostedMeans>⟧.means
            self.old.run (feeding ⟦<W as HostedMeans>⟧.means moment [] self.old.world)
            self.old.terms out.old.items self.new out.new.items) }
    {
        self.world.feed(alloc, moment, List::new())?;
        match mem::replace(&mut self.run, None) {
            Some(run) => {
                self.rest(alloc, out)?;
                write_given_up(alloc, self.terms.number, calls_of(&run), out)?;
                Ok(())
            }
            None => Ok(()),
        }
    }

    // Ends what is open, and tells whose connection isn't used again.
    #[tactic(auto, using(crate::proofs::Meeting::rested))]
    fn rest(&mut self, alloc: Global, out: &mut Vec<u8>) -> Result<(), OutOfMemory>
        ensures rests { OnOk result (Rests ⟦<W as HostedMeans>⟧.means
            self.old.terms.number self.old.world out.old.items self.new.world out.new.items) }
        ensures others { OnOk result (self.new ≡ record self.old { world = self.new.world }) }
    {
        self.world.end_open();
        let told = self.world.tell()?;
        write_poison(alloc, self.terms.number, told.poisoned, out)?;
        Ok(())
    }

    // Drives the run on.
    #[tactic(auto, using(crate::proofs::Meeting::goes_on_some, crate::proofs::Meeting::goes_on_none))]
    fn go_on(&mut self, alloc: Global, out: &mut Vec<u8>) -> Result<(), OutOfMemory>
        ensures { OnOk result (GoesOn ⟦<W as HostedMeans>⟧.means
            self.old.run self.old.world self.old.terms out.old.items self.new out.new.items) }
    {
        match mem::replace(&mut self.run, None) {
            Some(run) => {
                self.drive(alloc, run, out)?;
                Ok(())
            }
            None => Ok(()),
        }
    }

    // Drives a run on until it waits or is over. It was taken out.
    fn drive(
        &mut self,
        alloc: Global,
        mut run: SeatRun,
        out: &mut Vec<u8>,
    ) -> Result<(), OutOfMemory>
        ensures { OnOk result (GoesOnAs ⟦<W as HostedMeans>⟧.means
            run self.old.world self.old.terms out.old.items self.new out.new.items) }
    {
        let is_over = run.driven.go_on(alloc, &mut self.world)?;
        if is_over {
            self.end(alloc, run, out)?;
            Ok(())
        } else {
            self.wait(alloc, run, out)?;
            Ok(())
        }
    }

    // Tells what is open.
    #[tactic(auto, using(crate::proofs::Meeting::waits))]
    fn wait(&mut self, alloc: Global, run: SeatRun, out: &mut Vec<u8>) -> Result<(), OutOfMemory>
        ensures { OnOk result (Waits ⟦<W as HostedMeans>⟧.means
            self.old.world run self.old.terms out.old.items self.new out.new.items) }
    {
        self.run = Some(run);
        let told = self.world.tell()?;
        write_told(alloc, self.terms.number, &told, out)?;
        Ok(())
    }

    // Tells how a run ended.
    #[tactic(auto, using(crate::proofs::Meeting::closes))]
    fn end(&mut self, alloc: Global, run: SeatRun, out: &mut Vec<u8>) -> Result<(), OutOfMemory>
        requires { IsOver run.driven }
        ensures { OnOk result (Closes ⟦<W as HostedMeans>⟧.means
            self.old.world run self.old.terms out.old.items self.new out.new.items) }
    {
        self.run = None;
        self.rest(alloc, out)?;
        write_log(alloc, run.is_logged, self.world.entries().as_slice(), out)?;
        let calls = calls_of(&run);
        let ending = ending_of(run)?;
        write_done(alloc, self.terms.number, calls, &ending, out)?;
        Ok(())
    }
}

// How many calls a run made.
fn calls_of(run: &SeatRun) -> u64
    ensures { result ≡ calls_of run.now }
{
    run.driven.fuel.saturating_sub(run.driven.left)
}
