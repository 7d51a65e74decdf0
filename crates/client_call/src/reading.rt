//! A response's body that is open, and what its frames make of it.
ghost use Rattle.std.specs.Prelude.{◌≡◌, [], None, Some, IfOk, if◌then◌else◌};
ghost use Rattle.smithy_types.specs.Chain.{ByCalls};
ghost use Rattle.client_call.specs.Frames.{fits_in, gathered, stop_of};
ghost use Rattle.client_call.specs.Reading.{BeginsReading};

use crate::{Gathered, Guards};
use outside::Outside;
use smithy_context::Settings;
use smithy_types::{Blob, HttpResponse, OutOfMemory, Polled, Shared, Text};
use std::alloc::Global;

/// The most bytes that a response's body may have.
pub const LIMIT: usize = 16384;

/// The body of a response that is open.
#[derive(Drop)]
pub struct Reading {
    /// The bytes of data so far.
    pub bytes: Gathered,
    /// What it is read through.
    pub guards: Guards,
}

/// How an ask of a body stops.
#[derive(Drop)]
pub enum Stop {
    /// There is no frame yet, or one ask had as many as it may.
    Pending,
    /// The body is at its end.
    End,
    /// The body can't be read on.
    Failed {
        /// Why.
        text: Text,
        /// Whether the body is over outside too.
        over: bool,
    },
    /// The body has more bytes than it may.
    TooLong,
}

impl Reading {
    /// A body of which nothing was read, with the guards that are set for the response.
    pub fn new<X: Outside>(
        alloc: Global,
        settings: &Settings,
        response: &Option<Shared<HttpResponse>>,
        outside: &mut X,
    ) -> Reading
        ensures { ByCalls X.makes outside.old (BeginsReading settings.now response.now result)
            outside.new }
    {
        Reading {
            bytes: Gathered::new(alloc),
            guards: Guards::new(settings, response, outside),
        }
    }

    /// Takes a frame in, as the guards passed it, with which the body is over outside or not. It
    /// answers how the ask stops with it, and None where it goes on.
    pub fn gather(&mut self, frame: &Polled, over: bool) -> Result<Option<Stop>, OutOfMemory>
        ensures { IfOk result (λ stop.
            (stop ≡ stop_of self.old.bytes over frame.now)
            × (self.new ≡ record self.old { bytes = gathered self.old.bytes frame.now })) }
    {
        match frame {
            Polled::Pending => Ok(Some(Stop::Pending)),
            Polled::Data(more) => self.gather_data(more),
            Polled::Trailers => Ok(None),
            Polled::End => Ok(Some(Stop::End)),
            Polled::Failed(fault) => {
                let text = fault.text.clone()?;
                Ok(Some(Stop::Failed { text, over }))
            }
        }
    }

    // Takes bytes of data in, where they aren't too many.
    fn gather_data(&mut self, more: &Blob) -> Result<Option<Stop>, OutOfMemory>
        ensures { IfOk result (λ stop.
            (stop ≡ (if fits_in self.old.bytes more.now then None else Some Stop.TooLong))
            × (self.new ≡ record self.old {
              bytes = gathered self.old.bytes (Polled.Data more.now);
            })) }
    {
        if self.bytes.len().saturating_add(more.len()) > LIMIT {
            return Ok(Some(Stop::TooLong));
        }
        self.bytes.push(more.as_slice())?;
        Ok(None)
    }
}
