//! Timestamps.
ghost use Rattle.std.specs.Prelude.{◌≡◌, true, IfOk, Some, is_some, option_map};
ghost use Rattle.json_payloads.specs.Moments.{moment_in, spelled};
ghost use Rattle.json_payloads.specs.Reading.{Reads};

use crate::{JsonForm, ReadError, Refusal, Value, read_str};
use jiff_core::Timestamp;
use jiff_fmt::temporal::{DateTimePrinter, parse_timestamp};
use smithy_types::{OutOfMemory, Text};
use std::alloc::Global;
use std::marker::Model;

/// A moment in whole seconds of the epoch, which began with 1970 in UTC. In JSON it is a number.
#[derive(Clone, Copy, Debug, PartialEq, Eq)]
pub struct EpochSeconds {
    /// Seconds since the epoch began, below 0 before it.
    pub seconds: i64,
}

impl JsonForm for EpochSeconds {
    ghost use Rattle.json_payloads.specs.Times.{epoch_seconds};

    ghost form = { epoch_seconds };

    fn print(&self, alloc: Global) -> Result<Value, OutOfMemory> {
        self.seconds.print(alloc)
    }

    fn read(alloc: Global, value: &Value) -> Result<EpochSeconds, ReadError> {
        let seconds = i64::read(alloc, value)?;
        Ok(EpochSeconds { seconds })
    }
}

/// A moment as a text of RFC 3339 spells it: a date, a time and an offset from UTC, such as
/// `2026-12-01T05:30:00.5Z`. In JSON it is that text.
#[derive(Debug, Drop)]
pub struct DateTime {
    text: Text,
    moment: Timestamp,
}

impl Model for DateTime {
    ghost use Rattle.std.specs.Prelude.{◌≡◌, List, ℕ, Some};
    ghost use Rattle.json_payloads.specs.Moments.{moment_in};

    ghost Value = { List ℕ };

    ghost view = { λ d. d.text };

    ghost invariant = { λ d. moment_in d.text ≡ Some d.moment.nanosecond };
}

impl DateTime {
    /// The moment, spelled in UTC. `OutOfMemory` where there is no memory for its text.
    pub fn in_utc(alloc: Global, moment: Timestamp) -> Result<DateTime, OutOfMemory>
        ensures { IfOk result (λ d. moment_in d ≡ Some moment.nanosecond) }
    {
        let text = DateTimePrinter::new().timestamp_text(moment);
        Ok(DateTime {
            text: Text::from_str(alloc, text.as_str())?,
            moment,
        })
    }

    /// The moment that a text spells. `Misspelled` where it spells none.
    pub fn parse(alloc: Global, text: &str) -> Result<DateTime, ReadError>
        ensures { Reads result (spelled text.now) }
    {
        match moment_in(text) {
            Some(moment) => Ok(DateTime {
                text: Text::from_str(alloc, text)?,
                moment,
            }),
            None => Err(ReadError::Refused(Refusal::Misspelled)),
        }
    }

    /// The text that spells it.
    pub fn as_str(&self) -> &str
        ensures text { result.now ≡ self.now }
        ensures spells { is_some (moment_in self.now) ≡ true }
    {
        self.text.as_str()
    }

    /// The moment, by its nanoseconds since the epoch began.
    pub fn moment(&self) -> Timestamp
        ensures { moment_in self.now ≡ Some result.nanosecond }
    {
        self.moment
    }
}

// The moment that a text spells.
fn moment_in(text: &str) -> Option<Timestamp>
    ensures { option_map (λ t. t.nanosecond) result ≡ moment_in text.now }
{
    match parse_timestamp(text.as_bytes()) {
        Ok(moment) => Some(moment),
        Err(_) => None,
    }
}

impl JsonForm for DateTime {
    ghost use Rattle.json_payloads.specs.Moments.{date_time};

    ghost form = { date_time };

    fn print(&self, alloc: Global) -> Result<Value, OutOfMemory> {
        Ok(Value::String(String::from_str(alloc, self.as_str())?))
    }

    fn read(alloc: Global, value: &Value) -> Result<DateTime, ReadError> {
        DateTime::parse(alloc, read_str(value)?)
    }
}
