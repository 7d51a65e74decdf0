//! A source over a reader and a sink over a writer of the standard library.
ghost use Rattle.std.specs.Prelude.{◌≡◌, ◌<◌, false, length};
ghost use Rattle.cli_shell.specs.Memory.{faults_read, faults_written};
ghost use Rattle.cli_shell.specs.Sink.{Writes};
ghost use Rattle.cli_shell.specs.Source.{Reads};

use crate::sink::{Sink, Wrote};
use crate::source::{Got, Source};
use std::io::{Read, Write};

/// A source over a reader. It tells what the reader tells.
#[derive(Drop)]
pub struct StdSource<R> {
    /// Where the bytes come from.
    pub reader: R,
    /// How many reads failed.
    pub errors: u64,
}

impl<R> StdSource<R> {
    /// A source over the reader, with no error yet.
    pub fn new(reader: R) -> StdSource<R>
        ensures { result ≡ record { reader = reader; errors = 0 } }
    {
        StdSource { reader, errors: 0 }
    }
}

impl<R: Read> Source for StdSource<R> {
    ghost view = { λ s. record { left = R.remaining s.reader; faults = s.errors } };

    fn read(&mut self, buffer: &mut [u8]) -> Got
        requires { 0 < length buffer.old }
        ensures reads { Reads
            (record { left = R.remaining self.old.reader; faults = self.old.errors }) result
            buffer.new (record { left = R.remaining self.new.reader; faults = self.new.errors }) }
        ensures errors { self.new.errors ≡ faults_read self.old.errors result }
    {
        match self.reader.read(buffer) {
            Ok(0) => Got::End,
            Ok(count) => Got::Bytes(count),
            Err(_) => {
                self.errors = self.errors.saturating_add(1);
                Got::Failed
            }
        }
    }
}

/// A sink over a writer. It tells what the writer tells, and loses nothing. A write that takes
/// nothing counts as an error.
#[derive(Drop)]
pub struct StdSink<W> {
    /// Where the bytes go.
    pub writer: W,
    /// How many writes failed.
    pub errors: u64,
}

impl<W> StdSink<W> {
    /// A sink over the writer, with no error yet.
    pub fn new(writer: W) -> StdSink<W>
        ensures { result ≡ record { writer = writer; errors = 0 } }
    {
        StdSink { writer, errors: 0 }
    }
}

impl<W: Write> Sink for StdSink<W> {
    ghost use Rattle.std.specs.Prelude.{false};

    ghost view = { λ s. record {
      written = W.contents s.writer;
      is_lost = false;
      faults = s.errors;
    } };

    fn write(&mut self, piece: &[u8]) -> Wrote
        requires { 0 < length piece.now }
        ensures writes { Writes
            (record { written = W.contents self.old.writer; is_lost = false; faults = self.old.errors })
            result piece.now
            (record { written = W.contents self.new.writer; is_lost = false; faults = self.new.errors }) }
        ensures errors { self.new.errors ≡ faults_written self.old.errors result }
    {
        match self.writer.write(piece) {
            Ok(0) | Err(_) => {
                self.errors = self.errors.saturating_add(1);
                Wrote::Failed
            }
            Ok(count) => Wrote::Took(count),
        }
    }
}
