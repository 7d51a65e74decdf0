//! Sources and sinks in memory: those that never fail, and those whose calls fail where a list
//! says.
ghost use Rattle.std.specs.Prelude.{◌≡◌, ◌≢◌, ◌+◌, ◌≤◌, ◌<◌, ◌⊎◌, [], true, false, drop, length};
ghost use Rattle.std.specs.Prelude.{vec_len, vec_capacity, IfOk};
ghost use Rattle.std.specs.Io.Cursor.{cursor_inner, cursor_position};
ghost use Rattle.cli_shell.specs.Source.{Reads};
ghost use Rattle.cli_shell.specs.Sink.{Writes};
ghost use Rattle.cli_shell.specs.Memory.{is_listed, sure_source_view, source_view, sink_view};
ghost use Rattle.cli_shell.specs.Memory.{sure_view, counted, faults_read, faults_written};

use crate::sink::{Sink, Wrote};
use crate::source::{Got, Source};
use smithy_types::OutOfMemory;
use std::alloc::{AllocError, Global};
use std::io::{Cursor, Read};

// Whether the list has the number of this call.
fn has(list: &Vec<u64>, call: u64) -> bool
    ensures { result ≡ is_listed call list.now.items }
{
    list.as_slice().contains(&call)
}

/// Bytes in memory that are read without a fault.
#[derive(Drop)]
pub struct SureSource {
    /// The bytes, and how many were read.
    pub bytes: Cursor<Vec<u8>>,
}

impl SureSource {
    /// A source of these bytes. It takes no memory.
    pub fn new(bytes: Vec<u8>) -> SureSource
        ensures bytes { cursor_inner result.bytes ≡ bytes }
        ensures position { cursor_position result.bytes ≡ 0 }
    {
        SureSource {
            bytes: Cursor::new(bytes),
        }
    }
}

impl Source for SureSource {
    ghost use Rattle.cli_shell.specs.Memory.{sure_source_view};

    ghost view = { sure_source_view };

    fn read(&mut self, buffer: &mut [u8]) -> Got
        requires { 0 < length buffer.old }
        ensures reads { Reads (sure_source_view self.old) result buffer.new
            (sure_source_view self.new) }
        ensures sure { result ≢ Got.Failed }
    {
        match self.bytes.read(buffer) {
            Ok(0) => Got::End,
            Ok(count) => Got::Bytes(count),
            Err(_) => unreachable!(),
        }
    }
}

/// Bytes in memory whose reads fail at some calls.
#[derive(Drop)]
pub struct MemorySource {
    /// The bytes, and how many were read.
    pub bytes: Cursor<Vec<u8>>,
    /// The numbers of the calls that fail, from 0.
    pub failing: Vec<u64>,
    /// How many calls there were.
    pub calls: u64,
    /// How many of them failed.
    pub faults: u64,
}

impl MemorySource {
    /// A source of these bytes. The calls with these numbers, counted from 0, fail. It takes no
    /// memory.
    pub fn new(bytes: Vec<u8>, failing: Vec<u64>) -> MemorySource
        ensures bytes { cursor_inner result.bytes ≡ bytes }
        ensures position { cursor_position result.bytes ≡ 0 }
        ensures failing { result.failing ≡ failing }
        ensures calls { result.calls ≡ 0 }
        ensures faults { result.faults ≡ 0 }
    {
        MemorySource {
            bytes: Cursor::new(bytes),
            failing,
            calls: 0,
            faults: 0,
        }
    }
}

impl Source for MemorySource {
    ghost use Rattle.cli_shell.specs.Memory.{source_view};

    ghost view = { source_view };

    fn read(&mut self, buffer: &mut [u8]) -> Got
        requires { 0 < length buffer.old }
        ensures reads { Reads (source_view self.old) result buffer.new (source_view self.new) }
        ensures listed { is_listed self.old.calls self.old.failing.items ≡ true →
            result ≡ Got.Failed }
        ensures failed { result ≡ Got.Failed →
            is_listed self.old.calls self.old.failing.items ≡ true }
        ensures failing { self.new.failing ≡ self.old.failing }
        ensures calls { self.new.calls ≡ counted self.old.calls }
        ensures faults { self.new.faults ≡ faults_read self.old.faults result }
    {
        let call = self.calls;
        self.calls = call.saturating_add(1);
        if has(&self.failing, call) {
            self.faults = self.faults.saturating_add(1);
            return Got::Failed;
        }
        match self.bytes.read(buffer) {
            Ok(0) => Got::End,
            Ok(count) => Got::Bytes(count),
            Err(_) => unreachable!(),
        }
    }
}

/// Memory whose writes fail at some calls, and where there is no memory.
#[derive(Drop)]
pub struct MemorySink {
    /// What was written.
    pub bytes: Vec<u8>,
    /// The numbers of the calls that fail, from 0.
    pub failing: Vec<u64>,
    /// How many calls there were.
    pub calls: u64,
    /// How many of them failed.
    pub faults: u64,
}

impl MemorySink {
    /// A sink without bytes. The calls with these numbers, counted from 0, fail. It takes no
    /// memory.
    pub fn new(alloc: Global, failing: Vec<u64>) -> MemorySink
        ensures bytes { result.bytes.items ≡ [] }
        ensures failing { result.failing ≡ failing }
        ensures calls { result.calls ≡ 0 }
        ensures faults { result.faults ≡ 0 }
    {
        MemorySink {
            bytes: Vec::new(alloc),
            failing,
            calls: 0,
            faults: 0,
        }
    }
}

impl Sink for MemorySink {
    ghost use Rattle.cli_shell.specs.Memory.{sink_view};

    ghost view = { sink_view };

    fn write(&mut self, piece: &[u8]) -> Wrote
        requires { 0 < length piece.now }
        ensures writes { Writes (sink_view self.old) result piece.now (sink_view self.new) }
        ensures listed { is_listed self.old.calls self.old.failing.items ≡ true →
            result ≡ Wrote.Failed }
        ensures failed { result ≡ Wrote.Failed →
            (is_listed self.old.calls self.old.failing.items ≡ true)
            ⊎ (vec_capacity self.old.bytes < vec_len self.old.bytes + length piece.now) }
        ensures whole { result ≢ Wrote.Failed → result ≡ Wrote.Took (length piece.now) }
        ensures failing { self.new.failing ≡ self.old.failing }
        ensures calls { self.new.calls ≡ counted self.old.calls }
        ensures faults { self.new.faults ≡ faults_written self.old.faults result }
    {
        let number = self.calls;
        self.calls = number.saturating_add(1);
        if has(&self.failing, number) {
            self.faults = self.faults.saturating_add(1);
            return Wrote::Failed;
        }
        match self.bytes.extend_from_slice(piece) {
            Ok(()) => Wrote::Took(piece.len()),
            Err(AllocError) => {
                self.faults = self.faults.saturating_add(1);
                Wrote::Failed
            }
        }
    }
}

/// Memory that is written without a fault. Past the room that it was made with, bytes may be lost
/// where there is no memory for them.
#[derive(Drop)]
pub struct SureSink {
    /// What was written.
    pub bytes: Vec<u8>,
    /// Whether bytes were taken that there was no memory for.
    pub is_lost: bool,
}

impl SureSink {
    /// A sink without bytes and without room. It takes no memory.
    pub fn new(alloc: Global) -> SureSink
        ensures bytes { result.bytes.items ≡ [] }
        ensures told { result.is_lost ≡ false }
    {
        SureSink {
            bytes: Vec::new(alloc),
            is_lost: false,
        }
    }

    /// A sink with room for so many bytes.
    pub fn with_room(alloc: Global, room: usize) -> Result<SureSink, OutOfMemory>
        ensures bytes { IfOk result (λ s. s.bytes.items ≡ []) }
        ensures room { IfOk result (λ s. room ≤ vec_capacity s.bytes) }
        ensures told { IfOk result (λ s. s.is_lost ≡ false) }
    {
        Ok(SureSink {
            bytes: Vec::with_capacity(alloc, room)?,
            is_lost: false,
        })
    }
}

impl Sink for SureSink {
    ghost use Rattle.cli_shell.specs.Memory.{sure_view};

    ghost view = { sure_view };

    fn write(&mut self, piece: &[u8]) -> Wrote
        requires { 0 < length piece.now }
        ensures writes { Writes (sure_view self.old) result piece.now (sure_view self.new) }
        ensures taken { result ≡ Wrote.Took (length piece.now) }
        ensures room { vec_len self.old.bytes + length piece.now ≤ vec_capacity self.old.bytes →
            self.new.is_lost ≡ self.old.is_lost }
        ensures capacity { vec_capacity self.old.bytes ≤ vec_capacity self.new.bytes }
    {
        if self.bytes.extend_from_slice(piece).is_err() {
            self.is_lost = true;
        }
        Wrote::Took(piece.len())
    }
}
