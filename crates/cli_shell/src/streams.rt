//! Reading all of a source, and writing all of a text.
ghost use Rattle.std.specs.Prelude.{◌≡◌, ◌⊎◌, ◌+◌, ◌<◌, ◌≤◌, ◌++◌, [], true, false, length};
ghost use Rattle.std.specs.Prelude.{vec_len, IfOk, IfErr, OnOk, OnErr};
ghost use Rattle.std.specs.Io.KnownBytes.{Consumes, IsAtEnd};
ghost use Rattle.cli_shell.specs.Source.{Rose};
ghost use Rattle.cli_shell.specs.Sink.{Adds, AddsFront};
ghost use Rattle.cli_shell.specs.Streams.{IsRead, Unread, Took, Grown, NoneLeft};

use crate::sink::{Sink, Wrote};
use crate::source::{Got, Source};
use crate::status::ShellStatus;
use std::alloc::{AllocError, Global};

/// The most bytes that an input may have: 16 MiB.
pub const INPUT_LIMIT: usize = 1 << 24;

// How many bytes are asked for at once.
const PIECE: usize = 1 << 16;

impl From<AllocError> for ShellStatus {
    ghost use Rattle.std.specs.Prelude.{◌≡◌};
    ghost use Rattle.cli_shell.specs.declared.status.ShellStatus.TheVariants.{OutOfMemory};

    ghost from_gives = { λ _ e. e ≡ OutOfMemory };

    fn from(_error: AllocError) -> ShellStatus {
        ShellStatus::OutOfMemory
    }
}

/// The sink failed.
#[derive(Clone, Copy, Debug, PartialEq, Eq)]
pub struct SinkFault;

/// Reads a source to its end, or to the first byte over the limit. `ReadFault` where the source
/// failed, `LongInput` where there was a byte over the limit, `OutOfMemory` where there is no
/// memory; what was read by then is taken from the source.
pub fn read_all<S: Source>(alloc: Global, source: &mut S) -> Result<Vec<u8>, ShellStatus>
    ensures whole { IfOk result (λ v. IsRead (S.view source.old) v.items (S.view source.new)) }
    ensures unread { IfErr result (λ e. Unread e (S.view source.old) (S.view source.new)) }
    ensures count { (S.view source.old).faults ≤ (S.view source.new).faults }
{
    let mut bytes = Vec::new(alloc);
    let mut buffer = zeros(alloc, PIECE)?;
    while bytes.len() <= INPUT_LIMIT {
        let room = PIECE.min(INPUT_LIMIT + 1 - bytes.len());
        if !read_piece(source, &mut buffer[..room], &mut bytes)? {
            return Ok(bytes);
        }
    }
    Err(ShellStatus::LongInput)
}

fn zeros(alloc: Global, len: usize) -> Result<Vec<u8>, AllocError>
    ensures { IfOk result (λ v. vec_len v ≡ len) }
{
    vec![in alloc; 0u8; len]
}

// Reads a piece to the bytes' end. False where no byte was left.
fn read_piece<S: Source>(
    source: &mut S,
    buffer: &mut [u8],
    bytes: &mut Vec<u8>,
) -> Result<bool, ShellStatus>
    requires buffer { 0 < length buffer.old }
    requires room { vec_len bytes.old + length buffer.old ≤ INPUT_LIMIT + 1 }
    ensures grown { result ≡ Ok true →
        Grown (S.view source.old) bytes.old.items (S.view source.new) bytes.new.items }
    ensures longer { result ≡ Ok true → vec_len bytes.old < vec_len bytes.new }
    ensures within { OnOk result (vec_len bytes.new ≤ INPUT_LIMIT + 1) }
    ensures ended { result ≡ Ok false → NoneLeft (S.view source.old) (S.view source.new) }
    ensures same { result ≡ Ok false → bytes.new ≡ bytes.old }
    ensures unread { IfErr result
        (λ e. (e ≡ ShellStatus.OutOfMemory)
        ⊎ ((e ≡ ShellStatus.ReadFault)
        × Rose (S.view source.old).faults (S.view source.new).faults)) }
    ensures front { IfErr result (λ _. Took (S.view source.old) (S.view source.new)) }
    ensures count { (S.view source.old).faults ≤ (S.view source.new).faults }
{
    match source.read(buffer) {
        Got::Bytes(count) => {
            bytes.extend_from_slice(&buffer[..count])?;
            Ok(true)
        }
        Got::End => Ok(false),
        Got::Failed => Err(ShellStatus::ReadFault),
    }
}

/// Writes all of a text. Where the sink fails a front of the text was written.
pub fn write_all<K: Sink>(sink: &mut K, text: &[u8]) -> Result<(), SinkFault>
    ensures whole { OnOk result (Adds (K.view sink.old) text.now (K.view sink.new)) }
    ensures front { OnErr result (AddsFront (K.view sink.old) text.now (K.view sink.new)) }
    ensures fault { OnErr result (Rose (K.view sink.old).faults (K.view sink.new).faults) }
    ensures count { (K.view sink.old).faults ≤ (K.view sink.new).faults }
{
    let mut rest = text;
    while !rest.is_empty() {
        match sink.write(rest) {
            Wrote::Took(count) => rest = &rest[count..],
            Wrote::Failed => return Err(SinkFault),
        }
    }
    Ok(())
}
