//! Lines of a source.
ghost use Rattle.std.specs.Prelude.{◌≡◌, ◌==◌, ◌+◌, ◌<◌, ◌≤◌, [], None, length, option_map, position, vec_len};
ghost use Rattle.std.specs.Prelude.{IfOk, IfErr, IfSome};
ghost use Rattle.host_session.specs.Lines.{LosesFrom, LosesLine, ReadsFrom, ReadsOn, Splits};
ghost use Rattle.host_session.specs.Lines.{TakesNext};
ghost use Rattle.host_session.specs.Piece.{Brings};

use cli_shell::source::{Got, Source};
use cli_shell::status::ShellStatus;
use cli_shell::streams::INPUT_LIMIT;
use std::alloc::{AllocError, Global};
use std::mem;

// How many bytes are asked for at once.
const PIECE: usize = 1 << 12;

/// What was read of a source and isn't taken as a line yet.
#[derive(Drop)]
pub struct Lines {
    /// These bytes.
    pub unread: Vec<u8>,
}

impl Lines {
    /// Nothing was read.
    pub fn new(alloc: Global) -> Lines
        ensures { result.unread.items ≡ [] }
    {
        Lines {
            unread: Vec::new(alloc),
        }
    }

    /// The next line without its line feed. None at the end; what is behind the last line feed is
    /// no line. `LongInput` where a line has more than 16 MiB.
    #[tactic(auto, using(crate::proofs::NextLine::took_line, crate::proofs::NextLine::took_end, crate::proofs::NextLine::long_line, crate::proofs::NextLine::lost_line))]
    pub fn next<S: Source>(
        &mut self,
        alloc: Global,
        source: &mut S,
    ) -> Result<Option<Vec<u8>>, ShellStatus>
        ensures found { IfOk result (λ found. TakesNext self.old.unread.items (S.view source.old)
            (option_map (λ line. line.items) found) self.new.unread.items (S.view source.new)) }
        ensures lost { IfErr result (λ e. LosesLine self.old.unread.items e (S.view source.old)
            (S.view source.new)) }
        ensures count { (S.view source.old).faults ≤ (S.view source.new).faults }
    {
        let mut line = Vec::new(alloc);
        let unread = mem::replace(&mut self.unread, Vec::new(alloc));
        match read_from(alloc, unread.as_slice(), source, &mut line) {
            Ok(Some(behind)) => {
                self.unread = behind;
                if line.len() > INPUT_LIMIT {
                    return Err(ShellStatus::LongInput);
                }
                Ok(Some(line))
            }
            Ok(None) => Ok(None),
            Err(status) => Err(status),
        }
    }
}

// Reads on to the next line feed, these bytes first. Answers what was read behind it, and None at
// the end.
#[tactic(auto, using(crate::proofs::NextLine::from_unread, crate::proofs::NextLine::from_source, crate::proofs::NextLine::lost_before, crate::proofs::NextLine::lost_behind))]
fn read_from<S: Source>(
    alloc: Global,
    unread: &[u8],
    source: &mut S,
    line: &mut Vec<u8>,
) -> Result<Option<Vec<u8>>, ShellStatus>
    ensures found { IfOk result (λ behind. ReadsFrom unread.now (S.view source.old) line.old.items
        (option_map (λ v. v.items) behind) line.new.items (S.view source.new)) }
    ensures lost { IfErr result (λ e. LosesFrom unread.now line.old.items e (S.view source.old)
        (S.view source.new)) }
    ensures count { (S.view source.old).faults ≤ (S.view source.new).faults }
{
    match split_line(alloc, unread, line) {
        Ok(Some(behind)) => Ok(Some(behind)),
        Ok(None) => read_line(alloc, source, line),
        Err(AllocError) => Err(ShellStatus::OutOfMemory),
    }
}

// Reads on to the next line feed.
#[tactic(auto, using(crate::proofs::NextLine::came_nothing, crate::proofs::NextLine::came_more, crate::proofs::NextLine::came_line, crate::proofs::NextLine::came_end, crate::proofs::NextLine::lost_before, crate::proofs::NextLine::lost_more, crate::proofs::NextLine::long_front))]
fn read_line<S: Source>(
    alloc: Global,
    source: &mut S,
    line: &mut Vec<u8>,
) -> Result<Option<Vec<u8>>, ShellStatus>
    ensures found { IfOk result (λ behind. ReadsOn (S.view source.old) line.old.items
        (option_map (λ v. v.items) behind) line.new.items (S.view source.new)) }
    ensures lost { IfErr result (λ e. LosesFrom [] line.old.items e (S.view source.old)
        (S.view source.new)) }
    ensures count { (S.view source.old).faults ≤ (S.view source.new).faults }
{
    let mut buffer = zeros(alloc, PIECE)?;
    while line.len() <= INPUT_LIMIT {
        match read_piece(alloc, source, buffer.as_mut_slice(), line) {
            Ok(Piece::Line(behind)) => return Ok(Some(behind)),
            Ok(Piece::More) => {}
            Ok(Piece::End) => return Ok(None),
            Err(status) => return Err(status),
        }
    }
    Err(ShellStatus::LongInput)
}

/// What the next piece of a source brings.
#[derive(Drop)]
pub enum Piece {
    /// The end of the line, and what stands behind it.
    Line(Vec<u8>),
    /// More of the line.
    More,
    /// The end of the source.
    End,
}

fn zeros(alloc: Global, len: usize) -> Result<Vec<u8>, AllocError>
    ensures { IfOk result (λ v. vec_len v ≡ len) }
{
    vec![in alloc; 0u8; len]
}

// Reads a piece, by which the line grows.
#[tactic(auto, using(crate::proofs::NextLine::piece_line, crate::proofs::NextLine::piece_more, crate::proofs::NextLine::piece_end, crate::proofs::NextLine::piece_lost, crate::proofs::NextLine::read_failed))]
fn read_piece<S: Source>(
    alloc: Global,
    source: &mut S,
    buffer: &mut [u8],
    line: &mut Vec<u8>,
) -> Result<Piece, ShellStatus>
    requires room { 0 < length buffer.old }
    requires short { vec_len line.old ≤ 16777216 }
    ensures brings { IfOk result (λ piece. Brings (S.view source.old) line.old.items piece
        line.new.items (S.view source.new)) }
    ensures longer { IfOk result (λ piece. piece ≡ Piece.More → vec_len line.old < vec_len line.new) }
    ensures lost { IfErr result (λ e. LosesFrom [] line.old.items e (S.view source.old)
        (S.view source.new)) }
    ensures count { (S.view source.old).faults ≤ (S.view source.new).faults }
{
    match source.read(buffer) {
        Got::Bytes(count) => match split_line(alloc, &buffer[..count], line) {
            Ok(Some(behind)) => Ok(Piece::Line(behind)),
            Ok(None) => Ok(Piece::More),
            Err(AllocError) => Err(ShellStatus::OutOfMemory),
        },
        Got::End => Ok(Piece::End),
        Got::Failed => Err(ShellStatus::ReadFault),
    }
}

// The line grows by these bytes up to their first line feed. Answers what stands behind it, where
// there is one.
#[tactic(auto, using(crate::proofs::Feeds::splits_none, crate::proofs::Feeds::splits_some))]
fn split_line(
    alloc: Global,
    bytes: &[u8],
    line: &mut Vec<u8>,
) -> Result<Option<Vec<u8>>, AllocError>
    ensures splits { IfOk result (λ behind. Splits bytes.now line.old.items
        (option_map (λ v. v.items) behind) line.new.items) }
    ensures longer { IfOk result (λ behind. behind ≡ None →
        vec_len line.new ≡ vec_len line.old + length bytes.now) }
{
    match feed_place(bytes) {
        Some(place) => {
            line.extend_from_slice(&bytes[..place])?;
            let mut behind = Vec::new(alloc);
            behind.extend_from_slice(&bytes[place + 1..])?;
            Ok(Some(behind))
        }
        None => {
            line.extend_from_slice(bytes)?;
            Ok(None)
        }
    }
}

// Where the first line feed is.
fn feed_place(bytes: &[u8]) -> Option<usize>
    ensures place { result ≡ position (λ b. b == 10) bytes.now }
    ensures bound { IfSome result (λ place. place < length bytes.now) }
{
    bytes.iter().position(|byte| *byte == b'\n')
}
