//! A reader that keeps what it gave.

use std::alloc::Global;
use std::io;
use std::io::Read;

/// What is kept of the bytes that come.
#[derive(Clone, Copy, PartialEq, Eq)]
pub enum Kept {
    /// All of them.
    All,
    /// The first line alone, with its line feed.
    FirstLine,
}

/// Reads from another reader, and keeps what it gave.
#[derive(Drop)]
pub struct KeepingReader<R> {
    /// Where the bytes come from.
    pub reader: R,
    /// What is kept of the bytes.
    pub what: Kept,
    /// What was read so far and is kept, from the front on.
    pub kept: Vec<u8>,
    /// Whether all that is to be kept is: it isn't where memory ran out.
    pub is_whole: bool,
}

impl<R> KeepingReader<R> {
    /// Nothing was read yet.
    pub fn new(alloc: Global, reader: R, what: Kept) -> KeepingReader<R> {
        KeepingReader {
            reader,
            what,
            kept: Vec::new(alloc),
            is_whole: true,
        }
    }

    /// All that is to be kept of what was read; none where it isn't kept whole.
    pub fn all(&self) -> Option<&[u8]> {
        if self.is_whole {
            Some(self.kept.as_slice())
        } else {
            None
        }
    }

    // Whether what comes next is to be kept.
    fn keeps_more(&self) -> bool {
        self.is_whole && !(self.what == Kept::FirstLine && ends_line(self.kept.as_slice()))
    }
}

impl<R: Read> Read for KeepingReader<R> {
    fn read(&mut self, buffer: &mut [u8]) -> io::Result<usize> {
        let count = self.reader.read(buffer)?;
        if self.keeps_more() {
            let part = kept_part(self.what, &buffer[..count]);
            if self.kept.extend_from_slice(part).is_err() {
                self.is_whole = false;
            }
        }
        Ok(count)
    }
}

/// Whether a line feed stands last.
pub fn ends_line(bytes: &[u8]) -> bool {
    match bytes.last() {
        Some(byte) => *byte == b'\n',
        None => false,
    }
}

// What is kept of the bytes that came: all, or those up to the first line feed.
fn kept_part(what: Kept, bytes: &[u8]) -> &[u8] {
    match (what, bytes.iter().position(|byte| *byte == b'\n')) {
        (Kept::FirstLine, Some(place)) => match bytes.get(..place.saturating_add(1)) {
            Some(line) => line,
            None => bytes,
        },
        _ => bytes,
    }
}
