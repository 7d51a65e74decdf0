//! Where input comes from.
ghost use Rattle.std.specs.Prelude.{◌<◌, length};

/// What a read came to.
#[derive(Clone, Copy, Debug, PartialEq, Eq)]
pub enum Got {
    /// So many bytes stand at the buffer's front, at least one.
    Bytes(usize),
    /// No byte is left.
    End,
    /// The source failed, and took nothing.
    Failed,
}

/// Bytes that are read in pieces.
pub trait Source {
    ghost use Rattle.cli_shell.specs.Source.{SourceView, Reads};

    /// What it tells: the bytes that are left, and how often it has failed.
    ghost view: { Self → SourceView };

    /// Reads some bytes to the buffer's front.
    fn read(&mut self, buffer: &mut [u8]) -> Got
        requires { 0 < length buffer.old }
        ensures { Reads (view self.old) result buffer.new (view self.new) };
}
