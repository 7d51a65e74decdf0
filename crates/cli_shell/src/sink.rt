//! Where a print goes.
ghost use Rattle.std.specs.Prelude.{◌<◌, length};

/// What a write came to.
#[derive(Clone, Copy, Debug, PartialEq, Eq)]
pub enum Wrote {
    /// So many bytes of the piece's front were taken, at least one.
    Took(usize),
    /// Nothing was taken.
    Failed,
}

/// A place that is written to in pieces.
pub trait Sink {
    ghost use Rattle.cli_shell.specs.Sink.{SinkView, Writes};

    /// What it tells: the bytes that were written, whether some were lost, and how often it has
    /// failed.
    ghost view: { Self → SinkView };

    /// Writes some bytes of the piece's front.
    fn write(&mut self, piece: &[u8]) -> Wrote
        requires { 0 < length piece.now }
        ensures { Writes (view self.old) result piece.now (view self.new) };
}
