//! How far a walk has come.
ghost use Rattle.std.specs.Prelude.{◌≤◌};

/// How far a walk has come.
#[derive(Drop)]
pub(crate) struct Progress {
    /// The moment at its start.
    pub start: u64,
    /// The number of the next poll.
    pub number: u32,
    /// Whether a delay of 0 was used.
    pub zero_used: bool,
    /// How many polls and asks of a sleep may still be made.
    pub fuel: u64,
    ghost counted: { 1 ≤ number },
}
