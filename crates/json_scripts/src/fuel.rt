//! The limit of fuel.

/// The most fuel of a script, that of all its invocations together. A unit is a call of a run; of
/// waiters it is a poll, or an ask of a sleep.
pub const FUEL_LIMIT: u64 = 100_000;
