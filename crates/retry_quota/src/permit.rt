//! What a retry has paid.

/// Tokens that a retry has paid. It is spent by a release or a forget. One that is dropped unspent
/// stays held in its bucket.
#[derive(Debug, Drop)]
pub struct Permit {
    /// The number of the bucket in its registry, 0 for a bucket of its own.
    pub bucket: u32,
    /// How many tokens.
    pub amount: u32,
}
