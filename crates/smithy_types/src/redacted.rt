//! What stands in place of a secret where a value is shown for debugging.

/// As in the Rust crate, a secret is shown so.
pub(crate) const REDACTED: &str = "** redacted **";
