//! Why a bucket can't be made.
use crate::MAXIMUM_CAPACITY;
use thiserror::Error;

/// Why a bucket can't be made.
#[derive(Clone, Copy, Debug, PartialEq, Eq, Error)]
pub enum QuotaError {
    /// The initial quota is above the maximum.
    #[error("the initial quota is above {max}", max = MAXIMUM_CAPACITY)]
    QuotaTooLarge,
}
