//! Why there is no transaction, or no batch.

ghost use Rattle.std.specs.Prelude.{◌≡◌};
ghost use Rattle.keyspace.specs.declared.error.LimitError.TheVariants.{Memory};

use std::alloc::AllocError;
use thiserror::Error;

/// Why there is no transaction, or no batch.
#[derive(Clone, Copy, Debug, PartialEq, Eq, Hash, Error)]
pub enum LimitError {
    /// A version or a snapshot is outside its limits.
    #[error("version or snapshot is outside its limits")]
    Version,
    /// There are more than [`MAX_TXNS`](crate::MAX_TXNS) transactions, or more than
    /// [`MAX_RANGES`](crate::MAX_RANGES) ranges.
    #[error("too many transactions or ranges")]
    Count,
    /// Memory was refused, or the keys of the transactions have more than 4 GiB.
    #[error("memory was refused")]
    Memory,
}

impl From<AllocError> for LimitError {
    ghost from_gives = { λ _ e. e ≡ Memory };

    fn from(_refused: AllocError) -> LimitError {
        LimitError::Memory
    }
}
