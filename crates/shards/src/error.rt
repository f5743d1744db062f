//! Why keys are no split points, why a sample gives none, or why replies have no combination.

ghost use Rattle.std.specs.Prelude.{◌≡◌};
ghost use Rattle.shards.specs.declared.error.CombineError.TheVariants.{Memory};
ghost use Rattle.shards.specs.declared.error.BalanceError.TheVariants as balance;

use std::alloc::AllocError;
use thiserror::Error;

/// Why keys are no split points.
#[derive(Clone, Copy, Debug, PartialEq, Eq, Hash, Error)]
pub enum SplitPointsError {
    /// There are more than [`MAX_SPLIT_POINTS`](crate::MAX_SPLIT_POINTS).
    #[error("more than 63 split points")]
    TooMany,
    /// The key at this index is the first that isn't after the one before it. The first key must be
    /// after the empty key.
    #[error("split point {0} isn't after the one before")]
    NotRising(usize),
}

/// Why a sample gives no split points.
#[derive(Clone, Copy, Debug, PartialEq, Eq, Hash, Error)]
pub enum BalanceError {
    /// The number of shards isn't from 1 to 64.
    #[error("the number of shards isn't from 1 to 64")]
    ShardCount,
    /// Memory was refused.
    #[error("memory was refused")]
    Memory,
}

impl From<AllocError> for BalanceError {
    ghost from_gives = { λ _ e. e ≡ balance.Memory };

    fn from(_refused: AllocError) -> BalanceError {
        BalanceError::Memory
    }
}

/// Why a shard's reply isn't one to the batch that was clipped to the shard.
#[derive(Clone, Copy, Debug, PartialEq, Eq, Hash, Error)]
pub enum Misfit {
    /// It has the version of another batch.
    #[error("has the version of another batch")]
    Version,
    /// It doesn't have one entry per transaction, or the indices beside it are of another number of
    /// transactions.
    #[error("has another number of transactions")]
    Count,
    /// It reports a read range that the clipped transaction doesn't have.
    #[error("reports a read range that isn't there")]
    Place,
}

/// Why replies have no combination.
#[derive(Clone, Copy, Debug, PartialEq, Eq, Hash, Error)]
pub enum CombineError {
    /// There is no reply at all.
    #[error("no reply")]
    NoReply,
    /// The reply of this shard is the first that isn't one to the batch.
    #[error("reply of shard {0} {1}")]
    Misfit(usize, Misfit),
    /// Memory was refused.
    #[error("memory was refused")]
    Memory,
}

impl From<AllocError> for CombineError {
    ghost from_gives = { λ _ e. e ≡ Memory };

    fn from(_refused: AllocError) -> CombineError {
        CombineError::Memory
    }
}
