//! Why a batch or a reply is not stored.

ghost use Rattle.std.specs.Prelude.{◌≡◌};
ghost use Rattle.chain.specs.Stop.{stop_at_chain};

use limits::Stop;
use thiserror::Error;

/// Why a batch or a reply is not stored. What was stored before stays as it was.
#[derive(Clone, Copy, Debug, PartialEq, Eq, Hash, Error)]
pub enum ChainError {
    /// Memory was refused.
    #[error("1 Memory")]
    Memory,
    /// The gate already holds [`MAX_HELD`](crate::MAX_HELD) batches.
    #[error("2 GateFull")]
    GateFull,
}

impl From<ChainError> for Stop {
    ghost from_gives = { λ error stop. stop ≡ stop_at_chain error };

    fn from(error: ChainError) -> Stop {
        match error {
            ChainError::Memory => Stop::Memory,
            ChainError::GateFull => Stop::GateFull,
        }
    }
}
