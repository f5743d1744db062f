//! Why a resolver stops.

ghost use Rattle.std.specs.Prelude.{◌≡◌};

use std::alloc::AllocError;
use thiserror::Error;

/// Why a resolver takes no more batches.
#[derive(Clone, Copy, Debug, PartialEq, Eq, Hash, Error)]
pub enum Stop {
    /// An allocation failed, or a count reached its limit: 8,388,608 chunks of an arena, or
    /// 2^64 - 65 answers owed.
    #[error("1 Memory")]
    Memory = 1,
    /// A batch had to be held, and `chain::MAX_HELD` batches were held already.
    #[error("2 GateFull")]
    GateFull = 2,
    /// The boundaries of the writes within the window exceed the limit.
    #[error("3 ArenaFull")]
    ArenaFull = 3,
}

impl From<AllocError> for Stop {
    ghost use Rattle.limits.specs.declared.stop.Stop.TheVariants.{Memory};

    ghost from_gives = { λ _ stop. stop ≡ Memory };

    fn from(_refused: AllocError) -> Stop {
        Stop::Memory
    }
}
