//! Why a set stops.

ghost use Rattle.std.specs.Prelude.{◌≡◌};
ghost use Rattle.conflict.specs.declared.error.SetStop.TheVariants.{Memory};
ghost use Rattle.conflict.specs.Stop.{stop_at_set};

use limits::Stop;
use std::alloc::AllocError;
use stepmap::StepError;
use thiserror::Error;

/// Why a conflict set resolves no more batches.
#[derive(Clone, Copy, Debug, PartialEq, Eq, Hash, Error)]
pub enum SetStop {
    /// Memory was refused, or the keys of the boundaries would need more than 8,388,608 chunks of
    /// an arena.
    #[error("1 Memory")]
    Memory = 1,
    /// The boundaries that a batch needs exceed the limit.
    #[error("2 ArenaFull")]
    ArenaFull = 2,
}

impl From<AllocError> for SetStop {
    ghost from_gives = { λ _ e. e ≡ Memory };

    fn from(_refused: AllocError) -> SetStop {
        SetStop::Memory
    }
}

impl From<StepError> for SetStop {
    ghost use Rattle.conflict.specs.ConflictSet.{stop_of};

    ghost from_gives = { λ error stop. stop ≡ stop_of error };

    fn from(error: StepError) -> SetStop {
        match error {
            StepError::Memory => SetStop::Memory,
            StepError::Full => SetStop::ArenaFull,
        }
    }
}

impl From<SetStop> for Stop {
    ghost from_gives = { λ error stop. stop ≡ stop_at_set error };

    fn from(error: SetStop) -> Stop {
        match error {
            SetStop::Memory => Stop::Memory,
            SetStop::ArenaFull => Stop::ArenaFull,
        }
    }
}
