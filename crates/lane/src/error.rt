//! Why a lane was not made.

ghost use Rattle.std.specs.Prelude.{◌≡◌};
ghost use Rattle.lane.specs.declared.error.LaneError.TheVariants.{Memory};

use std::alloc::AllocError;
use thiserror::Error;

/// Why a lane was not made.
#[derive(Clone, Copy, Debug, PartialEq, Eq, Hash, Error)]
pub enum LaneError {
    /// A growth was refused in that call.
    #[error("1 Memory")]
    Memory = 1,
}

impl From<AllocError> for LaneError {
    ghost from_gives = { λ _ e. e ≡ Memory };

    fn from(_refused: AllocError) -> LaneError {
        LaneError::Memory
    }
}
