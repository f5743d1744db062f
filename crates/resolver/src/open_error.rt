//! Why no resolver is made.

ghost use Rattle.std.specs.Prelude.{◌≡◌};

use lane::LaneError;
use std::alloc::AllocError;
use thiserror::Error;

/// Why no resolver is made.
#[derive(Clone, Copy, Debug, PartialEq, Eq, Hash, Error)]
pub enum OpenError {
    /// An allocation failed.
    #[error("1 Memory")]
    Memory = 1,
}

impl From<AllocError> for OpenError {
    ghost use Rattle.resolver.specs.declared.open_error.OpenError.TheVariants.{Memory};

    ghost from_gives = { λ _ error. error ≡ Memory };

    fn from(_refused: AllocError) -> OpenError {
        OpenError::Memory
    }
}

impl From<LaneError> for OpenError {
    ghost use Rattle.resolver.specs.declared.open_error.OpenError.TheVariants.{Memory};

    ghost from_gives = { λ _ error. error ≡ Memory };

    fn from(_refused: LaneError) -> OpenError {
        OpenError::Memory
    }
}
