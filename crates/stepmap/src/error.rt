//! Why a step map refuses a call.

ghost use Rattle.std.specs.Prelude.{◌≡◌};
ghost use Rattle.stepmap.specs.declared.error.StepError.TheVariants.{Memory};

use std::alloc::AllocError;
use thiserror::Error;

/// Why a step map refuses a call.
#[derive(Clone, Copy, Debug, PartialEq, Eq, Hash, Error)]
pub enum StepError {
    /// A growth was refused in that call, or an arena would have more than 8,388,608 chunks.
    #[error("1 Memory")]
    Memory = 1,
    /// The ranges don't fit within the limit on boundaries, although a complete round was swept in
    /// that call.
    #[error("2 Full")]
    Full = 2,
}

impl From<AllocError> for StepError {
    ghost from_gives = { λ _ e. e ≡ Memory };

    fn from(_refused: AllocError) -> StepError {
        StepError::Memory
    }
}
