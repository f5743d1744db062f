//! Why an arena refuses a call.

ghost use Rattle.std.specs.Prelude.{◌≡◌};
ghost use Rattle.arena.specs.declared.error.ArenaError.TheVariants.{Memory};

use std::alloc::AllocError;
use thiserror::Error;

/// Why an arena refuses a call. Its records are then as before, and no spare slot is lost.
#[derive(Clone, Copy, Debug, PartialEq, Eq, Hash, Error)]
pub enum ArenaError {
    /// A growth was refused in that call, or it would make more than 8,388,608 chunks.
    #[error("1 Memory")]
    Memory = 1,
    /// A length is above `MAX_LENGTH`.
    #[error("2 TooLong")]
    TooLong = 2,
}

impl From<AllocError> for ArenaError {
    ghost from_gives = { λ _ e. e ≡ Memory };

    fn from(_refused: AllocError) -> ArenaError {
        ArenaError::Memory
    }
}
