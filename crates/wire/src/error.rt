//! Why bytes are no frame, or a frame was not read or written.

ghost use Rattle.std.specs.Prelude.{◌≡◌};
ghost use Rattle.wire.specs.declared.error.WireError.TheVariants.{Memory, Read};

use crate::source::Failed;
use std::alloc::{AllocError, AllocFailed};
use thiserror::Error;

/// Why there is no value: the first fault of the bytes, memory that ran out, or a reader or a
/// writer that failed. The text of each is its number and its name, as `1 Short`.
#[derive(Clone, Copy, Debug, PartialEq, Eq, Error)]
pub enum WireError {
    /// The input ends inside a frame.
    #[error("1 Short")]
    Short = 1,
    /// The body's length is above the limit.
    #[error("2 Long")]
    Long = 2,
    /// The kind isn't the expected one, or the byte of a verdict is above 2.
    #[error("3 Kind")]
    Kind = 3,
    /// Bytes are left over in the body.
    #[error("4 Trailing")]
    Trailing = 4,
    /// A version or a snapshot is outside its limits.
    #[error("5 Version")]
    Version = 5,
    /// The byte of marks is above 1, or a place is too high or not above the place before it.
    #[error("6 Marks")]
    Marks = 6,
    /// A count is above its limit, or a verdict other than conflict has places.
    #[error("7 Count")]
    Count = 7,
    /// A key is longer than an end of a range, or than a single key, may be.
    #[error("8 KeyLength")]
    KeyLength = 8,
    /// A range's begin is after its end.
    #[error("9 Inverted")]
    Inverted = 9,
    /// The body ends inside a field.
    #[error("10 Cut")]
    Cut = 10,
    /// A growth of memory was refused in this call, or [`upgrade`](crate::upgrade) has written 2^64
    /// - 1 frames.
    #[error("11 Memory")]
    Memory = 11,
    /// The reader failed in this call.
    #[error("12 Read")]
    Read = 12,
    /// The form of a range is above 1.
    #[error("13 Form")]
    Form = 13,
    /// A range of form 0 is a single key.
    #[error("14 Spelling")]
    Spelling = 14,
    /// The writer failed in this call.
    #[error("15 Write")]
    Write = 15,
}

impl From<AllocError> for WireError {
    ghost from_gives = { λ _ e. e ≡ Memory };

    fn from(_e: AllocError) -> WireError {
        WireError::Memory
    }
}

impl<T: Drop> From<AllocFailed<T>> for WireError {
    ghost from_gives = { λ _ e. e ≡ Memory };

    fn from(_e: AllocFailed<T>) -> WireError {
        WireError::Memory
    }
}

impl From<Failed> for WireError {
    ghost from_gives = { λ _ e. e ≡ Read };

    fn from(_e: Failed) -> WireError {
        WireError::Read
    }
}
