//! Why bytes are no key, or two keys no range.

use thiserror::Error;

/// Why bytes are no key, or two keys no range.
#[derive(Clone, Copy, Debug, PartialEq, Eq, Hash, Error)]
pub enum KeyError {
    /// The key is longer than [`MAX_KEY_LENGTH`](crate::MAX_KEY_LENGTH).
    #[error("key is longer than 10,001 bytes")]
    KeyLength,
    /// The begin of the range is after its end.
    #[error("begin is after end")]
    Inverted,
}
