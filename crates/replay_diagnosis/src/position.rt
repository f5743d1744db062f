//! The position of a frame in its file.

/// The position of a frame in its file.
#[derive(Clone, Copy, Debug, PartialEq, Eq)]
pub struct Position {
    /// The number of the frame, counted from 1 as `batches` counts them.
    pub frame: u64,
    /// The number of bytes before the frame.
    pub offset: u64,
}
