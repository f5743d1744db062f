//! What is done with the input.

/// What is done with the input.
#[derive(Clone, Copy, Debug, PartialEq, Eq)]
pub enum JobTask {
    /// Lines become frames.
    Encode,
    /// Frames become lines.
    Decode,
    /// Frames become a table, with wide keys in full or shortened.
    Show { full: bool },
}
