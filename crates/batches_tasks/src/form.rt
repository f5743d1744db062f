//! The printed form of a frame.

/// The printed form of a frame.
#[derive(Clone, Copy, Debug, PartialEq, Eq)]
pub enum OutputForm {
    /// A line of JSON.
    Line,
    /// A table, with wide keys in full or shortened.
    Table { full: bool },
}
