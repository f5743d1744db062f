//! The kinds of values that frames and lines have.

/// What frames and lines are of.
#[derive(Clone, Copy, Debug, PartialEq, Eq)]
pub enum Kind {
    Batches,
    Replies,
}
