//! What a difference is.

ghost use Rattle.std.specs.Prelude.{◌≡◌};
ghost use Rattle.checking.specs.Difference.{missing_reply, unexpected_reply};

use keyspace::{Entry, Reply};

/// A difference between the reply that an answer expects to a batch and the one that was recorded.
#[derive(Debug, Drop)]
pub struct Difference {
    /// The version of the batch.
    pub version: i64,
    pub kind: DifferenceKind,
}

/// In what an expected reply and a recorded one differ, or which of the two there isn't.
#[derive(Debug, Drop)]
pub enum DifferenceKind {
    /// A reply is expected, and none was recorded.
    Missing,
    /// A reply was recorded, and none is expected.
    Unexpected,
    /// The numbers of verdicts differ.
    Count {
        expected: usize,
        found: usize,
    },
    /// The verdicts on the transaction of this index differ, or else the places of their reports.
    Transaction {
        index: usize,
        expected: Entry,
        found: Entry,
    },
}

impl Difference {
    /// Creates the difference of an expected reply that wasn't recorded.
    pub fn missing(reply: &Reply) -> Self
        ensures missing { result ≡ missing_reply reply.now }
    {
        Difference {
            version: reply.version,
            kind: DifferenceKind::Missing,
        }
    }

    /// Creates the difference of a recorded reply that isn't expected.
    pub fn unexpected(reply: &Reply) -> Self
        ensures unexpected { result ≡ unexpected_reply reply.now }
    {
        Difference {
            version: reply.version,
            kind: DifferenceKind::Unexpected,
        }
    }
}
