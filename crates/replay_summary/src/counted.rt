//! An answer, with its verdicts counted.

ghost use Rattle.std.specs.Prelude.{◌≡◌, ℤ};
ghost use Rattle.replay_summary.specs.Counted.{counted_of};
ghost use Rattle.replay_summary.specs.declared.counted.Counted.{Counted as CountedValue};

use crate::counts::Counts;
use keyspace::Answer;

/// What an answer is, for a summary.
#[derive(Clone, Copy, Debug, PartialEq, Eq)]
pub enum Outcome {
    /// It is a reply with these verdicts.
    Replied(Counts),
    /// It is a repeat whose reply is no longer kept.
    Never,
    /// Its batch was still held when all input had ended.
    Held,
}

/// An answer, with its verdicts counted: 24 bytes, whatever the size of the answer.
#[derive(Clone, Copy, Debug, PartialEq, Eq)]
pub struct Counted {
    /// The version of the batch that is answered.
    pub version: i64,
    pub outcome: Outcome,
}

impl Counted {
    /// Counts an answer.
    pub fn of(answer: &Answer) -> Counted
        ensures counted { result ≡ counted_of answer.now }
    {
        match answer {
            Answer::Reply(reply) => Counted {
                version: reply.version,
                outcome: Outcome::Replied(Counts::of(reply)),
            },
            Answer::Never(version) => Counted {
                version: *version,
                outcome: Outcome::Never,
            },
            Answer::Held(version) => Counted {
                version: *version,
                outcome: Outcome::Held,
            },
        }
    }
}

/// What has a counted answer.
pub trait HasCounted {
    // The counted answer of this item.
    ghost item_counted: { Self → CountedValue };

    /// Returns the counted answer.
    fn counted(&self) -> Counted
        ensures counted { result ≡ item_counted self.now };
}

impl HasCounted for Counted {
    ghost item_counted = { λ counted. counted };

    fn counted(&self) -> Counted {
        *self
    }
}

impl HasCounted for Answer {
    ghost item_counted = { counted_of };

    fn counted(&self) -> Counted {
        Counted::of(self)
    }
}
