//! Questions about boundaries.

ghost use Rattle.std.specs.Prelude.{◌≡◌, ◌∷◌, ◌++◌, [], true, take};
ghost use Rattle.keys.specs.Key.{IsBefore};

use crate::key_bound::KeyBound;
use crate::query::RangeQuery;
use keys::common_prefix_len;

/// How many questions are answered side by side at most: few enough that they and the nodes that
/// are read for them fit into the first-level cache together.
pub const SIDE: usize = 16;

const _: () = prove!(SIDE == 16);

/// Asks whether a version at some key of a range, which isn't empty, is above this one.
#[derive(Clone, Copy, Debug)]
pub struct Question<'a> {
    begin: &'a [u8],
    end: &'a [u8],
    /// How many bytes both begin with in common, or fewer.
    pub common_prefix_len: usize,
    /// True only if the range holds its begin alone. Then the last boundary that isn't after the
    /// begin decides the answer.
    pub is_single: bool,
    pub version: i64,
    ghost filled: { IsBefore begin.now end.now },
    ghost single: { is_single ≡ true → end.now ≡ begin.now ++ 0 ∷ [] },
    ghost common: { take common_prefix_len begin.now ≡ take common_prefix_len end.now },
}

impl<'a> Question<'a> {
    ghost use Rattle.std.specs.Prelude.{◌≡◌};
    ghost use Rattle.keys.specs.Hash.{IsHashOf};
    ghost use Rattle.keys.specs.Range.{IsEmpty};
    ghost use Rattle.boundaries.specs.Question.{bound_after, bound_before, AsksFor};

    /// Returns the question for a query whose range isn't empty.
    pub fn of(query: RangeQuery<'a>) -> Self
        requires filled { ¬ IsEmpty query.range }
        requires hash { IsHashOf query.range query.hash }
        ensures asks { AsksFor (query.entry.range, query.entry.version) result }
    {
        let begin = query.range.begin();
        let end = query.range.end();
        let is_single = query.hash.is_some();
        // A key is a prefix of the one right after it.
        let common_prefix_len = if is_single {
            begin.len()
        } else {
            common_prefix_len(begin, end)
        };
        Question {
            begin,
            end,
            common_prefix_len,
            is_single,
            version: query.version,
        }
    }

    /// Returns the bound right after the begin. The last boundary below it has the version at the
    /// begin.
    pub fn from(&self) -> KeyBound<'a>
        ensures bound { result ≡ bound_after self.now }
    {
        KeyBound::after(self.begin)
    }

    /// Returns the bound right before the end.
    pub fn to(&self) -> KeyBound<'a>
        ensures bound { result ≡ bound_before self.now }
    {
        KeyBound::before(self.end)
    }
}

impl<'a> Default for Question<'a> {
    /// Returns a question about the empty key: the default of a list of questions.
    fn default() -> Self {
        Question {
            begin: &[],
            end: &[0],
            common_prefix_len: 0,
            is_single: false,
            version: 0,
        }
    }
}
