//! A write: a version on a range.

ghost use Rattle.std.specs.Prelude.{◌≡◌, take};
ghost use Rattle.keys.specs.Key.{IsBefore, IsKey};

use crate::key_bound::KeyBound;
use keys::{HashedRange, common_prefix_len};

/// A version that is written from one key up to another.
#[derive(Clone, Copy, Debug)]
pub struct Overwrite<'a> {
    pub start: &'a [u8],
    pub end: &'a [u8],
    /// How many bytes both begin with in common, or fewer.
    pub common_prefix_len: usize,
    pub version: i64,
    /// The version at the end. If it is missing, it is that of the last boundary before the end.
    pub at_end: Option<i64>,
    ghost start_is_key: { IsKey start.now },
    ghost end_is_key: { IsKey end.now },
    ghost filled: { IsBefore start.now end.now },
    ghost common: { take common_prefix_len start.now ≡ take common_prefix_len end.now },
}

impl<'a> Overwrite<'a> {
    ghost use Rattle.std.specs.Prelude.{◌≡◌, None, Some};
    ghost use Rattle.keys.specs.Range.{IsEmpty};
    ghost use Rattle.boundaries.specs.Overwrite.{bound_from, bound_past, bound_to};

    /// Returns what is written on a range, which isn't empty.
    pub fn of(range: &HashedRange<'a>, version: i64) -> Self
        requires filled { ¬ IsEmpty range.now }
        ensures start { result.start.now ≡ range.now.begin }
        ensures end { result.end.now ≡ range.now.end }
        ensures version { result.version ≡ version }
        ensures at_end { result.at_end ≡ None }
    {
        // A key is a prefix of the one right after it.
        let common_prefix_len = if range.hash().is_some() {
            range.begin().len()
        } else {
            common_prefix_len(range.begin(), range.end())
        };
        Overwrite {
            start: range.begin(),
            end: range.end(),
            common_prefix_len,
            version,
            at_end: None,
        }
    }

    /// Returns the same with this version at the end.
    pub fn with_end(self, at_end: i64) -> Self
        ensures start { result.start.now ≡ self.entry.start.now }
        ensures end { result.end.now ≡ self.entry.end.now }
        ensures version { result.version ≡ self.entry.version }
        ensures at_end { result.at_end ≡ Some at_end }
    {
        Overwrite {
            start: self.start,
            end: self.end,
            common_prefix_len: self.common_prefix_len,
            version: self.version,
            at_end: Some(at_end),
        }
    }

    /// Returns the bound right before the start.
    pub fn from(&self) -> KeyBound<'a>
        ensures bound { result ≡ bound_from self.now }
    {
        KeyBound::before(self.start)
    }

    /// Returns the bound right before the end.
    pub fn to(&self) -> KeyBound<'a>
        ensures bound { result ≡ bound_to self.now }
    {
        KeyBound::before(self.end)
    }

    /// Returns the bound right after the end.
    pub fn past(&self) -> KeyBound<'a>
        ensures bound { result ≡ bound_past self.now }
    {
        KeyBound::after(self.end)
    }
}
