//! Half-open ranges of keys.

ghost use Rattle.std.specs.Prelude.{◌≡◌, ◌↔◌, IfOk, IsErrOf, IsOkUnless, IsTrue};
ghost use Rattle.keys.specs.Key.{IsKey, IsAtMost, IsBefore};

use crate::error::KeyError;
use crate::key::Key;
use crate::range_ref::RangeRef;
use std::alloc::{AllocError, Global};

/// The half-open range `[begin, end)`; empty if the two are equal. `begin` isn't after `end`.
#[derive(Debug, Drop)]
pub struct Range {
    pub begin: Key,
    pub end: Key,
    ghost begin_is_key: { IsKey begin },
    ghost end_is_key: { IsKey end },
    ghost ordered: { IsAtMost begin end },
}

impl Range {
    ghost use Rattle.keys.specs.Range.{Holds, Meets, IsEmpty, ranges_meet};

    /// Creates the half-open range `[begin, end)`: `KeyRangeRef` of FoundationDB 7.1.
    pub fn new(begin: Key, end: Key) -> Self
        requires ordered { IsAtMost begin end }
        ensures begin { result.begin ≡ begin }
        ensures end { result.end ≡ end }
    {
        let _ = begin.as_bytes();
        let _ = end.as_bytes();
        Range { begin, end }
    }

    /// Creates the half-open range `[begin, end)`, or returns [`KeyError::Inverted`] if `begin` is
    /// after `end`.
    pub fn checked(begin: Key, end: Key) -> Result<Self, KeyError>
        ensures begin { IfOk result (λ range. range.begin ≡ begin) }
        ensures end { IfOk result (λ range. range.end ≡ end) }
        ensures inverted { IsErrOf result KeyError.Inverted ↔ IsBefore end begin }
        ensures err { IsOkUnless result KeyError.Inverted }
    {
        if end < begin {
            return Err(KeyError::Inverted);
        }
        Ok(Range::new(begin, end))
    }

    /// Borrows the range, without copying its keys.
    pub fn as_ref(&self) -> RangeRef<'_>
        ensures range { result ≡ self.now }
    {
        RangeRef::new(self.begin.as_bytes(), self.end.as_bytes())
    }

    /// Returns `true` if the range holds no key.
    pub fn is_empty(&self) -> bool
        ensures empty { IsTrue result ↔ IsEmpty self.now }
    {
        self.begin == self.end
    }

    /// Returns `true` if the range holds the key, which may be of any length.
    pub fn holds(&self, key: &[u8]) -> bool
        ensures holds { IsTrue result ↔ Holds self.now key.now }
    {
        self.begin.as_bytes().cmp(key).is_le() && key.cmp(self.end.as_bytes()).is_lt()
    }

    /// Returns `true` if the ranges overlap, which is to say that both hold some key. An empty
    /// range overlaps none.
    pub fn meets(&self, other: &Range) -> bool
        ensures meets { IsTrue result ↔ Meets self.now other.now }
        ensures by_ends { result ≡ ranges_meet self.now other.now }
    {
        self.begin < self.end
            && other.begin < other.end
            && self.begin < other.end
            && other.begin < self.end
    }

    /// Copies the range, or returns an error if memory is refused.
    pub fn copy(&self, alloc: Global) -> Result<Self, AllocError>
        ensures equal { IfOk result (λ range. range ≡ self.now) }
    {
        let begin = self.begin.copy(alloc)?;
        let end = self.end.copy(alloc)?;
        Ok(Range { begin, end })
    }
}
