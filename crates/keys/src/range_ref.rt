//! Ranges whose keys are borrowed.

ghost use Rattle.std.specs.Prelude.{◌≡◌, ◌≤◌, ◌↔◌, length, IfOk, IsTrue};
ghost use Rattle.keys.specs.Hash.{IsHashOf};
ghost use Rattle.keys.specs.Range.{IsEmpty, IsSingle};
ghost use Rattle.keys.specs.Key.{IsKey, IsAtMost};
ghost use Rattle.keys.specs.declared.key.TheConstants.{MAX_KEY_LENGTH};

use crate::key::Key;
use crate::key_hashes::key_hash;
use crate::range::Range;
use crate::single_key::is_single_key;
use std::alloc::{AllocError, Global};
use std::marker::Model;

/// The half-open range `[begin, end)` with borrowed keys: `KeyRangeRef` of FoundationDB 7.1.
/// Contracts see it as the range.
// It isn't `Copy`, which the language doesn't have yet on a struct with a lifetime and a model.
#[derive(Debug, Drop)]
pub struct RangeRef<'a> {
    begin: &'a [u8],
    end: &'a [u8],
    ghost begin_is_key: { IsKey begin.now },
    ghost end_is_key: { IsKey end.now },
    ghost ordered: { IsAtMost begin.now end.now },
}

impl<'a> Model for RangeRef<'a> {
    ghost use Rattle.keys.specs.contracts.range.Range as range_type;
    ghost use Rattle.keys.specs.declared.range.Range.{Range};

    ghost Value = { Range };

    ghost coded = { range_type.the_row.coded };

    ghost view = { λ r. record {
      begin = r.begin.now;
      end = r.end.now;
      begin_is_key = r.begin_is_key;
      end_is_key = r.end_is_key;
      ordered = r.ordered;
    } };
}

impl<'a> RangeRef<'a> {
    /// Creates the half-open range `[begin, end)`, without copying the keys.
    pub fn new(begin: &'a [u8], end: &'a [u8]) -> Self
        requires begin { length begin.now ≤ MAX_KEY_LENGTH }
        requires end { length end.now ≤ MAX_KEY_LENGTH }
        requires ordered { IsAtMost begin.now end.now }
        ensures begin { result.begin ≡ begin.now }
        ensures end { result.end ≡ end.now }
    {
        RangeRef { begin, end }
    }

    /// Returns `true` if the range holds no key.
    pub fn is_empty(&self) -> bool
        ensures empty { IsTrue result ↔ IsEmpty self.now }
    {
        self.begin == self.end
    }

    /// Returns `true` if the range holds its begin alone: it ends with the key right after that.
    pub fn is_single(&self) -> bool
        ensures single { IsTrue result ↔ IsSingle self.now }
    {
        is_single_key(self.begin, self.end)
    }

    /// Returns the hash of the key that the range holds alone, as [`key_hash`](crate::key_hash)
    /// does, or `None` if it holds none or several.
    pub fn single_hash(&self) -> Option<u32>
        ensures hash { IsHashOf self.now result }
    {
        if !self.is_single() {
            return None;
        }
        Some(key_hash(self.begin))
    }

    /// Returns the bytes of the begin, at most [`MAX_KEY_LENGTH`](crate::MAX_KEY_LENGTH).
    pub fn begin(&self) -> &'a [u8]
        ensures bytes { result.now ≡ self.now.begin }
    {
        self.begin
    }

    /// Returns the bytes of the end, at most [`MAX_KEY_LENGTH`](crate::MAX_KEY_LENGTH).
    pub fn end(&self) -> &'a [u8]
        ensures bytes { result.now ≡ self.now.end }
    {
        self.end
    }

    /// Copies the range, or returns an error if memory is refused.
    pub fn to_range(&self, alloc: Global) -> Result<Range, AllocError>
        ensures equal { IfOk result (λ range. range ≡ self.now) }
    {
        let begin = Key::copied(alloc, self.begin)?;
        let end = Key::copied(alloc, self.end)?;
        Ok(Range::new(begin, end))
    }
}
