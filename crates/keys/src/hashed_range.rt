//! Ranges with the hash of the key that they hold alone.

ghost use Rattle.std.specs.Prelude.{◌≡◌};
ghost use Rattle.keys.specs.Hash.{IsHashOf};

use crate::range_ref::RangeRef;
use std::marker::Model;

/// A range with borrowed keys, and the hash of the key that it holds alone, if it holds just one:
/// so nobody has to hash that again. Contracts see it as the range.
// It isn't `Copy`, which the language doesn't have yet on a struct with a lifetime and a model.
#[derive(Debug, Drop)]
pub struct HashedRange<'a> {
    range: RangeRef<'a>,
    hash: Option<u32>,
}

impl<'a> Model for HashedRange<'a> {
    ghost use Rattle.keys.specs.Hash.{IsHashOf};
    ghost use Rattle.keys.specs.contracts.range.Range as range_type;
    ghost use Rattle.keys.specs.declared.range.Range.{Range};

    ghost Value = { Range };

    ghost coded = { range_type.the_row.coded };

    ghost view = { λ r. r.range };

    ghost invariant = { λ r. IsHashOf r.range r.hash };
}

impl<'a> HashedRange<'a> {
    /// Hashes the key of the range, if it holds just one.
    pub fn of(range: RangeRef<'a>) -> Self
        ensures range { result ≡ range.entry }
    {
        let hash = range.single_hash();
        HashedRange { range, hash }
    }

    /// Takes the range with its hash, which is what [`RangeRef::single_hash`] returns for it.
    pub fn new(range: RangeRef<'a>, hash: Option<u32>) -> Self
        requires hash { IsHashOf range hash }
        ensures range { result ≡ range.entry }
    {
        HashedRange { range, hash }
    }

    /// Returns the bytes of the begin, at most [`MAX_KEY_LENGTH`](crate::MAX_KEY_LENGTH).
    pub fn begin(&self) -> &'a [u8]
        ensures bytes { result.now ≡ self.now.begin }
    {
        self.range.begin()
    }

    /// Returns the bytes of the end, at most [`MAX_KEY_LENGTH`](crate::MAX_KEY_LENGTH).
    pub fn end(&self) -> &'a [u8]
        ensures bytes { result.now ≡ self.now.end }
    {
        self.range.end()
    }

    /// Returns what [`RangeRef::single_hash`] returns for the range.
    pub fn hash(&self) -> Option<u32>
        ensures hash { IsHashOf self.now result }
    {
        self.hash
    }
}
