//! Ranges whose keys lie in a buffer.

ghost use Rattle.std.specs.Prelude.{◌≡◌, ◌↔◌, ◌<◌, ◌≤◌, [], Some, IsTrue, All, length, map};
ghost use Rattle.std.specs.Prelude.{slice_get, slice_range};
ghost use Rattle.keyspace.specs.storage.Fields.{range_fields, RangeHolds};
ghost use Rattle.keyspace.specs.storage.Tables.{range_of_span, LiesWithin};

use crate::span::{Span, bytes_at};
use keys::{RangeList, RangeRef};
use std::marker::Model;

/// Ranges whose keys lie in a buffer, in order. Contracts see the list of them.
// It isn't `Copy`, which the language doesn't have yet on a struct with a lifetime and a model.
#[derive(Debug, Drop)]
pub struct RangesRef<'a> {
    buffer: &'a [u8],
    spans: &'a [Span],
    ghost within: { All (LiesWithin (length buffer.now)) spans.now },
    ghost holds: { All RangeHolds (map (range_of_span buffer.now) spans.now) },
}

impl<'a> Model for RangesRef<'a> {
    ghost use Rattle.std.specs.Prelude.{List, map};
    ghost use Rattle.keys.specs.declared.range.Range.{Range};
    ghost use Rattle.keyspace.specs.storage.Fields.{ranges_with};
    ghost use Rattle.keyspace.specs.storage.Tables.{range_of_span};

    ghost Value = { List Range };

    ghost view = { λ r. ranges_with (map (range_of_span r.buffer.now) r.spans.now) r.holds };
}

impl<'a> RangesRef<'a> {
    /// Lends the ranges of the spans, whose keys lie in the buffer.
    pub fn new(buffer: &'a [u8], spans: &'a [Span]) -> Self
        requires within { All (LiesWithin (length buffer.now)) spans.now }
        requires holds { All RangeHolds (map (range_of_span buffer.now) spans.now) }
        ensures reported { map range_fields result ≡ map (range_of_span buffer.now) spans.now }
    {
        RangesRef { buffer, spans }
    }

    /// Returns the number of ranges.
    pub fn len(&self) -> usize
        ensures count { result ≡ length self.now }
    {
        self.spans.len()
    }

    /// Returns `true` if there are no ranges.
    pub fn is_empty(&self) -> bool
        ensures empty { IsTrue result ↔ (self.now ≡ []) }
    {
        self.len() == 0
    }

    /// Returns the range at the index, without copying its keys.
    pub fn get(&self, index: usize) -> RangeRef<'a>
        requires within { index < length self.now }
        ensures range { slice_get self.now index ≡ Some result }
    {
        let buffer = self.buffer;
        let span = self.spans[index];
        RangeRef::new(
            bytes_at(buffer, span.begin, span.begin_length),
            bytes_at(buffer, span.end, span.end_length),
        )
    }

    /// Returns the ranges from one index up to another, without copying anything.
    pub fn slice(&self, from: usize, to: usize) -> RangesRef<'a>
        requires ordered { from ≤ to }
        requires within { to ≤ length self.now }
        ensures ranges { result ≡ slice_range self.now from to }
    {
        RangesRef::new(self.buffer, &self.spans[from..to])
    }
}

impl RangeList for RangesRef<'_> {
    ghost ranges = { λ r. r };

    fn len(&self) -> usize {
        RangesRef::len(self)
    }

    fn range(&self, index: usize) -> RangeRef<'_> {
        self.get(index)
    }
}
