//! Lists of ranges, wherever their keys lie.

ghost use Rattle.std.specs.Prelude.{◌≡◌, ◌<◌, List, length, Some, slice_get};
ghost use Rattle.keys.specs.declared.range.Range.{Range};

use crate::range_ref::RangeRef;

/// Ranges that are lent by their index.
pub trait RangeList {
    // The ranges, in the order of their indices.
    ghost ranges: { Self → List Range };

    /// Returns the number of ranges.
    fn len(&self) -> usize
        ensures count { result ≡ length (ranges self.now) };

    /// Returns the range at the index, without copying its keys.
    fn range(&self, index: usize) -> RangeRef<'_>
        requires within { index < length (ranges self.now) }
        ensures range { slice_get (ranges self.now) index ≡ Some result };
}
