//! What an explanation is asked for.

ghost use Rattle.std.specs.Prelude.{◌≡◌, ◌||◌, false, int_lt};
ghost use Rattle.std.specs.Ordering.{int_eq};
ghost use Rattle.keys.specs.Hash.{IsHashOf};
ghost use Rattle.keys.specs.Key.{is_before};
ghost use Rattle.keys.specs.Range.{ranges_meet};
ghost use Rattle.keys.specs.declared.range.Range.{Range};
ghost use Rattle.explanations.specs.Explains.{explains};

use crate::explanation::WrittenRef;
use keys::{HashedRange, RangeRef};

// A read range of a transaction.
#[derive(Debug, Drop)]
pub(crate) struct ReadQuestion<'a> {
    // the version of its batch
    pub version: i64,
    // the index of the transaction in the batch
    pub txn: usize,
    pub snapshot: i64,
    pub range: HashedRange<'a>,
}

impl ReadQuestion<'_> {
    // Returns whether the write explains that the range is in conflict.
    pub fn is_explained_by(&self, write: &WrittenRef) -> bool
        ensures explains { result
            ≡ explains self.now.version self.now.txn self.now.snapshot self.now.range write.now }
    {
        let is_newer = if write.version == self.version {
            write.txn < self.txn
        } else {
            self.snapshot < write.version
        };
        is_newer && overlap(&self.range, &write.range)
    }

    // Returns `false` only if no range with this hash overlaps. It looks at no key.
    pub fn may_overlap(&self, hash: Option<u32>) -> bool
        ensures apart { result ≡ false → (range : Range) → IsHashOf range hash
            → ranges_meet self.now.range range ≡ false }
    {
        match (self.range.hash(), hash) {
            (Some(own), Some(other)) => own == other,
            _ => true,
        }
    }

    // Returns whether a write of the batch of this version can explain it at all.
    pub fn reaches(&self, version: i64) -> bool
        ensures reaches { result
            ≡ (int_eq version self.now.version || int_lt self.now.snapshot version) }
    {
        version == self.version || self.snapshot < version
    }
}

// Returns whether the ranges overlap.
fn overlap(a: &HashedRange, b: &RangeRef) -> bool
    ensures overlap { result ≡ ranges_meet a.now b.now }
{
    comes_before(a.begin(), a.end())
        && comes_before(b.begin(), b.end())
        && comes_before(a.begin(), b.end())
        && comes_before(b.begin(), a.end())
}

// Returns whether the key comes before the other.
fn comes_before(key: &[u8], other: &[u8]) -> bool
    ensures before { result ≡ is_before key.now other.now }
{
    key.cmp(other).is_lt()
}
