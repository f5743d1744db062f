//! Where the ends of a shard lie in its buffer, and spans that are cut to these.

ghost use Rattle.std.specs.Prelude.{◌≡◌, ℕ, List, length, nat_lt, if◌then◌else◌};
ghost use Rattle.keys.specs.declared.range.Range.{Range};
ghost use Rattle.keyspace.specs.storage.Fields.{range_fields};
ghost use Rattle.keyspace.specs.storage.Tables.{range_of_span, LiesWithin};
ghost use Rattle.serial.specs.Shards.{Shard};
ghost use Rattle.shards.specs.Built.{HasBounds, clip_fields};
ghost use Rattle.shards.specs.Cut.{IsCut};

use crate::reach::Reach;
use crate::shard_ends::Cut;
use keyspace::Span;

/// The location of a key in a buffer, in bytes.
#[derive(Clone, Copy, Debug)]
pub(crate) struct KeyAt {
    pub begin: u32,
    pub length: u16,
}

/// A shard, and where its ends lie in its buffer. All ranges that are cut share these.
#[derive(Clone, Copy, Debug)]
pub(crate) struct Bounds {
    pub shard: usize,
    pub from: KeyAt,
    pub to: KeyAt,
}

impl Bounds {
    /// Returns where the first key of the shard lies, if the range begins before it.
    pub fn begin_of(&self, reach: &Reach) -> Option<KeyAt>
        ensures begin { result ≡
            (if nat_lt reach.now.first self.now.shard then Some self.now.from else None) }
    {
        if usize::from(reach.first) < self.shard {
            Some(self.from)
        } else {
            None
        }
    }

    /// Returns where the end of the shard lies, if the range ends after it.
    pub fn end_of(&self, reach: &Reach) -> Option<KeyAt>
        ensures end { result ≡
            (if nat_lt self.now.shard reach.now.last then Some self.now.to else None) }
    {
        if self.shard < usize::from(reach.last) {
            Some(self.to)
        } else {
            None
        }
    }

    /// Returns the span of the clip of a range that is cut to the shard. Its keys are those of the
    /// span and the ends of the shard.
    pub fn clip(&self, span: &Span, cut: Cut) -> Span
        ensures clip { (shard : Shard) (m : ℕ) (buffer : List ℕ) (range : Range)
            → HasBounds shard m buffer self.now
            → LiesWithin (length buffer) span.now
            → range_of_span buffer span.now ≡ range_fields range
            → IsCut shard range cut
            → LiesWithin (length buffer) result
            × (range_of_span buffer result ≡ clip_fields shard range) }
    {
        let own_begin = KeyAt {
            begin: span.begin,
            length: span.begin_length,
        };
        let own_end = KeyAt {
            begin: span.end,
            length: span.end_length,
        };
        let begin = pick(cut.begin, self.from, own_begin);
        let end = pick(cut.end, self.to, own_end);
        Span {
            begin: begin.begin,
            begin_length: begin.length,
            end: end.begin,
            end_length: end.length,
        }
    }
}

// Returns the first location if the test says so, and otherwise the second one.
fn pick(test: bool, first: KeyAt, second: KeyAt) -> KeyAt
    ensures picked { result ≡ (if test then first else second) }
{
    if test { first } else { second }
}
