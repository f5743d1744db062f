//! The observer that counts conflicts by range.

ghost use Rattle.std.specs.Prelude.{◌≡◌, ◌≤ℤ◌, [], ℤ, List, pos, IfOk};
ghost use Rattle.keyspace.specs.Chain.{IsChain};
ghost use Rattle.keyspace.specs.Processed.{Processed};

use crate::conflict_counts::Tallies;
use crate::hot_range::Top;
use crate::top::top_of;
use explanations::{History, ProcessedBatch};
use keyspace::{Batch, Reply};
use observer::Observer;
use std::alloc::{AllocError, Global};

/// Sees the batches that a resolver processes, and counts the transactions that were rejected as
/// conflicts, by their read ranges in conflict and by the written ranges that these conflict with.
///
/// If memory is refused, it sees no more: each later call of `see` and of [`top`](Self::top)
/// returns an error.
#[derive(Debug, Drop)]
pub struct HotRanges {
    alloc: Global,
    history: History,
    tallies: Tallies,
    // memory was refused
    has_failed: bool,
}

impl HotRanges {
    ghost use Rattle.replay_hot_ranges.specs.HotRanges.{HasSeen};
    ghost use Rattle.replay_hot_ranges.specs.Top.{IsTopOf};

    /// Creates an observer that has seen nothing, without taking memory. `window` is how far back a
    /// transaction may read, in versions.
    pub fn new(alloc: Global, window: i64) -> Self
        requires least_window { pos 1 ≤ℤ window }
        ensures none { HasSeen result [] }
        ensures window { result.history.window ≡ window }
    {
        HotRanges {
            alloc,
            history: History::new(alloc, window),
            tallies: Tallies::new(alloc),
            has_failed: false,
        }
    }

    /// Returns how far back a transaction may read, in versions, as [`new`](Self::new) was given
    /// it.
    pub fn window(&self) -> i64
        ensures window { result ≡ self.now.history.window }
    {
        self.history.window()
    }

    /// Returns the read ranges and the written ranges with the greatest counts, at most `most` of
    /// each. An error is refused memory, now or in an earlier call of `see`.
    pub fn top(&self, most: usize) -> Result<Top<'_>, AllocError>
        ensures top { IfOk result (λ top. (ps : List Processed) → HasSeen self.now ps
            → IsChain self.now.history.window ps → IsTopOf ps most top) }
    {
        if self.has_failed {
            return Err(AllocError);
        }
        Ok(Top {
            reads: top_of(self.alloc, &self.tallies.reads, most)?,
            writes: top_of(self.alloc, &self.tallies.writes, most)?,
        })
    }
}

impl Observer for HotRanges {
    ghost use Rattle.replay_hot_ranges.specs.HotRanges.{HasSeen};

    ghost has_seen = { HasSeen };

    ghost Setting = { ℤ };

    ghost setting = { λ h. h.history.window };

    fn see(&mut self, proxy: usize, batch: Batch, reply: &Reply) -> Result<(), AllocError> {
        if self.has_failed {
            return Err(AllocError);
        }
        self.has_failed = true;
        let processed = ProcessedBatch::new(self.alloc, proxy, batch, reply.copy(self.alloc)?)?;
        self.history.push(processed)?;
        self.tallies
            .add_batch(&self.history, reply.entries.as_slice())?;
        self.has_failed = false;
        Ok(())
    }
}
