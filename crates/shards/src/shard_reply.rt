//! The reply of one shard.

ghost use Rattle.std.specs.Prelude.{◌≡◌, ◌<◌, ◌↔◌, ◌⊎◌, ℕ, All, Contains, Some, length, slice_get};
ghost use Rattle.std.specs.Prelude.{IsTrue, MatchOption, OnOk};
ghost use Rattle.keyspace.specs.declared.txn.TheConstants.{MAX_RANGES};
ghost use Rattle.shards.specs.Combined.{Fits, HasPlaces, IsMisfit, Reports};

use crate::error::Misfit;
use crate::read_indices::ReadIndices;
use keyspace::{Batch, Entry, Reply};
use std::alloc::AllocError;

/// The reply of a shard's resolver to a clipped batch, with the indices of the read ranges as
/// [`clip_all`](crate::clip_all) returned them beside that batch.
#[derive(Debug, Drop)]
pub struct ShardReply {
    pub reply: Reply,
    pub reads: ReadIndices,
}

impl ShardReply {
    // Returns why this isn't a reply to the batch, if it isn't.
    pub(crate) fn misfit(&self, batch: &Batch) -> Option<Misfit>
        ensures cause { MatchOption result (Fits batch.now self.now)
            (λ cause. IsMisfit batch.now cause self.now) }
    {
        if self.reply.version != batch.version {
            return Some(Misfit::Version);
        }
        let count = batch.txns.len();
        if self.reply.entries.len() != count || self.reads.len() != count {
            return Some(Misfit::Count);
        }
        if !self.has_places() {
            return Some(Misfit::Place);
        }
        None
    }

    // Returns `true` if each place that is reported is one of a read range.
    fn has_places(&self) -> bool
        requires count { length self.now.reply.entries ≡ length self.now.reads }
        ensures places { IsTrue result ↔ HasPlaces self.now }
    {
        for (index, entry) in self.reply.entries.as_slice().iter().enumerate() {
            let count = self.reads.txn(index).len();
            if !are_below(entry.places.as_slice(), count) {
                return false;
            }
        }
        true
    }

    /// Returns the entry of a transaction.
    pub(crate) fn entry(&self, index: usize) -> &Entry
        requires within { index < length self.now.reply.entries }
        ensures entry { slice_get self.now.reply.entries index ≡ Some result.now }
    {
        &self.reply.entries.as_slice()[index]
    }

    /// Appends the indices of the read ranges of a transaction that this reports, as they were
    /// sent.
    pub(crate) fn put_report(&self, index: usize, found: &mut Vec<u16>) -> Result<(), AllocError>
        requires entries { index < length self.now.reply.entries }
        requires reads { index < length self.now.reads }
        requires places { HasPlaces self.now }
        requires below { All (λ read. read < MAX_RANGES) found.old.items }
        ensures below { OnOk result (All (λ read. read < MAX_RANGES) found.new.items) }
        ensures report { OnOk result ((read : ℕ)
            → Contains found.new.items read
            ↔ (Contains found.old.items read ⊎ Reports index read self.now)) }
    {
        let indices = self.reads.txn(index);
        for place in self.entry(index).places.as_slice() {
            found.push(indices[usize::from(*place)])?;
        }
        Ok(())
    }
}

// Returns `true` if each of the places is below the count.
fn are_below(places: &[u16], count: usize) -> bool
    ensures below { IsTrue result ↔ All (λ place. place < count) places.now }
{
    places.iter().all(|place| usize::from(*place) < count)
}
