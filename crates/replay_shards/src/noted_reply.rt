//! The reply of one shard, with the note of the batch.

ghost use Rattle.std.specs.Prelude.{◌≡◌, ◌<◌, ◌↔◌, ◌⊎◌, ℕ, All, Contains, IsTrue, OnOk, Some};
ghost use Rattle.std.specs.Prelude.{[], length, slice_get, unwrap_or};
ghost use Rattle.keyspace.specs.declared.txn.TheConstants.{MAX_RANGES};
ghost use Rattle.shards.specs.Combined.{HasPlaces, Reports};
ghost use Rattle.replay_shards.specs.Answers.{FitsIn, noted_in};

use keyspace::{Entry, Reply};
use shards::ReadIndices;
use std::alloc::AllocError;

/// The reply of one shard, with the original indices of its read ranges, if the batch has a note.
#[derive(Clone, Copy)]
pub struct NotedReply<'a> {
    pub reply: &'a Reply,
    pub reads: Option<&'a ReadIndices>,
}

impl NotedReply<'_> {
    /// Returns whether this can be the reply to a batch with that many transactions.
    #[tactic(auto, using(crate::proofs::NotedLists::reads_long))]
    pub fn fits(&self, count: usize) -> bool
        ensures fits { IsTrue result ↔ FitsIn count (noted_in self.now) }
    {
        if self.reply.entries.len() != count {
            return false;
        }
        self.has_places()
    }

    // Returns whether each place that is reported is one of a read range that the shard got.
    fn has_places(&self) -> bool
        ensures places { IsTrue result ↔ HasPlaces (noted_in self.now) }
    {
        for (index, entry) in self.reply.entries.as_slice().iter().enumerate() {
            let count = self.indices(index).len();
            if !are_below(entry.places.as_slice(), count) {
                return false;
            }
        }
        true
    }

    /// Returns the entry of a transaction.
    pub fn entry(&self, index: usize) -> &Entry
        requires within { index < length (noted_in self.now).reply.entries }
        ensures entry { slice_get (noted_in self.now).reply.entries index ≡ Some result.now }
    {
        &self.reply.entries.as_slice()[index]
    }

    // Returns the original indices of the read ranges of a transaction, or none without a note of
    // it.
    fn indices(&self, index: usize) -> &[u16]
        ensures indices { index < length (noted_in self.now).reply.entries
            → slice_get (noted_in self.now).reads index ≡ Some result.now }
        ensures below { All (λ read. read < MAX_RANGES) result.now }
    {
        match self.reads {
            Some(reads) => indices_in(reads, index),
            None => &[],
        }
    }

    /// Appends the original indices of the read ranges of a transaction that this reports.
    pub fn put_report(&self, index: usize, found: &mut Vec<u16>) -> Result<(), AllocError>
        requires entries { index < length (noted_in self.now).reply.entries }
        requires places { HasPlaces (noted_in self.now) }
        requires below { All (λ read. read < MAX_RANGES) found.old.items }
        ensures below { OnOk result (All (λ read. read < MAX_RANGES) found.new.items) }
        ensures report { OnOk result ((read : ℕ) → Contains found.new.items read
            ↔ (Contains found.old.items read ⊎ Reports index read (noted_in self.now))) }
    {
        let indices = self.indices(index);
        for place in self.entry(index).places.as_slice() {
            found.push(indices[usize::from(*place)])?;
        }
        Ok(())
    }
}

// Returns the indices of a transaction, or none if the note has no such transaction.
fn indices_in(reads: &ReadIndices, index: usize) -> &[u16]
    ensures indices { result.now ≡ unwrap_or (slice_get reads.now index) [] }
    ensures below { All (λ read. read < MAX_RANGES) result.now }
{
    if index < reads.len() {
        reads.txn(index)
    } else {
        &[]
    }
}

// Returns whether each of the places is below the count.
fn are_below(places: &[u16], count: usize) -> bool
    ensures below { IsTrue result ↔ All (λ place. place < count) places.now }
{
    places.iter().all(|place| usize::from(*place) < count)
}
