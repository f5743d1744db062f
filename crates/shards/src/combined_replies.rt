//! The replies of all shards as one.

ghost use Rattle.std.specs.Prelude.{◌≡◌, ◌<◌, ◌≤◌, ◌↔◌, ◌⊎◌, ℕ, [], All, Any, Contains, Some};
ghost use Rattle.std.specs.Prelude.{length, slice_get, vec_len, IfOk, IsErrOf, MatchOption};
ghost use Rattle.std.specs.List.Sorted.{IsStrictlyIncreasing};
ghost use Rattle.keyspace.specs.declared.txn.TheConstants.{MAX_RANGES};
ghost use Rattle.shards.specs.Combined.{Fits, FitsAt, IsCombined, IsCombinedEntry, IsFirstMisfit};
ghost use Rattle.shards.specs.Combined.{IsLeast, Reports, rank};
ghost use Rattle.keyspace.specs.declared.reply.Entry.{Entry as EntryValue};
ghost use Rattle.shards.specs.declared.error.Misfit.{Misfit as MisfitValue};

use crate::error::{CombineError, Misfit};
use crate::shard_reply::ShardReply;
use keyspace::{Batch, Entry, Places, Reply, Sequence, Verdict};
use std::alloc::{AllocError, Global};

/// Combines the replies of all shards to a batch. Each transaction gets the least verdict, in the
/// order conflict, too old, committed. The report has each read range that some shard reports,
/// numbered as in the batch. Expects one reply per shard; the order doesn't matter.
///
/// Returns [`CombineError::NoReply`] if there is none, else [`CombineError::Misfit`] with the
/// number of the first shard whose reply isn't one to the batch, else [`CombineError::Memory`] if
/// memory is refused.
pub fn combine(alloc: Global, batch: &Batch, each: &[ShardReply]) -> Result<Reply, CombineError>
    ensures combined { IfOk result (λ reply. IsCombined batch.now each.now reply) }
    ensures no_reply { IsErrOf result CombineError.NoReply ↔ (each.now ≡ []) }
    ensures misfit { (shard : ℕ) (cause : MisfitValue)
        → IsErrOf result (CombineError.Misfit shard cause)
        ↔ IsFirstMisfit batch.now each.now shard cause }
{
    if each.is_empty() {
        return Err(CombineError::NoReply);
    }
    if let Some((shard, cause)) = first_misfit(batch, each) {
        return Err(CombineError::Misfit(shard, cause));
    }
    let entries = combined_entries(alloc, each, batch.txns.len())?;
    Ok(Reply::new(batch.version, Sequence::new(entries)))
}

// Combines the entries of `count` transactions.
fn combined_entries(
    alloc: Global,
    each: &[ShardReply],
    count: usize,
) -> Result<Vec<Entry>, AllocError>
    requires some { 0 < length each.now }
    requires fit { (index : ℕ) → index < count → All (FitsAt index) each.now }
    ensures count { IfOk result (λ entries. vec_len entries ≡ count) }
    ensures entries { IfOk result (λ entries. (j : ℕ) (e : EntryValue)
        → slice_get entries.items j ≡ Some e
        → IsCombinedEntry each.now j e) }
{
    let mut entries = Vec::with_capacity(alloc, count)?;
    for index in 0..count {
        entries.push(combined_entry(alloc, each, index)?)?;
    }
    Ok(entries)
}

// Returns the first shard whose reply isn't one to the batch, and why.
fn first_misfit(batch: &Batch, each: &[ShardReply]) -> Option<(usize, Misfit)>
    ensures first { MatchOption result (All (Fits batch.now) each.now)
        (λ found. IsFirstMisfit batch.now each.now found.0 found.1) }
{
    for (shard, reply) in each.iter().enumerate() {
        if let Some(cause) = reply.misfit(batch) {
            return Some((shard, cause));
        }
    }
    None
}

// Combines the entries of a transaction.
fn combined_entry(alloc: Global, each: &[ShardReply], index: usize) -> Result<Entry, AllocError>
    requires some { 0 < length each.now }
    requires fit { All (FitsAt index) each.now }
    ensures entry { IfOk result (IsCombinedEntry each.now index) }
{
    let verdict = least_verdict(each, index);
    let places = united_places(alloc, each, index)?;
    Ok(Entry::new(verdict, places))
}

// Returns the least verdict of the shards on a transaction.
fn least_verdict(each: &[ShardReply], index: usize) -> Verdict
    requires some { 0 < length each.now }
    requires fit { All (FitsAt index) each.now }
    ensures least { IsLeast each.now index result }
{
    let mut least = Verdict::Committed;
    for reply in each {
        least = lesser(least, reply.entry(index).verdict);
    }
    least
}

/// Returns the lesser of two verdicts, in the order conflict, too old, committed.
pub fn lesser(a: Verdict, b: Verdict) -> Verdict
    ensures one { (result ≡ a) ⊎ (result ≡ b) }
    ensures first { rank result ≤ rank a }
    ensures second { rank result ≤ rank b }
{
    match (a, b) {
        (Verdict::Conflict, _) | (_, Verdict::Conflict) => Verdict::Conflict,
        (Verdict::TooOld, _) | (_, Verdict::TooOld) => Verdict::TooOld,
        (Verdict::Committed, Verdict::Committed) => Verdict::Committed,
    }
}

// Unites what the shards report of a transaction.
fn united_places(alloc: Global, each: &[ShardReply], index: usize) -> Result<Places, AllocError>
    requires fit { All (FitsAt index) each.now }
    ensures rising { IfOk result IsStrictlyIncreasing }
    ensures union { IfOk result (λ places. (read : ℕ) → Contains places read
        ↔ Any (Reports index read) each.now) }
{
    let mut places = Vec::new(alloc);
    for reply in each {
        reply.put_report(index, &mut places)?;
    }
    places.sort_unstable();
    places.dedup();
    Ok(Places::new(places))
}
