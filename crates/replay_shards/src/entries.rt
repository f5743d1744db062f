//! The replies of all shards to a batch as one.

ghost use Rattle.std.specs.Prelude.{◌≡◌, ◌<◌, ◌≤◌, ◌↔◌, ℕ, All, Any, Contains, IfOk};
ghost use Rattle.std.specs.Prelude.{IsTrue, MatchOption, Some, length, pos, slice_get, vec_len};
ghost use Rattle.std.specs.Prelude.{◌≤ℤ◌};
ghost use Rattle.std.specs.List.Sorted.{IsStrictlyIncreasing};
ghost use Rattle.keyspace.specs.declared.reply.Entry.{Entry as EntryValue};
ghost use Rattle.keyspace.specs.declared.batch.TheConstants.{MAX_TXNS};
ghost use Rattle.shards.specs.Combined.{FitsAt, IsCombinedEntry, IsLeast, Reports};
ghost use Rattle.replay_shards.specs.Answers.{AreOfOneBatch, FitsIn, IsReplyTogether, noted_each};

use crate::noted_reply::NotedReply;
use keyspace::{Entry, Places, Reply, Sequence, Verdict};
use shards::lesser;
use std::alloc::{AllocError, Global};

/// Combines the replies of all shards to the batch of this version, as [`combine`](shards::combine)
/// does, or returns none if they are replies to different batches. An error is that memory was
/// refused.
pub fn combined_reply(
    alloc: Global,
    version: i64,
    each: &[NotedReply],
) -> Result<Option<Reply>, AllocError>
    requires some { 0 < length each.now }
    requires natural { pos 0 ≤ℤ version }
    ensures together { IfOk result (λ found. MatchOption found
        (¬ AreOfOneBatch (noted_each each.now))
        (λ reply. AreOfOneBatch (noted_each each.now)
        × IsReplyTogether version (noted_each each.now) reply)) }
{
    let count = count_in(each);
    if !do_fit(each, count) {
        return Ok(None);
    }
    let entries = combined_entries(alloc, each, count)?;
    Ok(Some(Reply::new(version, Sequence::new(entries))))
}

// Returns the number of entries in the first reply.
fn count_in(each: &[NotedReply]) -> usize
    requires some { 0 < length each.now }
    ensures count { (n : ℕ) → All (FitsIn n) (noted_each each.now) → result ≡ n }
    ensures few { result ≤ MAX_TXNS }
{
    let Some(first) = each.first() else {
        unreachable!()
    };
    first.reply.entries.len()
}

// Returns whether all of them can be replies to a batch with that many transactions.
fn do_fit(each: &[NotedReply], count: usize) -> bool
    ensures fit { IsTrue result ↔ All (FitsIn count) (noted_each each.now) }
{
    for own in each {
        if !own.fits(count) {
            return false;
        }
    }
    true
}

// Combines the entries of `count` transactions.
fn combined_entries(
    alloc: Global,
    each: &[NotedReply],
    count: usize,
) -> Result<Vec<Entry>, AllocError>
    requires some { 0 < length each.now }
    requires fit { All (FitsIn count) (noted_each each.now) }
    ensures count { IfOk result (λ entries. vec_len entries ≡ count) }
    ensures entries { IfOk result (λ entries. (j : ℕ) (e : EntryValue)
        → slice_get entries.items j ≡ Some e → IsCombinedEntry (noted_each each.now) j e) }
{
    let mut entries = Vec::with_capacity(alloc, count)?;
    for index in 0..count {
        entries.push(combined_entry(alloc, each, index)?)?;
    }
    Ok(entries)
}

// Combines the entries of a transaction.
fn combined_entry(alloc: Global, each: &[NotedReply], index: usize) -> Result<Entry, AllocError>
    requires some { 0 < length each.now }
    requires fit { All (FitsAt index) (noted_each each.now) }
    ensures entry { IfOk result (IsCombinedEntry (noted_each each.now) index) }
{
    let verdict = least_verdict(each, index);
    let places = united_places(alloc, each, index)?;
    Ok(Entry::new(verdict, places))
}

// Returns the least verdict of the shards on a transaction.
fn least_verdict(each: &[NotedReply], index: usize) -> Verdict
    requires some { 0 < length each.now }
    requires fit { All (FitsAt index) (noted_each each.now) }
    ensures least { IsLeast (noted_each each.now) index result }
{
    let mut least = Verdict::Committed;
    for own in each {
        least = lesser(least, own.entry(index).verdict);
    }
    least
}

// Unites what the shards report of a transaction.
fn united_places(alloc: Global, each: &[NotedReply], index: usize) -> Result<Places, AllocError>
    requires fit { All (FitsAt index) (noted_each each.now) }
    ensures rising { IfOk result IsStrictlyIncreasing }
    ensures union { IfOk result (λ places. (read : ℕ) → Contains places read
        ↔ Any (Reports index read) (noted_each each.now)) }
{
    let mut places = Vec::new(alloc);
    for own in each {
        own.put_report(index, &mut places)?;
    }
    places.sort_unstable();
    places.dedup();
    Ok(Places::new(places))
}
