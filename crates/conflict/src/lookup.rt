//! What is asked of the history for a batch: the first read range of each transaction, and then the
//! others of those that this leaves open. It is what `ConflictBatch::checkReadConflictRanges` of
//! FoundationDB 7.1 asks.
//!
//! A read range is named by its index ([`ReadName`]) until the step map asks for its keys
//! ([`QueryList::query`]).

ghost use Rattle.std.specs.Prelude.{◌≡◌, ◌≤◌, ◌++◌, ℤ, List, length, map, take, drop, Some, OnOk};
ghost use Rattle.std.specs.Prelude.{IsSomeAnd, slice_get, slice_range};
ghost use Rattle.keys.specs.declared.range.Range.{Range};
ghost use Rattle.keyspace.specs.declared.txn.Txn.{Txn};
ghost use Rattle.keyspace.specs.Judge.{is_too_old};
ghost use Rattle.conflict.specs.Lookup.{asked_at, is_settled, first_asked, then_asked};
ghost use Rattle.conflict.specs.Lookup.{all_first, all_then, all_parts, AreAnswers};
ghost use Rattle.conflict.specs.Lookup.{query_named, queries_named, AreNamed};

use keyspace::{Batch, TxnRef, Txns};
use std::alloc::{AllocError, Global};
use stepmap::{QueryList, RangeQuery, StepMap};

/// How many of the answers are those of a transaction.
#[derive(Clone, Copy, Debug)]
pub struct AnswerCounts {
    /// Of those to what is asked first.
    pub first: usize,
    /// Of those to what is asked then.
    pub others: usize,
}

/// What is asked of the history for a batch, and what it answers. The vectors are kept, so that a
/// batch like those before it takes no memory for them.
#[derive(Debug, Drop)]
pub struct Lookup {
    asked: Vec<ReadName>,
    /// The answers to what is asked first, in order.
    pub first: Vec<bool>,
    /// The answers to what is asked then, in order.
    pub others: Vec<bool>,
    /// For each transaction, in order, how many of the answers are its own.
    pub parts: Vec<AnswerCounts>,
}

impl Lookup {
    /// Makes empty vectors, and takes no memory.
    pub fn new(alloc: Global) -> Self {
        Lookup {
            asked: Vec::new(alloc),
            first: Vec::new(alloc),
            others: Vec::new(alloc),
            parts: Vec::new(alloc),
        }
    }

    /// Asks the history twice for all transactions of the batch: first for one read range of each,
    /// and then for the others of those that aren't settled. After an error the answers are
    /// unspecified.
    pub fn ask(&mut self, steps: &StepMap, oldest: i64, batch: &Batch) -> Result<(), AllocError>
        ensures first { OnOk result (AreAnswers steps.now (all_first oldest batch.now.txns)
            self.new.first.items) }
        ensures others { OnOk result (AreAnswers steps.now
            (all_then oldest batch.now.txns self.new.first.items)
            self.new.others.items) }
        ensures parts { OnOk result (self.new.parts.items
            ≡ all_parts oldest batch.now.txns self.new.first.items) }
        ensures each { OnOk result (length self.new.parts.items ≡ length batch.now.txns) }
    {
        list_first(&mut self.asked, oldest, batch)?;
        answer(steps, batch, &self.asked, &mut self.first)?;
        list_others(&mut self.asked, &mut self.parts, oldest, batch, &self.first)?;
        answer(steps, batch, &self.asked, &mut self.others)?;
        Ok(())
    }
}

// Lists what is asked for all transactions first, in order.
fn list_first(asked: &mut Vec<ReadName>, oldest: i64, batch: &Batch) -> Result<(), AllocError>
    ensures asked { OnOk result (map (query_named batch.now.txns) asked.new.items
        ≡ map Some (all_first oldest batch.now.txns)) }
{
    asked.clear();
    for index in 0..batch.txns.len() {
        let txn = batch.txns.txn(index);
        let first = first_count(&txn, oldest);
        push_reads(asked, &batch.txns, index as u16, 0, first)?;
    }
    Ok(())
}

// Lists what is asked for all transactions then, in order, after the answers to what was asked
// first, and how many of the answers are those of each.
fn list_others(
    asked: &mut Vec<ReadName>,
    parts: &mut Vec<AnswerCounts>,
    oldest: i64,
    batch: &Batch,
    answers: &[bool],
) -> Result<(), AllocError>
    requires count { length answers.now ≡ length (all_first oldest batch.now.txns) }
    ensures asked { OnOk result (map (query_named batch.now.txns) asked.new.items
        ≡ map Some (all_then oldest batch.now.txns answers.now)) }
    ensures parts { OnOk result (parts.new.items ≡ all_parts oldest batch.now.txns answers.now) }
{
    asked.clear();
    parts.clear();
    let mut rest = answers;
    for index in 0..batch.txns.len() {
        let txn = batch.txns.txn(index);
        let first = first_count(&txn, oldest);
        let (own, later) = rest.split_at(first);
        let from = others_from(&txn, oldest, own);
        let count = txn.reads.len();
        push_reads(asked, &batch.txns, index as u16, from, count)?;
        parts.push(AnswerCounts {
            first,
            others: count - from,
        })?;
        rest = later;
    }
    Ok(())
}

// Answers each question, in order. The answers replace the existing ones.
fn answer(
    steps: &StepMap,
    batch: &Batch,
    asked: &[ReadName],
    answers: &mut Vec<bool>,
) -> Result<(), AllocError>
    requires named { AreNamed batch.now.txns asked.now }
    ensures answers { OnOk result ((queries : List (Range × ℤ))
        → map (query_named batch.now.txns) asked.now ≡ map Some queries
        → AreAnswers steps.now queries answers.new.items) }
{
    let queries = AskedReads {
        txns: &batch.txns,
        names: asked,
    };
    steps.exceeds_each(&queries, answers)?;
    Ok(())
}

/// Returns `true` if the transaction reads, at a snapshot below the oldest version that may be
/// read.
pub fn is_old(txn: &TxnRef<'_>, oldest: i64) -> bool
    ensures too_old { result ≡ is_too_old oldest txn.now }
{
    !txn.reads.is_empty() && txn.snapshot < oldest
}

// Returns how many read ranges are asked for first: one, unless the transaction is too old or has
// none.
fn first_count(txn: &TxnRef<'_>, oldest: i64) -> usize
    ensures reads { take result txn.now.reads ≡ first_asked oldest txn.now }
    ensures within { result ≤ length txn.now.reads }
{
    if is_old(txn, oldest) {
        return 0;
    }
    txn.reads.len().min(1)
}

// Returns from which read range on they are asked for then: from the second, unless the transaction
// is too old or the hits settle it.
fn others_from(txn: &TxnRef<'_>, oldest: i64, hits: &[bool]) -> usize
    ensures reads { drop result txn.now.reads ≡ then_asked oldest txn.now hits.now }
    ensures within { result ≤ length txn.now.reads }
{
    let count = txn.reads.len();
    if is_old(txn, oldest) || is_settled_by(txn, hits) {
        return count;
    }
    count.min(1)
}

// Returns `true` if the hits settle the transaction: one is enough where its places aren't
// reported.
fn is_settled_by(txn: &TxnRef<'_>, hits: &[bool]) -> bool
    ensures settled { result ≡ is_settled txn.now hits.now }
{
    !txn.marked && hits.contains(&true)
}

// Names a read range of some transactions.
#[derive(Clone, Copy, Debug)]
struct ReadName {
    // The index of the transaction.
    txn: u16,
    // The index of the range among those of all transactions.
    range: u32,
}

// Appends the names of those read ranges of the transaction at the index that stand from one index
// up to another.
fn push_reads(
    names: &mut Vec<ReadName>,
    txns: &Txns,
    index: u16,
    from: usize,
    to: usize,
) -> Result<(), AllocError>
    requires ordered { from ≤ to }
    requires within { IsSomeAnd (slice_get txns.now index) (λ txn. to ≤ length txn.reads) }
    ensures named { OnOk result ((txn : Txn) → slice_get txns.now index ≡ Some txn
        → map (query_named txns.now) names.new.items
        ≡ map (query_named txns.now) names.old.items
        ++ map Some (asked_at txn.snapshot (slice_range txn.reads from to))) }
{
    for read in from..to {
        names.push(ReadName {
            txn: index,
            range: txns.read_index(index as usize, read),
        })?;
    }
    Ok(())
}

// Queries for read ranges of transactions, each at the snapshot of its transaction.
#[derive(Debug, Drop)]
struct AskedReads<'a> {
    txns: &'a Txns,
    names: &'a [ReadName],
    ghost named: { AreNamed txns.now names.now },
}

impl QueryList for AskedReads<'_> {
    ghost queries = { λ a. queries_named a.txns.now a.names.now };

    fn len(&self) -> usize {
        self.names.len()
    }

    fn hash(&self, index: usize) -> Option<u32> {
        self.txns.hash(self.names[index].range as usize)
    }

    fn version(&self, index: usize) -> i64 {
        let name = self.names[index];
        self.txns.snapshot(name.txn as usize)
    }

    fn query(&self, index: usize) -> RangeQuery<'_> {
        let name = self.names[index];
        RangeQuery {
            range: self.txns.ranges().get(name.range as usize),
            version: self.txns.snapshot(name.txn as usize),
            hash: self.txns.hash(name.range as usize),
        }
    }
}
