//! The check of a batch against the history: of each transaction alone, by the answers of the step
//! map.

ghost use Rattle.std.specs.Prelude.{◌≡◌, ◌+◌, ◌≤◌, ◌≤ℤ◌, List, ◌++◌, length, map, IfOk, OnOk};
ghost use Rattle.keyspace.specs.declared.txn.TheConstants.{MAX_RANGES};
ghost use Rattle.keyspace.specs.Writes.{Write};
ghost use Rattle.stepmap.specs.Covers.{MapCovers};
ghost use Rattle.conflict.specs.InBatch.{by_history};
ghost use Rattle.conflict.specs.Lookup.{AreHits, true_places};

use crate::lookup::{Lookup, is_old};
use keyspace::{Batch, Entry, Places, TxnRef, Verdict};
use std::alloc::{AllocError, Global};
use stepmap::StepMap;

/// Judges each transaction by the history alone, which is asked for all of them first. A snapshot is
/// too old if it is below `oldest`.
pub fn judge_by_history(
    alloc: Global,
    steps: &StepMap,
    lookup: &mut Lookup,
    oldest: i64,
    batch: &Batch,
) -> Result<Vec<Entry>, AllocError>
    requires late { steps.now.edge ≤ℤ oldest }
    ensures judged { IfOk result (λ entries. (ws : List Write) → MapCovers steps.now ws
        → entries.items ≡ map (by_history oldest ws) batch.now.txns) }
    ensures count { IfOk result (λ entries. length entries.items ≡ length batch.now.txns) }
{
    stepmap::laws::hits();
    lookup.ask(steps, oldest, batch)?;
    let mut entries = Vec::with_capacity(alloc, batch.txns.len())?;
    let mut firsts = lookup.first.as_slice();
    let mut others = lookup.others.as_slice();
    let parts = &lookup.parts;
    for index in 0..batch.txns.len() {
        let txn = batch.txns.txn(index);
        let part = parts[index];
        let (first, later_firsts) = firsts.split_at(part.first);
        let (other, later_others) = others.split_at(part.others);
        entries.push(judge_txn(alloc, first, other, oldest, &txn)?)?;
        firsts = later_firsts;
        others = later_others;
    }
    Ok(entries)
}

// Judges the transaction by the history alone. The first hits say of its first read ranges, in
// order, whether each hits the history, and the other hits say so of those that come next. They
// needn't say it of the rest where these settle the transaction. Those of one that is too old
// aren't looked at. The snapshot is too old if it is below `oldest`.
fn judge_txn(
    alloc: Global,
    first: &[bool],
    others: &[bool],
    oldest: i64,
    txn: &TxnRef<'_>,
) -> Result<Entry, AllocError>
    requires few { length first.now + length others.now ≤ MAX_RANGES }
    ensures judged { IfOk result (λ entry. (ws : List Write)
        → AreHits oldest ws txn.now (first.now ++ others.now)
        → entry ≡ by_history oldest ws txn.now) }
{
    let none = Places::new(Vec::new(alloc));
    if is_old(txn, oldest) {
        return Ok(Entry::new(Verdict::TooOld, none));
    }
    if !first.contains(&true) && !others.contains(&true) {
        return Ok(Entry::new(Verdict::Committed, none));
    }
    if !txn.marked {
        return Ok(Entry::new(Verdict::Conflict, none));
    }
    let mut places = Vec::new(alloc);
    push_places(&mut places, first, 0)?;
    push_places(&mut places, others, first.len())?;
    Ok(Entry::new(Verdict::Conflict, Places::new(places)))
}

// Appends the places of all hits, counted from this one on.
fn push_places(places: &mut Vec<u16>, hits: &[bool], from: usize) -> Result<(), AllocError>
    requires few { from + length hits.now ≤ MAX_RANGES }
    ensures places { OnOk result (places.new.items
        ≡ places.old.items ++ true_places from hits.now) }
{
    for (place, hit) in hits.iter().enumerate() {
        if *hit {
            places.push((from + place) as u16)?;
        }
    }
    Ok(())
}
