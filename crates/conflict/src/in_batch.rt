//! The check of a batch against its own writes, by runs of gaps:
//! `ConflictBatch::checkIntraBatchConflicts` of FoundationDB 7.1.

ghost use Rattle.std.specs.Prelude.{◌≡◌, ◌<◌, ◌∷◌, ◌++◌, ℕ, List, [], length, position};
ghost use Rattle.std.specs.Prelude.{if◌then◌else◌};
ghost use Rattle.std.specs.Prelude.{All, IfOk, IfSome, OnOk};
ghost use Rattle.keys.specs.declared.range.Range.{Range};
ghost use Rattle.keys.specs.GapRuns.{HaveBegin};
ghost use Rattle.keys.specs.Singles.{AreRankedFor};
ghost use Rattle.keyspace.specs.declared.reply.Verdict.TheVariants.{Committed};
ghost use Rattle.keyspace.specs.Writes.{counted_ranges};
ghost use Rattle.keyspace.specs.Judge.{meets_earlier};
ghost use Rattle.keyspace.specs.declared.txn.Txn.{Txn};
ghost use Rattle.keyspace.specs.storage.BatchRanges.{ranges_in, writes_in};
ghost use Rattle.conflict.specs.Gaps.{IsMarked};
ghost use Rattle.conflict.specs.Written.{AreWrittenGaps, AreRunsWithin, AreRunsOf};
ghost use Rattle.conflict.specs.InBatch.{in_batch, in_batches, IsShapedAs};

use crate::gaps::Gaps;
use crate::laws;
use keyspace::{Batch, Entry, Places, TxnRef, Verdict};
use std::alloc::{AllocError, Global};

/// Judges in order each transaction that the history lets commit, after what the transactions
/// before it write that commit. The runs are those of the ranges of all transactions, in order, and
/// there is a gap for each key among which they are ranked.
/// After an error, which says that memory was refused, the entries are unspecified.
pub fn judge_in_batch(
    alloc: Global,
    batch: &Batch,
    runs: &[(u32, u32)],
    gaps: &mut Gaps,
    entries: &mut [Entry],
) -> Result<(), AllocError>
    requires entries { length entries.old ≡ length batch.now.txns }
    requires ranked { AreRankedFor (writes_in batch.now.txns) (ranges_in batch.now.txns)
        (record { runs = runs.now; begin_count = length gaps.old }) }
    requires unmarked { (gap : ℕ) → ¬ IsMarked gaps.old gap }
    ensures judged { OnOk result (entries.new ≡ in_batches [] batch.now.txns entries.old) }
{
    let mut rest = runs;
    for index in 0..batch.txns.len() {
        let txn = batch.txns.txn(index);
        let (own, later) = rest.split_at(txn.reads.len() + txn.writes.len());
        let entry = &mut entries[index];
        if entry.verdict == Verdict::Committed {
            judge_open(alloc, own, gaps, &txn, entry)?;
        }
        rest = later;
    }
    Ok(())
}

// Judges the transaction, which the history lets commit, after the ranges whose gaps are marked. If
// it commits, the gaps of its write ranges are marked too. The runs are those of its read ranges
// and then of its write ranges, or of what these are ranked as.
fn judge_open(
    alloc: Global,
    runs: &[(u32, u32)],
    gaps: &mut Gaps,
    txn: &TxnRef<'_>,
    entry: &mut Entry,
) -> Result<(), AllocError>
    requires open { entry.old.verdict ≡ Committed }
    requires count { length runs.now ≡ length (txn.now.reads ++ txn.now.writes) }
    requires within { AreRunsWithin (length gaps.old) runs.now }
    ensures judged { OnOk result ((keys : List (List ℕ)) (written : List Range) (ranked : Txn)
        → IsShapedAs txn.now ranked → AreRunsOf keys runs.now (ranked.reads ++ ranked.writes)
        → AreWrittenGaps keys gaps.old written → All (HaveBegin keys) written
        → (entry.new ≡ in_batch written ranked entry.old)
        × AreWrittenGaps keys gaps.new
        (written ++ counted_ranges entry.new.verdict ranked.writes)) }
    ensures count { length gaps.new ≡ length gaps.old }
{
    let (reads, writes) = runs.split_at(txn.reads.len());
    if let Some(place) = first_met(gaps, reads) {
        *entry = Entry::new(Verdict::Conflict, place_if_marked(alloc, txn, place)?);
    } else {
        mark(gaps, writes);
    }
    Ok(())
}

// Returns the index of the first run of which a gap is marked.
fn first_met(gaps: &Gaps, runs: &[(u32, u32)]) -> Option<usize>
    requires within { AreRunsWithin (length gaps.now) runs.now }
    ensures first { (keys : List (List ℕ)) (written ranges : List Range)
        → AreRunsOf keys runs.now ranges
        → AreWrittenGaps keys gaps.now written → All (HaveBegin keys) written
        → result ≡ position (meets_earlier written) ranges }
    ensures within { IfSome result (λ place. place < length runs.now) }
{
    laws::runs();
    runs.iter()
        .position(|(from, to)| gaps.any(*from as usize, *to as usize))
}

// Returns the place alone if the transaction is marked, and else no place, without taking memory.
fn place_if_marked(alloc: Global, txn: &TxnRef<'_>, place: usize) -> Result<Places, AllocError>
    requires within { place < length txn.now.reads }
    ensures places { IfOk result (λ places. places ≡ (if txn.now.marked then place ∷ [] else [])) }
{
    let mut places = Vec::new(alloc);
    if txn.marked {
        places.push(place as u16)?;
    }
    Ok(Places::new(places))
}

// Marks the gaps of the runs, and leaves what is marked.
fn mark(gaps: &mut Gaps, runs: &[(u32, u32)])
    requires within { AreRunsWithin (length gaps.old) runs.now }
    ensures count { length gaps.new ≡ length gaps.old }
    ensures marked { (keys : List (List ℕ)) (written ranges : List Range)
        → AreRunsOf keys runs.now ranges
        → AreWrittenGaps keys gaps.old written → AreWrittenGaps keys gaps.new (written ++ ranges) }
{
    for (from, to) in runs {
        gaps.mark(*from as usize, *to as usize);
    }
}
