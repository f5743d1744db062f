//! The search for the writes that explain a conflict, from the oldest batch to the newest.

ghost use Rattle.std.specs.Prelude.{◌≡◌, ◌<◌, ◌++◌, ◌∷◌, [], List, Some, filter, length, slice_get};
ghost use Rattle.keyspace.specs.Processed.{Processed};
ghost use Rattle.keyspace.specs.declared.txn.Txn.{Txn};
ghost use Rattle.explanations.specs.Written.{Written, written_by, written_in, all_written};
ghost use Rattle.explanations.specs.Explains.{explains};
ghost use Rattle.explanations.specs.Found.{IsFound};

use crate::explanation::{Explanation, WrittenRef};
use crate::processed::ProcessedBatch;
use crate::question::ReadQuestion;
use keys::RangeRef;
use keyspace::{Txns, Verdict};
use std::collections::VecDeque;

// Returns the newest write of these batches that answers the question.
pub(crate) fn search<'a>(
    question: &ReadQuestion,
    kept: &'a VecDeque<ProcessedBatch>,
) -> Option<Explanation<'a>>
    ensures found { IsFound (filter
        (explains question.now.version question.now.txn question.now.snapshot question.now.range)
        (all_written kept.now.items)) result }
{
    let mut found = None;
    for processed in kept.iter() {
        if question.reaches(processed.batch().version) {
            found = search_batch(question, processed, found);
        }
    }
    found
}

// Looks at the transactions that may have written the key of the question, or at all.
fn search_batch<'a>(
    question: &ReadQuestion,
    processed: &'a ProcessedBatch,
    found: Option<Explanation<'a>>,
) -> Option<Explanation<'a>>
    ensures found { (ws : List Written) → IsFound ws found.entry → IsFound (ws ++ filter
        (explains question.now.version question.now.txn question.now.snapshot question.now.range)
        (written_in processed.now)) result }
{
    let (batch, entries) = (processed.batch(), processed.reply().entries.as_slice());
    let mut found = found;
    let hash = question.range.hash();
    let mut next = 0;
    while let Some(txn) = processed.next_writer(hash, next) {
        if entries[txn].verdict == Verdict::Committed {
            let origin = Origin {
                proxy: processed.proxy(),
                version: batch.version,
                txn,
            };
            found = search_txn(question, origin, &batch.txns, found);
        }
        next = txn + 1;
    }
    found
}

// Which transaction wrote something.
#[derive(Clone, Copy)]
struct Origin {
    proxy: usize,
    version: i64,
    txn: usize,
}

// Looks at the keys of a write range only if its hash is that of the question, or if one of the two
// isn't a single key.
fn search_txn<'a>(
    question: &ReadQuestion,
    origin: Origin,
    txns: &'a Txns,
    found: Option<Explanation<'a>>,
) -> Option<Explanation<'a>>
    requires within { origin.txn < length txns.now }
    ensures found { (txn : Txn) → slice_get txns.now origin.txn ≡ Some txn
        → (ws : List Written) → IsFound ws found.entry → IsFound (ws ++ filter
        (explains question.now.version question.now.txn question.now.snapshot question.now.range)
        (written_by origin.proxy origin.version origin.txn txn.writes)) result }
{
    let ranges = txns.txn(origin.txn).writes;
    let first = txns.first_write_index(origin.txn) as usize;
    let mut found = found;
    for index in 0..ranges.len() {
        if question.may_overlap(txns.hash(first + index)) {
            found = search_range(question, origin, ranges.get(index), found);
        }
    }
    found
}

fn search_range<'a>(
    question: &ReadQuestion,
    origin: Origin,
    range: RangeRef<'a>,
    found: Option<Explanation<'a>>,
) -> Option<Explanation<'a>>
    ensures found { (ws : List Written) → IsFound ws found.entry → IsFound (ws ++ filter
        (explains question.now.version question.now.txn question.now.snapshot question.now.range)
        (written_by origin.proxy origin.version origin.txn (range.entry ∷ []))) result }
{
    let write = WrittenRef {
        proxy: origin.proxy,
        version: origin.version,
        txn: origin.txn,
        range,
    };
    if question.is_explained_by(&write) {
        return Some(found_also(found, write));
    }
    found
}

// Adds a write that is newer than the others.
fn found_also<'a>(found: Option<Explanation<'a>>, write: WrittenRef<'a>) -> Explanation<'a>
    ensures found { (ws : List Written) → IsFound ws found.entry
        → IsFound (ws ++ write.entry ∷ []) (Some result) }
{
    let further = match found {
        Some(explanation) => explanation.further.saturating_add(1),
        None => 0,
    };
    Explanation {
        newest: write,
        further,
    }
}
