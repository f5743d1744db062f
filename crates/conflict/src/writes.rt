//! The write ranges that a batch commits, as ranges apart that hold the same keys, and their
//! writing: `ConflictBatch::mergeWriteConflictRanges` of FoundationDB 7.1.

ghost use Rattle.std.specs.Prelude.{◌≡◌, ◌≤◌, ℕ, true, false, List, length, map, replicate, Some};
ghost use Rattle.std.specs.Prelude.{MatchOption, OnOk, slice_get, slice_index_or};
ghost use Rattle.keys.specs.declared.range.Range.{Range};
ghost use Rattle.keyspace.specs.storage.BatchRanges.{is_write_in, ranges_in};
ghost use Rattle.keyspace.specs.Writes.{committed_ranges};
ghost use Rattle.stepmap.specs.StepMap as map_of;
ghost use Rattle.stepmap.specs.Writing.{AreApart};
ghost use Rattle.stepmap.specs.Laws.{IsWriting};
ghost use Rattle.conflict.specs.declared.union.UnitedSpan as span_type;
ghost use Rattle.conflict.specs.Union.{marked_ranges, Spans, AreSpanned, IsUnion};
ghost use Rattle.conflict.specs.Pace.{after_writes};

use crate::union::{Union, UnitedSpan};
use keys::{HashedRange, RangeList, RangeRef};
use keyspace::{Batch, Entry, Txns, Verdict};
use std::alloc::{AllocError, Global};
use stepmap::{KeyLengths, StepMap, laws};

/// The write ranges that a batch commits, united. The vectors are kept, so that a batch like those
/// before it takes no memory for them.
#[derive(Debug, Drop)]
pub struct UnitedWrites {
    // Whether the batch commits a write of each of its ranges, in order.
    written: Vec<bool>,
    union: Union,
    lengths: Vec<KeyLengths>,
}

impl UnitedWrites {
    /// Makes empty vectors, and takes no memory.
    pub fn new(alloc: Global) -> Self {
        UnitedWrites {
            written: Vec::new(alloc),
            union: Union::new(alloc),
            lengths: Vec::new(alloc),
        }
    }

    /// Unites what the batch commits, instead of what one before it did. The entries are those of
    /// its transactions, in order. After an error the ranges are unspecified.
    pub fn gather(&mut self, batch: &Batch, entries: &[Entry]) -> Result<(), AllocError>
        requires entries { length entries.now ≡ length batch.now.txns }
        ensures union { OnOk result (IsUnion (ranges_in batch.now.txns) self.new.union
            self.new.lengths.items (committed_ranges batch.now.txns entries.now)) }
    {
        mark_written(&mut self.written, batch, entries)?;
        let ranges = batch.txns.ranges();
        self.union.gather(
            &ranges,
            batch.txns.ranks(),
            batch.txns.write_order(),
            &self.written,
        )?;
        gather_lengths(&mut self.lengths, &ranges, self.union.spans())?;
        Ok(())
    }

    /// Returns the spans of the united ranges, in order.
    pub fn spans(&self) -> &[UnitedSpan]
        ensures spans { result.now ≡ self.now.union }
    {
        self.union.spans()
    }

    /// Returns the lengths of the keys of the united ranges, in order.
    pub fn lengths(&self) -> &[KeyLengths]
        ensures lengths { result.now ≡ self.now.lengths.items }
    {
        &self.lengths
    }
}

// Replaces the marks by one for each range of the batch, in order: those of the write ranges of
// committed transactions are `true`, and all others `false`. After an error the marks are
// unspecified.
fn mark_written(written: &mut Vec<bool>, batch: &Batch, entries: &[Entry]) -> Result<(), AllocError>
    requires entries { length entries.now ≡ length batch.now.txns }
    ensures written { OnOk result (marked_ranges written.new.items (ranges_in batch.now.txns)
        ≡ committed_ranges batch.now.txns entries.now) }
    ensures count { OnOk result (length written.new.items ≡ length (ranges_in batch.now.txns)) }
    ensures writes { OnOk result ((index : ℕ) → slice_index_or written.new.items index false ≡ true
        → is_write_in batch.now.txns index ≡ true) }
{
    written.clear();
    written.resize(batch.txns.ranges().len(), false)?;
    let marks = &mut written[..];
    let mut end = 0;
    for index in 0..batch.txns.len() {
        let txn = batch.txns.txn(index);
        let begin = end + txn.reads.len();
        end = begin + txn.writes.len();
        if entries[index].verdict == Verdict::Committed {
            mark_all(&mut marks[begin..end]);
        }
    }
    Ok(())
}

// Sets all marks, of which there are mostly one or two, too few for a call of `fill`.
fn mark_all(marks: &mut [bool])
    ensures marked { marks.new ≡ replicate (length marks.old) true }
{
    for mark in marks {
        *mark = true;
    }
}

// Replaces the lengths by those of the keys of the united ranges.
fn gather_lengths<L: RangeList>(
    lengths: &mut Vec<KeyLengths>,
    ranges: &L,
    spans: &[UnitedSpan],
) -> Result<(), AllocError>
    requires spanned { (united : List Range) × AreSpanned (L.ranges ranges.now) spans.now united }
    ensures lengths { OnOk result ((united : List Range)
        → AreSpanned (L.ranges ranges.now) spans.now united
        → lengths.new.items ≡ map map_of.lengths united) }
    ensures count { OnOk result (length lengths.new.items ≡ length spans.now) }
{
    lengths.clear();
    for span in spans {
        lengths.push(KeyLengths::of(range_of(ranges, *span)))?;
    }
    Ok(())
}

/// Notes each single key among the united ranges before it is written.
pub fn note_keys(steps: &mut StepMap, txns: &Txns, spans: &[UnitedSpan], version: i64)
    ensures same { steps.new ≡ steps.old }
{
    for span in spans {
        if let Some(hash) = single_hash(txns, *span) {
            steps.note_key(hash, version);
        }
    }
}

// Returns the hash of the united range of the span, if that is one of the batch's ranges and a
// single key.
fn single_hash(txns: &Txns, span: UnitedSpan) -> Option<u32> {
    if span.begin == span.end {
        return txns.hash(span.begin);
    }
    None
}

/// Writes the united ranges in sequence, if none is written yet. Takes no memory. The next range is
/// looked up before each write, so that its keys are read during the write.
pub fn write_spans(steps: &mut StepMap, txns: &Txns, spans: &[UnitedSpan], version: i64)
    requires spanned { (united : List Range) × AreSpanned (ranges_in txns.now) spans.now united }
    requires apart { (united : List Range) → AreSpanned (ranges_in txns.now) spans.now united
        → AreApart united }
    requires start { (united : List Range) → AreSpanned (ranges_in txns.now) spans.now united
        → IsWriting united version 0 steps.old steps.old }
    ensures written { (united : List Range) → AreSpanned (ranges_in txns.now) spans.now united
        → steps.new ≡ after_writes united version steps.old }
{
    laws::writing();
    let mut index = 0;
    let mut next = range_at(txns, spans, index);
    while let Some(range) = next {
        index += 1;
        next = range_at(txns, spans, index);
        steps.write(range, version);
    }
}

// Returns the united range at an index, or none if there is none.
fn range_at<'a>(txns: &'a Txns, spans: &[UnitedSpan], index: usize) -> Option<HashedRange<'a>>
    requires spanned { (united : List Range) × AreSpanned (ranges_in txns.now) spans.now united }
    ensures range { MatchOption result (length spans.now ≤ index)
        (λ range. (span : span_type.UnitedSpan) × (slice_get spans.now index ≡ Some span)
        × Spans (ranges_in txns.now) span range) }
{
    match spans.get(index) {
        Some(span) => Some(hashed_of(txns, *span)),
        None => None,
    }
}

// Returns the united range of the span with its hash, which is known if it is one of the batch's
// ranges.
fn hashed_of<'a>(txns: &'a Txns, span: UnitedSpan) -> HashedRange<'a>
    requires spans { (range : Range) × Spans (ranges_in txns.now) span range }
    ensures spans { Spans (ranges_in txns.now) span result }
{
    if span.begin == span.end {
        return txns.hashed_range(span.begin);
    }
    let ranges = txns.ranges();
    let (first, last) = (ranges.get(span.begin), ranges.get(span.end));
    HashedRange::of(RangeRef::new(first.begin(), last.end()))
}

// Returns the united range of the span.
fn range_of<'a, L: RangeList>(ranges: &'a L, span: UnitedSpan) -> RangeRef<'a>
    requires spans { (range : Range) × Spans (L.ranges ranges.now) span range }
    ensures spans { Spans (L.ranges ranges.now) span result }
{
    RangeRef::new(
        ranges.range(span.begin).begin(),
        ranges.range(span.end).end(),
    )
}
