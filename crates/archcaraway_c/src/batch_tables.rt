//! The tables in which a batch keeps the transactions that C gives: their keys are copied into one
//! buffer.

ghost use Rattle.std.specs.Prelude.{◌≡◌, ◌+◌, ◌-◌, ◌<◌, ◌≤◌, ◌≤ℤ◌, ◌^◌, [], ◌∷◌, ◌++◌, ℕ, pos};
ghost use Rattle.std.specs.Prelude.{length, vec_len, map, take, All, OnOk, OnErr, IfOk};
ghost use Rattle.keyspace.specs.storage.Tables.{txns_of_tables, AreTables, AreRows};
ghost use Rattle.keyspace.specs.declared.batch.TheConstants.{MAX_TXNS};
ghost use Rattle.keyspace.specs.declared.txn.TheConstants.{MAX_RANGES};
ghost use Rattle.archcaraway_c.specs.BatchObject.{txn_given, IsWithin, IsRangeOf, span_after};

use crate::appended_tables::{push_rows, push_spans};
use crate::given_range::place_after;
use crate::key_span::KeySpan;
use keyspace::{Row, Span};
use std::alloc::{AllocError, Global};

// A batch of this size grows no table while transactions are added.
const SMALL_BYTES: usize = 8_192;

const SMALL_RANGES: usize = 512;

const SMALL_TXNS: usize = 128;

/// What the transactions of a batch are kept as.
#[derive(Debug, Drop)]
pub struct BatchTables {
    /// The bytes of all keys.
    pub buffer: Vec<u8>,
    /// Where each range lies among them.
    pub spans: Vec<Span>,
    /// Each transaction, and which spans it has.
    pub rows: Vec<Row>,
}

impl BatchTables {
    /// Creates tables of no transaction, with room for those of a small batch, or returns an error
    /// if memory is refused.
    pub fn new(alloc: Global) -> Result<Self, AllocError>
        ensures buffer { IfOk result (λ tables. tables.buffer.items ≡ []) }
        ensures spans { IfOk result (λ tables. tables.spans.items ≡ []) }
        ensures rows { IfOk result (λ tables. tables.rows.items ≡ []) }
    {
        Ok(BatchTables {
            buffer: Vec::with_capacity(alloc, SMALL_BYTES)?,
            spans: Vec::with_capacity(alloc, SMALL_RANGES)?,
            rows: Vec::with_capacity(alloc, SMALL_TXNS)?,
        })
    }

    /// Copies a transaction after the others. If memory is refused, or the keys would have more
    /// than 4 GiB, the tables are as before.
    pub fn put(
        &mut self,
        snapshot: i64,
        marked: bool,
        keys: &[u8],
        reads: &[KeySpan],
        writes: &[KeySpan],
    ) -> Result<(), AllocError>
        requires tables { AreTables self.old.buffer.items self.old.spans.items self.old.rows.items }
        requires few { vec_len self.old.rows < MAX_TXNS }
        requires natural { pos 0 ≤ℤ snapshot }
        requires few_reads { length reads.now ≤ MAX_RANGES }
        requires few_writes { length writes.now ≤ MAX_RANGES }
        requires reads { All (IsRangeOf keys.now) reads.now }
        requires writes { All (IsRangeOf keys.now) writes.now }
        ensures tables { OnOk result (AreTables self.new.buffer.items self.new.spans.items
            self.new.rows.items) }
        ensures reported { OnOk result (txns_of_tables self.new.buffer.items self.new.spans.items
            self.new.rows.items
            ≡ txns_of_tables self.old.buffer.items self.old.spans.items self.old.rows.items
            ++ txn_given snapshot marked keys.now reads.now writes.now ∷ []) }
        ensures count { OnOk result (vec_len self.new.rows ≡ vec_len self.old.rows + 1) }
        ensures buffer { OnErr result (self.new.buffer.items ≡ self.old.buffer.items) }
        ensures spans { OnErr result (self.new.spans.items ≡ self.old.spans.items) }
        ensures rows { OnErr result (self.new.rows.items ≡ self.old.rows.items) }
    {
        let bytes = self.buffer.len();
        let spans = self.spans.len();
        if self.append(snapshot, marked, keys, reads, writes).is_err() {
            self.buffer.truncate(bytes);
            self.spans.truncate(spans);
            return Err(AllocError);
        }
        Ok(())
    }

    // Copies a transaction after the others. If memory is refused, some of it may be there.
    fn append(
        &mut self,
        snapshot: i64,
        marked: bool,
        keys: &[u8],
        reads: &[KeySpan],
        writes: &[KeySpan],
    ) -> Result<(), AllocError>
        requires tables { AreTables self.old.buffer.items self.old.spans.items self.old.rows.items }
        requires few { vec_len self.old.rows < MAX_TXNS }
        requires natural { pos 0 ≤ℤ snapshot }
        requires few_reads { length reads.now ≤ MAX_RANGES }
        requires few_writes { length writes.now ≤ MAX_RANGES }
        requires reads { All (IsRangeOf keys.now) reads.now }
        requires writes { All (IsRangeOf keys.now) writes.now }
        ensures tables { OnOk result (AreTables self.new.buffer.items self.new.spans.items
            self.new.rows.items) }
        ensures reported { OnOk result (txns_of_tables self.new.buffer.items self.new.spans.items
            self.new.rows.items
            ≡ txns_of_tables self.old.buffer.items self.old.spans.items self.old.rows.items
            ++ txn_given snapshot marked keys.now reads.now writes.now ∷ []) }
        ensures count { OnOk result (vec_len self.new.rows ≡ vec_len self.old.rows + 1) }
        ensures buffer { take (length self.old.buffer.items) self.new.buffer.items
            ≡ self.old.buffer.items }
        ensures spans { take (length self.old.spans.items) self.new.spans.items
            ≡ self.old.spans.items }
        ensures rows { OnErr result (self.new.rows.items ≡ self.old.rows.items) }
    {
        let before = self.buffer.len();
        if before + keys.len() > u32::MAX as usize {
            return Err(AllocError);
        }
        self.buffer.extend_from_slice(keys)?;
        push_ranges(before, keys.len(), reads, &mut self.spans)?;
        push_ranges(before, keys.len(), writes, &mut self.spans)?;
        self.rows.push(Row {
            snapshot,
            end: self.spans.len() as u32,
            writes: writes.len() as u16,
            marked,
        })?;
        Ok(())
    }

    /// Copies the transactions of other tables after these. If memory is refused, or the keys
    /// would have more than 4 GiB, the tables are as before.
    pub fn put_all(&mut self, other: &BatchTables) -> Result<(), AllocError>
        requires tables { AreTables self.old.buffer.items self.old.spans.items self.old.rows.items }
        requires others { AreTables other.now.buffer.items other.now.spans.items
            other.now.rows.items }
        requires few { vec_len self.old.rows + vec_len other.now.rows ≤ MAX_TXNS }
        ensures tables { OnOk result (AreTables self.new.buffer.items self.new.spans.items
            self.new.rows.items) }
        ensures reported { OnOk result (txns_of_tables self.new.buffer.items self.new.spans.items
            self.new.rows.items
            ≡ txns_of_tables self.old.buffer.items self.old.spans.items self.old.rows.items
            ++ txns_of_tables other.now.buffer.items other.now.spans.items other.now.rows.items) }
        ensures count { OnOk result (vec_len self.new.rows
            ≡ vec_len self.old.rows + vec_len other.now.rows) }
        ensures buffer { OnErr result (self.new.buffer.items ≡ self.old.buffer.items) }
        ensures spans { OnErr result (self.new.spans.items ≡ self.old.spans.items) }
        ensures rows { OnErr result (self.new.rows.items ≡ self.old.rows.items) }
    {
        let bytes = self.buffer.len();
        let spans = self.spans.len();
        let rows = self.rows.len();
        if self.append_all(other).is_err() {
            self.buffer.truncate(bytes);
            self.spans.truncate(spans);
            self.rows.truncate(rows);
            return Err(AllocError);
        }
        Ok(())
    }

    // Copies the transactions of other tables after these. If memory is refused, some of them may
    // be there.
    fn append_all(&mut self, other: &BatchTables) -> Result<(), AllocError>
        requires tables { AreTables self.old.buffer.items self.old.spans.items self.old.rows.items }
        requires others { AreTables other.now.buffer.items other.now.spans.items
            other.now.rows.items }
        requires few { vec_len self.old.rows + vec_len other.now.rows ≤ MAX_TXNS }
        ensures tables { OnOk result (AreTables self.new.buffer.items self.new.spans.items
            self.new.rows.items) }
        ensures reported { OnOk result (txns_of_tables self.new.buffer.items self.new.spans.items
            self.new.rows.items
            ≡ txns_of_tables self.old.buffer.items self.old.spans.items self.old.rows.items
            ++ txns_of_tables other.now.buffer.items other.now.spans.items other.now.rows.items) }
        ensures count { OnOk result (vec_len self.new.rows
            ≡ vec_len self.old.rows + vec_len other.now.rows) }
        ensures buffer { take (length self.old.buffer.items) self.new.buffer.items
            ≡ self.old.buffer.items }
        ensures spans { take (length self.old.spans.items) self.new.spans.items
            ≡ self.old.spans.items }
        ensures rows { take (length self.old.rows.items) self.new.rows.items ≡ self.old.rows.items }
    {
        let before = self.buffer.len();
        let bytes = other.buffer.len();
        if before + bytes > u32::MAX as usize {
            return Err(AllocError);
        }
        let spans = self.spans.len();
        push_rows(spans, other.spans.len(), &other.rows, &mut self.rows)?;
        push_spans(before, bytes, &other.spans, &mut self.spans)?;
        self.buffer.extend_from_slice(&other.buffer)?;
        Ok(())
    }

    /// Removes the last transaction, if there is one. The bytes of its keys stay.
    pub fn drop_last(&mut self)
        requires tables { AreTables self.old.buffer.items self.old.spans.items self.old.rows.items }
        ensures tables { AreTables self.new.buffer.items self.new.spans.items self.new.rows.items }
        ensures reported { txns_of_tables self.new.buffer.items self.new.spans.items
            self.new.rows.items
            ≡ take (length self.old.rows.items - 1)
            (txns_of_tables self.old.buffer.items self.old.spans.items self.old.rows.items) }
        ensures rows { self.new.rows.items
            ≡ take (length self.old.rows.items - 1) self.old.rows.items }
    {
        if let Some(last) = self.rows.len().checked_sub(1) {
            let spans = first_span(&self.rows, last);
            self.rows.truncate(last);
            self.spans.truncate(spans);
        }
    }
}

// Returns the index at which the spans of the row at an index begin: where those of the row before
// end.
fn first_span(rows: &[Row], index: usize) -> usize
    requires rows { (count : ℕ) × AreRows 0 rows.now count }
    requires within { index < length rows.now }
    ensures first { AreRows 0 (take index rows.now) result }
{
    if index == 0 {
        0
    } else {
        rows[index - 1].end as usize
    }
}

// Appends where the ranges lie in a buffer that has this many bytes before these. If memory is
// refused, some of them may be there.
fn push_ranges(
    before: usize,
    bytes: usize,
    given: &[KeySpan],
    spans: &mut Vec<Span>,
) -> Result<(), AllocError>
    requires fits { before + bytes < 2 ^ 32 }
    requires within { All (IsWithin bytes) given.now }
    ensures pushed { OnOk result (spans.new.items
        ≡ spans.old.items ++ map (span_after before) given.now) }
    ensures front { take (length spans.old.items) spans.new.items ≡ spans.old.items }
{
    for span in given {
        spans.push(place_after(before, bytes, span))?;
    }
    Ok(())
}
