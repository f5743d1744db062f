//! The tables of transactions that are put together by hand: their keys are copied into one buffer.

ghost use Rattle.std.specs.Prelude.{◌≡◌, [], ◌∷◌, ◌++◌, ◌<◌, ◌≤◌, length, vec_len, map, IfOk, OnOk};
ghost use Rattle.keyspace.specs.storage.Fields.{range_fields, txn_fields};
ghost use Rattle.keyspace.specs.storage.Putting.{ArePut};
ghost use Rattle.keyspace.specs.storage.Tables.{txns_of_tables, AreTables};
ghost use Rattle.keyspace.specs.declared.batch.TheConstants.{MAX_TXNS};

use crate::row::Row;
use crate::span::Span;
use crate::txn::Txn;
use keys::Range;
use std::alloc::{AllocError, Global};

/// What transactions are kept as.
#[derive(Debug, Drop)]
pub struct Tables {
    /// The bytes of all keys.
    pub buffer: Vec<u8>,
    /// Where each range lies among them.
    pub spans: Vec<Span>,
    /// Each transaction, and which spans it has.
    pub rows: Vec<Row>,
}

impl Tables {
    /// Copies the transactions into tables, or returns an error if memory is refused, or if their
    /// keys have more than 4 GiB.
    pub fn of(alloc: Global, txns: &[Txn]) -> Result<Self, AllocError>
        requires few { length txns.now ≤ MAX_TXNS }
        ensures tables { IfOk result (λ t. AreTables t.buffer.items t.spans.items t.rows.items) }
        ensures reported { IfOk result (λ t.
            txns_of_tables t.buffer.items t.spans.items t.rows.items ≡ map txn_fields txns.now) }
        ensures count { IfOk result (λ t. vec_len t.rows ≡ length txns.now) }
    {
        let mut tables = Tables {
            buffer: Vec::new(alloc),
            spans: Vec::new(alloc),
            rows: Vec::with_capacity(alloc, txns.len())?,
        };
        for txn in txns {
            tables.put(txn)?;
        }
        Ok(tables)
    }

    // Appends a copy of a transaction.
    fn put(&mut self, txn: &Txn) -> Result<(), AllocError>
        requires tables { AreTables self.old.buffer.items self.old.spans.items self.old.rows.items }
        requires few { vec_len self.old.rows < MAX_TXNS }
        ensures tables { OnOk result (AreTables self.new.buffer.items self.new.spans.items
            self.new.rows.items) }
        ensures reported { OnOk result (txns_of_tables self.new.buffer.items self.new.spans.items
            self.new.rows.items
            ≡ txns_of_tables self.old.buffer.items self.old.spans.items self.old.rows.items
            ++ txn_fields txn.now ∷ []) }
    {
        put_ranges(&mut self.buffer, &mut self.spans, txn.reads.as_slice())?;
        put_ranges(&mut self.buffer, &mut self.spans, txn.writes.as_slice())?;
        self.rows.push(Row {
            snapshot: txn.snapshot,
            end: self.spans.len() as u32,
            writes: txn.writes.len() as u16,
            marked: txn.marked,
        })?;
        Ok(())
    }
}

// Appends the keys of the ranges to the buffer, and their spans to the others.
fn put_ranges(
    buffer: &mut Vec<u8>,
    spans: &mut Vec<Span>,
    ranges: &[Range],
) -> Result<(), AllocError>
    ensures put { OnOk result (ArePut buffer.old.items spans.old.items (map range_fields ranges.now)
        buffer.new.items spans.new.items) }
{
    for range in ranges {
        put_range(buffer, spans, range)?;
    }
    Ok(())
}

// Appends the keys of the range to the buffer, and its span to the others.
fn put_range(buffer: &mut Vec<u8>, spans: &mut Vec<Span>, range: &Range) -> Result<(), AllocError>
    ensures put { OnOk result (ArePut buffer.old.items spans.old.items (range_fields range.now ∷ [])
        buffer.new.items spans.new.items) }
{
    let begin = put_key(buffer, range.begin.as_bytes())?;
    let end = put_key(buffer, range.end.as_bytes())?;
    spans.push(Span {
        begin,
        begin_length: range.begin.as_bytes().len() as u16,
        end,
        end_length: range.end.as_bytes().len() as u16,
    })?;
    Ok(())
}

// Appends the key to the buffer, and returns the index of its first byte.
fn put_key(buffer: &mut Vec<u8>, key: &[u8]) -> Result<u32, AllocError>
    ensures index { IfOk result (λ index. index ≡ length buffer.old.items) }
    ensures key { OnOk result (buffer.new.items ≡ buffer.old.items ++ key.now) }
{
    let index = buffer.len();
    if index > u32::MAX as usize {
        return Err(AllocError);
    }
    buffer.extend_from_slice(key)?;
    Ok(index as u32)
}
