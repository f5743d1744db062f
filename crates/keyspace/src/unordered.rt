//! Batches whose ranges aren't ordered yet.

ghost use Rattle.std.specs.Prelude.{◌≡◌, ◌≤◌, ◌≤ℤ◌, ◌<ℤ◌, pos, negsuc, length, map};
ghost use Rattle.std.specs.Prelude.{IfOk};
ghost use Rattle.keyspace.specs.storage.BatchRanges.{ranges_in};
ghost use Rattle.keyspace.specs.storage.Fields.{txn_fields};
ghost use Rattle.keyspace.specs.storage.Tables.{txns_of_tables, AreTables, AreTables-prop};
ghost use Rattle.keyspace.specs.declared.batch.TheConstants.{MAX_TXNS};

use crate::batch::Batch;
use crate::ranges_ref::RangesRef;
use crate::row::Row;
use crate::span::Span;
use crate::tables::Tables;
use crate::txns::Txns;
use std::alloc::{AllocError, Global};
use std::marker::Model;

/// A batch whose ranges aren't ordered yet. Contracts see the batch that [`UnorderedBatch::order`]
/// makes of it.
///
/// Ordering takes most of the time of making a batch. If only some of its ranges are wanted, the
/// others are dropped first.
#[derive(Debug, Drop)]
pub struct UnorderedBatch {
    /// The version of the previous batch on the chain, -1 or more and below `version`.
    pub previous: i64,
    /// The commit version of all its transactions, 0 or more.
    pub version: i64,
    /// The proxy's last received version, -1 or more and below `version`.
    pub received: i64,
    buffer: Vec<u8>,
    spans: Vec<Span>,
    rows: Vec<Row>,
    ghost natural: { pos 0 ≤ℤ version },
    ghost previous_from: { negsuc 0 ≤ℤ previous },
    ghost rises: { previous <ℤ version },
    ghost received_from: { negsuc 0 ≤ℤ received },
    ghost received_before: { received <ℤ version },
    ghost tables: { AreTables buffer.items spans.items rows.items } by { AreTables-prop buffer.items
        spans.items rows.items },
    ghost few: { length (txns_of_tables buffer.items spans.items rows.items) ≤ MAX_TXNS },
}

impl Model for UnorderedBatch {
    ghost use Rattle.keyspace.specs.storage.Fields.{txns_with, length-txns_with};
    ghost use Rattle.keyspace.specs.storage.Tables.{txns_of_tables};
    ghost use Rattle.keyspace.specs.contracts.batch.Batch as batch_type;
    ghost use Rattle.keyspace.specs.declared.batch.Batch.{Batch};

    ghost Value = { Batch };

    ghost coded = { batch_type.the_row.coded };

    ghost view = { λ b. record {
      previous = b.previous;
      version = b.version;
      received = b.received;
      txns = txns_with (txns_of_tables b.buffer.items b.spans.items b.rows.items) b.tables.holds;
      natural = b.natural;
      previous_from = b.previous_from;
      rises = b.rises;
      received_from = b.received_from;
      received_before = b.received_before;
      few = rw (length-txns_with (txns_of_tables b.buffer.items b.spans.items b.rows.items)
          b.tables.holds) b.few;
    } };
}

impl UnorderedBatch {
    /// Creates a batch of the transactions that the tables mean, without copying a key.
    pub fn new(previous: i64, version: i64, received: i64, tables: Tables) -> Self
        requires previous_from { negsuc 0 ≤ℤ previous }
        requires rises { previous <ℤ version }
        requires received_from { negsuc 0 ≤ℤ received }
        requires received_before { received <ℤ version }
        requires tables { AreTables tables.buffer.items tables.spans.items tables.rows.items }
        requires few { length
            (txns_of_tables tables.buffer.items tables.spans.items tables.rows.items)
            ≤ MAX_TXNS }
        ensures previous { result.previous ≡ previous }
        ensures version { result.version ≡ version }
        ensures received { result.received ≡ received }
        ensures txns { map txn_fields result.txns
            ≡ txns_of_tables tables.buffer.items tables.spans.items tables.rows.items }
    {
        let Tables {
            buffer,
            spans,
            rows,
        } = tables;
        UnorderedBatch {
            previous,
            version,
            received,
            buffer,
            spans,
            rows,
        }
    }

    /// Orders the ranges, or returns an error if memory is refused. No key is copied.
    pub fn order(self, alloc: Global) -> Result<Batch, AllocError>
        ensures batch { IfOk result (λ batch. batch ≡ self) }
    {
        let txns = Txns::from_tables(alloc, self.buffer, self.spans, self.rows)?;
        Ok(Batch::new(self.previous, self.version, self.received, txns))
    }

    /// Returns the ranges of the transactions as one list: those of each transaction, its read
    /// ranges before its write ranges.
    pub fn ranges(&self) -> RangesRef<'_>
        ensures ranges { result ≡ ranges_in self.now.txns }
    {
        RangesRef::new(&self.buffer, &self.spans)
    }

    /// Returns the tables of the transactions.
    pub fn into_tables(self) -> Tables
        ensures tables { AreTables result.buffer.items result.spans.items result.rows.items }
        ensures txns { txns_of_tables result.buffer.items result.spans.items result.rows.items
            ≡ map txn_fields self.txns }
    {
        Tables {
            buffer: self.buffer,
            spans: self.spans,
            rows: self.rows,
        }
    }
}
