//! The positions of ranges and transactions that are appended to tables.

ghost use Rattle.std.specs.Prelude.{◌≡◌, ◌+◌, ◌<◌, ◌≤◌, ◌^◌, ◌++◌, ℕ, length, map, take, All, OnOk};
ghost use Rattle.keyspace.specs.storage.Tables.{LiesWithin, AreRows};
ghost use Rattle.archcaraway_c.specs.Moving.{span_moved, row_moved};

use keyspace::{Row, Span};
use std::alloc::AllocError;

/// Appends the positions of spans in a buffer that has `before` bytes before their own. If an
/// allocation fails, some of them may be there.
pub fn push_spans(
    before: usize,
    bytes: usize,
    others: &[Span],
    spans: &mut Vec<Span>,
) -> Result<(), AllocError>
    requires fits { before + bytes < 2 ^ 32 }
    requires within { All (LiesWithin bytes) others.now }
    ensures pushed { OnOk result (spans.new.items
        ≡ spans.old.items ++ map (span_moved before) others.now) }
    ensures front { take (length spans.old.items) spans.new.items ≡ spans.old.items }
{
    for span in others {
        spans.push(move_span(before, bytes, span))?;
    }
    Ok(())
}

fn move_span(before: usize, bytes: usize, span: &Span) -> Span
    requires fits { before + bytes < 2 ^ 32 }
    requires within { LiesWithin bytes span.now }
    ensures span { result ≡ span_moved before span.now }
{
    Span {
        begin: before as u32 + span.begin,
        begin_length: span.begin_length,
        end: before as u32 + span.end,
        end_length: span.end_length,
    }
}

/// Appends rows to tables that have `before` spans before theirs. If an allocation fails, some of
/// them may be there.
pub fn push_rows(
    before: usize,
    count: usize,
    others: &[Row],
    rows: &mut Vec<Row>,
) -> Result<(), AllocError>
    requires fits { before + count < 2 ^ 32 }
    requires within { All (λ row. row.end ≤ count) others.now }
    ensures pushed { OnOk result (rows.new.items
        ≡ rows.old.items ++ map (row_moved before) others.now) }
    ensures front { take (length rows.old.items) rows.new.items ≡ rows.old.items }
{
    for row in others {
        rows.push(move_row(before, count, row))?;
    }
    Ok(())
}

fn move_row(before: usize, count: usize, row: &Row) -> Row
    requires fits { before + count < 2 ^ 32 }
    requires within { row.now.end ≤ count }
    ensures row { result ≡ row_moved before row.now }
{
    Row {
        snapshot: row.snapshot,
        end: before as u32 + row.end,
        writes: row.writes,
        marked: row.marked,
    }
}
