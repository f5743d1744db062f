//! The order of the write ranges of a batch, without its read ranges.

ghost use Rattle.std.specs.Prelude.{ℕ, ◌≡◌, ◌<◌, All, IfOk, filter, length};
ghost use Rattle.keys.specs.Singles.{is_marked};
ghost use Rattle.keyspace.specs.storage.RowMarks.{marks_of_rows};
ghost use Rattle.keyspace.specs.storage.Tables.{AreRows};

use crate::row::Row;
use std::alloc::{AllocError, Global};

/// Lists those of the indices whose marks are set, in the order in which they are given, or returns
/// an error if memory is refused.
pub fn list_writes(
    alloc: Global,
    mut order: Vec<u32>,
    written: &[bool],
) -> Result<Vec<u32>, AllocError>
    requires within { All (λ index. index < length written.now) order.items }
    ensures writes { IfOk result (λ writes. writes.items
        ≡ filter (is_marked written.now) order.items) }
{
    let mut len = 0;
    for place in 0..order.len() {
        // Each index is put down, and stays if it is a write range's: a branch on that would often
        // be mispredicted.
        let index = order[place];
        order[len] = index;
        len += usize::from(written[index as usize]);
    }
    Vec::from_slice(alloc, &order[..len])
}

/// Returns for each range of the rows whether it is a write range, or returns an error if memory is
/// refused.
pub fn mark_writes(alloc: Global, rows: &[Row]) -> Result<Vec<bool>, AllocError>
    requires rows { (count : ℕ) × AreRows 0 rows.now count }
    ensures marks { IfOk result (λ marks. marks.items ≡ marks_of_rows rows.now) }
{
    let mut marks = Vec::new(alloc);
    for row in rows {
        let end = row.end as usize;
        marks.resize(end - row.writes as usize, false)?;
        marks.resize(end, true)?;
    }
    Ok(marks)
}
