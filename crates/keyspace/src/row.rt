//! A transaction as a row of the tables of its batch.

ghost use Rattle.std.specs.Prelude.{ℕ, ◌<◌, length, take};
ghost use Rattle.keyspace.specs.storage.Tables.{AreRows};

/// A transaction, as a row of the tables of its batch. The spans of its ranges follow those of the
/// row before, those of its read ranges first.
#[derive(Clone, Copy, Debug, PartialEq, Eq)]
pub struct Row {
    /// The read version of the transaction.
    pub snapshot: i64,
    /// The index after the span of its last write range: the spans of the next row begin there.
    pub end: u32,
    /// How many write ranges it has. Their spans are the last ones before `end`.
    pub writes: u16,
    /// Whether the transaction asks for the places of its read ranges in conflict.
    pub marked: bool,
}

/// Returns the index at which the spans of the row at an index begin: where those of the row before
/// end.
pub fn first_span(rows: &[Row], index: usize) -> u32
    requires rows { (count : ℕ) × AreRows 0 rows.now count }
    requires within { index < length rows.now }
    ensures first { AreRows 0 (take index rows.now) result }
{
    if index == 0 { 0 } else { rows[index - 1].end }
}
