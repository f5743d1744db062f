//! Sums over batches.

ghost use Rattle.std.specs.Prelude.{◌≡◌, ◌∷◌, ◌++◌, [], List, count_by};
ghost use Rattle.batches_report.specs.declared.row.TxnRow.{TxnRow as RowValue};
ghost use Rattle.batches_report.specs.Totals.{has_size, is_between, rows_between, totals_of};

use crate::row::TxnRow;

/// What some batches add up to. A sum of more than 64 bits is `usize::MAX`.
#[derive(Clone, Copy, Debug, PartialEq, Eq)]
pub struct Totals {
    pub batches: usize,
    pub txns: usize,
    pub conflicts: usize,
    pub too_old: usize,
    pub reported: usize,
}

/// Returns what the batches with versions from the first to the last one add up to.
pub fn totals_between(rows: &[TxnRow], first: i64, last: i64) -> Totals
    ensures totals { result ≡ totals_of (rows_between first last rows.now) }
{
    let mut totals = Totals {
        batches: 0,
        txns: 0,
        conflicts: 0,
        too_old: 0,
        reported: 0,
    };
    for row in rows {
        if is_between(row, first, last) {
            totals.add(row);
        }
    }
    totals
}

fn is_between(row: &TxnRow, first: i64, last: i64) -> bool
    ensures exact { result ≡ is_between first last row.now }
{
    first <= row.version && row.version <= last
}

impl Totals {
    // Adds a batch.
    fn add(&mut self, row: &TxnRow)
        ensures added { (before : List RowValue) → self.old ≡ totals_of before
            → self.new ≡ totals_of (before ++ row.now ∷ []) }
    {
        self.batches = self.batches.saturating_add(1);
        self.txns = self.txns.saturating_add(row.txns);
        self.conflicts = self.conflicts.saturating_add(row.conflicts);
        self.too_old = self.too_old.saturating_add(row.too_old);
        self.reported = self.reported.saturating_add(row.reported);
    }
}

/// Returns how many batches have from `least` to `most` transactions.
pub fn batches_of_size(rows: &[TxnRow], least: usize, most: usize) -> usize
    ensures count { result ≡ count_by (has_size least most) rows.now }
{
    rows.iter()
        .filter(|row| least <= row.txns && row.txns <= most)
        .count()
}
