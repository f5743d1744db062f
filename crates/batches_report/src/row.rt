//! How the transactions of a batch were judged, counted.

ghost use Rattle.std.specs.Prelude.{◌≡◌, count_by};
ghost use Rattle.batches_report.specs.JudgedTxns.{is_conflict, is_reported, is_too_old};
ghost use Rattle.batches_report.specs.Rows.{row_of};

use keyspace::{Batch, Entry, Reply, Verdict};

/// How the transactions of a batch were judged, counted.
#[derive(Clone, Copy, Debug, PartialEq, Eq)]
pub struct TxnRow {
    /// The version of the batch.
    pub version: i64,
    pub txns: usize,
    pub conflicts: usize,
    pub too_old: usize,
    /// The conflicts whose reply says which reads conflict.
    pub reported: usize,
}

impl TxnRow {
    /// Counts what the reply says of a batch.
    pub fn of(batch: &Batch, reply: &Reply) -> TxnRow
        ensures row { result ≡ row_of batch.now reply.now }
    {
        let entries = reply.entries.as_slice();
        TxnRow {
            version: batch.version,
            txns: batch.txns.len(),
            conflicts: conflicts_in(entries),
            too_old: too_old_in(entries),
            reported: reported_in(entries),
        }
    }
}

fn conflicts_in(entries: &[Entry]) -> usize
    ensures count { result ≡ count_by is_conflict entries.now }
{
    entries.iter().filter(|entry| is_conflict(entry)).count()
}

fn too_old_in(entries: &[Entry]) -> usize
    ensures count { result ≡ count_by is_too_old entries.now }
{
    entries.iter().filter(|entry| is_too_old(entry)).count()
}

fn reported_in(entries: &[Entry]) -> usize
    ensures count { result ≡ count_by is_reported entries.now }
{
    entries.iter().filter(|entry| is_reported(entry)).count()
}

fn is_conflict(entry: &Entry) -> bool
    ensures exact { result ≡ is_conflict entry.now }
{
    match entry.verdict {
        Verdict::Conflict => true,
        Verdict::TooOld | Verdict::Committed => false,
    }
}

/// Returns `true` if the transaction was too old.
pub fn is_too_old(entry: &Entry) -> bool
    ensures exact { result ≡ is_too_old entry.now }
{
    match entry.verdict {
        Verdict::TooOld => true,
        Verdict::Conflict | Verdict::Committed => false,
    }
}

fn is_reported(entry: &Entry) -> bool
    ensures exact { result ≡ is_reported entry.now }
{
    !entry.places.as_slice().is_empty()
}
