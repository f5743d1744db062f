//! The greatest length of a reply to a batch, known before the batch is resolved.

ghost use Rattle.std.specs.Prelude.{◌≡◌, ◌≤◌, ◌+◌, ◌*◌, length};
ghost use Rattle.std.specs.List.{sum_by};
ghost use Rattle.archcaraway_c.specs.Bound.{most_entry_length, most_reply_length};

use keyspace::{Batch, MAX_TXNS, TxnRef, Txns};

/// Returns the greatest length of the frame of a reply to the batch, in bytes.
pub fn most_reply_length(batch: &Batch) -> usize
    ensures most { result ≡ most_reply_length batch.now }
{
    15 + most_entries_length(&batch.txns)
}

fn most_entries_length(txns: &Txns) -> usize
    requires few { length txns.now ≤ MAX_TXNS }
    ensures most { result ≡ sum_by most_entry_length txns.now }
    ensures bound { result ≤ 2051 * MAX_TXNS }
{
    let mut total = 0;
    for index in 0..txns.len() {
        total += most_entry_length(&txns.txn(index));
    }
    total
}

fn most_entry_length(txn: &TxnRef<'_>) -> usize
    ensures most { result ≡ most_entry_length txn.now }
    ensures bound { result ≤ 2051 }
{
    if txn.marked {
        3 + 2 * txn.reads.len()
    } else {
        3
    }
}
