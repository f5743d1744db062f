//! How old the snapshots were that were too old.

ghost use Rattle.std.specs.Prelude.{◌≡◌, ◌≤ℤ◌, ◌∷◌, ◌++◌, [], count_by, int_le, pos, OnOk};
ghost use Rattle.batches_report.specs.Ages.{ages_of};

use crate::row::is_too_old;
use keyspace::{Entry, TxnRef};
use std::alloc::AllocError;

/// Appends the age of the snapshot of a transaction, if it was too old. Its batch has this version.
pub fn put_age(
    ages: &mut Vec<i64>,
    version: i64,
    txn: &TxnRef<'_>,
    entry: &Entry,
) -> Result<(), AllocError>
    requires natural { pos 0 ≤ℤ version }
    ensures put { OnOk result (ages.new.items ≡ ages.old.items ++ ages_of
        (record { version = version; txn = txn.now; entry = entry.now } ∷ [])) }
{
    if is_too_old(entry) {
        ages.push(version - txn.snapshot)?;
    }
    Ok(())
}

/// Returns how many of the ages a window covers.
pub fn covered(ages: &[i64], window: i64) -> usize
    ensures count { result ≡ count_by (λ age. int_le age window) ages.now }
{
    ages.iter().filter(|age| **age <= window).count()
}
