//! Parts of the versions.

ghost use Rattle.std.specs.Prelude.{◌≡◌, ◌≤ℤ◌, [], All, IfOk, IfSome, IfNone};
ghost use Rattle.batches_report.specs.Bins.{IsBinOf, IsInOne, IsWithin};

use crate::row::TxnRow;
use crate::totals::{Totals, totals_between};
use std::alloc::{AllocError, Global};

// The number of parts.
const PARTS: i64 = 60;

/// What the batches of some versions add up to.
#[derive(Clone, Copy, Debug, PartialEq, Eq)]
pub struct Bin {
    pub first: i64,
    pub last: i64,
    pub totals: Totals,
}

/// Divides the versions from the least to the greatest one into up to 60 parts, all but the last of
/// one width, and adds up the batches of each.
pub fn bins_of(alloc: Global, rows: &[TxnRow]) -> Result<Vec<Bin>, AllocError>
    ensures totals { IfOk result (λ bins. All (IsBinOf rows.now) bins.items) }
    ensures parts { IfOk result (λ bins. All (IsInOne bins.items) rows.now) }
{
    let mut bins = Vec::new(alloc);
    let Some((least, greatest)) = versions_of(rows) else {
        return Ok(bins);
    };
    let more = greatest.saturating_sub(least) / PARTS;
    let mut first = least;
    loop {
        let last = last_of(first, more, greatest);
        bins.push(Bin {
            first,
            last,
            totals: totals_between(rows, first, last),
        })?;
        if last >= greatest {
            return Ok(bins);
        }
        first = last + 1;
    }
}

// Returns the last version of a part: this many after the first one, but at most the greatest.
fn last_of(first: i64, more: i64, greatest: i64) -> i64
    requires within { first ≤ℤ greatest }
    ensures least { first ≤ℤ result }
    ensures most { result ≤ℤ greatest }
{
    first.saturating_add(more).max(first).min(greatest)
}

// Returns the least and the greatest version.
fn versions_of(rows: &[TxnRow]) -> Option<(i64, i64)>
    ensures within { IfSome result (λ ends. All (IsWithin ends.0 ends.1) rows.now) }
    ensures ordered { IfSome result (λ ends. ends.0 ≤ℤ ends.1) }
    ensures none { IfNone result (rows.now ≡ []) }
{
    let first = rows.first()?;
    let (mut least, mut greatest) = (first.version, first.version);
    for row in rows {
        least = least.min(row.version);
        greatest = greatest.max(row.version);
    }
    Some((least, greatest))
}
