//! The rate of conflicts.

ghost use Rattle.std.specs.Prelude.{◌≡◌, ◌≢◌, ◌++◌, OnOk};
ghost use Rattle.replay_summary.specs.Rate.{conflict_percent, rate_between, tenths};

use crate::summary::Summary;
use std::io;
use std::io::Write;

/// Appends the name, then the rate and its unit, or `none` if there is no transaction. All three
/// texts are ASCII.
pub fn put_rate(
    out: &mut Vec<u8>,
    name: &[u8],
    summary: &Summary,
    unit: &[u8],
    none: &[u8],
) -> io::Result<()>
    ensures text { OnOk result (out.new.items
        ≡ out.old.items ++ rate_between name.now unit.now none.now summary.now) }
{
    out.write_all(name)?;
    if summary.transactions == 0 {
        return out.write_all(none);
    }
    put_conflict_percent(out, summary)?;
    out.write_all(unit)
}

// Appends how many percent of the transactions are in conflict, with one decimal.
fn put_conflict_percent(out: &mut Vec<u8>, summary: &Summary) -> io::Result<()>
    requires some { summary.now.transactions ≢ 0 }
    ensures text { OnOk result
        (out.new.items ≡ out.old.items ++ conflict_percent summary.now) }
{
    let tenths = tenths(summary.conflict as u64, summary.transactions as u64);
    write!(out, "{}.{}", tenths / 10, tenths % 10)
}

// Returns the share of a part in tenths of a percent, rounded to the nearest one, and up from the
// middle.
fn tenths(part: u64, entire: u64) -> u128
    requires some { entire ≢ 0 }
    ensures tenths { result ≡ tenths part entire }
{
    let entire = entire as u128;
    (1_000 * part as u128 + entire / 2) / entire
}
