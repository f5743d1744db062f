//! The differences between two replies to one batch.

ghost use Rattle.std.specs.Prelude.{◌≡◌, ◌++◌, OnOk, length};
ghost use Rattle.checking.specs.Difference.{entry_differences, is_same, is_same_verdict};
ghost use Rattle.checking.specs.Difference.{reply_differences};

use crate::difference::{Difference, DifferenceKind};
use keyspace::{Entry, Reply, Verdict};
use std::alloc::{AllocError, Global};

/// Appends the differences between the replies.
pub fn compare_replies(
    alloc: Global,
    expected: &Reply,
    found: &Reply,
    differences: &mut Vec<Difference>,
) -> Result<(), AllocError>
    ensures differences { OnOk result
        (differences.new.items ≡ differences.old.items
        ++ reply_differences expected.now found.now) }
{
    let version = expected.version;
    let (expected, found) = (expected.entries.as_slice(), found.entries.as_slice());
    if expected.len() == found.len() {
        return compare_entries(alloc, version, expected, found, differences);
    }
    let kind = DifferenceKind::Count {
        expected: expected.len(),
        found: found.len(),
    };
    differences.push(Difference { version, kind })?;
    Ok(())
}

fn compare_entries(
    alloc: Global,
    version: i64,
    expected: &[Entry],
    found: &[Entry],
    differences: &mut Vec<Difference>,
) -> Result<(), AllocError>
    requires equal { length expected.now ≡ length found.now }
    ensures differences { OnOk result
        (differences.new.items ≡ differences.old.items
        ++ entry_differences version 0 expected.now found.now) }
{
    for (index, entry) in expected.iter().enumerate() {
        if !is_same(entry, &found[index]) {
            let kind = DifferenceKind::Transaction {
                index,
                expected: entry.copy(alloc)?,
                found: found[index].copy(alloc)?,
            };
            let difference = Difference { version, kind };
            differences.push(difference)?;
        }
    }
    Ok(())
}

// Returns whether the entries have the same verdict and the same places.
fn is_same(expected: &Entry, found: &Entry) -> bool
    ensures same { result ≡ is_same expected.now found.now }
{
    is_same_verdict(expected.verdict, found.verdict)
        && expected.places.as_slice() == found.places.as_slice()
}

/// Returns whether the verdicts are the same.
pub fn is_same_verdict(expected: Verdict, found: Verdict) -> bool
    ensures same { result ≡ is_same_verdict expected found }
{
    expected == found
}
