//! The verdicts of a reply, counted.

ghost use Rattle.std.specs.Prelude.{◌≡◌, ◌≤◌, count_by, length};
ghost use Rattle.keyspace.specs.declared.batch.TheConstants.{MAX_TXNS};
ghost use Rattle.replay_summary.specs.Counted.{counts_of, has_verdict};

use keyspace::{Entry, Reply, Verdict};

/// How many entries of a reply have each verdict.
#[derive(Clone, Copy, Debug, PartialEq, Eq)]
pub struct Counts {
    pub committed: u32,
    pub conflict: u32,
    pub too_old: u32,
}

impl Counts {
    /// Counts the entries of a reply.
    pub fn of(reply: &Reply) -> Counts
        ensures counts { result ≡ counts_of reply.now }
    {
        let entries = reply.entries.as_slice();
        Counts {
            committed: count_of(Verdict::Committed, entries),
            conflict: count_of(Verdict::Conflict, entries),
            too_old: count_of(Verdict::TooOld, entries),
        }
    }
}

// Returns how many entries have this verdict.
fn count_of(verdict: Verdict, entries: &[Entry]) -> u32
    requires few { length entries.now ≤ MAX_TXNS }
    ensures count { result ≡ count_by (has_verdict verdict) entries.now }
{
    entries
        .iter()
        .filter(|entry| entry.verdict == verdict)
        .count() as u32
}
