//! The summary of answers.

ghost use Rattle.std.specs.Prelude.{◌≡◌, ◌+◌, ◌≤◌, ◌^◌, IfNone, IfSome};
ghost use Rattle.replay_summary.specs.Adding.{is_last, nothing, plus};
ghost use Rattle.replay_summary.specs.Summary.{Fits, total_of};

use crate::versions::{Versions, spanning};

/// The summary of the answers to a proxy, or of those to all.
#[derive(Clone, Copy, Debug, PartialEq, Eq)]
pub struct Summary {
    /// The batches that were replied to. A batch that came again counts once.
    pub batches: usize,
    /// The transactions of these batches.
    pub transactions: usize,
    pub committed: usize,
    pub conflict: usize,
    pub too_old: usize,
    /// The replies to batches that had a reply before.
    pub repeats: usize,
    /// The answers that no reply will come.
    pub never: usize,
    /// The answers to batches that were still held at the end.
    pub held: usize,
    /// The versions of the replies, if there are any.
    pub versions: Option<Versions>,
}

impl Summary {
    /// Returns the summary of no answers.
    pub fn empty() -> Self
        ensures nothing { result ≡ nothing }
    {
        Summary {
            batches: 0,
            transactions: 0,
            committed: 0,
            conflict: 0,
            too_old: 0,
            repeats: 0,
            never: 0,
            held: 0,
            versions: None,
        }
    }

    // Returns the sum of two summaries, or none if a number is beyond 64 bits.
    pub(crate) fn plus(&self, other: &Self) -> Option<Self>
        ensures sum { IfSome result (λ sum. sum ≡ plus self.now other.now) }
        ensures none { IfNone result (¬ Fits (plus self.now other.now)) }
    {
        Some(Summary {
            batches: self.batches.checked_add(other.batches)?,
            transactions: self.transactions.checked_add(other.transactions)?,
            committed: self.committed.checked_add(other.committed)?,
            conflict: self.conflict.checked_add(other.conflict)?,
            too_old: self.too_old.checked_add(other.too_old)?,
            repeats: self.repeats.checked_add(other.repeats)?,
            never: self.never.checked_add(other.never)?,
            held: self.held.checked_add(other.held)?,
            versions: spanning(self.versions, other.versions),
        })
    }

    // Returns `true` if the greatest version of a reply is this one.
    pub(crate) fn is_last(&self, version: i64) -> bool
        ensures last { result ≡ is_last version self.now.versions }
    {
        match self.versions {
            Some(versions) => versions.last == version,
            None => false,
        }
    }
}

/// Returns the summary of the answers to all proxies, given that of each, or none if a number of it
/// is beyond 64 bits.
pub fn total(summaries: &[Summary]) -> Option<Summary>
    ensures total { IfSome result (λ total. total ≡ total_of summaries.now) }
    ensures none { IfNone result (¬ Fits (total_of summaries.now)) }
{
    let mut total = Summary::empty();
    for summary in summaries {
        total = total.plus(summary)?;
    }
    Some(total)
}
