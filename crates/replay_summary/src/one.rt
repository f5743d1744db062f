//! The summary of the answers to one proxy.

ghost use Rattle.std.specs.Prelude.{◌≡◌, map, IfNone, IfSome};
ghost use Rattle.keyspace.specs.storage.InOrder.{Rise};
ghost use Rattle.replay_summary.specs.Adding.{part, reply_part};
ghost use Rattle.replay_summary.specs.Counted.{version_of};
ghost use Rattle.replay_summary.specs.Summary.{Fits, summary_of};

use crate::counted::{Counted, HasCounted, Outcome};
use crate::counts::Counts;
use crate::summary::Summary;
use crate::versions::Versions;

/// Returns the summary of the answers to a proxy, which are sorted by version, or none if a number
/// of it is beyond 64 bits.
pub fn summarize<T: HasCounted>(answers: &[T]) -> Option<Summary>
    requires rises { Rise (λ answer. version_of (T.item_counted answer)) answers.now }
    ensures summary { IfSome result
        (λ summary. summary ≡ summary_of (map T.item_counted answers.now)) }
    ensures none { IfNone result (¬ Fits (summary_of (map T.item_counted answers.now))) }
{
    let mut summary = Summary::empty();
    for answer in answers {
        let counted = answer.counted();
        let part = part_of(summary.is_last(counted.version), counted);
        summary = summary.plus(&part)?;
    }
    Some(summary)
}

// Returns what an answer adds to the summary. If it is a reply, it is a repeat or not.
fn part_of(repeat: bool, counted: Counted) -> Summary
    ensures part { result ≡ part repeat counted.version counted.outcome }
{
    let mut part = Summary::empty();
    match counted.outcome {
        Outcome::Replied(counts) => return reply_part(repeat, counted.version, counts),
        Outcome::Never => part.never = 1,
        Outcome::Held => part.held = 1,
    }
    part
}

fn reply_part(repeat: bool, version: i64, counts: Counts) -> Summary
    ensures part { result ≡ reply_part repeat version counts }
{
    let mut part = Summary::empty();
    part.versions = Some(Versions {
        first: version,
        last: version,
    });
    if repeat {
        part.repeats = 1;
        return part;
    }
    part.batches = 1;
    part.committed = counts.committed as usize;
    part.conflict = counts.conflict as usize;
    part.too_old = counts.too_old as usize;
    part.transactions = part.committed + part.conflict + part.too_old;
    part
}
