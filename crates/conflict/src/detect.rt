//! The judging of a batch and the writing of what it commits, from top to bottom:
//! `ConflictBatch::detectConflicts` of FoundationDB 7.1.

ghost use Rattle.std.specs.Prelude.{◌≤ℤ◌, pos, IfOk, IfErr};
ghost use Rattle.keyspace.specs.Judged.{edge};
ghost use Rattle.stepmap.specs.Boundary.{AreUpTo};
ghost use Rattle.limits.specs.declared.settings.TheConstants.{MAX_WINDOW};
ghost use Rattle.conflict.specs.Calls.{Detects, Fails};

use crate::conflict_set::edge_at;
use crate::error::SetStop;
use crate::gaps::Gaps;
use crate::history::judge_by_history;
use crate::in_batch::judge_in_batch;
use crate::laws;
use crate::lookup::Lookup;
use crate::when_full::WhenFull;
use crate::writes::{UnitedWrites, note_keys, write_spans};
use keyspace::{Batch, Reply, Sequence};
use std::alloc::Global;
use stepmap::StepMap;

/// What is made of a batch while it is resolved. The vectors are kept, so that a batch like those
/// before it takes no memory for them.
#[derive(Debug, Drop)]
pub struct Scratch {
    lookup: Lookup,
    gaps: Gaps,
    writes: UnitedWrites,
}

impl Scratch {
    /// Makes empty vectors, and takes no memory.
    pub fn new(alloc: Global) -> Self {
        Scratch {
            lookup: Lookup::new(alloc),
            gaps: Gaps::new(alloc),
            writes: UnitedWrites::new(alloc),
        }
    }
}

/// Judges a batch, raises the edge, writes what the batch commits, and sweeps on.
///
/// An error leaves the function as it was at and above the edge. If the batch is refused since it
/// doesn't fit the limit, nothing changes.
pub fn detect_conflicts(
    alloc: Global,
    steps: &mut StepMap,
    scratch: &mut Scratch,
    window: i64,
    when_full: WhenFull,
    batch: &Batch,
) -> Result<Reply, SetStop>
    requires least_window { pos 1 ≤ℤ window }
    requires most_window { window ≤ℤ MAX_WINDOW }
    requires raised { steps.old.edge ≤ℤ edge window batch.now }
    requires newest { AreUpTo batch.now.version steps.old.boundaries }
    ensures detects { IfOk result (λ reply. Detects window steps.old steps.new batch.now reply) }
    ensures fails { IfErr result (λ stop.
        Fails when_full window steps.old steps.new batch.now stop) }
{
    keyspace::laws::one_reply();
    stepmap::laws::writing();
    stepmap::laws::counts();
    laws::history_first();
    let edge = edge_at(window, batch.version);

    // Too old, or in conflict with the history.
    let mut entries = judge_by_history(alloc, steps, &mut scratch.lookup, edge, batch)?;

    // In conflict with the batch, in order.
    let ranks = batch.txns.ranks();
    scratch.gaps.reset(ranks.begin_count())?;
    judge_in_batch(alloc, batch, ranks.runs(), &mut scratch.gaps, &mut entries)?;

    // What is committed is written, if it fits the limit.
    scratch.writes.gather(batch, &entries)?;
    let spans = scratch.writes.spans();
    if when_full == WhenFull::Refuse && !steps.can_make_room(spans.len(), edge) {
        return Err(SetStop::ArenaFull);
    }
    steps.raise(edge);
    steps.prepare(scratch.writes.lengths())?;
    note_keys(steps, &batch.txns, spans, batch.version);
    write_spans(steps, &batch.txns, spans, batch.version);

    // The sweep keeps up with the writes.
    steps.sweep(3 * spans.len() + 10);
    Ok(Reply::new(batch.version, Sequence::new(entries)))
}
