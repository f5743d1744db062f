//! The calls that resolve a batch: one stops if the batch doesn't fit the limit, one refuses it.

ghost use Rattle.std.specs.Prelude.{◌<ℤ◌, IfOk, IfErr};
ghost use Rattle.conflict.specs.Calls.{Resolves, Stops};

use super::ConflictSet;
use crate::detect::detect_conflicts;
use crate::error::SetStop;
use crate::when_full::WhenFull;
use keyspace::{Batch, Reply};

impl ConflictSet {
    /// Judges a batch after all writes that the set remembers, and remembers what the batch
    /// commits.
    ///
    /// An error is final: every later call returns the same one. The set still remembers what it
    /// remembered before. `ArenaFull` says that the boundaries of the writes within the window,
    /// those of this batch included, exceed the limit.
    pub fn resolve(&mut self, batch: &Batch) -> Result<Reply, SetStop>
        requires rising { self.old.resolved <ℤ batch.now.version }
        ensures resolves { IfOk result (λ reply. Resolves self.old self.new batch.now reply) }
        ensures stops { IfErr result (λ stop.
            Stops WhenFull.Stop self.old self.new batch.now stop) }
    {
        self.resolve_when(batch, WhenFull::Stop)
    }

    /// Judges a batch and remembers what it commits, as [`ConflictSet::resolve`] does. But if the
    /// batch doesn't fit the limit, the set is as before: it forgets nothing, doesn't stop, and its
    /// edge stays. The caller may then send a smaller batch or a later one, which leaves fewer
    /// boundaries within the window, or make a new set at the version.
    ///
    /// Returns `ArenaFull` if the boundaries of the writes within the window, those of this batch
    /// included, exceed the limit. `Memory` is final, as is an error of `resolve`: every later call
    /// returns the same one.
    ///
    /// If the batch fits without a sweep, the call costs what `resolve` costs. Else it first looks
    /// at every boundary, and counts those that a complete round of the sweep would leave.
    pub fn try_resolve(&mut self, batch: &Batch) -> Result<Reply, SetStop>
        requires rising { self.old.resolved <ℤ batch.now.version }
        ensures resolves { IfOk result (λ reply. Resolves self.old self.new batch.now reply) }
        ensures stops { IfErr result (λ stop.
            Stops WhenFull.Refuse self.old self.new batch.now stop) }
    {
        self.resolve_when(batch, WhenFull::Refuse)
    }

    /// Judges a batch, and remembers what it commits: [`ConflictSet::resolve`] if a set is to stop
    /// at a batch that doesn't fit the limit, and [`ConflictSet::try_resolve`] if it is to refuse
    /// it.
    pub fn resolve_when(&mut self, batch: &Batch, when_full: WhenFull) -> Result<Reply, SetStop>
        requires rising { self.old.resolved <ℤ batch.now.version }
        ensures resolves { IfOk result (λ reply. Resolves self.old self.new batch.now reply) }
        ensures stops { IfErr result (λ stop. Stops when_full self.old self.new batch.now stop) }
    {
        if let Some(stop) = self.stop {
            return Err(stop);
        }
        stepmap::laws::writing();
        match detect_conflicts(
            self.alloc,
            &mut self.map,
            &mut self.scratch,
            self.window,
            when_full,
            batch,
        ) {
            Ok(reply) => {
                self.resolved = batch.version;
                Ok(reply)
            }
            Err(stop) => {
                self.stop = when_full.stop_for(stop);
                Err(stop)
            }
        }
    }
}
