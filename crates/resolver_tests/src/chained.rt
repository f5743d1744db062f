//! A conflict set that is given the batches of a chain.
ghost use Rattle.std.specs.Prelude.{◌≡◌, ◌≤◌, ◌≤ℤ◌, pos};

use conflict::{ConflictSet, MAX_WINDOW, SetStop};
use keyspace::{Batch, Reply};
use std::alloc::Global;
use stepmap::MAX_LIMIT;
use test_values::Unmade;

/// A conflict set, with the greatest version that it has resolved.
#[derive(Drop)]
pub struct Chained {
    set: ConflictSet,
    resolved: i64,
    ghost same: { set.resolved ≡ resolved },
}

impl Chained {
    /// Makes a set that has resolved nothing.
    pub fn new(alloc: Global, window: i64, limit: usize) -> Result<Self, Unmade>
        requires least_window { pos 1 ≤ℤ window }
        requires most_window { window ≤ℤ MAX_WINDOW }
        requires least_limit { 1 ≤ limit }
        requires most_limit { limit ≤ MAX_LIMIT }
    {
        match ConflictSet::new(alloc, window, limit) {
            Ok(set) => Ok(Chained { set, resolved: -1 }),
            Err(_refused) => Err(Unmade::Memory),
        }
    }

    /// Resolves a batch, which must come after all that the set has resolved.
    pub fn resolve(&mut self, batch: &Batch) -> Result<Result<Reply, SetStop>, Unmade> {
        if batch.version <= self.resolved {
            return Err(Unmade::Beyond("version"));
        }
        match self.set.resolve(batch) {
            Ok(reply) => {
                self.resolved = batch.version;
                Ok(Ok(reply))
            }
            Err(stop) => Ok(Err(stop)),
        }
    }

    /// Returns the number of boundaries.
    pub fn boundaries(&self) -> usize {
        self.set.boundaries()
    }
}
