//! The version that a run has reached.

ghost use Rattle.std.specs.Prelude.{◌≡◌, negsuc, Some};

use keyspace::{Batch, Reply};
use observer::Observer;
use std::alloc::AllocError;

/// Shows the batches that a resolver processes to another observer, and notes the version of the
/// last one that this has seen.
#[derive(Debug, Drop)]
pub struct Reached<O> {
    /// The version of the last batch, or -1 before the first one. Never none.
    pub version: Option<i64>,
    pub observer: O,
}

impl<O> Reached<O> {
    /// Creates an observer that has seen nothing, from another one.
    pub fn new(observer: O) -> Self
        ensures none { result.version ≡ Some (negsuc 0) }
        ensures observer { result.observer ≡ observer }
    {
        Reached {
            version: Some(-1),
            observer,
        }
    }
}

impl<O: Observer> Observer for Reached<O> {
    ghost use Rattle.replay_tasks.specs.Met.{HasReached};

    ghost has_seen = { HasReached O.has_seen };

    ghost Setting = { O.Setting };

    ghost setting = { λ reached. O.setting reached.observer };

    fn see(&mut self, proxy: usize, batch: Batch, reply: &Reply) -> Result<(), AllocError> {
        let version = batch.version;
        self.observer.see(proxy, batch, reply)?;
        self.version = Some(version);
        Ok(())
    }
}
