//! Who sees each batch that a resolver processes.
//!
//! An [`Observer`] is handed the batches in the order of processing, each with the proxy that sent
//! it and with its reply. It may keep them, to explain conflicts for instance. [`Unobserved`] keeps
//! nothing.
#![tactic(auto)]

mod unobserved;

ghost use Rattle.std.specs.Prelude.{◌≡◌, ◌++◌, ◌∷◌, [], List, length, OnErr, OnOk};
ghost use Rattle.keyspace.specs.Processed.{Processed};

use keyspace::{Batch, Reply};
use std::alloc::AllocError;
pub use unobserved::Unobserved;

/// Sees each batch that is processed, in order.
pub trait Observer {
    // What is true of an observer that saw these batches, in the order of processing, and no
    // others.
    ghost has_seen: { Self → List Processed → Type 0 };

    // What stays the same of an observer, whatever it sees.
    ghost Setting: { Type 0 };

    ghost setting: { Self → Setting };

    /// Sees a batch that was just processed, with the number of the proxy that sent it, and its
    /// reply. If memory is refused, the observer has seen no more than before.
    fn see(&mut self, proxy: usize, batch: Batch, reply: &Reply) -> Result<(), AllocError>
        requires entries { length reply.now.entries ≡ length batch.txns }
        ensures seen { OnOk result ((ps : List Processed) → has_seen self.old ps
            → has_seen self.new (ps ++ record { proxy = proxy; batch = batch; reply = reply.now }
            ∷ [])) }
        ensures unseen { OnErr result ((ps : List Processed) → has_seen self.old ps
            → has_seen self.new ps) }
        ensures setting { setting self.new ≡ setting self.old };
}
