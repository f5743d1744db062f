//! What becomes of a set if a batch doesn't fit its limit.

ghost use Rattle.std.specs.Prelude.{◌≡◌};
ghost use Rattle.conflict.specs.ConflictSet.{stop_after};

use crate::error::SetStop;

/// What becomes of a set if a batch doesn't fit its limit.
#[derive(Clone, Copy, Debug, PartialEq, Eq)]
pub enum WhenFull {
    /// It stops.
    Stop,
    /// It refuses the batch, and is as before.
    Refuse,
}

impl WhenFull {
    /// Returns why a set stops, if it does, where a batch isn't resolved for this reason.
    pub fn stop_for(self, stop: SetStop) -> Option<SetStop>
        ensures stop { result ≡ stop_after self stop }
    {
        match (self, stop) {
            (WhenFull::Refuse, SetStop::ArenaFull) => None,
            _ => Some(stop),
        }
    }
}
