//! Sets that start at a version, and what a set reports about itself.

ghost use Rattle.std.specs.Prelude.{◌≡◌, None, IfOk, IfErr};
ghost use Rattle.conflict.specs.ConflictSet.{Remembers};
ghost use Rattle.conflict.specs.Unknown.{unknown_until};
ghost use Rattle.archcaraway_c.specs.Starts.{AreSetNumbersAt, IsTooSmall, SetStartRefuses};

use super::SetObject;
use crate::numbers::are_set_numbers;
use crate::refusal::Refusal;
use conflict::ConflictSet;
use limits::Stop;
use std::alloc::Global;

impl SetObject {
    /// Creates a set that starts at a version, from -1 on: what was written up to it isn't known.
    /// Returns `Argument` if a number is outside its range, the stop `ArenaFull` if the limit is
    /// below 3 and the version isn't -1, and the stop `Memory` if memory is refused.
    pub fn new_at(alloc: Global, window: i64, limit: u64, version: i64) -> Result<Self, Refusal>
        ensures remembers { IfOk result (λ object. Remembers object (unknown_until version)) }
        ensures resolved { IfOk result (λ object. object.resolved ≡ version) }
        ensures window { IfOk result (λ object. object.window ≡ window) }
        ensures limit { IfOk result (λ object. object.map.limit ≡ limit) }
        ensures continues { IfOk result (λ object. object.stop ≡ None) }
        ensures within { IfOk result (λ _. AreSetNumbersAt window limit version) }
        ensures room { IfOk result (λ _. ¬ IsTooSmall limit version) }
        ensures refused { IfErr result (λ refusal. SetStartRefuses window limit version refusal) }
    {
        if version < -1 || !are_set_numbers(window, limit) {
            return Err(Refusal::Argument);
        }
        match ConflictSet::new_at(alloc, window, limit as usize, version) {
            Ok(set) => Ok(SetObject {
                alloc,
                set,
                resolved: version,
                stop: None,
            }),
            Err(stop) => Err(Refusal::Stop(Stop::from(stop))),
        }
    }

    /// Returns how many boundaries there may be.
    pub fn limit(&self) -> u64
        ensures limit { result ≡ self.now.map.limit }
    {
        self.set.limit() as u64
    }

    /// Returns about how many bytes of memory the set has used for its boundaries and its filter,
    /// as [`ConflictSet::bytes_held`] counts them. No clause counts bytes.
    pub fn bytes_held(&self) -> u64 {
        self.set.bytes_held() as u64
    }

    /// Returns the version of the batch resolved last, or that at which the set started.
    pub fn version(&self) -> i64
        ensures version { result ≡ self.now.resolved }
    {
        self.set.version()
    }

    /// Returns the edge: writes below this version are forgotten, or will be.
    pub fn edge(&self) -> i64
        ensures edge { result ≡ self.now.map.edge }
    {
        self.set.edge()
    }
}
