//! Cores that start at a version, and what a core reports about itself.

ghost use Rattle.std.specs.Prelude.{◌≡◌, ◌<◌, ◌↔◌, ℕ, [], length, replicate, None};
ghost use Rattle.std.specs.Prelude.{IfOk, IfErr, IsTrue, MatchOption};
ghost use Rattle.resolver.specs.OpeningLog.{opening_log};
ghost use Rattle.resolver.specs.Stands.{Stands};
ghost use Rattle.archcaraway_c.specs.CoreObject.{still_owed};
ghost use Rattle.archcaraway_c.specs.Starts.{AreCoreNumbersAt, IsTooSmall, CoreStartRefuses};
ghost use Rattle.archcaraway_c.specs.Starts.{IsNextOwed};

use super::CoreObject;
use crate::numbers::are_set_numbers;
use crate::refusal::Refusal;
use limits::{MAX_PROXIES, Stop};
use resolver::Core;
use std::alloc::Global;

impl CoreObject {
    /// Creates a resolver for that many proxies that starts at a version, from -1 on: the first
    /// batch that it processes follows that version, and earlier writes aren't known. Returns
    /// `Argument` if a number is outside its range. Returns the stop `ArenaFull` if the limit is
    /// below 3 and the version isn't -1, and the stop `Memory` if an allocation fails.
    pub fn new_at(
        alloc: Global,
        proxies: u32,
        window: i64,
        limit: u64,
        version: i64,
    ) -> Result<Self, Refusal>
        ensures stands { IfOk result (λ object.
            Stands object.core (opening_log proxies version) (λ _. [])) }
        ensures continues { IfOk result (λ object. object.core.stop ≡ None) }
        ensures waiting { IfOk result (λ object. object.waiting ≡ replicate proxies None) }
        ensures window { IfOk result (λ object. object.core.set.window ≡ window) }
        ensures limit { IfOk result (λ object. object.core.set.map.limit ≡ limit) }
        ensures within { IfOk result (λ _. AreCoreNumbersAt proxies window limit version) }
        ensures room { IfOk result (λ _. ¬ IsTooSmall limit version) }
        ensures refused { IfErr result (λ refusal.
            CoreStartRefuses proxies window limit version refusal) }
    {
        let proxies = proxies as usize;
        if proxies < 1 || proxies > MAX_PROXIES || version < -1 || !are_set_numbers(window, limit) {
            return Err(Refusal::Argument);
        }
        let core = match Core::new_at(alloc, proxies, window, limit as usize, version) {
            Ok(core) => core,
            Err(stop) => return Err(Refusal::Stop(stop)),
        };
        match CoreObject::around(alloc, core) {
            Ok(object) => Ok(object),
            Err(_) => Err(Refusal::Stop(Stop::Memory)),
        }
    }

    /// Returns the least proxy that is owed an answer, or `None` if none is.
    pub fn next(&self) -> Option<u32>
        ensures next { MatchOption result ((proxy : ℕ) → still_owed proxy self.now ≡ [])
            (λ proxy. IsNextOwed proxy self.now) }
    {
        for proxy in 0..self.waiting.len() {
            if self.owes(proxy) {
                return Some(proxy as u32);
            }
        }
        None
    }

    // Returns whether an answer is owed to the proxy.
    fn owes(&self, proxy: usize) -> bool
        requires known { proxy < length self.now.waiting }
        ensures owes { IsTrue result ↔ (0 < length (still_owed proxy self.now)) }
    {
        self.waiting[proxy].is_some() || self.core.owes(proxy)
    }

    /// Returns the number of batches that wait for their previous version.
    pub fn held(&self) -> u64
        ensures count { result ≡ length self.now.core.held }
    {
        self.core.held() as u64
    }

    /// Returns the version of the batch processed last, or that at which the resolver started.
    pub fn version(&self) -> i64
        ensures version { result ≡ self.now.core.version }
    {
        self.core.version()
    }

    /// Returns the edge of the conflict set.
    pub fn edge(&self) -> i64
        ensures edge { result ≡ self.now.core.set.map.edge }
    {
        self.core.set().edge()
    }

    /// Returns the number of boundaries of the conflict set.
    pub fn boundaries(&self) -> u64
        ensures count { result ≡ length self.now.core.set.map.boundaries }
    {
        self.core.set().boundaries() as u64
    }

    /// Returns about how many bytes of memory the conflict set has used for its boundaries and its
    /// filter. Batches held and answers owed don't count. No clause counts bytes.
    pub fn bytes_held(&self) -> u64 {
        self.core.set().bytes_held() as u64
    }

    /// Returns how many boundaries the conflict set may have.
    pub fn limit(&self) -> u64
        ensures limit { result ≡ self.now.core.set.map.limit }
    {
        self.core.set().limit() as u64
    }
}
