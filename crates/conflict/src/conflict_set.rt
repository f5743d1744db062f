//! The conflict set: the committed writes that it remembers, and how it starts.

ghost use Rattle.std.specs.Prelude.{◌≡◌, ◌<◌, ◌≤◌, ◌↔◌, ◌≤ℤ◌, ◌-ℤ◌, pos, negsuc, [], length};
ghost use Rattle.std.specs.Prelude.{None, Err, IfOk, IfErr};
ghost use Rattle.std.specs.Int.{int_max};
ghost use Rattle.limits.specs.declared.settings.TheConstants.{MAX_LIMIT, MAX_WINDOW};
ghost use Rattle.stepmap.specs.StepMap.{AreSteps};
ghost use Rattle.conflict.specs.ConflictSet.{IsSet, new_set, Remembers};
ghost use Rattle.conflict.specs.Unknown.{unknown_until};

mod resolution;

use crate::detect::Scratch;
use crate::error::SetStop;
use crate::unknown::write_every_key;
use std::alloc::{AllocError, Global};
use std::marker::Model;
use stepmap::StepMap;

// How many boundaries the write of every key needs: one at the empty key, and two for the range.
const LEAST_LIMIT_TO_START: usize = 3;

/// The committed writes of the batches resolved so far, as far back as the window: `ConflictSet` of
/// FoundationDB 7.1.
#[derive(Debug, Drop)]
pub struct ConflictSet {
    alloc: Global,
    window: i64,
    resolved: i64,
    map: StepMap,
    stop: Option<SetStop>,
    scratch: Scratch,
}

impl Model for ConflictSet {
    ghost use Rattle.conflict.specs.ConflictSet.{SetState, IsSet};

    ghost Value = { SetState };

    ghost view = { λ s. record {
      window = s.window;
      resolved = s.resolved;
      map = s.map;
      stop = s.stop;
    } };

    ghost invariant = { λ s. IsSet
        (record { window = s.window; resolved = s.resolved; map = s.map; stop = s.stop }) };
}

impl ConflictSet {
    /// Creates a set that has resolved nothing, or returns `Memory` if memory is refused. `window`
    /// is how far back it remembers writes, in versions; it never keeps more boundaries than
    /// `limit`.
    pub fn new(alloc: Global, window: i64, limit: usize) -> Result<Self, SetStop>
        requires least_window { pos 1 ≤ℤ window }
        requires most_window { window ≤ℤ MAX_WINDOW }
        requires least_limit { 1 ≤ limit }
        requires most_limit { limit ≤ MAX_LIMIT }
        ensures empty { IfOk result (λ set. set ≡ new_set window limit) }
        ensures remembers { IfOk result (λ set. Remembers set []) }
        ensures memory { IfErr result (λ stop. stop ≡ SetStop.Memory) }
    {
        Ok(ConflictSet {
            alloc,
            window,
            resolved: -1,
            map: StepMap::new(alloc, limit)?,
            stop: None,
            scratch: Scratch::new(alloc),
        })
    }

    /// Creates a set that starts at a version: what was written up to it isn't known. Each read
    /// range with a snapshot below the version is in conflict, unless it is empty; the others are
    /// judged by what is resolved later. A set that starts at -1 is that of [`ConflictSet::new`].
    ///
    /// Returns `ArenaFull` if the limit is below 3 and the version isn't -1, or `Memory` if memory
    /// is refused.
    pub fn new_at(alloc: Global, window: i64, limit: usize, version: i64) -> Result<Self, SetStop>
        requires least_window { pos 1 ≤ℤ window }
        requires most_window { window ≤ℤ MAX_WINDOW }
        requires least_limit { 1 ≤ limit }
        requires most_limit { limit ≤ MAX_LIMIT }
        requires least_version { negsuc 0 ≤ℤ version }
        ensures remembers { IfOk result (λ set. Remembers set (unknown_until version)) }
        ensures resolved { IfOk result (λ set. set.resolved ≡ version) }
        ensures edge { IfOk result (λ set. set.map.edge ≡ int_max (version -ℤ window) (pos 0)) }
        ensures window { IfOk result (λ set. set.window ≡ window) }
        ensures limit { IfOk result (λ set. set.map.limit ≡ limit) }
        ensures continues { IfOk result (λ set. set.stop ≡ None) }
        ensures empty { version ≡ negsuc 0 → IfOk result (λ set. set ≡ new_set window limit) }
        ensures full { (result ≡ Err SetStop.ArenaFull) ↔ (pos 0 ≤ℤ version) × (limit < 3) }
    {
        if version < 0 {
            return ConflictSet::new(alloc, window, limit);
        }
        if limit < LEAST_LIMIT_TO_START {
            return Err(SetStop::ArenaFull);
        }
        let mut map = StepMap::new(alloc, limit)?;
        map.raise(edge_at(window, version));
        write_every_key(alloc, &mut map, version)?;
        Ok(ConflictSet {
            alloc,
            window,
            resolved: version,
            map,
            stop: None,
            scratch: Scratch::new(alloc),
        })
    }

    /// Copies the boundaries into new memory with room for few more, and frees the memory that they
    /// had and that of the vectors kept from batch to batch. The set stays as it is, also if memory
    /// is refused for the copy. It takes about as long as writing each boundary once.
    ///
    /// The filter of single keys keeps its memory. The boundaries keep theirs if there are
    /// [`MAX_LIMIT`](stepmap::MAX_LIMIT) of them.
    pub fn trim(&mut self) -> Result<(), AllocError>
        ensures same { self.new ≡ self.old }
    {
        self.scratch = Scratch::new(self.alloc);
        self.map.trim(self.alloc)
    }

    /// Returns the number of boundaries, that at the empty key included. It never exceeds the
    /// limit.
    pub fn boundaries(&self) -> usize
        ensures count { result ≡ length self.now.map.boundaries }
        ensures within { result ≤ self.now.map.limit }
        ensures steps { AreSteps self.now.map }
        ensures set { IsSet self.now }
    {
        self.map.boundaries()
    }

    /// Returns about how many bytes of memory the boundaries and the filter of single keys have
    /// used so far. Memory of boundaries that were removed still counts, until
    /// [`ConflictSet::trim`]. The vectors kept from batch to batch, and what the allocator adds,
    /// don't count.
    pub fn bytes_held(&self) -> usize {
        self.map.bytes_held()
    }

    /// Returns how many boundaries there may be.
    pub fn limit(&self) -> usize
        ensures limit { result ≡ self.now.map.limit }
    {
        self.map.limit()
    }

    /// Returns the version of the batch resolved last, or that at which the set started.
    pub fn version(&self) -> i64
        ensures version { result ≡ self.now.resolved }
    {
        self.resolved
    }

    /// Returns the edge: writes below this version are forgotten, or will be.
    pub fn edge(&self) -> i64
        ensures edge { result ≡ self.now.map.edge }
    {
        self.map.edge()
    }
}

/// Returns the edge at a version: the version minus the window, or 0 if that is negative.
pub(crate) fn edge_at(window: i64, version: i64) -> i64
    requires least_window { pos 1 ≤ℤ window }
    requires most_window { window ≤ℤ MAX_WINDOW }
    requires least_version { negsuc 0 ≤ℤ version }
    ensures edge { result ≡ int_max (version -ℤ window) (pos 0) }
{
    (version - window).max(0)
}
