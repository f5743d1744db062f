//! A step map whose versions rise as it is written.
ghost use Rattle.std.specs.Prelude.{◌≡◌, ◌≤◌, slice_get, Some, OnOk};
ghost use Rattle.stepmap.specs.Boundary.{AreUpTo};
ghost use Rattle.stepmap.specs.StepMap.{lengths};

use keys::HashedRange;
use keyspace::Range;
use std::alloc::Global;
use stepmap::{KeyLengths, MAX_LIMIT, StepError, StepMap, SweepEnd};

/// A step map, with its edge, and the version that was written last: none in the map is above it.
#[derive(Drop)]
pub struct WrittenModel {
    map: StepMap,
    edge: i64,
    version: i64,
    ghost edge_of: { map.edge ≡ edge },
    ghost newest: { AreUpTo version map.boundaries },
}

impl WrittenModel {
    /// Makes the function that is -1 everywhere.
    pub fn new(alloc: Global, limit: usize) -> Result<Self, StepError>
        requires least { 1 ≤ limit }
        requires most { limit ≤ MAX_LIMIT }
    {
        let map = StepMap::new(alloc, limit)?;
        Ok(WrittenModel {
            map,
            edge: 0,
            version: -1,
        })
    }

    /// Borrows the step map.
    pub fn map(&self) -> &StepMap {
        &self.map
    }

    /// Prepares for the range.
    pub fn prepare(&mut self, range: &Range) -> Result<(), StepError>
        ensures ready { OnOk result (slice_get self.new.map.ready 0 ≡ Some (lengths range.now)) }
        ensures version { self.new.version ≡ self.old.version }
        ensures edge { self.new.edge ≡ self.old.edge }
    {
        self.map.prepare(&[KeyLengths::of(range.as_ref())])
    }

    /// Prepares for the range and writes it. Returns whether it may be written: it isn't empty, and
    /// neither the edge nor an earlier version is above its version.
    pub fn write(&mut self, range: &Range, version: i64) -> Result<bool, StepError> {
        if range.is_empty() || version < self.version || version < self.edge {
            return Ok(false);
        }
        self.prepare(range)?;
        self.map.write(HashedRange::of(range.as_ref()), version);
        self.version = version;
        Ok(true)
    }

    /// Raises the edge. Returns whether it isn't below the edge before.
    pub fn raise(&mut self, edge: i64) -> bool {
        if edge < self.edge {
            return false;
        }
        self.map.raise(edge);
        self.edge = edge;
        true
    }

    /// Sweeps `count` boundaries.
    pub fn sweep(&mut self, count: usize) -> SweepEnd {
        self.map.sweep(count)
    }
}

/// Returns whether the versions at keys are these, in text: `=-1 a=100` for the empty key and
/// another. It takes no memory.
pub fn shows(map: &StepMap, rows: &str) -> bool {
    let mut all_show = true;
    for row in rows.split_whitespace() {
        all_show &= shows_row(map, row);
    }
    all_show
}

fn shows_row(map: &StepMap, row: &str) -> bool {
    let Some((key, version)) = row.split_once('=') else {
        return false;
    };
    version.parse::<i64>().ok() == Some(map.at(key.as_bytes()))
}
