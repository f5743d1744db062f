//! Split points on the heap, as C holds it.

ghost use Rattle.std.specs.Prelude.{◌≡◌};
ghost use Rattle.archcaraway_c.specs.contracts.points_object.PointsObject as object;

use crate::points_object::PointsObject;
use std::alloc::Global;
use std::marker::Model;

/// A box as its pointer, with no type: `archcaraway_split_points` of the header.
#[repr(C)]
pub struct PointsHandle {
    at: *mut u8,
    alloc: Global,
    pub ghost value: { object.the_row.Denot },
}

impl Model for PointsHandle {
    ghost use Rattle.std_heap.specs.contracts.GlobalAllocator.TheImpl.{ghosts as global};
    ghost use Rattle.std_alloc.specs.Box.Ownership.{box_owns};
    ghost use Rattle.archcaraway_c.specs.contracts.points_object.PointsObject as object;

    ghost also_owns = { λ h. box_owns (global.dealloc_token h.alloc) object.the_row h.at h.value };
}

impl PointsHandle {
    /// Returns the box again.
    pub fn into_box(self) -> Box<PointsObject, Global>
        ensures { result.value ≡ self.value }
    {
        let PointsHandle { at, alloc } = self;
        unsafe { Box::from_raw(alloc, at.cast()) }
    }
}
