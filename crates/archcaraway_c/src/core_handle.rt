//! A core on the heap, as C holds it.

ghost use Rattle.std.specs.Prelude.{◌≡◌};
ghost use Rattle.archcaraway_c.specs.contracts.core_object.CoreObject as object;

use crate::core_object::CoreObject;
use std::alloc::Global;
use std::marker::Model;

/// A box as its pointer, with no type: `archcaraway_core` of the header.
#[repr(C)]
pub struct CoreHandle {
    at: *mut u8,
    alloc: Global,
    pub ghost value: { object.the_row.Denot } by { object.the_row.coded },
}

impl Model for CoreHandle {
    ghost use Rattle.std_heap.specs.contracts.GlobalAllocator.TheImpl.{ghosts as global};
    ghost use Rattle.std_alloc.specs.Box.Ownership.{box_owns};
    ghost use Rattle.archcaraway_c.specs.contracts.core_object.CoreObject as object;

    ghost also_owns = { λ h. box_owns (global.dealloc_token h.alloc) object.the_row h.at h.value };
}

impl CoreHandle {
    /// Returns the box again.
    pub fn into_box(self) -> Box<CoreObject, Global>
        ensures { result.value ≡ self.value }
    {
        let CoreHandle { at, alloc } = self;
        unsafe { Box::from_raw(alloc, at.cast()) }
    }
}
