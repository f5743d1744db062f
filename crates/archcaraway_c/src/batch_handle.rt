//! A batch on the heap, as C holds it.

ghost use Rattle.std.specs.Prelude.{◌≡◌};
ghost use Rattle.archcaraway_c.specs.contracts.batch_object.BatchObject as object;

use crate::batch_object::BatchObject;
use std::alloc::Global;
use std::marker::Model;

/// A box as its pointer, with no type: `archcaraway_batch` of the header.
#[repr(C)]
pub struct BatchHandle {
    at: *mut u8,
    alloc: Global,
    pub ghost value: { object.the_row.Denot },
}

impl Model for BatchHandle {
    ghost use Rattle.std_heap.specs.contracts.GlobalAllocator.TheImpl.{ghosts as global};
    ghost use Rattle.std_alloc.specs.Box.Ownership.{box_owns};
    ghost use Rattle.archcaraway_c.specs.contracts.batch_object.BatchObject as object;

    ghost also_owns = { λ h. box_owns (global.dealloc_token h.alloc) object.the_row h.at h.value };
}

impl BatchHandle {
    /// Returns the box again.
    pub fn into_box(self) -> Box<BatchObject, Global>
        ensures { result.value ≡ self.value }
    {
        let BatchHandle { at, alloc } = self;
        unsafe { Box::from_raw(alloc, at.cast()) }
    }
}
