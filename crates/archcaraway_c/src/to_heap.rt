//! How C gets a new object.

ghost use Rattle.std.specs.Prelude.{◌≡◌, ◌⊎◌, pos};

use crate::refusal::{OK, Refusal};
use limits::Stop;
use std::alloc::Global;

/// Moves an object to the heap, writes its pointer, and returns the status. If memory is refused,
/// the object is dropped, and nothing is written.
pub fn move_to_heap<T: Drop>(alloc: Global, object: T, at: &mut *mut u8) -> i32
    ensures status { (result ≡ pos 0) ⊎ (result ≡ pos 1) }
    ensures refused { result ≡ pos 1 → at.new ≡ at.old }
{
    match Box::new(alloc, object) {
        Ok(boxed) => {
            *at = Box::into_raw(boxed).cast();
            OK
        }
        Err(_) => Refusal::Stop(Stop::Memory).status(),
    }
}
