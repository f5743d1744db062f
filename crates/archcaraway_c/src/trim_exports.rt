//! The export that frees memory. It writes back the pointer of the handle that it takes. No clause
//! can say that the set at that pointer is as before; `SetObject::trim` says it.

ghost use Rattle.std.specs.Prelude.{◌≡◌, ◌⊎◌, pos};

use crate::refusal::OK;
use crate::set_handle::SetHandle;

/// Frees memory that a set doesn't need for its boundaries. With status 111 an allocation failed.
/// With either status the set is as before, and a set that has stopped stays stopped.
#[unsafe(no_mangle)]
pub extern "C" fn archcaraway_export_set_trim(set: SetHandle, at: &mut *mut u8) -> i32
    ensures status { (result ≡ pos 0) ⊎ (result ≡ pos 111) }
{
    let mut set = set.into_box();
    let trimmed = set.trim();
    *at = Box::into_raw(set).cast();
    match trimmed {
        Ok(()) => OK,
        Err(refusal) => refusal.status(),
    }
}
