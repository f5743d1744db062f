//! The exports that report on an object. Each writes back the pointer of the handle that it takes.

ghost use Rattle.std.specs.Prelude.{◌≡◌, ◌≢◌, ℕ, pos, [], length};
ghost use Rattle.archcaraway_c.specs.CoreObject.{still_owed, still_owed_count};
ghost use Rattle.archcaraway_c.specs.Starts.{IsNextOwed};

use crate::core_handle::CoreHandle;
use crate::set_handle::SetHandle;

/// Writes how many boundaries a set has and may have, the version that it is at, and its edge.
#[unsafe(no_mangle)]
pub extern "C" fn archcaraway_export_set_stats(
    set: SetHandle,
    boundaries: &mut u64,
    limit: &mut u64,
    version: &mut i64,
    edge: &mut i64,
    at: &mut *mut u8,
)
    ensures boundaries { boundaries.new ≡ length set.value.map.boundaries }
    ensures limit { limit.new ≡ set.value.map.limit }
    ensures version { version.new ≡ set.value.resolved }
    ensures edge { edge.new ≡ set.value.map.edge }
{
    let set = set.into_box();
    *boundaries = set.boundaries();
    *limit = set.limit();
    *version = set.version();
    *edge = set.edge();
    *at = Box::into_raw(set).cast();
}

/// Writes the same of the set of a core, how many batches it holds, and how many answers it owes.
#[unsafe(no_mangle)]
pub extern "C" fn archcaraway_export_core_stats(
    core: CoreHandle,
    boundaries: &mut u64,
    limit: &mut u64,
    version: &mut i64,
    edge: &mut i64,
    held: &mut u64,
    owed: &mut u64,
    at: &mut *mut u8,
)
    ensures boundaries { boundaries.new ≡ length core.value.core.set.map.boundaries }
    ensures limit { limit.new ≡ core.value.core.set.map.limit }
    ensures version { version.new ≡ core.value.core.version }
    ensures edge { edge.new ≡ core.value.core.set.map.edge }
    ensures held { held.new ≡ length core.value.core.held }
    ensures owed { owed.new ≡ still_owed_count core.value }
{
    let core = core.into_box();
    *boundaries = core.boundaries();
    *limit = core.limit();
    *version = core.version();
    *edge = core.edge();
    *held = core.held();
    *owed = core.owed();
    *at = Box::into_raw(core).cast();
}

/// Returns about how many bytes of memory a set has used for its boundaries and its filter. No
/// clause counts bytes.
#[unsafe(no_mangle)]
pub extern "C" fn archcaraway_export_set_bytes_held(set: SetHandle, at: &mut *mut u8) -> u64 {
    let set = set.into_box();
    let bytes = set.bytes_held();
    *at = Box::into_raw(set).cast();
    bytes
}

/// Returns the same of the set of a core.
#[unsafe(no_mangle)]
pub extern "C" fn archcaraway_export_core_bytes_held(core: CoreHandle, at: &mut *mut u8) -> u64 {
    let core = core.into_box();
    let bytes = core.bytes_held();
    *at = Box::into_raw(core).cast();
    bytes
}

/// Writes the least proxy that is owed an answer and returns 1, or returns 0 if none is.
#[unsafe(no_mangle)]
pub extern "C" fn archcaraway_export_core_next(
    core: CoreHandle,
    proxy: &mut u32,
    at: &mut *mut u8,
) -> i32
    ensures next { result ≡ pos 1 → IsNextOwed proxy.new core.value }
    ensures none { result ≢ pos 1 → (result ≡ pos 0) × (proxy.new ≡ proxy.old)
        × ((number : ℕ) → still_owed number core.value ≡ []) }
{
    let core = core.into_box();
    let next = core.next();
    *at = Box::into_raw(core).cast();
    match next {
        Some(number) => {
            *proxy = number;
            1
        }
        None => 0,
    }
}
