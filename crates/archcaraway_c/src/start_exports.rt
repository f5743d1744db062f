//! The exports that create an object which starts at a version. No clause can say what is at the
//! pointer that they write. The calls of [`SetObject`] and [`CoreObject`] say it of their object.

ghost use Rattle.std.specs.Prelude.{◌≡◌, ◌⊎◌, ◌↔◌, pos};
ghost use Rattle.archcaraway_c.specs.Starts.{AreSetNumbersAt, AreCoreNumbersAt, IsTooSmall};

use crate::core_object::CoreObject;
use crate::set_object::SetObject;
use crate::to_heap::move_to_heap;
use std::alloc::Global;

/// Creates a conflict set that starts at a version, and writes its pointer.
#[unsafe(no_mangle)]
pub extern "C" fn archcaraway_export_set_new_at(
    alloc: Global,
    window: i64,
    limit: u64,
    version: i64,
    at: &mut *mut u8,
) -> i32
    ensures argument { (result ≡ pos 202) ↔ (¬ AreSetNumbersAt window limit version) }
    ensures full { (result ≡ pos 3)
        ↔ (AreSetNumbersAt window limit version × IsTooSmall limit version) }
    ensures made { AreSetNumbersAt window limit version → (¬ IsTooSmall limit version)
        → (result ≡ pos 0) ⊎ (result ≡ pos 1) }
{
    match SetObject::new_at(alloc, window, limit, version) {
        Ok(object) => move_to_heap(alloc, object, at),
        Err(refusal) => refusal.status(),
    }
}

/// Creates a resolver that starts at a version, and writes its pointer.
#[unsafe(no_mangle)]
pub extern "C" fn archcaraway_export_core_new_at(
    alloc: Global,
    proxies: u32,
    window: i64,
    limit: u64,
    version: i64,
    at: &mut *mut u8,
) -> i32
    ensures argument { (result ≡ pos 202) ↔ (¬ AreCoreNumbersAt proxies window limit version) }
    ensures full { (result ≡ pos 3)
        ↔ (AreCoreNumbersAt proxies window limit version × IsTooSmall limit version) }
    ensures made { AreCoreNumbersAt proxies window limit version → (¬ IsTooSmall limit version)
        → (result ≡ pos 0) ⊎ (result ≡ pos 1) }
{
    match CoreObject::new_at(alloc, proxies, window, limit, version) {
        Ok(object) => move_to_heap(alloc, object, at),
        Err(refusal) => refusal.status(),
    }
}
