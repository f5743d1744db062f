//! The exports over a core. Each writes back the pointer of the handle that it takes. No clause can
//! say what is at that pointer then. The calls of [`CoreObject`] say it of their object.

ghost use Rattle.std.specs.Prelude.{◌≡◌, ◌≢◌, ◌⊎◌, ◌↔◌, ◌<◌, pos, negsuc, length, IfSome};
ghost use Rattle.keyspace.specs.declared.batch.Batch.{Batch};
ghost use Rattle.archcaraway_c.specs.BatchFrame.{IsFrame};
ghost use Rattle.archcaraway_c.specs.Numbers.{AreCoreNumbers};
ghost use Rattle.archcaraway_c.specs.Status.{stop_status, refusal_status, bytes_needed};
ghost use Rattle.archcaraway_c.specs.Given.{Reports, given_kind, given_version, given_length};
ghost use Rattle.archcaraway_c.specs.CoreObject.{CoreParts, CoreRefuses, GiveRefuses, next_owed};
ghost use Rattle.archcaraway_c.specs.CoreObject.{still_owed_count, maybe_stop_status};
ghost use Rattle.archcaraway_c.specs.declared.given.Given.{Given};
ghost use Rattle.archcaraway_c.specs.declared.refusal.Refusal.{Refusal};

use crate::core_handle::CoreHandle;
use crate::core_object::CoreObject;
use crate::refusal::{OK, Refusal};
use crate::to_heap::move_to_heap;
use std::alloc::Global;

/// Creates a resolver, and writes its pointer.
#[unsafe(no_mangle)]
pub extern "C" fn archcaraway_export_core_new(
    alloc: Global,
    proxies: u32,
    window: i64,
    limit: u64,
    at: &mut *mut u8,
) -> i32
    ensures argument { (result ≡ pos 202) ↔ (¬ AreCoreNumbers proxies window limit) }
    ensures made { AreCoreNumbers proxies window limit → (result ≡ pos 0) ⊎ (result ≡ pos 1) }
{
    match CoreObject::new(alloc, proxies, window, limit) {
        Ok(object) => move_to_heap(alloc, object, at),
        Err(refusal) => refusal.status(),
    }
}

/// Takes the batch of a frame from a proxy.
#[unsafe(no_mangle)]
pub extern "C" fn archcaraway_export_core_admit(
    core: CoreHandle,
    proxy: u32,
    frame: &[u8],
    at: &mut *mut u8,
) -> i32
    ensures admitted { result ≡ pos 0 → (batch : Batch) × IsFrame frame.now batch }
    ensures refused { result ≢ pos 0 → (refusal : Refusal) × (result ≡ refusal_status refusal)
        × ((after : CoreParts) × CoreRefuses core.value after proxy frame.now refusal) }
    ensures stopped { proxy < length core.value.waiting
        → IfSome core.value.core.stop (λ stop. result ≡ stop_status stop) }
{
    let mut core = core.into_box();
    let admitted = core.admit(proxy, frame);
    *at = Box::into_raw(core).cast();
    match admitted {
        Ok(()) => OK,
        Err(refusal) => refusal.status(),
    }
}

/// Answers every batch that is still held.
#[unsafe(no_mangle)]
pub extern "C" fn archcaraway_export_core_finish(core: CoreHandle, at: &mut *mut u8) -> i32
    ensures stopped { IfSome core.value.core.stop (λ stop. result ≡ stop_status stop) }
    ensures memory { core.value.core.stop ≡ None → (result ≡ pos 0) ⊎ (result ≡ pos 1) }
{
    let mut core = core.into_box();
    let finished = core.finish();
    *at = Box::into_raw(core).cast();
    match finished {
        Ok(()) => OK,
        Err(refusal) => refusal.status(),
    }
}

/// Gives a proxy the oldest answer owed to it.
#[unsafe(no_mangle)]
pub extern "C" fn archcaraway_export_core_give(
    core: CoreHandle,
    proxy: u32,
    answer: &mut [u8],
    answer_length: &mut usize,
    kind: &mut i32,
    version: &mut i64,
    at: &mut *mut u8,
) -> i32
    ensures reported { result ≡ pos 0 → (given : Given) × (kind.new ≡ given_kind given)
        × (version.new ≡ given_version given)
        × (answer_length.new ≡ given_length given)
        × Reports given answer.new (next_owed proxy core.value) }
    ensures refused { result ≢ pos 0 → (refusal : Refusal) × (result ≡ refusal_status refusal)
        × (answer_length.new ≡ bytes_needed refusal) × (kind.new ≡ pos 0) × (version.new ≡ negsuc 0)
        × GiveRefuses core.value proxy (length answer.old) refusal }
{
    let mut core = core.into_box();
    let given = core.give(proxy, answer);
    *at = Box::into_raw(core).cast();
    match given {
        Ok(given) => {
            *answer_length = given.length();
            *kind = given.kind();
            *version = given.version();
            OK
        }
        Err(refusal) => {
            *answer_length = refusal.needed();
            *kind = 0;
            *version = -1;
            refusal.status()
        }
    }
}

/// Returns the number of answers owed to all proxies.
#[unsafe(no_mangle)]
pub extern "C" fn archcaraway_export_core_owed(core: CoreHandle, at: &mut *mut u8) -> u64
    ensures count { result ≡ still_owed_count core.value }
{
    let core = core.into_box();
    let owed = core.owed();
    *at = Box::into_raw(core).cast();
    owed
}

/// Returns the number of the stop that was met, or 0.
#[unsafe(no_mangle)]
pub extern "C" fn archcaraway_export_core_stop(core: CoreHandle, at: &mut *mut u8) -> i32
    ensures stop { result ≡ maybe_stop_status core.value.core.stop }
{
    let core = core.into_box();
    let stop = core.stop();
    *at = Box::into_raw(core).cast();
    match stop {
        Some(stop) => Refusal::Stop(stop).status(),
        None => OK,
    }
}

/// Frees a resolver.
#[unsafe(no_mangle)]
pub extern "C" fn archcaraway_export_core_free(core: CoreHandle) {
    drop(core.into_box());
}
