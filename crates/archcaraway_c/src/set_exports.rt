//! The exports over a conflict set. Each writes back the pointer of the handle that it takes. No
//! clause can say what is at that pointer then. The calls of [`SetObject`] say it of their object.

ghost use Rattle.std.specs.Prelude.{◌≡◌, ◌≢◌, ◌⊎◌, ◌↔◌, pos, length, take, IfSome};
ghost use Rattle.conflict.specs.ConflictSet.{SetState};
ghost use Rattle.conflict.specs.Stop.{stop_at_set};
ghost use Rattle.archcaraway_c.specs.Numbers.{AreSetNumbers};
ghost use Rattle.archcaraway_c.specs.Status.{stop_status, refusal_status, bytes_needed};
ghost use Rattle.archcaraway_c.specs.SetObject.{IsReplied, SetRefuses};
ghost use Rattle.archcaraway_c.specs.declared.refusal.Refusal.{Refusal};

use crate::refusal::OK;
use crate::set_handle::SetHandle;
use crate::set_object::SetObject;
use crate::to_heap::move_to_heap;
use conflict::WhenFull;
use std::alloc::Global;

/// Creates a conflict set, and writes its pointer.
#[unsafe(no_mangle)]
pub extern "C" fn archcaraway_export_set_new(
    alloc: Global,
    window: i64,
    limit: u64,
    at: &mut *mut u8,
) -> i32
    ensures argument { (result ≡ pos 202) ↔ (¬ AreSetNumbers window limit) }
    ensures made { AreSetNumbers window limit → (result ≡ pos 0) ⊎ (result ≡ pos 1) }
{
    match SetObject::new(alloc, window, limit) {
        Ok(object) => move_to_heap(alloc, object, at),
        Err(refusal) => refusal.status(),
    }
}

/// Resolves the batch of a frame, and writes the frame of its reply and the length of that.
#[unsafe(no_mangle)]
pub extern "C" fn archcaraway_export_set_resolve(
    set: SetHandle,
    frame: &[u8],
    answer: &mut [u8],
    answer_length: &mut usize,
    at: &mut *mut u8,
) -> i32
    ensures replied { result ≡ pos 0
        → IsReplied set.value frame.now (take answer_length.new answer.new) }
    ensures refused { result ≢ pos 0 → (refusal : Refusal) × (result ≡ refusal_status refusal)
        × (answer_length.new ≡ bytes_needed refusal)
        × ((after : SetState) × SetRefuses WhenFull.Stop set.value after frame.now
        (length answer.old) refusal) }
    ensures stopped { IfSome set.value.stop (λ stop. result ≡ stop_status (stop_at_set stop)) }
{
    let mut set = set.into_box();
    let resolved = set.resolve(frame, answer, WhenFull::Stop);
    *at = Box::into_raw(set).cast();
    match resolved {
        Ok(length) => {
            *answer_length = length;
            OK
        }
        Err(refusal) => {
            *answer_length = refusal.needed();
            refusal.status()
        }
    }
}

/// Resolves the batch of a frame, as `archcaraway_export_set_resolve` does, but refuses it if it
/// doesn't fit the limit: the set is as before then.
#[unsafe(no_mangle)]
pub extern "C" fn archcaraway_export_set_try_resolve(
    set: SetHandle,
    frame: &[u8],
    answer: &mut [u8],
    answer_length: &mut usize,
    at: &mut *mut u8,
) -> i32
    ensures replied { result ≡ pos 0
        → IsReplied set.value frame.now (take answer_length.new answer.new) }
    ensures refused { result ≢ pos 0 → (refusal : Refusal) × (result ≡ refusal_status refusal)
        × (answer_length.new ≡ bytes_needed refusal)
        × ((after : SetState) × SetRefuses WhenFull.Refuse set.value after frame.now
        (length answer.old) refusal) }
    ensures stopped { IfSome set.value.stop (λ stop. result ≡ stop_status (stop_at_set stop)) }
{
    let mut set = set.into_box();
    let resolved = set.resolve(frame, answer, WhenFull::Refuse);
    *at = Box::into_raw(set).cast();
    match resolved {
        Ok(length) => {
            *answer_length = length;
            OK
        }
        Err(refusal) => {
            *answer_length = refusal.needed();
            refusal.status()
        }
    }
}

/// Returns the number of boundaries.
#[unsafe(no_mangle)]
pub extern "C" fn archcaraway_export_set_boundaries(set: SetHandle, at: &mut *mut u8) -> u64
    ensures count { result ≡ length set.value.map.boundaries }
{
    let set = set.into_box();
    let count = set.boundaries();
    *at = Box::into_raw(set).cast();
    count
}

/// Frees a conflict set.
#[unsafe(no_mangle)]
pub extern "C" fn archcaraway_export_set_free(set: SetHandle) {
    drop(set.into_box());
}
