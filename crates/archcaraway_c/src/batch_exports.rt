//! The exports over a batch. Each writes back the pointer of the handle that it takes. No clause
//! can say what is at that pointer then. The calls of [`BatchObject`] say it of their object.

ghost use Rattle.std.specs.Prelude.{◌≡◌, ◌≢◌, ◌⊎◌, ◌+◌, pos, length};
ghost use Rattle.keyspace.specs.declared.batch.TheConstants.{MAX_TXNS};
ghost use Rattle.archcaraway_c.specs.Status.{refusal_status};
ghost use Rattle.archcaraway_c.specs.BatchObject.{AddRefuses, AppendRefuses};
ghost use Rattle.archcaraway_c.specs.declared.refusal.Refusal.{Refusal};

use crate::batch_handle::BatchHandle;
use crate::batch_object::BatchObject;
use crate::key_span::KeySpan;
use crate::refusal::{OK, Refusal};
use crate::to_heap::move_to_heap;
use limits::Stop;
use std::alloc::Global;

/// Creates a batch of no transaction, and writes its pointer.
#[unsafe(no_mangle)]
pub extern "C" fn archcaraway_export_batch_new(alloc: Global, at: &mut *mut u8) -> i32
    ensures made { (result ≡ pos 0) ⊎ (result ≡ pos 1) }
{
    match BatchObject::new(alloc) {
        Ok(batch) => move_to_heap(alloc, batch, at),
        Err(_) => Refusal::Stop(Stop::Memory).status(),
    }
}

/// Adds a transaction, whose ranges lie among the bytes of its keys.
// Two words come before the slices: then no slice is half in a register and half on the stack,
// whether a compiler passes it as two words or as a struct.
#[unsafe(no_mangle)]
pub extern "C" fn archcaraway_export_batch_add(
    batch: BatchHandle,
    snapshot: i64,
    keys: &[u8],
    reads: &[KeySpan],
    writes: &[KeySpan],
    marked: bool,
    at: &mut *mut u8,
) -> i32
    ensures refused { result ≢ pos 0 → (refusal : Refusal) × (result ≡ refusal_status refusal)
        × AddRefuses batch.value snapshot keys.now reads.now writes.now refusal }
{
    let mut batch = batch.into_box();
    let added = batch.add(snapshot, marked, keys, reads, writes);
    *at = Box::into_raw(batch).cast();
    match added {
        Ok(()) => OK,
        Err(refusal) => refusal.status(),
    }
}

/// Appends the transactions of another batch.
#[unsafe(no_mangle)]
pub extern "C" fn archcaraway_export_batch_append(
    batch: BatchHandle,
    other: BatchHandle,
    at: &mut *mut u8,
    other_at: &mut *mut u8,
) -> i32
    ensures refused { result ≢ pos 0 → (refusal : Refusal) × (result ≡ refusal_status refusal)
        × AppendRefuses batch.value other.value refusal }
{
    let mut batch = batch.into_box();
    let other = other.into_box();
    let appended = batch.append(&other);
    *at = Box::into_raw(batch).cast();
    *other_at = Box::into_raw(other).cast();
    match appended {
        Ok(()) => OK,
        Err(refusal) => refusal.status(),
    }
}

/// Removes the last transaction, if there is one.
#[unsafe(no_mangle)]
pub extern "C" fn archcaraway_export_batch_drop_last(batch: BatchHandle, at: &mut *mut u8) {
    let mut batch = batch.into_box();
    batch.drop_last();
    *at = Box::into_raw(batch).cast();
}

/// Removes all transactions.
#[unsafe(no_mangle)]
pub extern "C" fn archcaraway_export_batch_clear(batch: BatchHandle, at: &mut *mut u8) {
    let mut batch = batch.into_box();
    batch.clear();
    *at = Box::into_raw(batch).cast();
}

/// Returns how many more transactions may be added.
#[unsafe(no_mangle)]
pub extern "C" fn archcaraway_export_batch_room(batch: BatchHandle, at: &mut *mut u8) -> u64
    ensures room { result + length batch.value ≡ MAX_TXNS }
{
    let batch = batch.into_box();
    let room = batch.room();
    *at = Box::into_raw(batch).cast();
    room as u64
}

/// Frees a batch.
#[unsafe(no_mangle)]
pub extern "C" fn archcaraway_export_batch_free(batch: BatchHandle) {
    drop(batch.into_box());
}
