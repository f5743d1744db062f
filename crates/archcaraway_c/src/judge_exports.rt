//! The exports that give a batch to a set or a core. Each writes back the pointers of the handles
//! that it takes.

ghost use Rattle.std.specs.Prelude.{◌≡◌, ◌≢◌, ◌<◌, pos, length, take, IfSome};
ghost use Rattle.conflict.specs.ConflictSet.{SetState};
ghost use Rattle.conflict.specs.Stop.{stop_at_set};
ghost use Rattle.archcaraway_c.specs.Status.{stop_status, refusal_status};
ghost use Rattle.archcaraway_c.specs.CoreObject.{CoreParts};
ghost use Rattle.archcaraway_c.specs.Judging.{AreVerdicts, JudgeRefuses, AdmitRefuses};
ghost use Rattle.archcaraway_c.specs.declared.refusal.Refusal.{Refusal};

use crate::batch_handle::BatchHandle;
use crate::core_handle::CoreHandle;
use crate::refusal::OK;
use crate::set_handle::SetHandle;
use conflict::WhenFull;

/// Judges the transactions of a batch at a version, and writes the numbers of their verdicts.
#[unsafe(no_mangle)]
pub extern "C" fn archcaraway_export_set_judge(
    set: SetHandle,
    batch: BatchHandle,
    version: i64,
    verdicts: &mut [u8],
    set_at: &mut *mut u8,
    batch_at: &mut *mut u8,
) -> i32
    ensures judged { result ≡ pos 0
        → AreVerdicts set.value version batch.value (take (length batch.value) verdicts.new) }
    ensures refused { result ≢ pos 0 → (refusal : Refusal) × (result ≡ refusal_status refusal)
        × ((after : SetState) × JudgeRefuses WhenFull.Stop set.value after version
        batch.value (length verdicts.old) refusal) }
    ensures stopped { IfSome set.value.stop (λ stop. result ≡ stop_status (stop_at_set stop)) }
{
    let mut set = set.into_box();
    let batch = batch.into_box();
    let judged = set.judge(&batch, version, verdicts, WhenFull::Stop);
    *set_at = Box::into_raw(set).cast();
    *batch_at = Box::into_raw(batch).cast();
    match judged {
        Ok(()) => OK,
        Err(refusal) => refusal.status(),
    }
}

/// Judges the transactions of a batch, as `archcaraway_export_set_judge` does, but refuses them if
/// they don't fit the limit: the set is as before then.
#[unsafe(no_mangle)]
pub extern "C" fn archcaraway_export_set_try_judge(
    set: SetHandle,
    batch: BatchHandle,
    version: i64,
    verdicts: &mut [u8],
    set_at: &mut *mut u8,
    batch_at: &mut *mut u8,
) -> i32
    ensures judged { result ≡ pos 0
        → AreVerdicts set.value version batch.value (take (length batch.value) verdicts.new) }
    ensures refused { result ≢ pos 0 → (refusal : Refusal) × (result ≡ refusal_status refusal)
        × ((after : SetState) × JudgeRefuses WhenFull.Refuse set.value after version
        batch.value (length verdicts.old) refusal) }
    ensures stopped { IfSome set.value.stop (λ stop. result ≡ stop_status (stop_at_set stop)) }
{
    let mut set = set.into_box();
    let batch = batch.into_box();
    let judged = set.judge(&batch, version, verdicts, WhenFull::Refuse);
    *set_at = Box::into_raw(set).cast();
    *batch_at = Box::into_raw(batch).cast();
    match judged {
        Ok(()) => OK,
        Err(refusal) => refusal.status(),
    }
}

/// Takes the transactions of a batch from a proxy, as the batch of these versions.
#[unsafe(no_mangle)]
pub extern "C" fn archcaraway_export_core_admit_batch(
    core: CoreHandle,
    proxy: u32,
    batch: BatchHandle,
    previous: i64,
    version: i64,
    received: i64,
    core_at: &mut *mut u8,
    batch_at: &mut *mut u8,
) -> i32
    ensures refused { result ≢ pos 0 → (refusal : Refusal) × (result ≡ refusal_status refusal)
        × ((after : CoreParts)
        × AdmitRefuses core.value after proxy previous version received batch.value refusal) }
    ensures stopped { proxy < length core.value.waiting
        → IfSome core.value.core.stop (λ stop. result ≡ stop_status stop) }
{
    let mut core = core.into_box();
    let batch = batch.into_box();
    let admitted = core.admit_batch(proxy, &batch, previous, version, received);
    *core_at = Box::into_raw(core).cast();
    *batch_at = Box::into_raw(batch).cast();
    match admitted {
        Ok(()) => OK,
        Err(refusal) => refusal.status(),
    }
}
