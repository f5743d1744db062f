//! The batch that starts a chain.

ghost use Rattle.std.specs.Prelude.{◌≡◌};
ghost use Rattle.std.specs.Io.KnownBytes.{Appends};
ghost use Rattle.batches_tasks.specs.Opening.{opening_frame};
ghost use Rattle.batches_tasks.specs.ErrorText.{ReportsLine};

use crate::jobs::OUTPUT;
use batches_tasks::{Failure, JobStatus, fail, fail_in, write_opening};
use std::alloc::Global;
use wire::Sink;

/// Writes the batch that starts a chain at the version. If it can't, it reports why.
pub fn open_chain<O: Sink, E: Sink>(
    alloc: Global,
    version: i64,
    out: &mut O,
    error: &mut E,
) -> JobStatus
    ensures frame { result ≡ JobStatus.Done
        → Appends (O.given out.old) (O.given out.new) (opening_frame version) }
    ensures ok { result ≡ JobStatus.Done → O.failures out.new ≡ O.failures out.old }
    ensures quiet { result ≡ JobStatus.Done → error.new ≡ error.old }
    ensures reported { result ≡ JobStatus.Failed
        → ReportsLine (E.given error.old) (E.given error.new) (E.failures error.old)
        (E.failures error.new) }
{
    if version < 0 {
        // The command line takes no negative version.
        return fail(error, alloc, &Failure::Memory);
    }
    match write_opening(alloc, version, out) {
        Ok(()) => JobStatus::Done,
        Err(Failure::Write) => fail_in(error, alloc, OUTPUT, &Failure::Write),
        Err(failure) => fail(error, alloc, &failure),
    }
}
