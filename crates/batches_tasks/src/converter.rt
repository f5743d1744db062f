//! A task done over any reader.

ghost use Rattle.std.specs.Prelude.{◌≡◌, OnOk, None};
ghost use Rattle.batches_tasks.specs.JobTask.{IsDone};
ghost use Rattle.batches_tasks.specs.ErrorText.{ReportsText, progress_length};

use crate::decoder::decode;
use crate::encoder::encode;
use crate::failure::Failure;
use crate::progress::FileProgress;
use crate::viewer::show;
use batches_arguments::{JobTask, Kind};
use std::alloc::Global;
use std::io::BufRead;
use wire::{Sink, StdSource};

/// Does the task with what the reader gives, and flushes the output, after a failure too.
pub fn convert<R: BufRead, O: Sink, E: Sink>(
    alloc: Global,
    task: JobTask,
    kind: Kind,
    reader: &mut R,
    out: &mut O,
    error: &mut E,
    progress: &mut FileProgress,
) -> Result<(), Failure>
    ensures done { OnOk result
        (IsDone task kind (R.remaining reader.old) (O.given out.old) (O.given out.new)) }
    ensures ok { OnOk result (O.failures out.new ≡ O.failures out.old) }
    ensures length { progress_length progress.new ≡ progress_length progress.old }
    ensures reported { ReportsText (E.given error.old) (E.given error.new) (E.failures error.old)
        (E.failures error.new) }
    ensures quiet { progress_length progress.old ≡ None → error.new ≡ error.old }
{
    let done = do_task(alloc, task, kind, reader, out, error, progress);
    let flushed = out.flush();
    done?;
    Ok(flushed?)
}

fn do_task<R: BufRead, O: Sink, E: Sink>(
    alloc: Global,
    task: JobTask,
    kind: Kind,
    reader: &mut R,
    out: &mut O,
    error: &mut E,
    progress: &mut FileProgress,
) -> Result<(), Failure>
    ensures done { OnOk result
        (IsDone task kind (R.remaining reader.old) (O.given out.old) (O.given out.new)) }
    ensures ok { OnOk result (O.failures out.new ≡ O.failures out.old) }
    ensures length { progress_length progress.new ≡ progress_length progress.old }
    ensures reported { ReportsText (E.given error.old) (E.given error.new) (E.failures error.old)
        (E.failures error.new) }
    ensures quiet { progress_length progress.old ≡ None → error.new ≡ error.old }
{
    match task {
        JobTask::Encode => encode(alloc, kind, reader, out, error, progress),
        JobTask::Decode => decode(
            alloc,
            kind,
            &mut StdSource::new(reader),
            out,
            error,
            progress,
        ),
        JobTask::Show { full } => show(
            alloc,
            kind,
            full,
            &mut StdSource::new(reader),
            out,
            error,
            progress,
        ),
    }
}
