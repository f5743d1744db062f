//! Answers that are printed as they come, and recorded in files.

ghost use Rattle.std.specs.Prelude.{◌≡◌, ◌≢◌, ◌≤◌, ℕ, Err, IfOk, None, length, map, option_map};
ghost use Rattle.std.specs.Prelude.{◌<◌, true, vec_len};
ghost use Rattle.std.specs.Io.KnownBytes.{Keeps};
ghost use Rattle.replay_arguments.specs.Opening.{IsFirstRefused};
ghost use Rattle.replay_tasks.specs.Met.{HasMet};
ghost use Rattle.replay_program.specs.Program.{FailsToStreamFiles, HaveWriters, StreamsFiles};
ghost use Rattle.replay_program.specs.Program.{named_files, texts};
ghost use Rattle.replay_tasks.specs.Replayed.{written};
ghost use Rattle.replay_stream.specs.Sinks.{state_by};

use crate::program::opened::Opened;
use crate::report::RunReport;
use crate::stream::stream_over;
use limits::MAX_PROXIES;
use replay_arguments::{Files, OpeningError, create_files, fail_to_create};
use replay_output::{Options, Status};
use std::alloc::Global;
use std::sync::Wait;
use std::thread::Threads;
use wire::Sink;

/// Creates the files of these names for records, one per file of batches or none, and prints the
/// answers as they come, as [`stream_over`] does. If one can't be created, nothing is printed to
/// `out`, and the first such file is reported to `error`.
pub fn stream_and_record<R: Threads + Wait + Copy + Send + 'static, F: Files, O: Sink, E: Sink>(
    rt: &R,
    alloc: Global,
    files: &F,
    records: &[&str],
    opened: Opened<F::Reader>,
    options: Options,
    out: &mut O,
    error: &mut E,
) -> RunReport<F::Writer>
    requires least_files { 1 ≤ vec_len opened.readers }
    requires most_files { vec_len opened.readers ≤ MAX_PROXIES }
    requires no_more { length records.now ≤ vec_len opened.readers }
    ensures done { result.status ≡ Status.Done
        → StreamsFiles (state_by F.Writer.given F.Writer.failures) (F.begun files.now) options
        (map F.Reader.remaining opened.readers.items) (texts records.now) result.recorders.items
        (O.given out.old) (O.given out.new) }
    ensures quiet { result.status ≡ Status.Done → Keeps (E.given error.old) (E.given error.new) }
    ensures failed { result.status ≡ Status.Failed
        → FailsToStreamFiles (state_by F.Writer.given F.Writer.failures)
        (named_files (F.contents files.now) (F.has_opened files.now) (F.cannot_open files.now)
        (F.begun files.now) (F.has_created files.now) (F.cannot_create files.now))
        options (map F.Reader.remaining opened.readers.items) (texts records.now)
        result.recorders.items
        (written (O.given out.old) (O.given out.new) (O.failures out.old) (O.failures out.new))
        (written (E.given error.old) (E.given error.new) (E.failures error.old)
        (E.failures error.new)) }
    ensures met { HasMet options
        (map F.Reader.remaining opened.readers.items) result.met
        (written (E.given error.old) (E.given error.new) (E.failures error.old)
        (E.failures error.new)) }
    ensures output_failed { result.met.output_failed ≡ true
        → O.failures out.old < O.failures out.new }
    ensures output { result.output ≡ None }
    ensures ends { result.status ≢ Status.Usage }
    ensures same { result.status ≢ Status.Differs }
{
    let Opened { readers, room } = opened;
    match create_each(alloc, files, records, readers.len()) {
        Ok(writers) => stream_over(rt, alloc, readers, writers, options, &room, out, error),
        Err(cause) => RunReport::unstarted(alloc, fail_to_create(error, cause)),
    }
}

// Creates the files of these names, and returns the writer of each proxy, if there is one.
fn create_each<F: Files>(
    alloc: Global,
    files: &F,
    names: &[&str],
    proxies: usize,
) -> Result<Vec<Option<F::Writer>>, OpeningError>
    requires no_more { length names.now ≤ proxies }
    ensures as_many { IfOk result (λ records. vec_len records ≡ proxies) }
    ensures writers { IfOk result (λ records. HaveWriters (F.begun files.now) (texts names.now)
        (map (option_map F.Writer.given) records.items)) }
    ensures refused { (proxy : ℕ) → result ≡ Err (OpeningError.CannotOpen proxy)
        → IsFirstRefused (F.has_created files.now) (F.cannot_create files.now)
        (texts names.now) proxy }
{
    let mut writers = match create_files(alloc, files, names) {
        Ok(writers) => writers.into_iter(),
        Err(cause) => return Err(cause),
    };
    let mut records = Vec::with_capacity(alloc, proxies).map_err(|_| OpeningError::Memory)?;
    for _ in 0..proxies {
        records.push_reserved(writers.next());
    }
    Ok(records)
}
