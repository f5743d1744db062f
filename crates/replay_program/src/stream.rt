//! All that follows the opening of the files where answers are printed as they come.

ghost use Rattle.std.specs.Prelude.{◌≡◌, ◌≤◌, ◌<◌, ◌≢◌, ◌↔◌, ◌++◌, false, map, vec_len};
ghost use Rattle.std.specs.Prelude.{IsErr, IsOk, IsTrue, None, OnOk, true};
ghost use Rattle.std.specs.List.{All};
ghost use Rattle.std.specs.Io.KnownBytes.{Appends, Keeps};
ghost use Rattle.replay_output.specs.Failures.{NothingFailed, failure_lines};
ghost use Rattle.replay_output.specs.Unwritten.{unwritten_lines};
ghost use Rattle.replay_stream.specs.Sinks.{state_by};
ghost use Rattle.replay_tasks.specs.Met.{HasMet};
ghost use Rattle.replay_tasks.specs.Replayed.{written};
ghost use Rattle.replay_program.specs.Streamed.{FailsToStream, IsStreamDone};

use crate::report::RunReport;
use limits::MAX_PROXIES;
use replay_output::{
    Ending, Options, ProxyFailure, Status, all_written, fail_to_start, nothing_failed,
    print_failures, print_unwritten,
};
use replay_stream::{Streamed, run_stream};
use replay_tasks::Met;
use replay_workers::{Gatekeeper, ShareKeeper};
use std::alloc::Global;
use std::sync::{Arc, Wait};
use std::thread::Threads;
use wire::{Failed, Sink, Source};

/// Replays the files of these readers, of which each is that of the proxy at its place. Prints one
/// line per answer to `out` as it comes: the lines of each proxy are in the order of its answers,
/// and those of different proxies may alternate in any way. If a proxy has a writer for records,
/// those of its answers are written there. Prints one line per failure to `error`, after the last
/// answer.
///
/// A proxy whose records can't be written sends no more batches, and the others continue.
pub fn stream_over<
    S: Source + Send + Drop + 'static,
    W: Sink + Send + Drop + 'static,
    G: Gatekeeper + ShareKeeper + Send + Sync + Drop + 'static,
    R: Threads + Wait + Copy + Send + 'static,
    O: Sink,
    E: Sink,
>(
    rt: &R,
    alloc: Global,
    readers: Vec<S>,
    records: Vec<Option<W>>,
    options: Options,
    gatekeeper: &Arc<G, Global>,
    out: &mut O,
    error: &mut E,
) -> RunReport<W>
    requires least_files { 1 ≤ vec_len readers }
    requires most_files { vec_len readers ≤ MAX_PROXIES }
    requires as_many { vec_len records ≡ vec_len readers }
    // There is one log of the reference resolver that holds the batches of each file once, in
    // order, and nothing else. The lines printed for each proxy are those of all its answers by
    // that log, in order, and so are its records.
    ensures done { result.status ≡ Status.Done
        → IsStreamDone (state_by W.given W.failures) options (map S.remaining readers.items)
        records.items result.recorders.items (O.given out.old) (O.given out.new) }
    ensures quiet { result.status ≡ Status.Done → Keeps (E.given error.old) (E.given error.new) }

    // Something failed, and its lines were written, or a writer failed. The lines and the records
    // of each proxy are those of its first answers.
    ensures failed { result.status ≡ Status.Failed
        → FailsToStream (state_by W.given W.failures) options (map S.remaining readers.items)
        records.items result.recorders.items
        (written (O.given out.old) (O.given out.new) (O.failures out.old) (O.failures out.new))
        (written (E.given error.old) (E.given error.new) (E.failures error.old)
        (E.failures error.new)) }
    ensures met { HasMet options (map S.remaining readers.items) result.met
        (written (E.given error.old) (E.given error.new) (E.failures error.old)
        (E.failures error.new)) }
    ensures output_failed { result.met.output_failed ≡ true
        → O.failures out.old < O.failures out.new }
    ensures output { result.output ≡ None }
    ensures ends { result.status ≢ Status.Usage }
    ensures same { result.status ≢ Status.Differs }
{
    serial::laws::answers_report_verdicts();
    let (streamed, account) = match run_stream(
        rt, alloc, readers, records, options, gatekeeper, out,
    ) {
        Ok(ended) => ended,
        Err(cause) => return RunReport::unstarted(alloc, fail_to_start(error, cause)),
    };
    let Streamed {
        failures,
        recorders,
        unwritten,
        all_sent,
        failed,
        ..
    } = streamed;
    let ending = Ending::new(account.complete && all_sent, account.stop);
    let reported = print_all(error, &unwritten, &failures, ending);
    let is_clean = is_clean(&unwritten, &failures, ending);
    RunReport {
        status: status_of(is_clean, failed, reported),
        met: Met {
            stop: account.stop,
            version: None,
            output_failed: failed,
        },
        recorders,
        output: None,
        summary: None,
    }
}

// Returns whether all records were written and nothing failed.
fn is_clean(unwritten: &[bool], failures: &[ProxyFailure], ending: Ending) -> bool
    ensures clean { IsTrue result ↔ (All (λ failed. failed ≡ false) unwritten.now
        × NothingFailed failures.now ending) }
{
    all_written(unwritten) && nothing_failed(failures, ending)
}

// Returns how the program ends, by whether all was clean, standard output has failed, and the lines
// of failures were written.
fn status_of(is_clean: bool, failed: bool, reported: Result<(), Failed>) -> Status
    ensures done { result ≡ Status.Done ↔ (IsTrue is_clean × (failed ≡ false) × IsOk reported) }
    ensures ends { result ≢ Status.Usage }
    ensures same { result ≢ Status.Differs }
{
    Status::of(is_clean && !failed && reported.is_ok())
}

// Prints the lines of the proxies whose records could not be written, and then of all else.
fn print_all<E: Sink>(
    error: &mut E,
    unwritten: &[bool],
    failures: &[ProxyFailure],
    ending: Ending,
) -> Result<(), Failed>
    ensures text { OnOk result (Appends (E.given error.old) (E.given error.new)
        (unwritten_lines unwritten.now ++ failure_lines failures.now ending)) }
    ensures failed { IsErr result ↔ (E.failures error.old < E.failures error.new) }
{
    print_unwritten(error, unwritten)?;
    print_failures(error, failures, ending)
}
