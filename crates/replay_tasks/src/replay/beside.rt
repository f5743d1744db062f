//! All that follows the opening of the files if a summary is written beside the answers.

ghost use Rattle.std.specs.Prelude.{◌≡◌, ◌≤◌, ◌<◌, ◌≢◌, map, true, vec_len};
ghost use Rattle.std.specs.Io.KnownBytes.{Keeps};
ghost use Rattle.replay_tasks.specs.Met.{HasMet};
ghost use Rattle.replay_tasks.specs.Replayed.{written};
ghost use Rattle.replay_tasks.specs.Summarized.{FailsToReplayAndSummarize};
ghost use Rattle.replay_tasks.specs.Summarized.{IsReplayedAndSummarized};

use crate::met::{Ended, Met};
use crate::reached::Reached;
use crate::summary::{SummaryWriter, print_with_summary};
use limits::MAX_PROXIES;
use observer::Unobserved;
use replay_output::{Ending, Options, Status, fail_to_start};
use replay_workers::{Gatekeeper, RunOutcome, ShareKeeper, run_observed};
use std::alloc::Global;
use std::sync::{Arc, Wait};
use std::thread::Threads;
use wire::{Sink, Source};

/// Replays the files of these readers as [`replay_over`](crate::replay_over) does. Prints one line
/// per answer to `out`, writes the summary of all answers, and prints one line a failure to
/// `error`. A failure of one writer doesn't keep the text from the other.
///
/// If memory is refused to sort the lines or for the summary, neither text is begun.
pub fn replay_and_summarize_over<
    S: Source + Send + Drop + 'static,
    G: Gatekeeper + ShareKeeper + Send + Sync + Drop + 'static,
    R: Threads + Wait + Copy + Send + 'static,
    O: Sink,
    T: Sink,
    E: Sink,
>(
    rt: &R,
    alloc: Global,
    readers: Vec<S>,
    options: Options,
    gatekeeper: &Arc<G, Global>,
    out: &mut O,
    summary: &mut SummaryWriter<T>,
    error: &mut E,
) -> Ended
    requires least_files { 1 ≤ vec_len readers }
    requires most_files { vec_len readers ≤ MAX_PROXIES }
    // The log is that of the text. The summary is of all answers, whether or not their lines are
    // shown.
    ensures done { result.status ≡ Status.Done
        → IsReplayedAndSummarized summary.old.form options (map S.remaining readers.items)
        (O.given out.old) (O.given out.new)
        (T.given summary.old.writer) (T.given summary.new.writer) }
    ensures quiet { result.status ≡ Status.Done → Keeps (E.given error.old) (E.given error.new) }

    // Something failed, and its lines were written, or the writer failed.
    ensures failed { result.status ≡ Status.Failed
        → FailsToReplayAndSummarize summary.old.form options (map S.remaining readers.items)
        (written (O.given out.old) (O.given out.new) (O.failures out.old) (O.failures out.new))
        (written (T.given summary.old.writer) (T.given summary.new.writer)
        (T.failures summary.old.writer) (T.failures summary.new.writer))
        (written (E.given error.old) (E.given error.new) (E.failures error.old)
        (E.failures error.new)) }
    ensures met { HasMet options (map S.remaining readers.items) result.met
        (written (E.given error.old) (E.given error.new) (E.failures error.old)
        (E.failures error.new)) }
    ensures output_failed { result.met.output_failed ≡ true
        → O.failures out.old < O.failures out.new }
    ensures ends { result.status ≢ Status.Usage }
    ensures same { result.status ≢ Status.Differs }
{
    serial::laws::answers_report_verdicts();
    let mut reached = Reached::new(Unobserved);
    let run = run_observed(rt, alloc, readers, options, gatekeeper, &mut reached);
    let (outcome, account) = match run {
        Ok(ended) => ended,
        Err(cause) => return Ended::unstarted(fail_to_start(error, cause)),
    };
    let RunOutcome {
        mut lines,
        mut failures,
        all_sent,
        occupancy,
        ..
    } = outcome;
    let ending = Ending::new(account.complete && all_sent, account.stop);
    let report = print_with_summary(
        alloc,
        out,
        summary,
        error,
        &mut lines,
        Some(occupancy),
        &mut failures,
        ending,
    );
    Ended {
        status: report.status,
        met: Met {
            stop: account.stop,
            version: reached.version,
            output_failed: report.output_failed,
        },
    }
}
