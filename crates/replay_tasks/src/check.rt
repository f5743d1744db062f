//! All that follows the opening of the files of a check: their batches are resolved, and the
//! answers compared.

ghost use Rattle.std.specs.Prelude.{◌≡◌, ◌≢◌, ◌≤◌, ◌<◌, map, true, vec_items, vec_len};
ghost use Rattle.std.specs.Io.KnownBytes.{Keeps};
ghost use Rattle.replay_tasks.specs.Met.{HasMet};
ghost use Rattle.replay_tasks.specs.Replayed.{FailsToPrint, IsChecked, written};
ghost use Rattle.replay_tasks.specs.Checked.{TakesToCompare, check_lines};
ghost use Rattle.replay_output.specs.declared.options.form.Form.TheVariants.{Kept};

use crate::met::{Ended, Met, is_unwritten};
use crate::reached::Reached;
use keyspace::Reply;
use limits::MAX_PROXIES;
use observer::Unobserved;
use replay_output::{Ending, Options, Status, fail_to_start};
use replay_workers::{Gatekeeper, RunOutcome, ShareKeeper, run_observed};
use std::alloc::Global;
use std::sync::{Arc, Wait};
use std::thread::Threads;
use wire::{Sink, Source};

mod replies;
mod report;

pub use replies::{RepliesError, fail_to_read_replies, read_replies};
pub use report::{CheckReport, print_check};

/// Replays the files of these readers as [`replay_over`](crate::replay_over) does, and compares the
/// answers with the replies that were recorded of each proxy, at its place. Prints a line for each
/// difference and a last line to `out`, and one line a failure to `error`.
pub fn check_over<
    S: Source + Send + Drop + 'static,
    G: Gatekeeper + ShareKeeper + Send + Sync + Drop + 'static,
    R: Threads + Wait + Copy + Send + 'static,
    O: Sink,
    E: Sink,
>(
    rt: &R,
    alloc: Global,
    readers: Vec<S>,
    recorded: Vec<Vec<Reply>>,
    options: Options,
    gatekeeper: &Arc<G, Global>,
    out: &mut O,
    error: &mut E,
) -> Ended
    requires least_files { 1 ≤ vec_len readers }
    requires most_files { vec_len readers ≤ MAX_PROXIES }
    requires as_many { vec_len recorded ≡ vec_len readers }
    requires kept { options.style.form ≡ Kept }
    ensures done { result.status ≡ Status.Done
        → IsChecked (λ count. count ≡ 0) (map vec_items recorded.items) options
        (map S.remaining readers.items) (O.given out.old) (O.given out.new) }
    ensures differs { result.status ≡ Status.Differs
        → IsChecked (λ count. count ≢ 0) (map vec_items recorded.items) options
        (map S.remaining readers.items) (O.given out.old) (O.given out.new) }
    ensures quiet { result.status ≢ Status.Failed → Keeps (E.given error.old) (E.given error.new) }

    // Something failed, and its lines were written, or the writer failed.
    ensures failed { result.status ≡ Status.Failed
        → FailsToPrint (check_lines (map vec_items recorded.items))
        (TakesToCompare (map vec_items recorded.items))
        options (map S.remaining readers.items)
        (written (O.given out.old) (O.given out.new) (O.failures out.old) (O.failures out.new))
        (written (E.given error.old) (E.given error.new) (E.failures error.old)
        (E.failures error.new)) }
    ensures met { HasMet options (map S.remaining readers.items) result.met
        (written (E.given error.old) (E.given error.new) (E.failures error.old)
        (E.failures error.new)) }
    ensures output_failed { result.met.output_failed ≡ true
        → O.failures out.old < O.failures out.new }
    ensures ends { result.status ≢ Status.Usage }
{
    serial::laws::answers_report_verdicts();
    let mut reached = Reached::new(Unobserved);
    let run = run_observed(rt, alloc, readers, options, gatekeeper, &mut reached);
    let (outcome, account) = match run {
        Ok(ended) => ended,
        Err(cause) => return Ended::unstarted(fail_to_start(error, cause)),
    };
    let RunOutcome {
        lines,
        mut failures,
        all_sent,
        ..
    } = outcome;
    let ending = Ending::new(account.complete && all_sent, account.stop);
    let report = print_check(alloc, out, error, lines, recorded, &mut failures, ending);
    Ended {
        status: report.status,
        met: Met {
            stop: account.stop,
            version: reached.version,
            output_failed: is_unwritten(&report.printed),
        },
    }
}
