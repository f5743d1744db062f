//! All that follows the opening of the files of a summary: their batches are resolved, and the
//! answers summarized.

ghost use Rattle.std.specs.Prelude.{◌≡◌, ◌≢◌, ◌↔◌, ◌<◌, ◌≤◌, ◌+◌, ◌&&◌, ℕ, None, Some, length, map};
ghost use Rattle.std.specs.Prelude.{Err, IsErr, OnOk, true, vec_len};
ghost use Rattle.std.specs.Io.KnownBytes.{Appends, Keeps};
ghost use Rattle.replay_output.specs.Failures.{failure_lines, with_loss};
ghost use Rattle.replay_tasks.specs.Met.{HasMet};
ghost use Rattle.replay_tasks.specs.Replayed.{written};
ghost use Rattle.replay_tasks.specs.Summarized.{FailsToSummarize, IsSummarized};

use crate::met::Ended;
use crate::reached::Reached;
use limits::MAX_PROXIES;
use observer::Unobserved;
use replay_hot_ranges::HotRanges;
use replay_output::{Ending, Options, Status, fail_to_start};
use replay_summary::SummaryForm;
use replay_workers::{Gatekeeper, RunOutcome, ShareKeeper, run_observed};
use std::alloc::Global;
use std::sync::{Arc, Wait};
use std::thread::Threads;
use wire::{Sink, Source};
use with_top::print_with_top;

mod beside;
mod ranges;
mod report;
mod with_top;

pub use beside::{SummaryWriter, print_with_summary};
pub use ranges::TopRequest;
pub use report::print_summary;

/// What a summary consists of.
#[derive(Clone, Copy, Debug)]
pub struct SummaryRequest {
    pub form: SummaryForm,
    /// How many ranges that conflict most are listed, at most, of those read and of those written.
    /// Without a number, none are counted.
    pub top: Option<usize>,
}

/// Replays the files of these readers as [`replay_over`](crate::replay_over) does, and prints the
/// summary of all answers to `out`, with how full the resolver was, and one line a failure to
/// `error`. If they are requested, the summary lists the ranges that conflict most. Lines of
/// answers are made as the options say, and not printed.
///
/// If memory is refused for the ranges, nothing is printed to `out`, and the last proxy has a loss.
/// After a stop, the conflicts of the last step may not be counted, and how full the resolver was
/// is said of the steps before it.
pub fn summarize_over<
    S: Source + Send + Drop + 'static,
    G: Gatekeeper + ShareKeeper + Send + Sync + Drop + 'static,
    R: Threads + Wait + Copy + Send + 'static,
    O: Sink,
    E: Sink,
>(
    rt: &R,
    alloc: Global,
    readers: Vec<S>,
    options: Options,
    summary: SummaryRequest,
    gatekeeper: &Arc<G, Global>,
    out: &mut O,
    error: &mut E,
) -> Ended
    requires least_files { 1 ≤ vec_len readers }
    requires most_files { vec_len readers ≤ MAX_PROXIES }
    ensures done { result.status ≡ Status.Done
        → IsSummarized summary.form summary.top options (map S.remaining readers.items)
        (O.given out.old) (O.given out.new) }
    ensures quiet { result.status ≡ Status.Done → Keeps (E.given error.old) (E.given error.new) }

    // Something failed, and its lines were written, or the writer failed.
    ensures failed { result.status ≡ Status.Failed
        → FailsToSummarize summary.form summary.top options (map S.remaining readers.items)
        (written (O.given out.old) (O.given out.new) (O.failures out.old) (O.failures out.new))
        (written (E.given error.old) (E.given error.new) (E.failures error.old)
        (E.failures error.new)) }
    ensures met { HasMet options (map S.remaining readers.items) result.met
        (written (E.given error.old) (E.given error.new) (E.failures error.old)
        (E.failures error.new)) }
    ensures output_failed { result.met.output_failed ≡ true
        → O.failures out.old < O.failures out.new }
    ensures ends { result.status ≢ Status.Usage }
    ensures same { result.status ≢ Status.Differs }
{
    let form = summary.form;
    match summary.top {
        None => summarize_alone(rt, alloc, readers, options, form, gatekeeper, out, error),
        Some(most) => {
            let wanted = TopRequest { form, most };
            summarize_with_top(rt, alloc, readers, options, wanted, gatekeeper, out, error)
        }
    }
}

// Summarizes without ranges.
fn summarize_alone<
    S: Source + Send + Drop + 'static,
    G: Gatekeeper + ShareKeeper + Send + Sync + Drop + 'static,
    R: Threads + Wait + Copy + Send + 'static,
    O: Sink,
    E: Sink,
>(
    rt: &R,
    alloc: Global,
    readers: Vec<S>,
    options: Options,
    form: SummaryForm,
    gatekeeper: &Arc<G, Global>,
    out: &mut O,
    error: &mut E,
) -> Ended
    requires least_files { 1 ≤ vec_len readers }
    requires most_files { vec_len readers ≤ MAX_PROXIES }
    ensures done { result.status ≡ Status.Done
        → IsSummarized form None options (map S.remaining readers.items)
        (O.given out.old) (O.given out.new) }
    ensures quiet { result.status ≡ Status.Done → Keeps (E.given error.old) (E.given error.new) }
    ensures failed { result.status ≡ Status.Failed
        → FailsToSummarize form None options (map S.remaining readers.items)
        (written (O.given out.old) (O.given out.new) (O.failures out.old) (O.failures out.new))
        (written (E.given error.old) (E.given error.new) (E.failures error.old)
        (E.failures error.new)) }
    ensures met { HasMet options (map S.remaining readers.items) result.met
        (written (E.given error.old) (E.given error.new) (E.failures error.old)
        (E.failures error.new)) }
    ensures output_failed { result.met.output_failed ≡ true
        → O.failures out.old < O.failures out.new }
    ensures ends { result.status ≢ Status.Usage }
    ensures same { result.status ≢ Status.Differs }
{
    serial::laws::answers_report_verdicts();
    let mut reached = Reached::new(Unobserved);
    let run = run_observed(rt, alloc, readers, options, gatekeeper, &mut reached);
    let (outcome, account) = match run {
        Ok(ended) => ended,
        Err(cause) => return Ended::unstarted(fail_to_start(error, cause)),
    };
    let RunOutcome {
        mut lines,
        mut failures,
        all_sent,
        occupancy,
        ..
    } = outcome;
    let ending = Ending::new(account.complete && all_sent, account.stop);
    let report = print_summary(
        alloc,
        out,
        error,
        &mut lines,
        form,
        Some(occupancy),
        b"",
        &mut failures,
        ending,
    );
    Ended::after(&report, account.stop, reached.version)
}

// Summarizes with the ranges that conflict most.
fn summarize_with_top<
    S: Source + Send + Drop + 'static,
    G: Gatekeeper + ShareKeeper + Send + Sync + Drop + 'static,
    R: Threads + Wait + Copy + Send + 'static,
    O: Sink,
    E: Sink,
>(
    rt: &R,
    alloc: Global,
    readers: Vec<S>,
    options: Options,
    wanted: TopRequest,
    gatekeeper: &Arc<G, Global>,
    out: &mut O,
    error: &mut E,
) -> Ended
    requires least_files { 1 ≤ vec_len readers }
    requires most_files { vec_len readers ≤ MAX_PROXIES }
    ensures done { result.status ≡ Status.Done
        → IsSummarized wanted.form (Some wanted.most) options (map S.remaining readers.items)
        (O.given out.old) (O.given out.new) }
    ensures quiet { result.status ≡ Status.Done → Keeps (E.given error.old) (E.given error.new) }
    ensures failed { result.status ≡ Status.Failed
        → FailsToSummarize wanted.form (Some wanted.most) options (map S.remaining readers.items)
        (written (O.given out.old) (O.given out.new) (O.failures out.old) (O.failures out.new))
        (written (E.given error.old) (E.given error.new) (E.failures error.old)
        (E.failures error.new)) }
    ensures met { HasMet options (map S.remaining readers.items) result.met
        (written (E.given error.old) (E.given error.new) (E.failures error.old)
        (E.failures error.new)) }
    ensures output_failed { result.met.output_failed ≡ true
        → O.failures out.old < O.failures out.new }
    ensures ends { result.status ≢ Status.Usage }
    ensures same { result.status ≢ Status.Differs }
{
    serial::laws::answers_report_verdicts();
    let hot = HotRanges::new(alloc, options.window);
    let mut reached = Reached::new(hot);
    let run = run_observed(rt, alloc, readers, options, gatekeeper, &mut reached);
    let (outcome, account) = match run {
        Ok(ended) => ended,
        Err(cause) => return Ended::unstarted(fail_to_start(error, cause)),
    };
    let RunOutcome {
        mut lines,
        mut failures,
        all_sent,
        occupancy,
        ..
    } = outcome;
    let complete = is_complete(account.complete, all_sent);
    let ending = Ending::new(complete, account.stop);
    let report = print_with_top(
        alloc,
        out,
        error,
        &mut lines,
        wanted,
        occupancy,
        &reached.observer,
        &mut failures,
        ending,
    );
    Ended::after(&report, account.stop, reached.version)
}

// Returns whether every answer was taken, and every batch that was read was sent.
fn is_complete(all_taken: bool, all_sent: bool) -> bool
    ensures complete { result ≡ (all_taken && all_sent) }
{
    all_taken && all_sent
}
