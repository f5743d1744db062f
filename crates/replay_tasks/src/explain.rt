//! All that follows the opening of the files of a replay with explanations: their batches are
//! resolved, and the answers printed with what explains their rejections.

ghost use Rattle.std.specs.Prelude.{◌≡◌, ◌≤◌, ◌<◌, ◌≢◌, map, true, vec_len};
ghost use Rattle.std.specs.Io.KnownBytes.{Keeps};
ghost use Rattle.replay_tasks.specs.Explained.{FailsToExplain, IsReplayedWithExplanations};
ghost use Rattle.replay_tasks.specs.Explained.{explanation_form};
ghost use Rattle.replay_tasks.specs.Met.{HasMet};
ghost use Rattle.replay_tasks.specs.Replayed.{written};

use crate::met::Ended;
use crate::reached::Reached;
use limits::MAX_PROXIES;
use replay_explanations::{Explainer, ExplanationForm};
use replay_output::{Ending, Form, Options, Status, fail_to_start};
use replay_workers::{Gatekeeper, RunOutcome, ShareKeeper, run_observed};
use std::alloc::Global;
use std::sync::{Arc, Wait};
use std::thread::Threads;
use wire::{Sink, Source};

mod notes;
mod report;

pub use notes::explain_lines;
pub use report::{print_explained, report_loss};

/// Replays the files of these readers as [`replay_over`](crate::replay_over) does. Prints the lines
/// of the answers to `out`, and with each what explains the rejections in its batch: lines under
/// it, or a member of its object of JSON.
///
/// After a stop, a batch that was processed by the last step may have an answer without
/// explanation. If memory is refused for an explanation, its proxy has a loss, and nothing is
/// printed to `out`.
pub fn explain_over<
    S: Source + Send + Drop + 'static,
    G: Gatekeeper + ShareKeeper + Send + Sync + Drop + 'static,
    R: Threads + Wait + Copy + Send + 'static,
    O: Sink,
    E: Sink,
>(
    rt: &R,
    alloc: Global,
    readers: Vec<S>,
    options: Options,
    gatekeeper: &Arc<G, Global>,
    out: &mut O,
    error: &mut E,
) -> Ended
    requires least_files { 1 ≤ vec_len readers }
    requires most_files { vec_len readers ≤ MAX_PROXIES }
    ensures done { result.status ≡ Status.Done
        → IsReplayedWithExplanations options (map S.remaining readers.items)
        (O.given out.old) (O.given out.new) }
    ensures quiet { result.status ≡ Status.Done → Keeps (E.given error.old) (E.given error.new) }

    // Something failed, and its lines were written, or the writer failed.
    ensures failed { result.status ≡ Status.Failed
        → FailsToExplain options (map S.remaining readers.items)
        (written (O.given out.old) (O.given out.new) (O.failures out.old) (O.failures out.new))
        (written (E.given error.old) (E.given error.new) (E.failures error.old)
        (E.failures error.new)) }
    ensures met { HasMet options (map S.remaining readers.items) result.met
        (written (E.given error.old) (E.given error.new) (E.failures error.old)
        (E.failures error.new)) }
    ensures output_failed { result.met.output_failed ≡ true
        → O.failures out.old < O.failures out.new }
    ensures ends { result.status ≢ Status.Usage }
    ensures same { result.status ≢ Status.Differs }
{
    serial::laws::answers_report_verdicts();
    let form = explanation_form(options.style.form);
    let explainer = Explainer::new(alloc, options.window, form);
    let mut reached = Reached::new(explainer);
    let run = run_observed(rt, alloc, readers, options, gatekeeper, &mut reached);
    let (outcome, account) = match run {
        Ok(ended) => ended,
        Err(cause) => return Ended::unstarted(fail_to_start(error, cause)),
    };
    let RunOutcome {
        mut lines,
        mut failures,
        all_sent,
        ..
    } = outcome;
    let ending = Ending::new(account.complete && all_sent, account.stop);
    let report = print_explained(
        alloc,
        out,
        error,
        &mut lines,
        &reached.observer,
        &mut failures,
        ending,
    );
    Ended::after(&report, account.stop, reached.version)
}

// Returns the form of the explanations of lines in this form.
fn explanation_form(form: Form) -> ExplanationForm
    ensures form { result ≡ explanation_form form }
{
    match form {
        Form::Json => ExplanationForm::Json,
        Form::Words | Form::Frames | Form::Kept => ExplanationForm::Words,
    }
}
