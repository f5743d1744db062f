//! All that follows the opening of the files: their batches are resolved and the answers printed.

ghost use Rattle.std.specs.Prelude.{◌≡◌, ◌≤◌, ◌<◌, ◌≢◌, map, true, vec_len};
ghost use Rattle.std.specs.Io.KnownBytes.{Keeps};
ghost use Rattle.replay_tasks.specs.Met.{HasMet};
ghost use Rattle.replay_tasks.specs.Replayed.{IsReplayed, FailsToReplay, written};

use crate::met::Ended;
use crate::reached::Reached;
use limits::MAX_PROXIES;
use observer::Unobserved;
use replay_output::{Ending, Options, Status, fail_to_start, print_report};
use replay_workers::{Gatekeeper, RunOutcome, ShareKeeper, run_observed};
use std::alloc::Global;
use std::sync::{Arc, Wait};
use std::thread::Threads;
use wire::{Sink, Source};

mod beside;

pub use beside::replay_and_summarize_over;

/// Replays the files of these readers, each of the proxy at its index. Prints one line per answer
/// to `out`, sorted, and one line per failure to `error`. After a fault of a file, a
/// failed read included, the lines of the frames before it remain, and the other files continue.
///
/// A batch that is still held when all files have ended is answered `Held`. After a stop it isn't
/// answered.
pub fn replay_over<
    S: Source + Send + Drop + 'static,
    G: Gatekeeper + ShareKeeper + Send + Sync + Drop + 'static,
    R: Threads + Wait + Copy + Send + 'static,
    O: Sink,
    E: Sink,
>(
    rt: &R,
    alloc: Global,
    readers: Vec<S>,
    options: Options,
    gatekeeper: &Arc<G, Global>,
    out: &mut O,
    error: &mut E,
) -> Ended
    requires least_files { 1 ≤ vec_len readers }
    requires most_files { vec_len readers ≤ MAX_PROXIES }
    // There is one log of the reference resolver that holds the batches of each file once, in
    // order, and nothing else; the text is the lines of its answers. The transactions that it
    // reports as committed are serializable.
    ensures done { result.status ≡ Status.Done
        → IsReplayed options (map S.remaining readers.items) (O.given out.old) (O.given out.new) }
    ensures quiet { result.status ≡ Status.Done → Keeps (E.given error.old) (E.given error.new) }

    // Something failed, and its lines were written, or the writer failed.
    ensures failed { result.status ≡ Status.Failed
        → FailsToReplay options (map S.remaining readers.items)
        (written (O.given out.old) (O.given out.new) (O.failures out.old) (O.failures out.new))
        (written (E.given error.old) (E.given error.new) (E.failures error.old)
        (E.failures error.new)) }
    ensures met { HasMet options (map S.remaining readers.items) result.met
        (written (E.given error.old) (E.given error.new) (E.failures error.old)
        (E.failures error.new)) }
    ensures output_failed { result.met.output_failed ≡ true
        → O.failures out.old < O.failures out.new }
    ensures ends { result.status ≢ Status.Usage }
    ensures same { result.status ≢ Status.Differs }
{
    serial::laws::answers_report_verdicts();
    let mut reached = Reached::new(Unobserved);
    let run = run_observed(rt, alloc, readers, options, gatekeeper, &mut reached);
    let (outcome, account) = match run {
        Ok(ended) => ended,
        Err(cause) => return Ended::unstarted(fail_to_start(error, cause)),
    };
    let RunOutcome {
        mut lines,
        mut failures,
        all_sent,
        ..
    } = outcome;
    // Without a stop, a worker hands a batch back only once its lane has taken as many batches as a
    // lane takes.
    let ending = Ending::new(account.complete && all_sent, account.stop);
    let report = print_report(alloc, out, error, &mut lines, &mut failures, ending);
    Ended::after(&report, account.stop, reached.version)
}
