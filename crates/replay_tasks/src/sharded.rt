//! All that follows the opening of the files with several resolvers: their batches are resolved by
//! a resolver per shard, and the combined answers printed.

ghost use Rattle.std.specs.Prelude.{◌≡◌, ◌≢◌, ◌<◌, ℕ, List, Option, map, true, vec_items};
ghost use Rattle.std.specs.List.{All};
ghost use Rattle.std.specs.Io.KnownBytes.{Keeps};
ghost use Rattle.replay_tasks.specs.Replayed.{written};
ghost use Rattle.replay_tasks.specs.Sharded.{FailsToReplayByShards, HasMetByShards};
ghost use Rattle.replay_tasks.specs.Sharded.{IsReplayedByShards};
ghost use Rattle.replay_sharded.specs.Files.{ReadTheFiles};

use crate::met::{Ended, is_unwritten};
use replay_output::{Options, Status, fail_to_start, print_report};
use replay_sharded::{Combined, ShardedReaders, run_sharded};
use replay_workers::{Gatekeeper, ShareKeeper};
use std::alloc::Global;
use std::sync::Wait;
use std::thread::Threads;
use stopped::{ending_of, met_of, print_stopped};
use wire::{Sink, Source};

mod beside;
mod checked;
mod stopped;
mod summarized;

pub use beside::replay_and_summarize_sharded_over;
pub use checked::check_sharded_over;
pub use summarized::summarize_sharded_over;

/// Replays the files of these readers by a resolver per shard, and prints the combined answers as
/// [`replay_over`](crate::replay_over) prints those of one resolver. After the line of a stop, a
/// second one names the shard.
///
/// A batch that some shard has not answered, as after a stop, has no line.
pub fn replay_sharded_over<
    S: Source + Send + Drop + 'static,
    G: Gatekeeper + ShareKeeper + Send + Sync + Drop + 'static,
    R: Threads + Wait + Copy + Send + 'static,
    O: Sink,
    E: Sink,
>(
    rt: &R,
    alloc: Global,
    sharded: ShardedReaders<S, G>,
    options: Options,
    out: &mut O,
    error: &mut E,
) -> Ended
    // For each shard, one log of the reference resolver takes the clips of each file's batches,
    // once, in order, and no others; the text is the lines of the combined answers. If no proxy
    // sends two different batches of one version, the transactions that it reports as committed are
    // serializable.
    ensures done { (files : List (Option (List ℕ)))
        → All (ReadTheFiles S.remaining files) (map vec_items sharded.readers.items)
        → result.status ≡ Status.Done
        → IsReplayedByShards sharded.points options files (O.given out.old) (O.given out.new) }
    ensures quiet { result.status ≡ Status.Done → Keeps (E.given error.old) (E.given error.new) }

    // Something failed, and its lines were written, or the writer failed.
    ensures failed { (files : List (Option (List ℕ)))
        → All (ReadTheFiles S.remaining files) (map vec_items sharded.readers.items)
        → result.status ≡ Status.Failed
        → FailsToReplayByShards sharded.points options files
        (written (O.given out.old) (O.given out.new) (O.failures out.old) (O.failures out.new))
        (written (E.given error.old) (E.given error.new) (E.failures error.old)
        (E.failures error.new)) }
    ensures met { (files : List (Option (List ℕ)))
        → All (ReadTheFiles S.remaining files) (map vec_items sharded.readers.items)
        → HasMetByShards sharded.points options files result.met
        (written (E.given error.old) (E.given error.new) (E.failures error.old)
        (E.failures error.new)) }
    ensures output_failed { result.met.output_failed ≡ true
        → O.failures out.old < O.failures out.new }
    ensures ends { result.status ≢ Status.Usage }
    ensures same { result.status ≢ Status.Differs }
{
    let combined = match run_sharded(rt, alloc, sharded, options) {
        Ok(combined) => combined,
        Err(cause) => return Ended::unstarted(fail_to_start(error, cause)),
    };
    let Combined {
        mut lines,
        mut failures,
        complete,
        stop,
    } = combined;
    let ending = ending_of(complete, stop);
    let report = print_report(alloc, out, error, &mut lines, &mut failures, ending);
    Ended {
        status: print_stopped(error, stop, report.status),
        met: met_of(stop, is_unwritten(&report.printed)),
    }
}
