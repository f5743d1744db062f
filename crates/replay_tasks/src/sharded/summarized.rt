//! All that follows the opening of the files of a summary with several resolvers.

ghost use Rattle.std.specs.Prelude.{◌≡◌, ◌≢◌, ◌<◌, ℕ, List, Option, map, true, vec_items};
ghost use Rattle.std.specs.List.{All};
ghost use Rattle.std.specs.Io.KnownBytes.{Keeps};
ghost use Rattle.replay_tasks.specs.Replayed.{written};
ghost use Rattle.replay_tasks.specs.Sharded.{FailsToSummarizeByShards, HasMetByShards};
ghost use Rattle.replay_tasks.specs.Sharded.{IsSummarizedByShards};
ghost use Rattle.replay_sharded.specs.Files.{ReadTheFiles};

use super::stopped::{ending_of, met_of, print_stopped};
use crate::met::{Ended, is_unwritten};
use crate::summary::print_summary;
use replay_output::{Options, Status, fail_to_start};
use replay_sharded::{Combined, ShardedReaders, run_sharded};
use replay_summary::SummaryForm;
use replay_workers::{Gatekeeper, ShareKeeper};
use std::alloc::Global;
use std::sync::Wait;
use std::thread::Threads;
use wire::{Sink, Source};

/// Replays as [`replay_sharded_over`](crate::replay_sharded_over) does, and prints the summary of
/// all combined answers to `out`, as [`summarize_over`](crate::summarize_over) does. No ranges are
/// listed: no resolver knows the writes of all shards.
pub fn summarize_sharded_over<
    S: Source + Send + Drop + 'static,
    G: Gatekeeper + ShareKeeper + Send + Sync + Drop + 'static,
    R: Threads + Wait + Copy + Send + 'static,
    O: Sink,
    E: Sink,
>(
    rt: &R,
    alloc: Global,
    sharded: ShardedReaders<S, G>,
    options: Options,
    form: SummaryForm,
    out: &mut O,
    error: &mut E,
) -> Ended
    ensures done { (files : List (Option (List ℕ)))
        → All (ReadTheFiles S.remaining files) (map vec_items sharded.readers.items)
        → result.status ≡ Status.Done
        → IsSummarizedByShards form sharded.points options files (O.given out.old)
        (O.given out.new) }
    ensures quiet { result.status ≡ Status.Done → Keeps (E.given error.old) (E.given error.new) }
    ensures failed { (files : List (Option (List ℕ)))
        → All (ReadTheFiles S.remaining files) (map vec_items sharded.readers.items)
        → result.status ≡ Status.Failed
        → FailsToSummarizeByShards form sharded.points options files
        (written (O.given out.old) (O.given out.new) (O.failures out.old) (O.failures out.new))
        (written (E.given error.old) (E.given error.new) (E.failures error.old)
        (E.failures error.new)) }
    ensures met { (files : List (Option (List ℕ)))
        → All (ReadTheFiles S.remaining files) (map vec_items sharded.readers.items)
        → HasMetByShards sharded.points options files result.met
        (written (E.given error.old) (E.given error.new) (E.failures error.old)
        (E.failures error.new)) }
    ensures output_failed { result.met.output_failed ≡ true
        → O.failures out.old < O.failures out.new }
    ensures ends { result.status ≢ Status.Usage }
    ensures same { result.status ≢ Status.Differs }
{
    let combined = match run_sharded(rt, alloc, sharded, options) {
        Ok(combined) => combined,
        Err(cause) => return Ended::unstarted(fail_to_start(error, cause)),
    };
    let Combined {
        mut lines,
        mut failures,
        complete,
        stop,
    } = combined;
    let ending = ending_of(complete, stop);
    let report = print_summary(
        alloc,
        out,
        error,
        &mut lines,
        form,
        None,
        b"",
        &mut failures,
        ending,
    );
    Ended {
        status: print_stopped(error, stop, report.status),
        met: met_of(stop, is_unwritten(&report.printed)),
    }
}
