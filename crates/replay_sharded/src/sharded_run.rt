//! The run with several resolvers.

ghost use Rattle.std.specs.Prelude.{◌≡◌, ℕ, IfOk, List, Option, map, vec_items, vec_len};
ghost use Rattle.std.specs.List.{All};
ghost use Rattle.replay_output.specs.Line.{AreLines, answers_of};
ghost use Rattle.replay_sharded.specs.Combined.{HasAllAnswers};
ghost use Rattle.replay_sharded.specs.Files.{ReadTheFiles};
ghost use Rattle.replay_sharded.specs.Sharded.{AreRunsTogether, IsResolvedByShards};

use crate::combined::{Combined, combine_runs};
use crate::readers::{ShardedReaders, clips_of_shards};
use crate::room::Room;
use crate::runs::run_shards;
use replay_output::{Options, StartError};
use replay_workers::{Gatekeeper, ShareKeeper};
use std::alloc::Global;
use std::sync::Wait;
use std::thread::Threads;
use wire::Source;

/// Runs a resolver per shard over all files, each shard beside the others, and combines their
/// answers once all runs have ended. Every file is read once per shard.
///
/// The memory for the runs is taken before the first thread is started. If memory is refused for
/// the combined answers to a proxy, it has a loss.
pub fn run_sharded<
    S: Source + Send + Drop + 'static,
    G: Gatekeeper + ShareKeeper + Send + Sync + Drop + 'static,
    R: Threads + Wait + Copy + Send + 'static,
>(
    rt: &R,
    alloc: Global,
    sharded: ShardedReaders<S, G>,
    options: Options,
) -> Result<Combined, StartError>
    ensures together { (files : List (Option (List ℕ)))
        → All (ReadTheFiles S.remaining files) (map vec_items sharded.readers.items)
        → IfOk result (AreRunsTogether sharded.points options files) }

    // If nothing has failed, the combined answers are those of one log per shard. If all shards
    // have read the same batches of each file, every batch has its combined answer, and what these
    // report as committed is serializable. Of a file whose bytes aren't known, two shards may read
    // different batches.
    ensures resolved { (files : List (Option (List ℕ)))
        → All (ReadTheFiles S.remaining files) (map vec_items sharded.readers.items)
        → IfOk result (λ combined. HasAllAnswers combined
        → IsResolvedByShards sharded.points options.window files
        (map answers_of (map vec_items combined.lines.items))) }
    ensures lines { IfOk result (λ combined.
        AreLines options.style (map vec_items combined.lines.items)) }
    ensures proxies { IfOk result (λ combined. (vec_len combined.lines ≡ sharded.proxies)
        × (vec_len combined.failures ≡ sharded.proxies)) }
{
    serial::laws::answers_report_verdicts();
    shards::laws::serializable_among_others();
    wire::laws::one_spelling();
    let ShardedReaders {
        readers,
        points,
        gatekeepers,
        proxies,
    } = sharded;
    let room = Room::new(alloc, points.shard_count(), proxies)?;
    let each = clips_of_shards(alloc, readers, points)?;
    let runs = run_shards(rt, alloc, each, options, gatekeepers)?;
    Ok(combine_runs(alloc, options.style, runs, room))
}
