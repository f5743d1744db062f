//! The threads: one per shard, which runs it.

ghost use Rattle.std.specs.Prelude.{◌≡◌, ◌≤◌, ℕ, [], IfErr, IfOk, List, None, Option, map};
ghost use Rattle.std.specs.Prelude.{vec_capacity, vec_items, vec_len};
ghost use Rattle.std.specs.List.{All, AllZip};
ghost use Rattle.limits.specs.declared.settings.TheConstants.{MAX_PROXIES};
ghost use Rattle.replay_shards.specs.Clips.{refusal_of_clips};
ghost use Rattle.replay_sharded.specs.Combined.{HasProxies};
ghost use Rattle.replay_sharded.specs.Files.{AreClipsOfShards, AreFresh};
ghost use Rattle.replay_sharded.specs.Runs.{AreRunsOfShards, IsWorkOf};
ghost use Rattle.replay_sharded.specs.Runs.{given_to, keeping_options};

use crate::shard_run::{ShardRun, run_shard};
use replay_output::{Form, Options, StartError, Style};
use replay_shards::Clips;
use replay_workers::{Gatekeeper, ShareKeeper};
use std::alloc::Global;
use std::snapshot::Snapshot;
use std::sync::{Arc, Wait};
use std::thread;
use std::thread::{Promise, PromisedHandle, Threads};
use wire::Source;

// Promises what the run of a shard does.
#[derive(Drop)]
struct Promised<S> {
    clips: Snapshot<Vec<Clips<S>>>,
    options: Options,
}

impl<S: Source> Promise<Result<ShardRun, StartError>> for Promised<S> {
    ghost kept_by = { λ work result. IfOk result
        (IsWorkOf S.remaining work.options work.clips.value.items) };
}

/// A shard whose run was started, and its clips.
#[derive(Drop)]
pub struct StartedShards<S: Source> {
    handle: PromisedHandle<Result<ShardRun, StartError>, Promised<S>>,
}

/// Runs each shard in a new thread, and returns the results in the order of the shards. Each shard
/// has the clips of all files, and a gatekeeper. The answers are kept, whatever style the options
/// have.
///
/// If the run of a shard can't start, the error is returned once the other runs have ended. If a
/// thread can't be started, those before are not joined.
pub fn run_shards<
    S: Source + Send + Drop + 'static,
    G: Gatekeeper + ShareKeeper + Send + Sync + Drop + 'static,
    R: Threads + Wait + Copy + Send + 'static,
>(
    rt: &R,
    alloc: Global,
    each: Vec<Vec<Clips<S>>>,
    options: Options,
    gatekeepers: Vec<Arc<G, Global>>,
) -> Result<Vec<ShardRun>, StartError>
    requires as_many { vec_len gatekeepers ≡ vec_len each }
    requires proxies { All (λ clips.
        (1 ≤ vec_len clips) × (vec_len clips ≤ MAX_PROXIES)) each.items }
    requires fresh { All AreFresh (map vec_items each.items) }
    ensures runs { IfOk result (λ runs. (points : List (List ℕ)) (files : List (Option (List ℕ)))
        → AreClipsOfShards S.remaining points files (map vec_items each.items)
        → AreRunsOfShards options points files runs.items) }
    ensures proxies { IfOk result (λ runs. AllZip (λ clips run. HasProxies (vec_len clips) run)
        each.items runs.items) }
{
    let options = keeping(options);
    let mut started = Vec::with_capacity(alloc, each.len())?;
    let room = Vec::with_capacity(alloc, each.len())?;
    let mut gatekeepers = gatekeepers.into_iter();
    for clips in each {
        let Some(gatekeeper) = gatekeepers.next() else {
            unreachable!()
        };
        started.push_reserved(start(rt, alloc, clips, options, gatekeeper)?);
    }
    join_all(rt, started, room)
}

// Returns the same options, with which answers are kept.
fn keeping(options: Options) -> Options
    ensures keeping { result ≡ keeping_options options }
{
    let mut options = options;
    options.style = Style::all(Form::Kept);
    options
}

fn start<
    S: Source + Send + Drop + 'static,
    G: Gatekeeper + ShareKeeper + Send + Sync + Drop + 'static,
    R: Threads + Wait + Copy + Send + 'static,
>(
    rt: &R,
    alloc: Global,
    clips: Vec<Clips<S>>,
    options: Options,
    gatekeeper: Arc<G, Global>,
) -> Result<StartedShards<S>, StartError>
    requires least { 1 ≤ vec_len clips }
    requires most { vec_len clips ≤ MAX_PROXIES }
    requires fresh { All (λ own. refusal_of_clips own ≡ None) clips.items }
    ensures given { IfOk result (λ shard. given_to shard ≡ (options, clips.items)) }
    ensures thread { IfErr result (λ cause. cause ≡ StartError.Thread) }
{
    let there = *rt;
    let promise = Promised {
        clips: Snapshot::of(&clips),
        options,
    };
    let run = move || -> Result<ShardRun, StartError>
        requires least { 1 ≤ vec_len clips }
        requires most { vec_len clips ≤ MAX_PROXIES }
        requires fresh { All (λ own. refusal_of_clips own ≡ None) clips.items }
        ensures run { IfOk result (IsWorkOf S.remaining options clips.items) }
    { run_shard(&there, alloc, clips, options, &gatekeeper) };
    match thread::spawn_with(rt, promise, run) {
        Ok(handle) => Ok(StartedShards { handle }),
        Err(_) => Err(StartError::Thread),
    }
}

// Joins all runs, in order, and puts what became of them into an empty vector with room for all.
// The error is that of the first run that could not start. Takes no memory.
fn join_all<S: Source, R: Threads>(
    rt: &R,
    started: Vec<StartedShards<S>>,
    room: Vec<ShardRun>,
) -> Result<Vec<ShardRun>, StartError>
    requires empty { room.items ≡ [] }
    requires room { vec_len started ≤ vec_capacity room }
    ensures runs { IfOk result (λ runs. AllZip
        (λ given run. IsWorkOf S.remaining given.0 given.1 run)
        (map given_to started.items) runs.items) }
{
    let mut runs = room;
    let mut failed = None;
    for shard in started {
        match shard.handle.join(rt) {
            Ok(run) => runs.push_reserved(run),
            Err(cause) => failed = failed.or(Some(cause)),
        }
    }
    match failed {
        None => Ok(runs),
        Some(cause) => Err(cause),
    }
}
