//! What all shards have answered together.

ghost use Rattle.std.specs.Prelude.{◌≡◌, ◌<◌, ◌≤◌, ◌↔◌, ℕ, [], IfOk, IfSome, IsTrue, List, Some};
ghost use Rattle.std.specs.Prelude.{length, map, slice_get, true, vec_capacity, vec_len};
ghost use Rattle.std.specs.List.{All, AllZip};
ghost use Rattle.replay_output.specs.Line.{IsLineOf, answers_of};
ghost use Rattle.replay_shards.specs.Answered.{AreAnswersTogether, AreKept};
ghost use Rattle.replay_shards.specs.declared.answered.Answered.{Answered as AnsweredValue};
ghost use Rattle.replay_sharded.specs.Combined.{AreCombined, AreFailuresOf, AreOfProxy, HasProxies};
ghost use Rattle.replay_sharded.specs.Combined.{HasRoom, TakesOf, stop_of};

use crate::room::Room;
use crate::shard_run::ShardRun;
use limits::Stop;
use replay_output::{Line, ProxyFailure, Style};
use replay_shards::{Answered, ShardStop, combine_answered, failure_together, first_stop};
use std::alloc::{AllocError, Global};
use std::mem;

/// What all shards have answered together.
#[derive(Drop)]
pub struct Combined {
    /// The lines of the combined answers to each proxy, in the order of their versions.
    pub lines: Vec<Vec<Line>>,
    /// What failed of each proxy: the first fault in the order of the shards, and a loss if a shard
    /// has one, or if memory was refused for the combined answers.
    pub failures: Vec<ProxyFailure>,
    /// The run of each shard is complete.
    pub complete: bool,
    /// The stop of the first shard that met one.
    pub stop: Option<ShardStop>,
}

/// Combines what the shards have answered: of each proxy by version, never by position. The runs
/// are of the same proxies.
///
/// If memory is refused for the lines of a proxy, that proxy has a loss and no lines.
pub fn combine_runs(alloc: Global, style: Style, runs: Vec<ShardRun>, room: Room) -> Combined
    requires some { 1 ≤ vec_len runs }
    requires room { (proxies : ℕ) × All (HasProxies proxies) runs.items
        × HasRoom (vec_len runs) proxies room }
    ensures combined { AreCombined style runs.items result }
{
    let mut runs = runs;
    let Room {
        mut lines,
        mut failures,
        mut failures_by_shard,
        mut stops,
    } = room;
    put_stops(&runs, &mut stops);
    for proxy in 0..proxies_of(&runs) {
        failures_by_shard.clear();
        put_failures(&runs, proxy, &mut failures_by_shard);
        let mut failure = failure_together(&failures_by_shard);
        let own = match combine_proxy(alloc, style, proxy, &mut runs) {
            Ok(own) => own,
            Err(_) => {
                failure.lost = true;
                Vec::new(alloc)
            }
        };
        lines.push_reserved(own);
        failures.push_reserved(failure);
    }
    Combined {
        lines,
        failures,
        complete: are_complete(&runs),
        stop: first_stop(&stops),
    }
}

// Returns the number of proxies of the first run. All have as many.
fn proxies_of(runs: &[ShardRun]) -> usize
    requires some { 1 ≤ length runs.now }
    ensures proxies { (proxies : ℕ) → All (HasProxies proxies) runs.now → result ≡ proxies }
{
    let Some(first) = runs.first() else {
        unreachable!()
    };
    first.failures.len()
}

// Returns whether the run of every shard is complete.
fn are_complete(runs: &[ShardRun]) -> bool
    ensures complete { IsTrue result ↔ All (λ run. run.complete ≡ true) runs.now }
{
    runs.iter().all(|run| run.complete)
}

// Puts the stop of each run into an empty vector with room for all.
fn put_stops(runs: &[ShardRun], stops: &mut Vec<Option<Stop>>)
    requires empty { stops.old.items ≡ [] }
    requires room { length runs.now ≤ vec_capacity stops.old }
    ensures stops { stops.new.items ≡ map stop_of runs.now }
{
    for run in runs {
        stops.push_reserved(run.stop);
    }
}

// Puts what failed of the proxy in each run into an empty vector with room for all.
fn put_failures(runs: &[ShardRun], proxy: usize, failures: &mut Vec<ProxyFailure>)
    requires empty { failures.old.items ≡ [] }
    requires room { length runs.now ≤ vec_capacity failures.old }
    requires within { All (λ run. proxy < vec_len run.failures) runs.now }
    ensures failures { AreFailuresOf proxy runs.now failures.new.items }
    ensures capacity { vec_capacity failures.new ≡ vec_capacity failures.old }
{
    for run in runs {
        failures.push_reserved(run.failures[proxy]);
    }
}

// Takes what each shard has answered to the proxy, and returns the lines of the combined answers.
fn combine_proxy(
    alloc: Global,
    style: Style,
    proxy: usize,
    runs: &mut [ShardRun],
) -> Result<Vec<Line>, AllocError>
    requires some { 1 ≤ length runs.old }
    requires within { All (λ run. proxy < vec_len run.answered) runs.old }
    requires kept { All (λ run. IfSome (slice_get run.answered.items proxy) AreKept) runs.old }
    ensures answers { IfOk result (λ lines. (each : List AnsweredValue)
        × AreOfProxy proxy runs.old each × AreAnswersTogether each (answers_of lines.items)) }
    ensures lines { IfOk result (λ lines. All (IsLineOf style proxy) lines.items) }
    ensures others { AllZip (TakesOf proxy) runs.old runs.new }
{
    let mut each = Vec::with_capacity(alloc, runs.len())?;
    for shard in 0..runs.len() {
        each.push_reserved(take_answered(alloc, &mut runs[shard], proxy));
    }
    combine_answered(alloc, style, proxy, each)
}

// Takes what the shard has answered to the proxy, and leaves nothing there. Takes no memory.
fn take_answered(alloc: Global, run: &mut ShardRun, proxy: usize) -> Answered
    requires within { proxy < vec_len run.old.answered }
    ensures taken { slice_get run.old.answered.items proxy ≡ Some result }
    ensures rest { TakesOf proxy run.old run.new }
{
    let none = Answered {
        lines: Vec::new(alloc),
        notes: Vec::new(alloc),
    };
    mem::replace(&mut run.answered[proxy], none)
}
