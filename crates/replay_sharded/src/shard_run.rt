//! What became of the run of one shard.

ghost use Rattle.std.specs.Prelude.{◌≡◌, ◌≤◌, ◌&&◌, [], IfOk, None, map};
ghost use Rattle.std.specs.Prelude.{vec_capacity, vec_items, vec_len};
ghost use Rattle.std.specs.List.{All};
ghost use Rattle.replay_shards.specs.Clips.{refusal_of_clips};
ghost use Rattle.replay_sharded.specs.Files.{notes_left};
ghost use Rattle.replay_sharded.specs.Runs.{IsWorkOf, lines_by, notes_by};

use limits::{MAX_PROXIES, Stop};
use observer::Unobserved;
use replay_output::{Line, Options, ProxyFailure, StartError};
use replay_shards::{Answered, Clips};
use replay_workers::{Gatekeeper, RunOutcome, ShareKeeper, run_over};
use std::alloc::Global;
use std::sync::{Arc, Wait};
use std::thread::Threads;
use wire::Source;

/// What became of the run of one shard.
#[derive(Drop)]
pub struct ShardRun {
    /// What the shard has answered to each proxy, at its number. The lines keep the answers.
    pub answered: Vec<Answered>,
    /// What failed of each proxy.
    pub failures: Vec<ProxyFailure>,
    /// Every answer was taken, and every batch that was read was sent.
    pub complete: bool,
    pub stop: Option<Stop>,
}

/// Runs a shard: its workers send the clips of all files, and its resolver is turned in this
/// thread. The options keep the answers.
pub fn run_shard<
    S: Source + Send + Drop + 'static,
    G: Gatekeeper + ShareKeeper + Send + Sync + Drop + 'static,
    R: Threads + Wait + Copy + Send + 'static,
>(
    rt: &R,
    alloc: Global,
    clips: Vec<Clips<S>>,
    options: Options,
    gatekeeper: &Arc<G, Global>,
) -> Result<ShardRun, StartError>
    requires least { 1 ≤ vec_len clips }
    requires most { vec_len clips ≤ MAX_PROXIES }
    requires fresh { All (λ own. refusal_of_clips own ≡ None) clips.items }
    ensures run { IfOk result (IsWorkOf S.remaining options clips.items) }
{
    let room = Vec::with_capacity(alloc, clips.len())?;
    let (outcome, ended, account) = run_over(
        rt,
        alloc,
        clips,
        options,
        gatekeeper,
        &mut Unobserved,
    )?;
    let RunOutcome {
        lines,
        failures,
        all_sent,
        ..
    } = outcome;
    let answered = answered_each(room, lines, ended);
    let complete = is_complete(account.complete, all_sent);
    Ok(ShardRun {
        answered,
        failures,
        complete,
        stop: account.stop,
    })
}

// Returns whether every answer was taken, and every batch that was read was sent.
fn is_complete(all_taken: bool, all_sent: bool) -> bool
    ensures complete { result ≡ (all_taken && all_sent) }
{
    all_taken && all_sent
}

// Puts the lines of each proxy and the notes of its clips together, in an empty vector with room
// for all. Takes no memory.
fn answered_each<S: Source + Drop>(
    room: Vec<Answered>,
    lines: Vec<Vec<Line>>,
    ended: Vec<Clips<S>>,
) -> Vec<Answered>
    requires empty { room.items ≡ [] }
    requires room { vec_len lines ≤ vec_capacity room }
    requires as_many { vec_len ended ≡ vec_len lines }
    ensures lines { map lines_by result.items ≡ map vec_items lines.items }
    ensures notes { map notes_by result.items ≡ map notes_left ended.items }
{
    let mut answered = room;
    let mut ended = ended.into_iter();
    for lines in lines {
        let Some(clips) = ended.next() else {
            unreachable!()
        };
        let notes = clips.into_notes();
        answered.push_reserved(Answered { lines, notes });
    }
    answered
}
