//! A run: the workers read, send and take, while this thread turns the resolver.

ghost use Rattle.std.specs.Prelude.{◌≡◌, ℕ, ◌≤◌, true, length, map, vec_items, vec_len, Some};
ghost use Rattle.std.specs.Prelude.{[], None, slice_get, IfOk};
ghost use Rattle.std.specs.List.{All};
ghost use Rattle.replay_workers.specs.NextAdmitted.{AllWait, IsNext};
ghost use Rattle.limits.specs.declared.settings.TheConstants.{MAX_PROXIES};
ghost use Rattle.resolver.specs.Core.{Continues};
ghost use Rattle.resolver.specs.Lanes.{Lanes, Each, LanesContinue};
ghost use Rattle.resolver.specs.Resolver.{AreClients, IsResolving, IsThrough, StandsOver};
ghost use Rattle.resolver.specs.Share.{share_of};
ghost use Rattle.resolver.specs.Turns.{Turns};
ghost use Rattle.replay_workers.specs.Ended.{HasJoined, IsAccountFrom, returned_clients};
ghost use Rattle.replay_workers.specs.Occupied.{IsMeasured};
ghost use Rattle.replay_workers.specs.Run.{EndsAt, HasCapacity, is_complete};
ghost use Rattle.replay_workers.specs.Run.{IsMeasuredRun, IsMeasuredRunOver, IsObservedRun};
ghost use Rattle.replay_workers.specs.Run.{IsObservedRunOver, IsRun, IsRunOver};
ghost use Rattle.replay_workers.specs.Stops.{IsAccountedFor};
ghost use Rattle.replay_workers.specs.Threads.{given_each};

use crate::gatekeeper::{Gatekeeper, ShareKeeper};
use crate::opening::{make_room, open_resolver};
use crate::outcome::RunOutcome;
use crate::reporting_batches::asking_each;
use crate::threads::{join_all, start_workers};
use crate::watch::Watch;
use limits::Stop;
use observer::{Observer, Unobserved};
use replay_output::{Options, Reports, StartError, Style};
use replay_summary::Occupancy;
use resolver::{Account, Client, Resolver, Turn};
use std::alloc::Global;
use std::sync::{Arc, Wait};
use std::thread;
use std::thread::Threads;
use wire::{Batches, Source, frames_each};

/// Runs the workers of these readers, as [`run_observed`] does, and shows the batches to nobody.
///
/// Once a thread was started, this one takes no memory but in turns and in starting threads. After
/// an error no thread is joined.
pub fn run<
    S: Source + Send + Drop + 'static,
    G: Gatekeeper + ShareKeeper + Send + Sync + Drop + 'static,
    R: Threads + Wait + Copy + Send + 'static,
>(
    rt: &R,
    alloc: Global,
    readers: Vec<S>,
    options: Options,
    gatekeeper: &Arc<G, Global>,
) -> Result<(RunOutcome, Account), StartError>
    requires least_readers { 1 ≤ vec_len readers }
    requires most_readers { vec_len readers ≤ MAX_PROXIES }
    ensures run { IfOk result (λ ended. IsRun options (map S.remaining readers.items)
        (map vec_items ended.0.lines.items)
        ended.0.failures.items (is_complete ended.0 ended.1) ended.1.stop) }
    ensures capacity { IfOk result
        (λ ended. All (HasCapacity options.capacity) ended.0.clients.items) }
{
    run_observed(rt, alloc, readers, options, gatekeeper, &mut Unobserved)
}

/// Runs a worker for each reader, each in its own thread, and turns the resolver until it is done
/// or has stopped. Returns what the workers return with how full the resolver was, and the account
/// of the resolver. The observer sees the batches that are processed, in this thread. The options
/// say which transactions ask for their reports: those that do so in the files, or all.
///
/// Once a thread was started, this one takes no memory but in turns, in starting threads and in the
/// observer. After an error no thread is joined.
pub fn run_observed<
    S: Source + Send + Drop + 'static,
    G: Gatekeeper + ShareKeeper + Send + Sync + Drop + 'static,
    R: Threads + Wait + Copy + Send + 'static,
    O: Observer,
>(
    rt: &R,
    alloc: Global,
    readers: Vec<S>,
    options: Options,
    gatekeeper: &Arc<G, Global>,
    observer: &mut O,
) -> Result<(RunOutcome, Account), StartError>
    requires least_readers { 1 ≤ vec_len readers }
    requires most_readers { vec_len readers ≤ MAX_PROXIES }
    ensures run { IfOk result (λ ended. IsRun options (map S.remaining readers.items)
        (map vec_items ended.0.lines.items)
        ended.0.failures.items (is_complete ended.0 ended.1) ended.1.stop) }
    ensures observed { IfOk result (λ ended. O.has_seen observer.old []
        → IsObservedRun (O.has_seen observer.new) options (map S.remaining readers.items)
        (map vec_items ended.0.lines.items)
        ended.0.failures.items (is_complete ended.0 ended.1) ended.1.stop) }
    ensures measured { IfOk result (λ ended. O.has_seen observer.old []
        → IsMeasuredRun (O.has_seen observer.new) ended.0.occupancy options
        (map S.remaining readers.items) (map vec_items ended.0.lines.items)
        ended.0.failures.items (is_complete ended.0 ended.1) ended.1.stop) }
    ensures capacity { IfOk result
        (λ ended. All (HasCapacity options.capacity) ended.0.clients.items) }
    ensures setting { O.setting observer.new ≡ O.setting observer.old }
{
    match options.reports {
        Reports::Asked => {
            let streams = frames_each(alloc, readers)?;
            let (outcome, _, account) = run_over(
                rt, alloc, streams, options, gatekeeper, observer,
            )?;
            Ok((outcome, account))
        }
        Reports::All => {
            let streams = asking_each(alloc, readers)?;
            let (outcome, _, account) = run_over(
                rt, alloc, streams, options, gatekeeper, observer,
            )?;
            Ok((outcome, account))
        }
    }
}

/// Runs a worker for each stream of batches, as [`run_observed`] does for those of readers. Returns
/// the streams too, each at its proxy's number. The batches are resolved as the streams give them,
/// whichever reports the options want.
pub fn run_over<
    B: Batches + Send + Drop + 'static,
    G: Gatekeeper + ShareKeeper + Send + Sync + Drop + 'static,
    R: Threads + Wait + Copy + Send + 'static,
    O: Observer,
>(
    rt: &R,
    alloc: Global,
    streams: Vec<B>,
    options: Options,
    gatekeeper: &Arc<G, Global>,
    observer: &mut O,
) -> Result<(RunOutcome, Vec<B>, Account), StartError>
    requires least { 1 ≤ vec_len streams }
    requires most { vec_len streams ≤ MAX_PROXIES }
    requires fresh { All (λ batches. B.refusal batches ≡ None) streams.items }
    ensures run { IfOk result (λ ended. IsRunOver B.gives B.is_at_end B.is_at_fault
        (EndsAt B.stays ended.1.items) options streams.items (map vec_items ended.0.lines.items)
        ended.0.failures.items (is_complete ended.0 ended.2) ended.2.stop) }
    ensures observed { IfOk result (λ ended. O.has_seen observer.old []
        → IsObservedRunOver B.gives B.is_at_end B.is_at_fault
        (EndsAt B.stays ended.1.items) (O.has_seen observer.new) options streams.items
        (map vec_items ended.0.lines.items)
        ended.0.failures.items (is_complete ended.0 ended.2) ended.2.stop) }
    ensures measured { IfOk result (λ ended. O.has_seen observer.old []
        → IsMeasuredRunOver B.gives B.is_at_end B.is_at_fault
        (EndsAt B.stays ended.1.items) (O.has_seen observer.new) ended.0.occupancy options
        streams.items (map vec_items ended.0.lines.items)
        ended.0.failures.items (is_complete ended.0 ended.2) ended.2.stop) }
    ensures streams { IfOk result (λ ended. vec_len ended.1 ≡ vec_len streams) }
    ensures capacity { IfOk result
        (λ ended. All (HasCapacity options.capacity) ended.0.clients.items) }
    ensures setting { O.setting observer.new ≡ O.setting observer.old }
{
    let (mut resolver, clients) = open_resolver(alloc, streams.len(), options)?;
    run_workers(
        rt,
        alloc,
        options.style,
        streams,
        clients,
        &mut resolver,
        gatekeeper,
        observer,
    )
}

// Starts a worker for each of these clients and its stream, turns the resolver to its end, joins
// the workers and settles their clients. The memory for what they return is taken before the first
// one is started.
fn run_workers<
    B: Batches + Send + Drop + 'static,
    G: Gatekeeper + ShareKeeper + Send + Sync + Drop + 'static,
    R: Threads + Wait + Copy + Send + 'static,
    O: Observer,
>(
    rt: &R,
    alloc: Global,
    style: Style,
    streams: Vec<B>,
    clients: Vec<Client>,
    resolver: &mut Resolver,
    gatekeeper: &Arc<G, Global>,
    observer: &mut O,
) -> Result<(RunOutcome, Vec<B>, Account), StartError>
    requires some { 1 ≤ vec_len streams }
    requires each { vec_len streams ≡ vec_len clients }
    requires fresh { All (λ batches. B.refusal batches ≡ None) streams.items }
    requires clients { AreClients resolver.old.lanes clients.items }
    ensures ended { IfOk result (λ ended.
        (joined : HasJoined B.gives B.is_at_end B.is_at_fault B.stays
        (given_each style (share_of (vec_len streams)) 0 clients.items streams.items)
        ended.0 ended.1.items)
        × IsAccountFrom resolver.old (O.has_seen observer.old []) (O.has_seen observer.new)
        ended.0.occupancy (returned_clients joined.workers) ended.2) }
    ensures setting { O.setting observer.new ≡ O.setting observer.old }
{
    let (outcome, ended, mut watch) = make_room(alloc, streams.len())?;
    let workers = start_workers(rt, alloc, style, streams, clients, gatekeeper)?;
    let occupancy = turn_to_end(rt, resolver, &**gatekeeper, &mut watch, observer);
    let (mut outcome, ended) = join_all(rt, workers, outcome, ended);
    outcome.occupancy = occupancy;
    let account = resolver.settle(outcome.clients.as_mut_slice());
    Ok((outcome, ended, account))
}

// Turns the resolver until it is done; after a stop, until a turn leaves nothing owed. If all
// proxies wait for each other, a batch is admitted. Returns how full the resolver was.
fn turn_to_end<G: ShareKeeper, R: Wait, O: Observer>(
    rt: &R,
    resolver: &mut Resolver,
    gatekeeper: &G,
    watch: &mut Watch,
    observer: &mut O,
) -> Occupancy
    ensures through { IsThrough resolver.new }
    ensures closed { (proxy : ℕ) (l : Lanes) → slice_get resolver.new.lanes proxy ≡ Some l
        → l.replies.closed ≡ true }
    ensures accounted { IsAccountedFor resolver.old → IsAccountedFor resolver.new }
    ensures measured { StandsOver resolver.old [] → resolver.old.core.stop ≡ None
        → O.has_seen observer.old [] → IsMeasured (O.has_seen observer.new) result resolver.new }
    ensures boundaries { resolver.new.core.stop ≡ None
        → result.boundaries ≡ length resolver.new.core.set.map.boundaries }
    ensures setting { O.setting observer.new ≡ O.setting observer.old }
    ensures resolving { IsResolving resolver.old → IsResolving resolver.new }
    ensures continues { Continues resolver.old.core resolver.new.core }
    ensures lanes { Each (λ _ l m. LanesContinue l m) resolver.old.lanes resolver.new.lanes }
{
    let mut occupancy = Occupancy::new(resolver.boundaries());
    for _ in rt.forever() {
        match turn_and_note(resolver, observer, &mut occupancy) {
            Ok(Turn::Took(_)) => watch.forget(),
            Ok(Turn::Idle) => {
                admit(resolver, gatekeeper, watch);
                thread::yield_now();
            }
            Ok(Turn::Done) => return occupancy,
            Err(_) if resolver.owed() == 0 => return occupancy,
            Err(_) => thread::yield_now(),
        }
    }
    unreachable!()
}

// Takes a turn, and notes how full the resolver is after it, unless a stop was met.
fn turn_and_note<O: Observer>(
    resolver: &mut Resolver,
    observer: &mut O,
    occupancy: &mut Occupancy,
) -> Result<Turn, Stop>
    ensures turns { Turns result resolver.old resolver.new }
    ensures measured { IsMeasured (O.has_seen observer.old) occupancy.old resolver.old
        → IsMeasured (O.has_seen observer.new) occupancy.new resolver.new }
    ensures boundaries { resolver.new.core.stop ≡ None
        → occupancy.new.boundaries ≡ length resolver.new.core.set.map.boundaries }
    ensures setting { O.setting observer.new ≡ O.setting observer.old }
{
    let turn = resolver.turn_observed(observer);
    if turn.is_err() {
        return turn;
    }
    occupancy.note(resolver.held(), resolver.boundaries());
    turn
}

/// Admits the batch of the proxy that is next, after a turn that took nothing. If all proxies have
/// reported the same twice, with such a turn in between, all of it is true at one moment. None of
/// them has continued in between, and everything that they sent was taken.
pub fn admit<G: ShareKeeper>(resolver: &Resolver, gatekeeper: &G, watch: &mut Watch)
    ensures proxies { length watch.new.reported ≡ length watch.old.reported }
{
    if resolver.owed() > 0 {
        return;
    }
    if let Some(proxy) = watch.look(resolver, gatekeeper) {
        admit_next(gatekeeper, watch, proxy);
        watch.forget();
    }
}

// Admits the batch of the proxy that is next by the last look, if all wait for each other.
fn admit_next<G: ShareKeeper>(gatekeeper: &G, watch: &Watch, proxy: usize)
    requires waits { AllWait watch.now.reported watch.now.sent }
    requires next { IsNext watch.now.reported proxy }
{
    gatekeeper.admit(proxy);
}
