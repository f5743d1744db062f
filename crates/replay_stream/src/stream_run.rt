//! A stream: senders read and send, and recorders write records, while this thread turns the
//! resolver and prints the answers.

ghost use Rattle.std.specs.Prelude.{◌≡◌, ◌≤◌, ◌&&◌, [], is_some, map, negsuc, vec_capacity};
ghost use Rattle.std.specs.Prelude.{vec_len, IfOk, IsTrue, OnErr};
ghost use Rattle.std.specs.List.{All};
ghost use Rattle.limits.specs.declared.settings.TheConstants.{MAX_PROXIES};
ghost use Rattle.replay_stream.specs.Recorder.{is_unwritten, unwritten_cause};
ghost use Rattle.replay_stream.specs.Streaming.{HaveRecords, IsStreamed, recorded_each};
ghost use Rattle.resolver.specs.Opens.{Opens};
ghost use Rattle.replay_stream.specs.Ending.{EndsStream, ResolverContinues, RunsThrough};
ghost use Rattle.replay_stream.specs.Outlet.{AreNumbered, HavePassedAll, StreamsOn};
ghost use Rattle.replay_stream.specs.Proxies.{AreEnds, IsNewOutlet, IsStreamedOf};
ghost use Rattle.replay_stream.specs.Proxies.{given_proxies, given_with, outlets_of, threads_of};
ghost use Rattle.replay_stream.specs.Sinks.{state_by};

use crate::outlet::{Passed, Printer};
use crate::proxies::{Proxy, connect_all, join_all, start_all};
use crate::streamed::Streamed;
use replay_output::{Options, StartError, Style};
use replay_workers::{Gatekeeper, ShareKeeper, Watch, admit, open_resolver};
use resolver::{Account, Client, Resolver, Turn};
use std::alloc::Global;
use std::sync::{Arc, Wait};
use std::thread;
use std::thread::Threads;
use wire::{Sink, Source};

/// Runs a sender for each reader, and a recorder for each writer of records, each in its own
/// thread. Turns the resolver until it is done or has stopped, and prints each answer as it comes.
/// `records` has the writer of each proxy, if there is one, at its number.
///
/// Returns what became of the proxies, and the account of the resolver. Once a thread was started,
/// this one takes no memory but in turns, in starting threads and for the line of an answer. After
/// an error no thread is joined.
pub fn run_stream<
    S: Source + Send + Drop + 'static,
    W: Sink + Send + Drop + 'static,
    G: Gatekeeper + ShareKeeper + Send + Sync + Drop + 'static,
    R: Threads + Wait + Copy + Send + 'static,
    O: Sink,
>(
    rt: &R,
    alloc: Global,
    readers: Vec<S>,
    records: Vec<Option<W>>,
    options: Options,
    gatekeeper: &Arc<G, Global>,
    out: &mut O,
) -> Result<(Streamed<W>, Account), StartError>
    requires least_readers { 1 ≤ vec_len readers }
    requires most_readers { vec_len readers ≤ MAX_PROXIES }
    requires as_many { vec_len records ≡ vec_len readers }
    ensures run { IfOk result (λ ended. IsStreamed options (map S.remaining readers.items)
        (map is_some records.items) (state_by O.given O.failures out.old)
        (state_by O.given O.failures out.new) ended.0.failed ended.0.failures.items
        (recorded_each (state_by W.given W.failures) records.items ended.0.recorders.items)
        (ended.1.complete && ended.0.all_sent) ended.1.stop) }
    ensures unwritten { IfOk result (λ ended. ended.0.unwritten.items
        ≡ map (λ recorder. is_unwritten (unwritten_cause recorder)) ended.0.recorders.items) }
    ensures recorders { IfOk result (λ ended.
        HaveRecords (map is_some records.items) ended.0.recorders.items) }
    ensures nothing { OnErr result (state_by O.given O.failures out.new
        ≡ state_by O.given O.failures out.old) }
{
    let (mut resolver, clients) = open_resolver(alloc, readers.len(), options)?;
    stream_through(
        rt,
        alloc,
        readers,
        records,
        options,
        clients,
        &mut resolver,
        gatekeeper,
        out,
    )
}

// Runs a new resolver: starts the threads of all proxies, turns it to its end, joins the threads
// and settles the account. Takes all other memory before it starts a thread.
fn stream_through<
    S: Source + Send + Drop + 'static,
    W: Sink + Send + Drop + 'static,
    G: Gatekeeper + ShareKeeper + Send + Sync + Drop + 'static,
    R: Threads + Wait + Copy + Send + 'static,
    O: Sink,
>(
    rt: &R,
    alloc: Global,
    readers: Vec<S>,
    records: Vec<Option<W>>,
    options: Options,
    clients: Vec<Client>,
    resolver: &mut Resolver,
    gatekeeper: &Arc<G, Global>,
    out: &mut O,
) -> Result<(Streamed<W>, Account), StartError>
    requires least_readers { 1 ≤ vec_len readers }
    requires as_many { vec_len records ≡ vec_len readers }
    requires opens { Opens (negsuc 0) (vec_len readers) options.capacity options.window
        options.limit resolver.old clients.items }
    ensures run { IfOk result (λ ended. IsStreamed options (map S.remaining readers.items)
        (map is_some records.items) (state_by O.given O.failures out.old)
        (state_by O.given O.failures out.new) ended.0.failed ended.0.failures.items
        (recorded_each (state_by W.given W.failures) records.items ended.0.recorders.items)
        (ended.1.complete && ended.0.all_sent) ended.1.stop) }
    ensures unwritten { IfOk result (λ ended. ended.0.unwritten.items
        ≡ map (λ recorder. is_unwritten (unwritten_cause recorder)) ended.0.recorders.items) }
    ensures recorders { IfOk result (λ ended.
        HaveRecords (map is_some records.items) ended.0.recorders.items) }
    ensures nothing { OnErr result (state_by O.given O.failures out.new
        ≡ state_by O.given O.failures out.old) }
{
    let count = clients.len();
    let mut watch = Watch::new(alloc, count)?;
    let streamed = Streamed::with_room(alloc, count)?;
    let proxies = start_proxies(rt, alloc, options, readers, records, clients, gatekeeper)?;
    let mut streamed = run_to_end(
        rt,
        alloc,
        options.style,
        resolver,
        &**gatekeeper,
        &mut watch,
        proxies,
        streamed,
        out,
    );
    let account = resolver.settle(streamed.clients.as_mut_slice());
    Ok((streamed, account))
}

// Makes the outlet of each proxy, and starts its threads. After an error no thread is joined.
fn start_proxies<
    S: Source + Send + Drop + 'static,
    W: Sink + Send + Drop + 'static,
    G: Gatekeeper + ShareKeeper + Send + Sync + Drop + 'static,
    R: Threads + Wait + Copy + Send + 'static,
>(
    rt: &R,
    alloc: Global,
    options: Options,
    readers: Vec<S>,
    records: Vec<Option<W>>,
    clients: Vec<Client>,
    gatekeeper: &Arc<G, Global>,
) -> Result<Vec<Proxy<S, W>>, StartError>
    requires some { 1 ≤ vec_len readers }
    requires readers { vec_len readers ≡ vec_len clients }
    requires records { vec_len records ≡ vec_len clients }
    ensures given { IfOk result (λ proxies.
        map (λ proxy. given_with proxy.outlet (threads_of proxy)) proxies.items
        ≡ given_proxies options.reports 0 clients.items readers.items records.items) }
    ensures new { IfOk result (λ proxies. All (λ proxy.
        IsNewOutlet proxy.outlet (threads_of proxy).answers) proxies.items) }
{
    let tasks = connect_all(alloc, options, readers, records, clients, gatekeeper)?;
    let proxies = start_all(rt, alloc, tasks)?;
    Ok(proxies)
}

// Turns the resolver until all outlets have ended, and joins all threads.
fn run_to_end<S: Source, W: Sink + Drop, G: Gatekeeper + ShareKeeper, R: Threads + Wait, O: Sink>(
    rt: &R,
    alloc: Global,
    style: Style,
    resolver: &mut Resolver,
    gatekeeper: &G,
    watch: &mut Watch,
    proxies: Vec<Proxy<S, W>>,
    streamed: Streamed<W>,
    out: &mut O,
) -> Streamed<W>
    requires numbered { AreNumbered (outlets_of proxies.items) }
    requires ends { All (λ proxy. AreEnds proxy.outlet.records (threads_of proxy).answers)
        proxies.items }
    requires empty { IsStreamedOf [] streamed }
    requires room { vec_len proxies ≤ vec_capacity streamed.clients }
    ensures runs { RunsThrough resolver.old resolver.new }
    ensures ends { EndsStream S.remaining (state_by W.given W.failures) style
        (state_by O.given O.failures out.old) (state_by O.given O.failures out.new) proxies.items
        result }
{
    let mut proxies = proxies;
    let mut printer = Printer::new(alloc, style);
    turn_to_end(
        rt,
        resolver,
        gatekeeper,
        watch,
        &mut proxies,
        &mut printer,
        out,
    );
    let mut streamed = streamed;
    streamed.failed = printer.failed;
    join_all(rt, proxies, streamed)
}

// Turns the resolver until it is through. Before each turn it passes on the answers that have come.
// Returns once all answers were passed on.
fn turn_to_end<S: Source, W: Sink, G: Gatekeeper + ShareKeeper, R: Wait, O: Sink>(
    rt: &R,
    resolver: &mut Resolver,
    gatekeeper: &G,
    watch: &mut Watch,
    proxies: &mut [Proxy<S, W>],
    printer: &mut Printer,
    out: &mut O,
)
    requires numbered { AreNumbered (outlets_of proxies.old) }
    ensures runs { RunsThrough resolver.old resolver.new }
    ensures streams { StreamsOn printer.old.style printer.old.failed printer.new.failed
        (state_by O.given O.failures out.old)
        (state_by O.given O.failures out.new) (outlets_of proxies.old) (outlets_of proxies.new) }
    ensures threads { map threads_of proxies.new ≡ map threads_of proxies.old }
    ensures passed { HavePassedAll (outlets_of proxies.new) }
{
    for _ in rt.forever() {
        let ended = pass_each(proxies, printer, out, gatekeeper);
        let through = take_turn(resolver, gatekeeper, watch);
        if ended && through {
            return;
        }
    }
    unreachable!()
}

// Takes a turn. After an idle one it admits a batch if all proxies wait for each other. Lets other
// threads run unless a batch was taken. Returns whether nothing is left to do: the resolver is
// done, or it has stopped and owes no answer.
fn take_turn<G: ShareKeeper>(resolver: &mut Resolver, gatekeeper: &G, watch: &mut Watch) -> bool
    ensures continues { ResolverContinues resolver.old resolver.new }
    ensures through { IsTrue result → RunsThrough resolver.old resolver.new }
{
    match resolver.turn() {
        Ok(Turn::Took(_)) => {
            watch.forget();
            false
        }
        Ok(Turn::Idle) => {
            admit(resolver, gatekeeper, watch);
            thread::yield_now();
            false
        }
        Ok(Turn::Done) => {
            thread::yield_now();
            true
        }
        Err(_) => {
            thread::yield_now();
            resolver.owed() == 0
        }
    }
}

// Passes on at most one answer of each proxy. Returns whether all outlets have ended.
#[tactic(auto, using(crate::proofs::Rounds::numbered_stay, crate::proofs::Rounds::passed_to, crate::proofs::Rounds::streams_at, crate::proofs::Rounds::threads_stay))]
fn pass_each<S: Source, W: Sink, G: Gatekeeper, O: Sink>(
    proxies: &mut [Proxy<S, W>],
    printer: &mut Printer,
    out: &mut O,
    gatekeeper: &G,
) -> bool
    requires numbered { AreNumbered (outlets_of proxies.old) }
    ensures style { printer.new.style ≡ printer.old.style }
    ensures numbered { AreNumbered (outlets_of proxies.new) }
    ensures threads { map threads_of proxies.new ≡ map threads_of proxies.old }
    ensures streams { StreamsOn printer.old.style printer.old.failed printer.new.failed
        (state_by O.given O.failures out.old)
        (state_by O.given O.failures out.new) (outlets_of proxies.old) (outlets_of proxies.new) }
    ensures passed { IsTrue result → HavePassedAll (outlets_of proxies.new) }
{
    let mut ended = true;
    for proxy in 0..proxies.len() {
        match proxies[proxy].outlet.pass(printer, out, gatekeeper) {
            Passed::Ended => {}
            Passed::Took | Passed::Waits => ended = false,
        }
    }
    ended
}
