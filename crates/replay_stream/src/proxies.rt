//! The proxies of a stream: their lanes, outlets and threads.

ghost use Rattle.std.specs.Prelude.{◌≡◌, ◌≤◌, List, [], map, option_map, vec_len, vec_capacity};
ghost use Rattle.std.specs.Prelude.{IfOk, None};
ghost use Rattle.std.specs.List.{All, AllZip};
ghost use Rattle.replay_stream.specs.Outlet.{HavePassedAll, IsClosed};
ghost use Rattle.replay_stream.specs.Proxies.{AreEnds, AreNewEnds, IsJoined, IsNewOutlet};
ghost use Rattle.replay_stream.specs.Proxies.{IsStreamedOf, Joined, JoinsRecorder, given_proxies};
ghost use Rattle.replay_stream.specs.Proxies.{given_with, outlets_of, threads_by, threads_of};
ghost use Rattle.replay_stream.specs.Sinks.{state_by};

use crate::outlet::Outlet;
use crate::recorder::Recorder;
use crate::streamed::Streamed;
use crate::threads::{
    RecorderTask, SenderTask, StartedRecorder, StartedSender, start_recorder, start_sender,
};
use keyspace::Answer;
use lane::{Intake, agree, lane};
use replay_output::{Options, StartError};
use replay_workers::{Assignment, Gatekeeper, ShareKeeper};
use resolver::{Client, share};
use std::alloc::{AllocError, Global};
use std::sync::{Arc, Wait};
use std::thread::Threads;
use wire::{Sink, Source};

/// The outlet of a proxy, and what its threads are started with.
#[derive(Drop)]
pub struct ProxyTask<S, W, G> {
    pub outlet: Outlet,
    pub sender: SenderTask<S, G>,
    pub recorder: Option<RecorderTask<W>>,
}

/// The outlet of a proxy, and its threads.
#[derive(Drop)]
pub struct Proxy<S: Source, W: Sink> {
    pub outlet: Outlet,
    pub sender: StartedSender<S>,
    pub recorder: Option<StartedRecorder<W>>,
}

/// Makes the outlet of each proxy, and puts together what its threads are started with. Takes all
/// memory that is needed before the first thread is started.
pub fn connect_all<S: Drop, W: Drop, G: Drop>(
    alloc: Global,
    options: Options,
    readers: Vec<S>,
    records: Vec<Option<W>>,
    clients: Vec<Client>,
    gatekeeper: &Arc<G, Global>,
) -> Result<Vec<ProxyTask<S, W, G>>, AllocError>
    requires some { 1 ≤ vec_len readers }
    requires readers { vec_len readers ≡ vec_len clients }
    requires records { vec_len records ≡ vec_len clients }
    ensures given { IfOk result (λ tasks.
        map (λ task. given_with task.outlet (threads_by task)) tasks.items
        ≡ given_proxies options.reports 0 clients.items readers.items records.items) }
    ensures new { IfOk result (λ tasks. All (λ task.
        IsNewOutlet task.outlet (threads_by task).answers) tasks.items) }
{
    let share = share(readers.len());
    let mut tasks = Vec::with_capacity(alloc, clients.len())?;
    let mut readers = readers.into_iter();
    let mut records = records.into_iter();
    for client in clients {
        let Some(reader) = readers.next() else {
            unreachable!()
        };
        let Some(out) = records.next() else {
            unreachable!()
        };
        let assignment = Assignment {
            proxy: tasks.len(),
            share,
            style: options.style,
        };
        let task = connect(alloc, options, assignment, client, reader, out, gatekeeper)?;
        tasks.push_reserved(task);
    }
    Ok(tasks)
}

// Makes the outlet of a proxy, and puts together what its threads are started with.
fn connect<S: Drop, W: Drop, G: Drop>(
    alloc: Global,
    options: Options,
    assignment: Assignment,
    client: Client,
    reader: S,
    out: Option<W>,
    gatekeeper: &Arc<G, Global>,
) -> Result<ProxyTask<S, W, G>, AllocError>
    ensures given { IfOk result (λ task. given_with task.outlet (threads_by task) ≡ record {
      proxy = assignment.proxy;
      client = client;
      reader = reader;
      reports = options.reports;
      out = out;
    }) }
    ensures new { IfOk result (λ task. IsNewOutlet task.outlet (threads_by task).answers) }
{
    let Client { requests, replies } = client;
    let (outlet, recorder) = make_outlet(alloc, options, assignment.proxy, replies, out)?;
    let sender = SenderTask::new(
        assignment,
        requests,
        reader,
        options.reports,
        gatekeeper,
        &outlet.progress,
    )?;
    Ok(ProxyTask {
        outlet,
        sender,
        recorder,
    })
}

// Makes the outlet of a proxy. If it has a writer of records, a lane leads to its recorder.
fn make_outlet<W: Drop>(
    alloc: Global,
    options: Options,
    proxy: usize,
    replies: Intake<Answer>,
    out: Option<W>,
) -> Result<(Outlet, Option<RecorderTask<W>>), AllocError>
    ensures proxy { IfOk result (λ made. made.0.proxy ≡ proxy) }
    ensures replies { IfOk result (λ made. made.0.replies ≡ replies) }
    ensures out { IfOk result (λ made. option_map (λ r. r.out) made.1 ≡ out) }
    ensures new { IfOk result (λ made. IsNewOutlet made.0 (option_map (λ r. r.answers) made.1)) }
{
    let mut outlet = Outlet::new(alloc, proxy, replies)?;
    let recorder = add_recorder(alloc, options, &mut outlet, out)?;
    Ok((outlet, recorder))
}

// If there is a writer of records, connects the outlet with its recorder by a new lane. Returns
// what the recorder is started with.
fn add_recorder<W: Drop>(
    alloc: Global,
    options: Options,
    outlet: &mut Outlet,
    out: Option<W>,
) -> Result<Option<RecorderTask<W>>, AllocError>
    requires alone { outlet.old.records ≡ None }
    ensures others { outlet.new ≡ record outlet.old { records = outlet.new.records } }
    ensures ends { IfOk result (λ recorder.
        AreNewEnds outlet.new.records (option_map (λ r. r.answers) recorder)) }
    ensures out { IfOk result (λ recorder. option_map (λ r. r.out) recorder ≡ out) }
{
    let Some(out) = out else {
        return Ok(None);
    };
    let Ok((port, answers)) = lane(alloc, options.capacity) else {
        return Err(AllocError);
    };
    let progress = Arc::try_clone(&outlet.progress)?;
    outlet.records = Some(port);
    Ok(Some(RecorderTask {
        answers,
        out,
        progress,
    }))
}

/// Starts the threads of all proxies. After an error the threads that were started are not joined.
pub fn start_all<
    S: Source + Send + Drop + 'static,
    W: Sink + Send + Drop + 'static,
    G: Gatekeeper + ShareKeeper + Send + Sync + Drop + 'static,
    R: Threads + Wait + Copy + Send + 'static,
>(rt: &R, alloc: Global, tasks: Vec<ProxyTask<S, W, G>>) -> Result<Vec<Proxy<S, W>>, StartError>
    ensures outlets { IfOk result (λ proxies. outlets_of proxies.items
        ≡ map (λ task. task.outlet) tasks.items) }
    ensures threads { IfOk result (λ proxies. map threads_of proxies.items
        ≡ map threads_by tasks.items) }
{
    let mut proxies = Vec::with_capacity(alloc, tasks.len())?;
    for task in tasks {
        proxies.push_reserved(start(rt, alloc, task)?);
    }
    Ok(proxies)
}

// Starts the threads of a proxy.
fn start<
    S: Source + Send + Drop + 'static,
    W: Sink + Send + Drop + 'static,
    G: Gatekeeper + ShareKeeper + Send + Sync + Drop + 'static,
    R: Threads + Wait + Copy + Send + 'static,
>(rt: &R, alloc: Global, task: ProxyTask<S, W, G>) -> Result<Proxy<S, W>, StartError>
    ensures outlet { IfOk result (λ proxy. proxy.outlet ≡ task.outlet) }
    ensures threads { IfOk result (λ proxy. threads_of proxy ≡ threads_by task) }
{
    let ProxyTask {
        outlet,
        sender,
        recorder,
    } = task;
    let (sender, recorder) = start_threads(rt, alloc, sender, recorder)?;
    Ok(Proxy {
        outlet,
        sender,
        recorder,
    })
}

// Starts a sender, and a recorder if there is one.
fn start_threads<
    S: Source + Send + Drop + 'static,
    W: Sink + Send + Drop + 'static,
    G: Gatekeeper + ShareKeeper + Send + Sync + Drop + 'static,
    R: Threads + Wait + Copy + Send + 'static,
>(
    rt: &R,
    alloc: Global,
    sender: SenderTask<S, G>,
    recorder: Option<RecorderTask<W>>,
) -> Result<(StartedSender<S>, Option<StartedRecorder<W>>), StartError>
    ensures requests { IfOk result (λ started. started.0.handle.promise.requests.value
        ≡ sender.requests) }
    ensures reader { IfOk result (λ started. started.0.handle.promise.reader.value
        ≡ sender.reader) }
    ensures reports { IfOk result (λ started. started.0.handle.promise.reports
        ≡ sender.reports) }
    ensures answers { IfOk result (λ started.
        option_map (λ r. r.handle.promise.answers.value) started.1
        ≡ option_map (λ r. r.answers) recorder) }
    ensures out { IfOk result (λ started. option_map (λ r. r.handle.promise.out.value) started.1
        ≡ option_map (λ r. r.out) recorder) }
{
    let recorder = match recorder {
        None => None,
        Some(recorder) => Some(start_recorder(rt, alloc, recorder)?),
    };
    let sender = start_sender(rt, alloc, sender)?;
    Ok((sender, recorder))
}

/// Joins all threads, and puts their results and the outlets into the outcome, in order. Takes no
/// memory.
pub fn join_all<S: Source, W: Sink + Drop, R: Threads>(
    rt: &R,
    proxies: Vec<Proxy<S, W>>,
    streamed: Streamed<W>,
) -> Streamed<W>
    requires empty { IsStreamedOf [] streamed }
    requires room { vec_len proxies ≤ vec_capacity streamed.clients }
    requires ends { All (λ proxy. AreEnds proxy.outlet.records (threads_of proxy).answers)
        proxies.items }
    requires passed { HavePassedAll (outlets_of proxies.items) }
    ensures joined { (joined : List (Joined W))
        × AllZip (IsJoined S.remaining (state_by W.given W.failures)) proxies.items joined
        × IsStreamedOf joined result }
    ensures failed { result.failed ≡ streamed.failed }
{
    let mut streamed = streamed;
    for proxy in proxies {
        let Proxy {
            outlet,
            sender,
            recorder,
        } = proxy;
        let mut outlet = outlet;
        let recorder = join_recorder(rt, &mut outlet, recorder);
        streamed.push(sender.join(rt), outlet, recorder);
    }
    streamed
}

// Joins the recorder of a proxy, if it has one. Both ends of its lane agree then.
#[tactic(auto, using(crate::proofs::Joining::agreed, crate::proofs::Joining::joins_nothing, crate::proofs::Joining::still_ends))]
fn join_recorder<W: Sink + Drop, R: Threads>(
    rt: &R,
    outlet: &mut Outlet,
    recorder: Option<StartedRecorder<W>>,
) -> Option<Recorder<W>>
    requires ends { AreEnds outlet.old.records (option_map (λ r. r.handle.promise.answers.value)
        recorder) }
    requires closed { IsClosed outlet.old.records }
    ensures outlet { outlet.new ≡ record outlet.old { records = outlet.new.records } }
    ensures joins { JoinsRecorder (state_by W.given W.failures)
        (option_map (λ r. r.handle.promise.out.value) recorder)
        (option_map (λ r. r.handle.promise.answers.value) recorder) outlet.old.records
        outlet.new.records result }
{
    let Some(recorder) = recorder else {
        return None;
    };
    let mut recorder = recorder.join(rt);
    if let Some(port) = &mut outlet.records {
        agree(port, &mut recorder.answers);
    }
    Some(recorder)
}
