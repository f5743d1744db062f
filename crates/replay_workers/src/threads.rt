//! The threads: a worker for each stream of batches.

ghost use Rattle.std.specs.Prelude.{◌≡◌, ◌≤◌, List, map, vec_len, vec_capacity, [], IfErr, IfOk};
ghost use Rattle.std.specs.Prelude.{None};
ghost use Rattle.std.specs.List.{All, AllZip};
ghost use Rattle.resolver.specs.Share.{share_of};
ghost use Rattle.replay_workers.specs.declared.threads.Worked.{Worked as ReturnedWorker};
ghost use Rattle.wire.specs.Batches.{EndsWith};
ghost use Rattle.replay_workers.specs.Worker.{HasWorkedOver};
ghost use Rattle.replay_workers.specs.Threads.{given_each, given_by, given_to, HasWorkedOn};
ghost use Rattle.replay_workers.specs.Threads.{IsOutcomeOf, finished_of, streams_of};

use crate::gatekeeper::{Gatekeeper, ShareKeeper};
use crate::outcome::RunOutcome;
use crate::worker::{Assignment, Finished, work_over};
use replay_output::{StartError, Style};
use resolver::{Client, share};
use std::alloc::{AllocError, Global};
use std::snapshot::Snapshot;
use std::sync::{Arc, Wait};
use std::thread;
use std::thread::{Promise, PromisedHandle, Threads};
use wire::Batches;

/// What a worker returns, and the stream that it was given.
#[derive(Drop)]
pub struct Worked<B> {
    pub finished: Finished,
    pub batches: B,
}

// Promises what a worker does with its task.
#[derive(Drop)]
struct Work<B> {
    assignment: Assignment,
    client: Snapshot<Client>,
    batches: Snapshot<B>,
}

impl<B: Batches> Promise<Worked<B>> for Work<B> {
    ghost kept_by = { λ work worked. HasWorkedOver B.gives B.is_at_end B.is_at_fault
        (λ left. EndsWith B.stays left worked.batches) work.assignment.style
        work.assignment.proxy work.batches.value work.client.value worked.finished };
}

/// A worker that was started, and what it was given.
#[derive(Drop)]
pub struct StartedWorkers<B: Batches> {
    handle: PromisedHandle<Worked<B>, Work<B>>,
}

// What a worker is started with.
#[derive(Drop)]
struct WorkerTask<B, G> {
    assignment: Assignment,
    client: Client,
    batches: B,
    gatekeeper: Arc<G, Global>,
}

impl<B: Batches + Drop, G: Gatekeeper + ShareKeeper + Drop> WorkerTask<B, G> {
    fn run<R: Wait>(self, rt: &R, alloc: Global) -> Worked<B>
        requires fresh { B.refusal self.batches ≡ None }
        ensures worked { HasWorkedOn B.gives B.is_at_end B.is_at_fault B.stays (given_by self)
            result }
    {
        let WorkerTask {
            assignment,
            client,
            batches,
            gatekeeper,
        } = self;
        let mut batches = batches;
        let finished = work_over(rt, alloc, assignment, client, &mut batches, &*gatekeeper);
        Worked { finished, batches }
    }
}

/// Starts a worker for each stream, with the client at the same place, whose number is its proxy's.
/// They make lines of this style.
///
/// After an error the workers that were started are not joined.
pub fn start_workers<
    B: Batches + Send + Drop + 'static,
    G: Gatekeeper + ShareKeeper + Send + Sync + Drop + 'static,
    R: Threads + Wait + Copy + Send + 'static,
>(
    rt: &R,
    alloc: Global,
    style: Style,
    streams: Vec<B>,
    clients: Vec<Client>,
    gatekeeper: &Arc<G, Global>,
) -> Result<Vec<StartedWorkers<B>>, StartError>
    requires some { 1 ≤ vec_len streams }
    requires each { vec_len streams ≡ vec_len clients }
    requires fresh { All (λ batches. B.refusal batches ≡ None) streams.items }
    ensures given { IfOk result (λ workers.
        map given_to workers.items ≡ given_each style (share_of (vec_len streams)) 0 clients.items
        streams.items) }
{
    let share = share(streams.len());
    let tasks = make_tasks(alloc, style, share, streams, clients, gatekeeper)?;
    let mut workers = Vec::with_capacity(alloc, tasks.len())?;
    for task in tasks {
        workers.push_reserved(start(rt, alloc, task)?);
    }
    Ok(workers)
}

// Takes all memory that main needs before the first thread is started.
fn make_tasks<B: Drop, G: Drop>(
    alloc: Global,
    style: Style,
    share: u64,
    streams: Vec<B>,
    clients: Vec<Client>,
    gatekeeper: &Arc<G, Global>,
) -> Result<Vec<WorkerTask<B, G>>, AllocError>
    requires each { vec_len streams ≡ vec_len clients }
    ensures given { IfOk result (λ tasks. map given_by tasks.items
        ≡ given_each style share 0 clients.items streams.items) }
{
    let mut tasks = Vec::with_capacity(alloc, clients.len())?;
    let mut streams = streams.into_iter();
    for client in clients {
        let Some(batches) = streams.next() else {
            unreachable!()
        };
        let assignment = Assignment {
            proxy: tasks.len(),
            share,
            style,
        };
        tasks.push_reserved(make_task(assignment, client, batches, gatekeeper)?);
    }
    Ok(tasks)
}

fn make_task<B: Drop, G: Drop>(
    assignment: Assignment,
    client: Client,
    batches: B,
    gatekeeper: &Arc<G, Global>,
) -> Result<WorkerTask<B, G>, AllocError>
    ensures assignment { IfOk result (λ task. task.assignment ≡ assignment) }
    ensures client { IfOk result (λ task. task.client ≡ client) }
    ensures batches { IfOk result (λ task. task.batches ≡ batches) }
{
    Ok(WorkerTask {
        assignment,
        client,
        batches,
        gatekeeper: Arc::try_clone(gatekeeper)?,
    })
}

fn start<
    B: Batches + Send + Drop + 'static,
    G: Gatekeeper + ShareKeeper + Send + Sync + Drop + 'static,
    R: Threads + Wait + Copy + Send + 'static,
>(rt: &R, alloc: Global, task: WorkerTask<B, G>) -> Result<StartedWorkers<B>, StartError>
    requires fresh { B.refusal task.batches ≡ None }
    ensures given { IfOk result (λ worker. given_to worker ≡ given_by task) }
    ensures thread { IfErr result (λ cause. cause ≡ StartError.Thread) }
{
    let there = *rt;
    let promise = Work {
        assignment: task.assignment,
        client: Snapshot::of(&task.client),
        batches: Snapshot::of(&task.batches),
    };
    let run = move || -> Worked<B>
        requires fresh { B.refusal task.batches ≡ None }
        ensures worked { HasWorkedOn B.gives B.is_at_end B.is_at_fault B.stays (given_by task)
            result }
    { task.run(&there, alloc) };
    match thread::spawn_with(rt, promise, run) {
        Ok(handle) => Ok(StartedWorkers { handle }),
        Err(_) => Err(StartError::Thread),
    }
}

/// Joins all workers. Puts their results into the outcome and their streams into the vector, in
/// order. Takes no memory.
pub fn join_all<B: Batches + Drop, R: Threads>(
    rt: &R,
    workers: Vec<StartedWorkers<B>>,
    outcome: RunOutcome,
    streams: Vec<B>,
) -> (RunOutcome, Vec<B>)
    requires empty { IsOutcomeOf [] outcome }
    requires none { streams.items ≡ [] }
    requires room { vec_len workers ≤ vec_capacity outcome.clients }
    requires streams_room { vec_len workers ≤ vec_capacity streams }
    ensures worked { (each : List (ReturnedWorker B))
        × AllZip (HasWorkedOn B.gives B.is_at_end B.is_at_fault B.stays)
        (map given_to workers.items) each
        × IsOutcomeOf (finished_of each) result.0
        × (result.1.items ≡ streams_of each) }
{
    let mut outcome = outcome;
    let mut streams = streams;
    for worker in workers {
        let Worked { finished, batches } = worker.handle.join(rt);
        outcome.push(finished);
        streams.push_reserved(batches);
    }
    (outcome, streams)
}
