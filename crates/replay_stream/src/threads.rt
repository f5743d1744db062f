//! The threads of a stream: a sender for each file, and a recorder for each writer of records.

ghost use Rattle.std.specs.Prelude.{◌≡◌, IfOk, IfErr};
ghost use Rattle.replay_stream.specs.Sender.{HasSent};
ghost use Rattle.replay_stream.specs.Recorder.{HasRecorded};
ghost use Rattle.replay_stream.specs.Sinks.{state_by};

use crate::progress::AnswerProgress;
use crate::recorder::{Recorder, record_all};
use crate::sender::{Sent, send_all};
use keyspace::{Answer, Batch};
use lane::{Intake, Port};
use replay_output::{Reports, StartError};
use replay_workers::{Assignment, Gatekeeper, ShareKeeper};
use std::alloc::{AllocError, Global};
use std::snapshot::Snapshot;
use std::sync::{Arc, Wait};
use std::thread;
use std::thread::{Promise, PromisedHandle, Threads};
use wire::{Sink, Source};

/// What a sender is started with.
#[derive(Drop)]
pub struct SenderTask<S, G> {
    pub assignment: Assignment,
    pub requests: Port<Batch>,
    pub reader: S,
    pub reports: Reports,
    pub gatekeeper: Arc<G, Global>,
    pub progress: Arc<AnswerProgress, Global>,
}

/// What a recorder is started with.
#[derive(Drop)]
pub struct RecorderTask<W> {
    pub answers: Intake<Answer>,
    pub out: W,
    pub progress: Arc<AnswerProgress, Global>,
}

// Promises what a sender does with its task.
#[derive(Drop)]
struct Sending<S> {
    requests: Snapshot<Port<Batch>>,
    reader: Snapshot<S>,
    reports: Reports,
}

impl<S: Source> Promise<Sent> for Sending<S> {
    ghost kept_by = { λ work sent.
        HasSent work.reports (S.remaining work.reader.value) work.requests.value sent };
}

// Promises what a recorder does with its task.
#[derive(Drop)]
struct Recording<W> {
    answers: Snapshot<Intake<Answer>>,
    out: Snapshot<W>,
}

impl<W: Sink> Promise<Recorder<W>> for Recording<W> {
    ghost kept_by = { λ work recorder.
        HasRecorded (state_by W.given W.failures) work.answers.value work.out.value recorder };
}

/// A sender that was started, and what it was given.
#[derive(Drop)]
pub struct StartedSender<S: Source> {
    handle: PromisedHandle<Sent, Sending<S>>,
}

/// A recorder that was started, and what it was given.
#[derive(Drop)]
pub struct StartedRecorder<W: Sink> {
    handle: PromisedHandle<Recorder<W>, Recording<W>>,
}

impl<S: Drop, G: Drop> SenderTask<S, G> {
    /// Creates the task of a sender, with its own handles to what it shares with other threads.
    pub fn new(
        assignment: Assignment,
        requests: Port<Batch>,
        reader: S,
        reports: Reports,
        gatekeeper: &Arc<G, Global>,
        progress: &Arc<AnswerProgress, Global>,
    ) -> Result<Self, AllocError>
        ensures requests { IfOk result (λ task. task.requests ≡ requests) }
        ensures reader { IfOk result (λ task. task.reader ≡ reader) }
        ensures reports { IfOk result (λ task. task.reports ≡ reports) }
    {
        Ok(SenderTask {
            assignment,
            requests,
            reader,
            reports,
            gatekeeper: Arc::try_clone(gatekeeper)?,
            progress: Arc::try_clone(progress)?,
        })
    }
}

impl<S: Source + Drop, G: Gatekeeper + ShareKeeper + Drop> SenderTask<S, G> {
    fn run<R: Wait>(self, rt: &R, alloc: Global) -> Sent
        ensures sent { HasSent self.reports (S.remaining self.reader) self.requests result }
    {
        let SenderTask {
            assignment,
            requests,
            reader,
            reports,
            gatekeeper,
            progress,
        } = self;
        send_all(
            rt,
            alloc,
            assignment,
            requests,
            reader,
            reports,
            &*gatekeeper,
            &*progress,
        )
    }
}

impl<W: Sink + Drop> RecorderTask<W> {
    fn run<R: Wait>(self, rt: &R, alloc: Global) -> Recorder<W>
        ensures recorded { HasRecorded (state_by W.given W.failures) self.answers self.out result }
    {
        let RecorderTask {
            answers,
            out,
            progress,
        } = self;
        record_all(rt, alloc, answers, out, &*progress)
    }
}

/// Starts a sender.
pub fn start_sender<
    S: Source + Send + Drop + 'static,
    G: Gatekeeper + ShareKeeper + Send + Sync + Drop + 'static,
    R: Threads + Wait + Copy + Send + 'static,
>(rt: &R, alloc: Global, task: SenderTask<S, G>) -> Result<StartedSender<S>, StartError>
    ensures requests { IfOk result (λ sender. sender.handle.promise.requests.value
        ≡ task.requests) }
    ensures reader { IfOk result (λ sender. sender.handle.promise.reader.value ≡ task.reader) }
    ensures reports { IfOk result (λ sender. sender.handle.promise.reports ≡ task.reports) }
    ensures thread { IfErr result (λ cause. cause ≡ StartError.Thread) }
{
    let there = *rt;
    let promise = Sending {
        requests: Snapshot::of(&task.requests),
        reader: Snapshot::of(&task.reader),
        reports: task.reports,
    };
    let run = move || -> Sent
        ensures sent { HasSent task.reports (S.remaining task.reader) task.requests result }
    { task.run(&there, alloc) };
    match thread::spawn_with(rt, promise, run) {
        Ok(handle) => Ok(StartedSender { handle }),
        Err(_) => Err(StartError::Thread),
    }
}

/// Starts a recorder.
pub fn start_recorder<W: Sink + Send + Drop + 'static, R: Threads + Wait + Copy + Send + 'static>(
    rt: &R,
    alloc: Global,
    task: RecorderTask<W>,
) -> Result<StartedRecorder<W>, StartError>
    ensures answers { IfOk result (λ recorder. recorder.handle.promise.answers.value
        ≡ task.answers) }
    ensures out { IfOk result (λ recorder. recorder.handle.promise.out.value ≡ task.out) }
    ensures thread { IfErr result (λ cause. cause ≡ StartError.Thread) }
{
    let there = *rt;
    let promise = Recording {
        answers: Snapshot::of(&task.answers),
        out: Snapshot::of(&task.out),
    };
    let run = move || -> Recorder<W>
        ensures recorded { HasRecorded (state_by W.given W.failures) task.answers task.out result }
    { task.run(&there, alloc) };
    match thread::spawn_with(rt, promise, run) {
        Ok(handle) => Ok(StartedRecorder { handle }),
        Err(_) => Err(StartError::Thread),
    }
}

impl<S: Source> StartedSender<S> {
    /// Waits for the sender to end.
    pub fn join<R: Threads>(self, rt: &R) -> Sent
        ensures sent { HasSent self.handle.promise.reports
            (S.remaining self.handle.promise.reader.value) self.handle.promise.requests.value
            result }
    {
        self.handle.join(rt)
    }
}

impl<W: Sink> StartedRecorder<W> {
    /// Waits for the recorder to end.
    pub fn join<R: Threads>(self, rt: &R) -> Recorder<W>
        ensures recorded { HasRecorded (state_by W.given W.failures)
            self.handle.promise.answers.value self.handle.promise.out.value result }
    {
        self.handle.join(rt)
    }
}
