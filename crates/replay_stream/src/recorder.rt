//! A recorder writes the records of the answers to one proxy, in its own thread.

ghost use Rattle.std.specs.Prelude.{◌≡◌, List, [], ◌∷◌, ◌++◌};
ghost use Rattle.keyspace.specs.declared.answer.Answer.{Answer as AnswerValue};
ghost use Rattle.replay_stream.specs.Recorder.{HasRecorded, WritesRecords};
ghost use Rattle.replay_stream.specs.Sinks.{SinkState, state_by};

use crate::progress::AnswerProgress;
use keyspace::Answer;
use lane::{Intake, Taken};
use replay_output::{AnswerError, write_record};
use replay_workers::pause;
use std::alloc::Global;
use std::sync::Wait;
use wire::Sink;

/// Takes the answers to one proxy and writes their records.
#[derive(Drop)]
pub struct Recorder<W> {
    pub answers: Intake<Answer>,
    pub out: W,
    /// Why a record was not written. No later one is written either.
    pub failure: Option<AnswerError>,
}

/// Writes the records of answers to their end. After a record that can't be written it takes the
/// answers that come, and drops them. If the writer has failed, the sender stops.
pub fn record_all<W: Sink + Drop, R: Wait>(
    rt: &R,
    alloc: Global,
    answers: Intake<Answer>,
    out: W,
    progress: &AnswerProgress,
) -> Recorder<W>
    ensures recorded { HasRecorded (state_by W.given W.failures) answers out result }
{
    let mut recorder = Recorder {
        answers,
        out,
        failure: None,
    };
    for _ in rt.forever() {
        match recorder.answers.take() {
            Taken::Item(answer) => recorder.write(alloc, &answer, progress),
            Taken::Empty => pause(rt),
            Taken::End => return recorder,
        }
    }
    unreachable!()
}

impl<W: Sink> Recorder<W> {
    // Writes the record of an answer, unless one was not written before.
    fn write(&mut self, alloc: Global, answer: &Answer, progress: &AnswerProgress)
        ensures answers { self.new.answers ≡ self.old.answers }
        ensures writes { (first taken : List AnswerValue) (before : SinkState)
            → WritesRecords first taken before (state_by W.given W.failures self.old.out)
            self.old.failure
            → WritesRecords first (taken ++ answer.now ∷ []) before
            (state_by W.given W.failures self.new.out) self.new.failure }
    {
        if self.failure.is_some() {
            return;
        }
        match write_record(alloc, &mut self.out, answer) {
            Ok(()) => {}
            Err(AnswerError::Memory) => self.failure = Some(AnswerError::Memory),
            Err(AnswerError::Write) => {
                self.failure = Some(AnswerError::Write);
                progress.end();
            }
        }
    }
}
