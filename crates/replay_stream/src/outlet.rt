//! The outlet of one proxy's answers: to standard output, and to its recorder.

ghost use Rattle.std.specs.Prelude.{◌≡◌, [], ◌∷◌, true, false, IfOk, None};
ghost use Rattle.replay_output.specs.Lines.{line};
ghost use Rattle.replay_stream.specs.Outlet.{HasPassedAll, IsClosed, PassesOn, PassesSome};
ghost use Rattle.replay_stream.specs.Outlet.{TookText, is_complete};
ghost use Rattle.replay_stream.specs.Sinks.{state_by};

use crate::progress::AnswerProgress;
use keyspace::Answer;
use lane::{Intake, Port, Refused, Taken};
use replay_output::{AnswerError, Style, print_line};
use replay_workers::Gatekeeper;
use std::alloc::{AllocError, Global};
use std::sync::Arc;
use wire::Sink;

/// How the lines of all proxies are printed.
#[derive(Drop)]
pub struct Printer {
    alloc: Global,
    pub style: Style,
    /// The writer has failed. Nothing is printed afterwards.
    pub failed: bool,
}

/// What an outlet has done.
#[derive(Clone, Copy, Debug, PartialEq, Eq)]
pub enum Passed {
    /// It has taken an answer.
    Took,
    /// No answer has come, or its recorder is lagging.
    Waits,
    /// It has passed all answers on.
    Ended,
}

/// Takes the answers to one proxy, prints their lines and passes them on to the recorder.
#[derive(Drop)]
pub struct Outlet {
    pub replies: Intake<Answer>,
    /// To the recorder, if records are to be written.
    pub records: Option<Port<Answer>>,
    /// An answer that was printed, and for which the lane to the recorder had no room.
    pub waiting: Option<Answer>,
    pub proxy: usize,
    /// A line was lost for want of memory. Later ones are dropped.
    pub lost: bool,
    pub progress: Arc<AnswerProgress, Global>,
}

impl Printer {
    /// Creates a printer that has printed nothing.
    pub fn new(alloc: Global, style: Style) -> Self
        ensures style { result.style ≡ style }
        ensures failed { result.failed ≡ false }
    {
        Printer {
            alloc,
            style,
            failed: false,
        }
    }

    // Prints the line of an answer to this proxy, unless the writer has failed. Returns whether it
    // was lost for want of memory.
    fn print<O: Sink>(&mut self, proxy: usize, answer: &Answer, out: &mut O) -> bool
        ensures style { self.new.style ≡ self.old.style }
        ensures text { self.old.failed ≡ false → result ≡ false → TookText self.new.failed
            (state_by O.given O.failures out.old)
            (state_by O.given O.failures out.new) (line self.old.style proxy answer.now) }
        ensures lost { result ≡ true → (self.new.failed ≡ self.old.failed)
            × (state_by O.given O.failures out.new
            ≡ state_by O.given O.failures out.old) }
        ensures nothing { self.old.failed ≡ true → (self.new.failed ≡ true)
            × (state_by O.given O.failures out.new
            ≡ state_by O.given O.failures out.old) }
    {
        if self.failed {
            return false;
        }
        match print_line(self.alloc, self.style, proxy, answer, out) {
            Ok(()) => false,
            Err(AnswerError::Memory) => true,
            Err(AnswerError::Write) => {
                self.failed = true;
                false
            }
        }
    }
}

impl Outlet {
    /// Creates the outlet of a proxy that has got no answer, without a recorder.
    pub fn new(alloc: Global, proxy: usize, replies: Intake<Answer>) -> Result<Self, AllocError>
        ensures replies { IfOk result (λ outlet. outlet.replies ≡ replies) }
        ensures alone { IfOk result (λ outlet. outlet.records ≡ None) }
        ensures none_waits { IfOk result (λ outlet. outlet.waiting ≡ None) }
        ensures proxy { IfOk result (λ outlet. outlet.proxy ≡ proxy) }
        ensures not_lost { IfOk result (λ outlet. outlet.lost ≡ false) }
    {
        Ok(Outlet {
            replies,
            records: None,
            waiting: None,
            proxy,
            lost: false,
            progress: Arc::new(alloc, AnswerProgress::new())?,
        })
    }

    /// Takes an answer, if one has come and the recorder isn't lagging, prints it and passes it on.
    pub fn pass<O: Sink, G: Gatekeeper>(
        &mut self,
        printer: &mut Printer,
        out: &mut O,
        gatekeeper: &G,
    ) -> Passed
        ensures passes { PassesSome printer.old.style printer.old.failed printer.new.failed
            (state_by O.given O.failures out.old)
            (state_by O.given O.failures out.new) self.old self.new }
        ensures style { printer.new.style ≡ printer.old.style }
        ensures ended { result ≡ Passed.Ended → HasPassedAll self.new }
    {
        if self.is_lagging() {
            return Passed::Waits;
        }
        match self.replies.take() {
            Taken::Item(answer) => {
                self.print(printer, out, &answer);
                self.pass_on(answer);
                self.report(gatekeeper);
                Passed::Took
            }
            Taken::Empty => Passed::Waits,
            Taken::End => {
                self.end();
                Passed::Ended
            }
        }
    }

    // Passes the waiting answer on, and returns whether it still waits.
    fn is_lagging(&mut self) -> bool
        ensures others { self.new ≡ record self.old {
          records = self.new.records;
          waiting = self.new.waiting;
        } }
        ensures passed { PassesOn self.old.records self.new.records self.old.waiting
            self.new.waiting [] }
        ensures none { result ≡ false → self.new.waiting ≡ None }
    {
        if let Some(answer) = self.waiting.take() {
            self.pass_on(answer);
        }
        self.waiting.is_some()
    }

    // Prints the line of an answer, unless a line was lost, or the writer has failed.
    fn print<O: Sink>(&mut self, printer: &mut Printer, out: &mut O, answer: &Answer)
        ensures others { self.new ≡ record self.old { lost = self.new.lost } }
        ensures style { printer.new.style ≡ printer.old.style }
        ensures text { is_complete self.old.lost printer.old.failed ≡ true → self.new.lost ≡ false
            → TookText printer.new.failed (state_by O.given O.failures out.old)
            (state_by O.given O.failures out.new)
            (line printer.old.style self.old.proxy answer.now) }
        ensures stays { self.old.lost ≡ true → self.new.lost ≡ true }
        ensures lost { self.new.lost ≡ true → (printer.new.failed ≡ printer.old.failed)
            × (state_by O.given O.failures out.new
            ≡ state_by O.given O.failures out.old) }
        ensures nothing { printer.old.failed ≡ true → (printer.new.failed ≡ true)
            × (state_by O.given O.failures out.new
            ≡ state_by O.given O.failures out.old) }
    {
        if !self.lost {
            self.lost = printer.print(self.proxy, answer, out);
        }
    }

    // Passes an answer on to the recorder, or lets it wait. A lane that is worn takes none, so the
    // answer waits for good.
    fn pass_on(&mut self, answer: Answer)
        requires none_waits { self.old.waiting ≡ None }
        ensures others { self.new ≡ record self.old {
          records = self.new.records;
          waiting = self.new.waiting;
        } }
        ensures passed { PassesOn self.old.records self.new.records None self.new.waiting
            (answer ∷ []) }
    {
        let Some(records) = &mut self.records else {
            return;
        };
        match records.send(answer) {
            Ok(()) => {}
            Err(Refused::Full(refused) | Refused::Closed(refused) | Refused::Worn(refused)) => {
                self.waiting = Some(refused);
            }
        }
    }

    // Tells how many answers were taken.
    fn report<G: Gatekeeper>(&self, gatekeeper: &G) {
        let taken = self.replies.taken();
        self.progress.report(taken);
        gatekeeper.answered(self.proxy, taken.saturating_sub(1));
    }

    // Tells the recorder and the sender that no more answers come.
    fn end(&mut self)
        ensures others { self.new ≡ record self.old { records = self.new.records } }
        ensures passed { PassesOn self.old.records self.new.records self.old.waiting
            self.old.waiting [] }
        ensures closed { IsClosed self.new.records }
    {
        if let Some(records) = &mut self.records {
            records.close();
        }
        self.progress.end();
    }
}
