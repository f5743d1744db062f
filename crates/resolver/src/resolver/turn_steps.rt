//! The steps of a turn: a batch is taken, answers are sent, and the reply lanes are closed.

ghost use Rattle.std.specs.Prelude.{◌≡◌, ℕ, ℤ, ◌↔◌, ◌≢◌, true, false, List, [], length, Some};
ghost use Rattle.std.specs.Prelude.{None, IfOk, OnOk, IsSome, IfSome, slice_get};
ghost use Rattle.keyspace.specs.Run.{Step};
ghost use Rattle.lane.specs.Lane.{PortContinues};
ghost use Rattle.resolver.specs.Owed.{owed_to};
ghost use Rattle.resolver.specs.Core.{made_to};
ghost use Rattle.resolver.specs.Lanes.{Lanes, all_ended, Each, IsFull, sent_to};
ghost use Rattle.resolver.specs.Resolver.{StandsOverFrom, IsThrough, SameExcept};
ghost use Rattle.resolver.specs.Turns.{TurnSteps};
ghost use Rattle.resolver.specs.Observed.{ObservesStep};

use super::Resolver;
use crate::all_lanes;
use limits::Stop;
use observer::Observer;

impl Resolver {
    // Takes a batch of the next proxy that has one and admits it, and returns the proxy; or
    // finishes the core, once all have ended. The observer sees each batch that is processed.
    pub(super) fn step<O: Observer>(&mut self, observer: &mut O) -> Result<Option<usize>, Stop>
        ensures steps { TurnSteps (λ taken. taken) result self.old self.new }
        ensures stopped { IsSome self.old.core.stop → self.new ≡ self.old }
        ensures still_open { IfOk result (λ taken. IsSome taken
            → all_ended self.new.lanes ≡ false) }
        ensures replies { Each (λ _ l m. m.replies ≡ l.replies) self.old.lanes self.new.lanes }
        ensures open { OnOk result (self.old.core.stop ≡ None) }
        ensures sees { ObservesStep (O.has_seen observer.old) (O.has_seen observer.new) self.old
            self.new }
        ensures unseen { IfSome self.old.core.stop (λ _. observer.new ≡ observer.old) }
        ensures setting { O.setting observer.new ≡ O.setting observer.old }
    {
        if let Some(stop) = self.core.stop() {
            return Err(stop);
        }
        match all_lanes::take_from(&mut self.all_lanes, self.next) {
            Some((proxy, batch)) => {
                self.next = proxy + 1;
                self.core.admit_observed(observer, proxy, batch)?;
                Ok(Some(proxy))
            }
            None => {
                let ended = all_lanes::have_ended(&self.all_lanes);
                if ended == self.finished {
                    return Ok(None);
                }
                self.finished = true;
                self.core.finish()?;
                Ok(None)
            }
        }
    }

    // Sends each proxy the answers owed to it, while its reply lane accepts them.
    pub(super) fn deliver(&mut self)
        ensures stands { (version : ℤ) (log : List Step) → StandsOverFrom version self.old log
            → StandsOverFrom version self.new log }
        ensures made { (proxy : ℕ) → made_to proxy (sent_to self.new.lanes) self.new.core
            ≡ made_to proxy (sent_to self.old.lanes) self.old.core }
        ensures owed { Each (λ proxy l m. owed_to proxy self.new.core.owed ≢ []
            → IsFull l m) self.old.lanes self.new.lanes }
        ensures lanes { Each (λ _ l m. (m ≡ record l { replies = m.replies })
            × PortContinues l.replies m.replies) self.old.lanes self.new.lanes }
        ensures same { SameExcept self.old self.new }
    {
        all_lanes::deliver(&mut self.all_lanes, &mut self.core);
    }

    // Closes the reply lanes if no answer is still to come.
    pub(super) fn close(&mut self)
        ensures stands { (version : ℤ) (log : List Step) → StandsOverFrom version self.old log
            → StandsOverFrom version self.new log }
        ensures closed { (proxy : ℕ) (l : Lanes) → slice_get self.new.lanes proxy ≡ Some l
            → (l.replies.closed ≡ true) ↔ IsThrough self.new }
        ensures core { self.new.core ≡ self.old.core }
        ensures lanes { Each (λ _ l m. m
            ≡ record l { replies = record l.replies { closed = m.replies.closed } }) self.old.lanes
            self.new.lanes }
        ensures count { length self.new.core.owed ≡ length self.new.lanes }
        ensures next { self.new.next ≡ self.old.next }
    {
        if !self.closed && self.is_through() {
            all_lanes::close(&mut self.all_lanes);
            self.closed = true;
        }
    }

    // Returns whether nothing is owed and no answer is still to come.
    fn is_through(&self) -> bool
        ensures through { (result ≡ true) ↔ IsThrough self.now }
    {
        self.owed() == 0 && (self.finished || self.core.stop().is_some())
    }
}
