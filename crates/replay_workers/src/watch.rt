//! The watch over proxies that may all wait for each other.

ghost use Rattle.std.specs.Prelude.{◌≡◌, ◌<◌, ◌↔◌, All, length, slice_get, slice_set, IfOk, IfSome};
ghost use Rattle.std.specs.Prelude.{IsTrue, None, Some};
ghost use Rattle.replay_workers.specs.NextAdmitted.{AllWait, IsNext, NoneStands};
ghost use Rattle.replay_workers.specs.Watch.{SeesSent};

use crate::gatekeeper::ShareKeeper;
use crate::shares::{ReportedState, next_admitted};
use resolver::Resolver;
use std::alloc::{AllocError, Global};
use std::marker::Model;

/// The last look at all proxies, each at its number: its reported state, and how many answers were
/// sent to it.
#[derive(Drop)]
pub struct Watch {
    reported: Vec<ReportedState>,
    sent: Vec<u64>,
}

impl Model for Watch {
    ghost use Rattle.std.specs.Prelude.{◌≡◌, vec_len};
    ghost use Rattle.replay_workers.specs.Watch.{Look};

    ghost Value = { Look };

    ghost view = { λ watch. record { reported = watch.reported.items; sent = watch.sent.items } };

    ghost invariant = { λ watch. vec_len watch.reported ≡ vec_len watch.sent };
}

impl Watch {
    /// Creates a watch over n proxies, of which it knows nothing yet, as after
    /// [`forget`](Watch::forget). It takes no memory afterwards.
    pub fn new(alloc: Global, proxies: usize) -> Result<Self, AllocError>
        ensures proxies { IfOk result (λ watch. length watch.reported ≡ proxies) }
        ensures forgotten { IfOk result (λ watch. All (λ reported. reported
            ≡ ReportedState.Goes) watch.reported) }
    {
        Ok(Watch {
            reported: vec![in alloc; ReportedState::Goes; proxies]?,
            sent: vec![in alloc; 0; proxies]?,
        })
    }

    /// Forgets what the last look found: the next one finds something else, or no proxy that
    /// stands.
    pub fn forget(&mut self)
        ensures forgotten { All (λ reported. reported ≡ ReportedState.Goes) self.new.reported }
        ensures proxies { length self.new.reported ≡ length self.old.reported }
    {
        self.reported.fill(ReportedState::Goes);
    }

    /// Looks at all proxies. Returns the one whose batch is to be admitted, if the last look has
    /// found the same.
    pub fn look<G: ShareKeeper>(&mut self, resolver: &Resolver, gatekeeper: &G) -> Option<usize>
        ensures same { IfSome result (λ _. self.new ≡ self.old) }
        ensures sent { SeesSent resolver.now.lanes self.new }
        ensures next { IfSome result (λ proxy. AllWait self.new.reported self.new.sent
            × IsNext self.new.reported proxy) }
        ensures none { result ≡ None → self.new ≡ self.old → AllWait self.new.reported self.new.sent
            → NoneStands self.new.reported }
        ensures proxies { length self.new.reported ≡ length self.old.reported }
    {
        if !self.finds_the_same(resolver, gatekeeper) {
            return None;
        }
        next_admitted(&self.reported, &self.sent)
    }

    // Looks at all proxies, and returns whether the last look has found the same.
    fn finds_the_same<G: ShareKeeper>(&mut self, resolver: &Resolver, gatekeeper: &G) -> bool
        ensures same { IsTrue result ↔ (self.new ≡ self.old) }
        ensures sent { SeesSent resolver.now.lanes self.new }
        ensures proxies { length self.new.reported ≡ length self.old.reported }
    {
        let mut is_same = true;
        for proxy in 0..self.reported.len() {
            let reported = gatekeeper.reported_state(proxy);
            let sent = resolver.sent(proxy);
            if !self.keep(proxy, reported, sent) {
                is_same = false;
            }
        }
        is_same
    }

    // Keeps what is found of the proxy, and returns whether the last look has found the same.
    fn keep(&mut self, proxy: usize, reported: ReportedState, sent: u64) -> bool
        requires inside { proxy < length self.old.reported }
        ensures counts { length self.old.reported ≡ length self.old.sent }
        ensures reported { self.new.reported ≡ slice_set self.old.reported proxy reported }
        ensures sent { self.new.sent ≡ slice_set self.old.sent proxy sent }
        ensures same { IsTrue result ↔ ((slice_get self.old.reported proxy ≡ Some reported)
            × (slice_get self.old.sent proxy ≡ Some sent)) }
    {
        let is_same = self.reported[proxy] == reported && self.sent[proxy] == sent;
        self.reported[proxy] = reported;
        self.sent[proxy] = sent;
        is_same
    }
}
