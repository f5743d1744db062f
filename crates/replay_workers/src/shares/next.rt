//! The proxy whose batch goes first if all proxies wait for each other.

ghost use Rattle.std.specs.Prelude.{◌≡◌, ◌+◌, ◌<ℤ◌, ◌≤ℤ◌, ◌↔◌, List, length, slice_get, IfSome};
ghost use Rattle.std.specs.Prelude.{IsTrue, None, Some};
ghost use Rattle.replay_workers.specs.NextAdmitted.{AllWait, HasFirst, IsNext, NoneStands};
ghost use Rattle.replay_workers.specs.NextAdmitted.{WaitsForOthers};
ghost use Rattle.replay_workers.specs.declared.shares.reported_state.ReportedState.{
  ReportedState as StateValue,
};

use super::reported_state::{ReportedState, Stand};

// A proxy that stands.
#[derive(Clone, Copy)]
struct Candidate {
    proxy: usize,
    stand: Stand,
}

impl Candidate {
    // Returns which goes first, of this one and one with a higher number.
    fn or(self, other: Candidate) -> Candidate
        ensures least { self.stand.previous ≤ℤ other.stand.previous → result ≡ self }
        ensures other { other.stand.previous <ℤ self.stand.previous → result ≡ other }
    {
        if self.stand.previous <= other.stand.previous {
            self
        } else {
            other
        }
    }
}

/// Returns the proxy whose batch is to be admitted. At the number of each proxy, `reported_state`
/// is its state, and `sent` is the number of answers sent to it.
///
/// There is one only if all wait for each other: each proxy has closed its lane, or stands and has
/// received all answers that were sent to it. Of those that stand, it is the one whose batch has
/// the least previous version, among equals the one with the lowest number.
pub fn next_admitted(reported: &[ReportedState], sent: &[u64]) -> Option<usize>
    requires each { length reported.now ≡ length sent.now }
    ensures some { IfSome result (λ proxy. AllWait reported.now sent.now
        × IsNext reported.now proxy) }
    ensures none { result ≡ None → AllWait reported.now sent.now → NoneStands reported.now }
{
    let mut first = None;
    for (proxy, state) in reported.iter().enumerate() {
        if !waits_for_others(*state, sent[proxy]) {
            return None;
        }
        first = first_of(first, proxy, *state);
    }
    Some(first?.proxy)
}

// Returns which goes first, of those before this proxy and this one.
fn first_of(first: Option<Candidate>, proxy: usize, state: ReportedState) -> Option<Candidate>
    ensures first { (reported : List StateValue) → slice_get reported proxy ≡ Some state
        → HasFirst proxy reported first → HasFirst (proxy + 1) reported result }
{
    let ReportedState::Stands(stand) = state else {
        return first;
    };
    let next = Candidate { proxy, stand };
    match first {
        Some(candidate) => Some(candidate.or(next)),
        None => Some(next),
    }
}

// Returns whether a proxy to which this many answers were sent waits for others.
fn waits_for_others(reported: ReportedState, sent: u64) -> bool
    ensures waits { IsTrue result ↔ WaitsForOthers reported sent }
{
    match reported {
        ReportedState::Goes => false,
        ReportedState::Stands(stand) => stand.answered == sent,
        ReportedState::Closed => true,
    }
}
