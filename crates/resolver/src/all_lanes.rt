//! The lanes of all proxies of a resolver: the look for a batch, the handing out of answers, the
//! close.

ghost use Rattle.std.specs.Prelude.{◌≡◌, ◌≢◌, ℕ, ◌<◌, ◌≤◌, ◌+◌, length, None, Some, slice_get};
ghost use Rattle.std.specs.Prelude.{IfSome, IfNone, IsTrue, ◌↔◌};
ghost use Rattle.resolver.specs.Resolver.{AreClients};
ghost use Rattle.resolver.specs.declared.client.Client.{Client};
ghost use Rattle.std.specs.List.{list_all};
ghost use Rattle.resolver.specs.Owed.{owed_to};
ghost use Rattle.resolver.specs.Lanes.{IsLookedThrough, all_ended, ComesBefore};
ghost use Rattle.resolver.specs.Parts.{ProxyLanesView, lanes_of, EachProxy, TakesFromProxy};
ghost use Rattle.resolver.specs.Parts.{Delivers, OwesOnly, FindsOne, FindsNone, waiting_count};
ghost use Rattle.resolver.specs.Parts.{closed_proxy_lanes, EachSettled};

use crate::client::Client;
use crate::proxy_lanes::ProxyLanes;
use crate::resolver_core::Core;
use keyspace::Batch;

/// Takes a batch of the first proxy that has one, from this proxy on and then of those before it.
/// Each pair is looked at once at most.
pub fn take_from(all_lanes: &mut [ProxyLanes], first: usize) -> Option<(usize, Batch)>
    requires first { first ≤ length all_lanes.old }
    ensures found { IfSome result (λ found. FindsOne (λ proxy. ComesBefore first proxy found.0)
        found.0 found.1 all_lanes.old all_lanes.new) }
    ensures none { IfNone result (FindsNone (λ proxy. proxy < length all_lanes.old) all_lanes.old
        all_lanes.new) }
{
    match take_between(all_lanes, first, all_lanes.len()) {
        Some(found) => Some(found),
        None => take_between(all_lanes, 0, first),
    }
}

// Takes a batch of the first of these proxies that has one.
fn take_between(all_lanes: &mut [ProxyLanes], first: usize, end: usize) -> Option<(usize, Batch)>
    requires inside { end ≤ length all_lanes.old }
    ensures found { IfSome result (λ found. (first ≤ found.0) × (found.0 < end)
        × FindsOne (λ proxy. (first ≤ proxy)
        × (proxy < found.0)) found.0 found.1 all_lanes.old all_lanes.new) }
    ensures none { IfNone result (FindsNone (λ proxy. (first ≤ proxy)
        × (proxy < end)) all_lanes.old all_lanes.new) }
{
    for proxy in first..end {
        if let Some(batch) = all_lanes[proxy].take() {
            return Some((proxy, batch));
        }
    }
    None
}

/// Returns whether all request lanes have ended.
pub fn have_ended(all_lanes: &[ProxyLanes]) -> bool
    ensures all { result ≡ all_ended (lanes_of all_lanes.now) }
{
    all_lanes.iter().all(ProxyLanes::has_ended)
}

/// Returns the number of answers that wait for room on a reply lane.
pub fn waiting(all_lanes: &[ProxyLanes]) -> usize
    ensures count { result ≡ waiting_count all_lanes.now }
    ensures few { result ≤ length all_lanes.now }
{
    all_lanes
        .iter()
        .filter(|proxy_lanes| proxy_lanes.is_waiting())
        .count()
}

/// Sends each proxy the answers owed to it, while its reply lane accepts them.
pub fn deliver(all_lanes: &mut [ProxyLanes], core: &mut Core)
    requires each { length all_lanes.old ≡ length core.old.owed }
    ensures each { EachProxy (λ proxy l m. Delivers l m (owed_to proxy core.old.owed)
        (owed_to proxy core.new.owed)) all_lanes.old all_lanes.new }
    ensures core { OwesOnly core.old core.new }
{
    for proxy in 0..all_lanes.len() {
        all_lanes[proxy].deliver(core, proxy);
    }
}

/// Closes all reply lanes.
pub fn close(all_lanes: &mut [ProxyLanes])
    ensures closed { EachProxy (λ _ l m. m ≡ closed_proxy_lanes l) all_lanes.old all_lanes.new }
{
    for proxy_lanes in all_lanes {
        proxy_lanes.close();
    }
}

/// Settles each pair of lanes with its client, and returns whether every answer sent has been
/// taken.
pub fn settle(all_lanes: &mut [ProxyLanes], clients: &mut [Client]) -> bool
    requires clients { AreClients (lanes_of all_lanes.old) clients.old }
    ensures each { EachSettled all_lanes.old clients.old all_lanes.new clients.new }
    ensures all_taken { IsTrue result
        ↔ ((proxy : ℕ) (l : ProxyLanesView) (c : Client) → slice_get all_lanes.old proxy ≡ Some l
        → slice_get clients.old proxy ≡ Some c → c.replies.taken ≡ l.lanes.replies.sent) }
{
    let mut all_taken = true;
    for proxy in 0..all_lanes.len() {
        all_taken &= all_lanes[proxy].settle(&mut clients[proxy]);
    }
    all_taken
}
