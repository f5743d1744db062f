//! The opening of a resolver and its clients.

ghost use Rattle.std.specs.Prelude.{◌≡◌, ◌≢◌, ◌≤◌, ◌≤ℤ◌, ◌<◌, ◌↔◌, pos, negsuc, IfOk, Err};
ghost use Rattle.limits.specs.declared.settings.TheConstants.{MAX_CAPACITY};
ghost use Rattle.resolver.specs.CoreCalls.{AreSettings};
ghost use Rattle.resolver.specs.Opens.{Opens};
ghost use Rattle.resolver.specs.Parts.{AreConnected};

use crate::client::Client;
use crate::open_error::OpenError;
use crate::proxy_lanes::ProxyLanes;
use crate::resolver::Resolver;
use crate::resolver_core::Core;
use lane::lane;
use limits::{MAX_CAPACITY, Stop};
use std::alloc::Global;

/// Opens a resolver for this number of proxies, and a client for each, at its number. A lane holds
/// at most `capacity` batches or answers. `window` is how far back writes are remembered, in
/// versions; the conflict set never keeps more boundaries than `limit`.
pub fn open(
    alloc: Global,
    proxies: usize,
    capacity: usize,
    window: i64,
    limit: usize,
) -> Result<(Resolver, Vec<Client>), OpenError>
    requires settings { AreSettings proxies window limit }
    requires least_capacity { 1 ≤ capacity }
    requires most_capacity { capacity ≤ MAX_CAPACITY }
    ensures opens { IfOk result (λ opened. Opens (negsuc 0) proxies capacity window limit opened.0
        opened.1.items) }
{
    match open_at(alloc, proxies, capacity, window, limit, -1) {
        Ok(opened) => Ok(opened),
        Err(_) => Err(OpenError::Memory),
    }
}

/// Opens a resolver that starts at a version, from -1 on, and its clients, as [`open`] does. What
/// was written up to that version isn't known, so the resolver reports no transaction as committed
/// that reads below it. The first batch that it processes follows that version. It answers `Never`
/// to batches whose previous version is below it. At -1 this is [`open`].
///
/// Contracts see a resolver whose log begins as if one batch of no proxy had written every key at
/// the version. Returns `ArenaFull` if the limit is below 3 and the version isn't -1, or `Memory`
/// if memory is refused.
pub fn open_at(
    alloc: Global,
    proxies: usize,
    capacity: usize,
    window: i64,
    limit: usize,
    version: i64,
) -> Result<(Resolver, Vec<Client>), Stop>
    requires settings { AreSettings proxies window limit }
    requires least_capacity { 1 ≤ capacity }
    requires most_capacity { capacity ≤ MAX_CAPACITY }
    requires least_version { negsuc 0 ≤ℤ version }
    ensures opens { IfOk result (λ opened. Opens version proxies capacity window limit opened.0
        opened.1.items) }
    ensures full { (result ≡ Err Stop.ArenaFull) ↔ (pos 0 ≤ℤ version) × (limit < 3) }
    ensures not_gate { result ≢ Err Stop.GateFull }
{
    let core = Core::new_at(alloc, proxies, window, limit, version)?;
    let Ok((all_lanes, clients)) = connect_all(alloc, proxies, capacity) else {
        return Err(Stop::Memory);
    };
    Ok((Resolver::new(core, all_lanes), clients))
}

// Makes the lanes of this number of proxies.
fn connect_all(
    alloc: Global,
    proxies: usize,
    capacity: usize,
) -> Result<(Vec<ProxyLanes>, Vec<Client>), OpenError>
    requires least_capacity { 1 ≤ capacity }
    requires most_capacity { capacity ≤ MAX_CAPACITY }
    ensures connected { IfOk result
        (λ ends. AreConnected capacity proxies ends.0.items ends.1.items) }
{
    let mut all_lanes = Vec::with_capacity(alloc, proxies)?;
    let mut clients = Vec::with_capacity(alloc, proxies)?;
    for _ in 0..proxies {
        let (send_requests, take_requests) = lane(alloc, capacity)?;
        let (send_replies, take_replies) = lane(alloc, capacity)?;
        all_lanes.push_reserved(ProxyLanes::new(take_requests, send_replies));
        clients.push_reserved(Client {
            requests: send_requests,
            replies: take_replies,
        });
    }
    Ok((all_lanes, clients))
}
