//! The opening of a run: its resolver, and room for what its workers return.

ghost use Rattle.std.specs.Prelude.{◌≡◌, ◌≤◌, negsuc, [], vec_capacity, IfErr, IfOk};
ghost use Rattle.limits.specs.declared.settings.TheConstants.{MAX_PROXIES};
ghost use Rattle.resolver.specs.Opens.{Opens};
ghost use Rattle.replay_workers.specs.Threads.{IsOutcomeOf};

use crate::outcome::RunOutcome;
use crate::watch::Watch;
use replay_output::{Options, StartError};
use resolver::{Client, OpenError, Resolver, open};
use std::alloc::Global;

/// Opens a resolver with these options for this number of proxies, and a client for each, at its
/// number. Returns `Memory` if an allocation fails.
pub fn open_resolver(
    alloc: Global,
    proxies: usize,
    options: Options,
) -> Result<(Resolver, Vec<Client>), StartError>
    requires least { 1 ≤ proxies }
    requires most { proxies ≤ MAX_PROXIES }
    ensures opens { IfOk result (λ opened. Opens (negsuc 0) proxies options.capacity
        options.window options.limit opened.0 opened.1.items) }
    ensures memory { IfErr result (λ cause. cause ≡ StartError.Memory) }
{
    let Options {
        capacity,
        window,
        limit,
        ..
    } = options;
    match open(alloc, proxies, capacity, window, limit) {
        Ok(opened) => Ok(opened),
        Err(OpenError::Memory) => Err(StartError::Memory),
    }
}

/// Creates an empty outcome and an empty vector of streams, each with room for n workers, and a
/// watch over their proxies.
pub fn make_room<B: Drop>(
    alloc: Global,
    workers: usize,
) -> Result<(RunOutcome, Vec<B>, Watch), StartError>
    ensures empty { IfOk result (λ made. IsOutcomeOf [] made.0) }
    ensures none { IfOk result (λ made. made.1.items ≡ []) }
    ensures room { IfOk result (λ made. workers ≤ vec_capacity made.0.clients) }
    ensures streams_room { IfOk result (λ made. workers ≤ vec_capacity made.1) }
{
    let outcome = RunOutcome::with_room(alloc, workers)?;
    let streams = Vec::with_capacity(alloc, workers)?;
    let watch = Watch::new(alloc, workers)?;
    Ok((outcome, streams, watch))
}
