//! The share of each proxy in what a resolver holds.

ghost use Rattle.std.specs.Prelude.{◌≡◌, ◌≤◌};
ghost use Rattle.resolver.specs.Share.{share_of};

use chain::MAX_HELD;

/// Returns the share of each of n proxies in the batches that a resolver holds: [`MAX_HELD`]
/// divided by their number, rounded down.
///
/// If none of them ever has more batches sent without an answer, no turn answers `GateFull`.
pub fn share(proxies: usize) -> u64
    requires some { 1 ≤ proxies }
    ensures share { result ≡ share_of proxies }
{
    (MAX_HELD / proxies) as u64
}
