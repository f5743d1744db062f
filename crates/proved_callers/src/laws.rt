//! A law about what is served, by a law of the resolver.

ghost use Rattle.std.specs.Prelude.{◌≡◌, ◌≤◌, ℕ, ℤ, List, []};
ghost use Rattle.keyspace.specs.declared.batch.Batch.{Batch};
ghost use Rattle.keyspace.specs.Run.{Step, part};
ghost use Rattle.proved_callers.specs.declared.served_proxies.Served.{Served};
ghost use Rattle.proved_callers.specs.Served.{AreServed};

/// The log of two proxies that are served holds no batch of a third.
pub fn no_third_proxy()
    ensures served { (window : ℤ) (log : List Step) (first second : Batch) (served : Served)
        → AreServed window log first second served → (proxy : ℕ) → 2 ≤ proxy → part log proxy ≡ [] }
{
    resolver::laws::no_other_proxy();
}
