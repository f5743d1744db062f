//! The replies that a proxy may ask for again.

ghost use Rattle.std.specs.Prelude.{◌≡◌, ℕ, ℤ, ◌&&◌, ◌==◌, not, int_le, if◌then◌else◌};
ghost use Rattle.std.specs.Prelude.{option_copied, IfNone, IfSome, IsSome, IsTrue, IsOkUnless};
ghost use Rattle.std.specs.Prelude.{OnErr, OnOk};
ghost use Rattle.std.specs.Ordering.{int_eq};
ghost use Rattle.std.specs.BTreeMap as tree;
ghost use Rattle.std.specs.FinMap as map;
ghost use Rattle.chain.specs.Replies.{IsFiled, is_up_to, key_cmp, reply_of};

use crate::error::ChainError;
use keyspace::Reply;
use std::alloc::Global;
use std::collections::BTreeMap;
use std::marker::Model;

/// The replies that a proxy may ask for again, by proxy and version: `outstandingBatches` of each
/// proxy in `Resolver.actor.cpp` of FoundationDB 7.1. When a reply is given up is this project's
/// own rule.
#[derive(Debug, Drop)]
pub struct Replies {
    kept: BTreeMap<(usize, i64), Reply>,
}

impl Model for Replies {
    ghost use Rattle.std.specs.Coded.{coded_ℕ, coded_ℤ, coded×};
    ghost use Rattle.std.specs.FinMap as map;
    ghost use Rattle.keyspace.specs.contracts.reply.Reply as reply_type;
    ghost use Rattle.chain.specs.Replies.{IsFiled, Kept};

    ghost Value = { Kept };

    ghost coded = { map.code (coded× coded_ℕ coded_ℤ) reply_type.the_row.coded };

    ghost view = { λ r. map.from_entries r.kept.entries };

    ghost invariant = { λ r. IsFiled r.kept };
}

impl Replies {
    /// Creates an empty store, without taking memory.
    pub fn new(alloc: Global) -> Self
        ensures empty { result ≡ map.empty }
        ensures none { (p : ℕ) (v : ℤ) → reply_of result p v ≡ None }
    {
        Replies {
            kept: BTreeMap::new(alloc),
        }
    }

    /// Keeps the reply for the proxy, under the reply's version. The proxy has no reply of that
    /// version yet.
    ///
    /// The only error is `Memory`, after which the store is as it was.
    pub fn put(&mut self, proxy: usize, reply: Reply) -> Result<(), ChainError>
        requires absent { reply_of self.old proxy reply.version ≡ None }
        ensures ok { OnOk result (self.new ≡ map.insert self.old (proxy, reply.version) reply) }
        ensures kept { OnOk result ((p : ℕ) (v : ℤ) → reply_of self.new p v
            ≡ (if (proxy == p) && int_eq reply.version v then Some reply else reply_of self.old p
            v)) }
        ensures memory { IsOkUnless result ChainError.Memory }
        ensures unchanged { OnErr result (self.new ≡ self.old) }
    {
        match self.kept.insert((proxy, reply.version), reply) {
            Ok(_) => Ok(()),
            Err(_) => Err(ChainError::Memory),
        }
    }

    /// Removes the proxy's replies up to this version, inclusive. Takes no memory, and time in
    /// proportion to the replies that it removes.
    pub fn forget_to(&mut self, proxy: usize, version: i64)
        ensures forgotten { self.new ≡ map.retain_keys self.old
            (λ key. not (is_up_to proxy version key)) }
        ensures kept { (p : ℕ) (v : ℤ) → reply_of self.new p v
            ≡ (if (proxy == p) && int_le v version then None else reply_of self.old p v) }
    {
        drop_up_to(&mut self.kept, proxy, version);
    }

    /// Returns the proxy's reply of this version, or `None` if none is kept.
    pub fn find(&self, proxy: usize, version: i64) -> Option<&Reply>
        ensures reply { option_copied result ≡ reply_of self.now proxy version }
        ensures own_version { IfSome result (λ reply. reply.now.version ≡ version) }
    {
        self.kept.get(&(proxy, version))
    }
}

// Removes the proxy's replies up to the version.
fn drop_up_to(kept: &mut BTreeMap<(usize, i64), Reply>, proxy: usize, version: i64)
    requires filed { IsFiled kept.old }
    ensures dropped { (key : ℕ × ℤ) → tree.get key_cmp kept.new key
        ≡ (if is_up_to proxy version key then None else tree.get key_cmp kept.old key) }
{
    while let Some(key) = least_up_to(kept, proxy, version) {
        kept.remove(&key);
    }
}

// Returns the proxy with the least version, up to this one, for which a reply of the proxy is kept.
fn least_up_to(
    kept: &BTreeMap<(usize, i64), Reply>,
    proxy: usize,
    version: i64,
) -> Option<(usize, i64)>
    requires filed { IsFiled kept.now }
    ensures up_to { IfSome result (λ key. IsTrue (is_up_to proxy version key)) }
    ensures kept { IfSome result (λ key. IsSome (tree.get key_cmp kept.now key)) }
    ensures none { IfNone result ((key : ℕ × ℤ)
        → IsTrue (is_up_to proxy version key) → tree.get key_cmp kept.now key ≡ None) }
{
    let (key, _) = kept.range((proxy, i64::MIN)..=(proxy, version)).next()?;
    Some(*key)
}
