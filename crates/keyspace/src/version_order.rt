//! Items in order of their versions.

ghost use Rattle.std.specs.Prelude.{◌≡◌, ◌≤◌, ℤ, IsOk, OnOk, length};
ghost use Rattle.keyspace.specs.storage.InOrder.{Rise, in_order_by};

use crate::reply::Reply;
use std::alloc::{AllocError, Global};

/// An item with a version.
pub trait Versioned {
    // The version of this item.
    ghost item_version: { Self → ℤ };

    /// Returns the version.
    fn version(&self) -> i64
        ensures version { result ≡ item_version self.now };
}

impl Versioned for Reply {
    ghost item_version = { λ reply. reply.version };

    fn version(&self) -> i64 {
        self.version
    }
}

/// Sorts items by version, stably. Takes no memory for up to 20 items. An error says that an
/// allocation failed. Then their order is unspecified.
pub fn sort_by_version<T: Versioned>(alloc: Global, items: &mut [T]) -> Result<(), AllocError>
    ensures sorted { OnOk result (items.new ≡ in_order_by T.item_version items.old) }
    ensures rises { OnOk result (Rise T.item_version items.new) }
    ensures count { length items.new ≡ length items.old }
    ensures few { length items.old ≤ 20 → IsOk result }
{
    items.sort_by_key(alloc, |item| item.version())
}
