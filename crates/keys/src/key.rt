//! Keys: byte strings of a limited length.

ghost use Rattle.std.specs.Prelude.{◌≡◌, ◌≤◌, ◌<◌, ◌==◌, ◌↔◌, IfOk, IsErrOf, IsOkUnless, length};
ghost use Rattle.std.specs.Prelude.{take, vec_len};
ghost use Rattle.std.proofs.Common.{rules};
ghost use Rattle.std.specs.Cmp.{partial_order_from_own_ties};
ghost use Rattle.std.specs.Cmp.Rules.{comparing};
ghost use Rattle.std.specs.Cmp.Lexicographic.{slice_cmp};
ghost use Rattle.std.specs.Ordering.{nat_cmp, as_partial_cmp};
ghost use Rattle.std.proofs.lemmas.Cmp.{nat_list_cmp_total, nat_list_eq_equiv};
ghost use lib.Pointwise.{pointwise};
ghost use Rattle.keys.specs.Key.{IsKey};

use crate::bytes::Bytes;
use crate::error::KeyError;
use std::alloc::{AllocError, Global};
use std::cmp::Ordering;
use std::marker::Model;

/// The greatest length of a range's begin or end, in bytes. A FoundationDB key has at most 10,000
/// bytes, and the key right after a longest one has one more. That a range may end with such a key
/// is this project's own limit.
pub const MAX_KEY_LENGTH: usize = 10_001;

const _: () = prove!(MAX_KEY_LENGTH == 10_001);

/// A byte string of at most [`MAX_KEY_LENGTH`] bytes. Keys are compared byte by byte; a proper
/// prefix comes first. Short keys take no memory beside their own.
#[derive(Debug, Drop)]
pub struct Key {
    bytes: Bytes,
}

impl Model for Key {
    ghost use Rattle.std.specs.Prelude.{List, ℕ};
    ghost use Rattle.keys.specs.Key.{IsKey};

    ghost Value = { List ℕ };

    ghost view = { λ k. k.bytes };

    ghost invariant = { λ k. IsKey k.bytes };
}

impl Key {
    /// Creates a key of these bytes.
    pub fn new(bytes: Vec<u8>) -> Self
        requires short { vec_len bytes ≤ MAX_KEY_LENGTH }
        ensures bytes { result ≡ bytes.items }
    {
        Key {
            bytes: Bytes::new(bytes),
        }
    }

    /// Creates a key of these bytes, or returns [`KeyError::KeyLength`] if they are more than
    /// [`MAX_KEY_LENGTH`].
    pub fn checked(bytes: Vec<u8>) -> Result<Self, KeyError>
        ensures bytes { IfOk result (λ key. key ≡ bytes.items) }
        ensures key_length { IsErrOf result KeyError.KeyLength ↔ (MAX_KEY_LENGTH < vec_len bytes) }
        ensures err { IsOkUnless result KeyError.KeyLength }
    {
        if bytes.len() > MAX_KEY_LENGTH {
            return Err(KeyError::KeyLength);
        }
        Ok(Key::new(bytes))
    }

    /// Creates a key of a copy of these bytes, or returns an error if memory is refused.
    pub fn copied(alloc: Global, bytes: &[u8]) -> Result<Self, AllocError>
        requires short { length bytes.now ≤ MAX_KEY_LENGTH }
        ensures bytes { IfOk result (λ key. key ≡ bytes.now) }
    {
        Key::front(alloc, bytes, bytes.len())
    }

    /// Creates a key of a copy of the first `count` bytes, or returns an error if memory is
    /// refused. This is faster than [`Key::copied`] where more bytes follow.
    pub fn front(alloc: Global, bytes: &[u8], count: usize) -> Result<Self, AllocError>
        requires short { count ≤ MAX_KEY_LENGTH }
        requires within { count ≤ length bytes.now }
        ensures bytes { IfOk result (λ key. key ≡ take count bytes.now) }
    {
        Ok(Key {
            bytes: Bytes::front(alloc, bytes, count)?,
        })
    }

    /// Returns the bytes of the key, at most [`MAX_KEY_LENGTH`].
    pub fn as_bytes(&self) -> &[u8]
        ensures bytes { result.now ≡ self.now }
        ensures is_key { IsKey self.now }
    {
        self.bytes.as_slice()
    }

    /// Copies the key, or returns an error if memory is refused.
    pub fn copy(&self, alloc: Global) -> Result<Self, AllocError>
        ensures equal { IfOk result (λ key. key ≡ self.now) }
    {
        Key::copied(alloc, self.as_bytes())
    }
}

impl PartialEq for Key {
    ghost eq = { pointwise ◌==◌ };

    ghost laws = { Prim.search (comparing, rules) };

    fn eq(&self, other: &Key) -> bool {
        self.as_bytes() == other.as_bytes()
    }
}

impl Eq for Key {
    ghost laws = { nat_list_eq_equiv };
}

impl Ord for Key {
    ghost cmp = { slice_cmp nat_cmp };

    ghost total = { nat_list_cmp_total };

    ghost matches_partial_cmp = { Prim.search (comparing, rules) };

    ghost matches_eq = { Prim.search (comparing, rules) };

    fn cmp(&self, other: &Key) -> Ordering {
        self.as_bytes().cmp(other.as_bytes())
    }
}

impl PartialOrd for Key {
    ghost partial_cmp = { as_partial_cmp (slice_cmp nat_cmp) };

    ghost laws = { partial_order_from_own_ties (Prim.search (comparing, rules))
        (Prim.search (comparing, rules)) };

    fn partial_cmp(&self, other: &Key) -> Option<Ordering> {
        Some(self.cmp(other))
    }
}
