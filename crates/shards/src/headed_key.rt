//! Keys with their heads.

ghost use Rattle.std.specs.Prelude.{◌≡◌};
ghost use Rattle.keys.specs.Head.{head_of};
ghost use Rattle.keys.specs.Key.{is_before, IsBytes};

use keys::{key_head, laws};

/// A key with its first eight bytes as a number, which distinguish most keys.
#[derive(Debug, Drop)]
pub(crate) struct HeadedKey<'a> {
    pub key: &'a [u8],
    head: u64,
    ghost bytes: { IsBytes key.now },
    ghost headed: { head ≡ head_of key.now },
}

impl<'a> HeadedKey<'a> {
    /// Takes the head of the key.
    pub fn new(key: &'a [u8]) -> Self
        ensures key { result.key.now ≡ key.now }
    {
        HeadedKey {
            key,
            head: key_head(key),
        }
    }

    /// Returns whether the key comes before the other one. Their bytes are looked at only if their
    /// heads are the same.
    pub fn is_before(&self, other: &HeadedKey<'_>) -> bool
        ensures before { result ≡ is_before self.now.key.now other.now.key.now }
    {
        laws::key_heads();
        if self.head == other.head {
            return self.key.cmp(other.key).is_lt();
        }
        self.head < other.head
    }
}
