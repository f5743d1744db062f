//! Byte strings, of which short ones lie in the value itself.

ghost use Rattle.std.specs.Prelude.{◌≡◌, ◌≤◌, IfOk, length, take};
ghost use Rattle.keys.specs.declared.bytes.TheConstants.{SHORT};

use std::alloc::{AllocError, Global};
use std::fmt;
use std::marker::Model;

// So many bytes lie in the value itself, which then has 40 bytes.
const SHORT: usize = 38;

/// A byte string. Up to `SHORT` bytes take no memory beside the value.
#[derive(Drop)]
pub(crate) struct Bytes {
    kept: Kept,
}

// The location of the bytes.
#[derive(Drop)]
enum Kept {
    Here(Short),
    There(Vec<u8>),
}

// The first bytes of the array. The bytes after them don't count.
#[derive(Clone, Copy)]
struct Short {
    count: u8,
    array: [u8; SHORT],
    ghost within: { count ≤ SHORT },
}

impl Model for Bytes {
    ghost use Rattle.std.specs.Prelude.{List, ℕ};
    ghost use Rattle.keys.specs.Bytes.{bytes_kept};

    ghost Value = { List ℕ };

    ghost view = { λ b. bytes_kept b.kept };
}

impl Bytes {
    /// Takes the bytes of a vector.
    pub(crate) fn new(bytes: Vec<u8>) -> Self
        ensures bytes { result ≡ bytes.items }
    {
        Bytes {
            kept: Kept::There(bytes),
        }
    }

    /// Copies the first bytes, or returns an error if memory is refused.
    pub(crate) fn front(alloc: Global, bytes: &[u8], count: usize) -> Result<Self, AllocError>
        requires within { count ≤ length bytes.now }
        ensures bytes { IfOk result (λ copied. copied ≡ take count bytes.now) }
    {
        let kept = if count <= SHORT {
            Kept::Here(Short::front(bytes, count))
        } else {
            Kept::There(Vec::from_slice(alloc, &bytes[..count])?)
        };
        Ok(Bytes { kept })
    }

    /// Returns the bytes as a slice.
    pub(crate) fn as_slice(&self) -> &[u8]
        ensures bytes { result.now ≡ self.now }
    {
        match &self.kept {
            Kept::Here(short) => short.as_slice(),
            Kept::There(bytes) => bytes,
        }
    }
}

impl Short {
    ghost use Rattle.keys.specs.Bytes.{bytes_here};

    // Copies the first bytes. If there are enough, it copies as many as fit, which takes no loop.
    fn front(bytes: &[u8], count: usize) -> Self
        requires short { count ≤ SHORT }
        requires within { count ≤ length bytes.now }
        ensures bytes { bytes_here result ≡ take count bytes.now }
    {
        if let Some(first) = bytes.first_chunk::<SHORT>() {
            return Short {
                count: count as u8,
                array: *first,
            };
        }
        let mut array = [0; SHORT];
        array[..count].copy_from_slice(&bytes[..count]);
        Short {
            count: count as u8,
            array,
        }
    }

    // Returns the bytes that count.
    fn as_slice(&self) -> &[u8]
        ensures bytes { result.now ≡ bytes_here self.now }
    {
        &self.array[..usize::from(self.count)]
    }
}

impl fmt::Debug for Bytes {
    fn fmt<W: fmt::Write>(&self, f: &mut fmt::Formatter<W>) -> fmt::Result {
        self.as_slice().fmt(f)
    }
}
