//! The lengths of keys for which memory is taken.

ghost use Rattle.std.specs.Prelude.{◌≡◌, OnOk};
ghost use Rattle.boundaries.specs.Stored.{each_length, lengths};

use keys::RangeRef;
use std::alloc::AllocError;
use std::marker::Model;

/// The lengths in bytes of a range's begin and end, each at most
/// [`MAX_KEY_LENGTH`](keys::MAX_KEY_LENGTH). Contracts see them as a pair, that of the begin first.
#[derive(Clone, Copy, Debug, PartialEq, Eq, Hash)]
pub struct KeyLengths {
    begin: u16,
    end: u16,
}

impl Model for KeyLengths {
    ghost use Rattle.std.specs.Prelude.{ℕ, ◌≤◌};
    ghost use Rattle.keys.specs.declared.key.TheConstants.{MAX_KEY_LENGTH};

    ghost Value = { ℕ × ℕ };

    ghost view = { λ l. (l.begin, l.end) };

    ghost invariant = { λ l. (l.begin ≤ MAX_KEY_LENGTH) × (l.end ≤ MAX_KEY_LENGTH) };

    ghost inverse = { λ p. record { begin = p.0; end = p.1 } };
}

impl KeyLengths {
    /// Returns the lengths of the range's begin and end.
    pub fn of(range: RangeRef<'_>) -> Self
        ensures lengths { result ≡ lengths range.entry }
    {
        KeyLengths {
            begin: range.begin().len() as u16,
            end: range.end().len() as u16,
        }
    }

    // Returns the length of the begin.
    pub(crate) fn begin(self) -> usize
        ensures length { result ≡ self.0 }
    {
        self.begin as usize
    }

    // Returns the length of the end.
    pub(crate) fn end(self) -> usize
        ensures length { result ≡ self.1 }
    {
        self.end as usize
    }
}

// Replaces the list by the lengths, each range's begin before its end.
pub(crate) fn put_each_length(
    each: &mut Vec<usize>,
    lengths: &[KeyLengths],
) -> Result<(), AllocError>
    ensures each { OnOk result (each.new.items ≡ each_length lengths.now) }
{
    each.clear();
    for pair in lengths {
        each.push(pair.begin())?;
        each.push(pair.end())?;
    }
    Ok(())
}
