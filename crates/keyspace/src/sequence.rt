//! Vectors that contracts see as lists.

ghost use Rattle.std.specs.Prelude.{◌≡◌, ◌↔◌, [], IsTrue, length};

use std::marker::Model;

/// A sequence of items, which contracts see as a list. It is created from a `Vec` and converts back
/// into one, without copying the items.
#[derive(Debug, Drop)]
pub struct Sequence<T> {
    items: Vec<T>,
}

impl<T> Model for Sequence<T> {
    ghost use Rattle.std.specs.Prelude.{List};

    ghost Value = { List T };

    ghost view = { λ s. s.items.items };
}

impl<T> Sequence<T> {
    /// Creates a sequence of the vector's items, in their order.
    pub fn new(items: Vec<T>) -> Self
        ensures items { result ≡ items.items }
    {
        Sequence { items }
    }

    /// Returns the items as a slice.
    pub fn as_slice(&self) -> &[T]
        ensures items { result.now ≡ self.now }
    {
        &self.items
    }

    /// Returns the vector of the items.
    pub fn into_vec(self) -> Vec<T>
        ensures items { result.items ≡ self }
    {
        self.items
    }

    /// Returns the number of items.
    pub fn len(&self) -> usize
        ensures count { result ≡ length self.now }
    {
        self.items.len()
    }

    /// Returns `true` if there are no items.
    pub fn is_empty(&self) -> bool
        ensures empty { IsTrue result ↔ (self.now ≡ []) }
    {
        self.items.is_empty()
    }
}
