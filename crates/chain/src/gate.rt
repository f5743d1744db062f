//! The batches that wait for their previous version.

ghost use Rattle.std.specs.Prelude.{◌≡◌, ◌+◌, ◌<◌, ◌≤◌, ◌≤ℤ◌, ◌↔◌, [], ◌∷◌, ◌++◌, length, remove};
ghost use Rattle.std.specs.Prelude.{slice_index_or, IfSome, IfNone, OnOk, OnErr, IfErr, IsErrAnd};
ghost use Rattle.std.specs.Option.{option_map};
ghost use Rattle.keyspace.specs.Leaving.{Held, least_first, next_due};

use crate::error::ChainError;
use keyspace::Batch;
use std::alloc::Global;
use std::collections::VecDeque;
use std::marker::Model;

/// The greatest number of batches that a gate holds, this project's own limit.
pub const MAX_HELD: usize = 1_024;

const _: () = prove!(MAX_HELD == 1_024);

/// The batches that wait for their previous version, at most [`MAX_HELD`], each with the proxy that
/// sent it, in order of arrival. In `Resolver.actor.cpp` of FoundationDB 7.1 such a batch waits for
/// the resolver's version to rise.
#[derive(Debug, Drop)]
pub struct Gate {
    held: VecDeque<(usize, Batch)>,
}

impl Model for Gate {
    ghost use Rattle.std.specs.Prelude.{List, ◌≤◌, length};
    ghost use Rattle.keyspace.specs.Leaving.{Held};
    ghost use Rattle.chain.specs.declared.gate.TheConstants.{MAX_HELD};

    ghost Value = { List Held };

    ghost view = { λ g. g.held.items };

    ghost invariant = { λ g. length g.held.items ≤ MAX_HELD };
}

impl Gate {
    /// Creates an empty gate, without taking memory.
    pub fn new(alloc: Global) -> Self
        ensures empty { result ≡ [] }
    {
        Gate {
            held: VecDeque::new(alloc),
        }
    }

    /// Returns the number of batches held, at most [`MAX_HELD`].
    pub fn held(&self) -> usize
        ensures count { result ≡ length self.now }
        ensures limit { length self.now ≤ MAX_HELD }
    {
        self.held.len()
    }

    /// Holds the batch as the latest arrival.
    ///
    /// An error hands the batch back and leaves the gate as it was: `GateFull` if the gate already
    /// holds [`MAX_HELD`] batches, `Memory` if memory is refused.
    pub fn hold(&mut self, proxy: usize, batch: Batch) -> Result<(), (ChainError, Batch)>
        ensures ok { OnOk result (self.new ≡ self.old ++ (proxy, batch) ∷ []) }

        // The only refusal beside this one is `Memory`.
        ensures full { IsErrAnd result (λ e. e.0 ≡ ChainError.GateFull)
            ↔ (length self.old ≡ MAX_HELD) }
        ensures unchanged { OnErr result (self.new ≡ self.old) }
        ensures returned { IfErr result (λ e. e.1 ≡ batch) }
    {
        if self.held() == MAX_HELD {
            return Err((ChainError::GateFull, batch));
        }
        match self.held.push_back((proxy, batch)) {
            Ok(()) => Ok(()),
            Err(failed) => Err((ChainError::Memory, failed.value.1)),
        }
    }

    /// Removes and returns the batch that leaves next at this version, or returns `None` if none is
    /// due. Of the batches whose previous version is at most `version`, the one with the least
    /// leaves first, among equals the earliest arrival. This order is the project's own.
    pub fn next_for(&mut self, version: i64) -> Option<(usize, Batch)>
        ensures next { next_due version self.old ≡ option_map (λ h. (h, self.new)) result }
        ensures unchanged { IfNone result (self.new ≡ self.old) }

        // What leaves is due, and one fewer is held.
        ensures due { IfSome result (λ h. h.1.previous ≤ℤ version) }
        ensures fewer { IfSome result (λ _. length self.old ≡ length self.new + 1) }
    {
        let index = index_of_least(&self.held)?;
        if version < self.held[index].1.previous {
            return None;
        }
        self.held.remove(index)
    }

    /// Removes and returns the earliest arrival, whatever its previous version, or returns `None`
    /// if the gate is empty.
    pub fn first(&mut self) -> Option<(usize, Batch)>
        ensures first { IfSome result (λ h. self.old ≡ h ∷ self.new) }
        ensures none { IfNone result (self.old ≡ []) }
        ensures unchanged { IfNone result (self.new ≡ self.old) }
    {
        self.held.pop_front()
    }
}

// Returns the index of the batch with the least previous version, the earliest among equals.
fn index_of_least(held: &VecDeque<(usize, Batch)>) -> Option<usize>
    ensures none { IfNone result (least_first held.now.items ≡ None) }
    ensures inside { IfSome result (λ i. i < length held.now.items) }
    ensures least { IfSome result (λ i. (d : Held)
        → least_first held.now.items ≡ Some
        (slice_index_or held.now.items i d, remove held.now.items i)) }
{
    if held.is_empty() {
        return None;
    }
    let mut least = 0;
    for index in 1..held.len() {
        if held[index].1.previous < held[least].1.previous {
            least = index;
        }
    }
    Some(least)
}
