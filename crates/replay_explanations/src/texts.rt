//! The lines of batches, by proxy and version.

ghost use Rattle.std.specs.Prelude.{◌≡◌, ℕ, ℤ, ◌&&◌, ◌==◌, [], OnErr, OnOk, if◌then◌else◌};
ghost use Rattle.std.specs.Ordering.{int_eq};
ghost use Rattle.std.specs.FinMap as map;
ghost use Rattle.replay_explanations.specs.Explainer.{text_of};

use keyspace::Sequence;
use std::alloc::{AllocError, Global};
use std::collections::BTreeMap;
use std::marker::Model;

/// The lines of each batch that has any, by its proxy and version.
#[derive(Debug, Drop)]
pub struct TextStore {
    kept: BTreeMap<(usize, i64), Sequence<u8>>,
}

impl Model for TextStore {
    ghost use Rattle.std.specs.Coded.{coded_list, coded_ℕ, coded_ℤ, coded×};
    ghost use Rattle.std.specs.FinMap as map;
    ghost use Rattle.replay_explanations.specs.Explainer.{Texts};

    ghost Value = { Texts };

    ghost coded = { map.code (coded× coded_ℕ coded_ℤ) (coded_list coded_ℕ) };

    ghost view = { λ t. map.from_entries t.kept.entries };
}

impl TextStore {
    /// Creates an empty store, without taking memory.
    pub fn new(alloc: Global) -> Self
        ensures none { (p : ℕ) (v : ℤ) → text_of result p v ≡ [] }
    {
        TextStore {
            kept: BTreeMap::new(alloc),
        }
    }

    /// Keeps the lines of a batch that has none yet. If memory is refused, the store is as it was.
    pub fn put(&mut self, proxy: usize, version: i64, text: Vec<u8>) -> Result<(), AllocError>
        ensures kept { OnOk result (text_of self.old proxy version ≡ [] → (p : ℕ) (v : ℤ)
            → text_of self.new p v
            ≡ (if (proxy == p) && int_eq version v then text.items else text_of self.old p v)) }
        ensures unchanged { OnErr result (self.new ≡ self.old) }
    {
        if text.is_empty() {
            return Ok(());
        }
        match self.kept.insert((proxy, version), Sequence::new(text)) {
            Ok(_) => Ok(()),
            Err(_) => Err(AllocError),
        }
    }

    /// Returns the lines of the batch of this proxy and version. They are empty if it has none.
    pub fn get(&self, proxy: usize, version: i64) -> &[u8]
        ensures text { result.now ≡ text_of self.now proxy version }
    {
        match self.kept.get(&(proxy, version)) {
            Some(text) => text.as_slice(),
            None => &[],
        }
    }
}
