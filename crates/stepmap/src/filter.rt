//! The filter: cells, each of which has the bounds of the keys that fall into it. Bounds only rise.

ghost use Rattle.std.specs.Prelude.{◌≡◌, ℕ, ◌≤◌, ◌*◌, ◌<◌, ◌≤ℤ◌, ◌<ℤ◌, ◌↔◌, negsuc, List, length};
ghost use Rattle.std.specs.Prelude.{take, IfOk, OnOk, IsTrue, min};
ghost use Rattle.std.specs.Int.{int_max};
ghost use Rattle.stepmap.specs.Filter.{bound, bound_in, cell_at, each_twice};
ghost use Rattle.keys.specs.Hash.{hash_of};

use cell::Cell;
use keys::key_hash;
use std::alloc::{AllocError, Global};
use std::marker::Model;

mod cell;

/// The greatest number of cells.
pub const MAX_CELLS: usize = 134_217_728;

const _: () = prove!(MAX_CELLS == 134_217_728);

// How many cells there are at first.
const FIRST_CELLS: usize = 256;

// How many bytes of memory a cell takes.
const CELL_BYTES: usize = 24;

// Two to the power of 32: how many hashes there are.
const HALF: u64 = 0x1_0000_0000;

/// A filter of writes: cells, and the versions of the newest range and the newest key. Contracts
/// see these, and speak of the bounds of keys.
#[derive(Debug, Drop)]
pub struct Filter {
    cells: Vec<Cell>,
    newest_range: i64,
    newest_key: i64,
}

impl Model for Filter {
    ghost use Rattle.std.specs.Prelude.{ℕ, get_or, length, negsuc, ◌*◌, ◌<◌, ◌≤◌, ◌≤ℤ◌};
    ghost use Rattle.stepmap.specs.Cell.{empty_cell, newest_of};
    ghost use Rattle.stepmap.specs.Filter.{FilterState};
    ghost use Rattle.stepmap.specs.declared.filter.TheConstants.{MAX_CELLS};

    ghost Value = { FilterState };

    ghost view = { λ f. record {
      cells = f.cells.items;
      newest_range = f.newest_range;
      newest_key = f.newest_key;
    } };

    ghost invariant = { λ f. (0 < length f.cells.items) × (length f.cells.items ≤ 2 * MAX_CELLS)
        × ((index : ℕ) → newest_of (get_or f.cells.items index empty_cell) ≤ℤ f.newest_key)
        × (negsuc 0 ≤ℤ f.newest_range) };
}

impl Filter {
    /// Makes the filter in which nothing is written: all bounds are -1.
    pub fn new(alloc: Global) -> Result<Self, AllocError>
        ensures bounds { IfOk result (λ f. (key : List ℕ) → bound f key ≡ negsuc 0) }
        ensures range { IfOk result (λ f. f.newest_range ≡ negsuc 0) }
        ensures key { IfOk result (λ f. f.newest_key ≡ negsuc 0) }
    {
        Ok(Filter {
            cells: Vec::from_elem(alloc, Cell::empty(), FIRST_CELLS)?,
            newest_range: -1,
            newest_key: -1,
        })
    }

    /// Returns the bound of the key: no write of it is above that.
    pub fn bound(&self, key: &[u8]) -> i64
        ensures bound { result ≡ bound self.now key.now }
    {
        self.bound_at(key_hash(key))
    }

    /// Returns the bound of the keys of a hash, as [`key_hash`] returns it. It looks at one cell.
    pub fn bound_at(&self, hash: u32) -> i64
        ensures bound { result ≡ bound_in self.now hash }
    {
        self.cells[self.cell(hash)]
            .bound(hash)
            .max(self.newest_range)
    }

    /// Returns the version of the newest range.
    pub fn newest_range(&self) -> i64
        ensures newest { result ≡ self.now.newest_range }
    {
        self.newest_range
    }

    /// Returns whether the newest key is newer than the newest range. If it isn't, no bound says
    /// more than the version of that range.
    pub fn is_useful(&self) -> bool
        ensures useful { IsTrue result ↔ (self.now.newest_range <ℤ self.now.newest_key) }
        ensures range { ¬ IsTrue result → (key : List ℕ)
            → bound self.now key ≡ self.now.newest_range }
    {
        self.newest_range < self.newest_key
    }

    /// Returns how many bytes of memory the cells take.
    pub fn bytes_held(&self) -> usize {
        self.cells.len().saturating_mul(CELL_BYTES)
    }

    /// Notes that a key of this hash, as [`key_hash`] returns it, is written at the version. It
    /// takes no memory.
    pub fn write_key(&mut self, hash: u32, version: i64)
        ensures written { (key : List ℕ) → hash ≡ hash_of key → version ≤ℤ bound self.new key }
        ensures raised { (other : List ℕ) → bound self.old other ≤ℤ bound self.new other }
        ensures no_higher { (other : List ℕ)
            → bound self.new other ≤ℤ int_max self.new.newest_key (bound self.old other) }
        ensures range { self.new.newest_range ≡ self.old.newest_range }
        ensures newest { self.new.newest_key ≡ int_max version self.old.newest_key }
    {
        let index = self.cell(hash);
        let mut cell = self.cells[index];
        cell.write(hash, version);
        self.cells[index] = cell;
        self.newest_key = self.newest_key.max(version);
    }

    /// Notes that a range is written at the version, whichever keys it holds: the bound of each key
    /// rises to it. It takes no memory.
    pub fn write_range(&mut self, version: i64)
        ensures written { (key : List ℕ)
            → bound self.new key ≡ int_max version (bound self.old key) }
        ensures range { self.new.newest_range ≡ int_max version self.old.newest_range }
        ensures newest { self.new.newest_key ≡ self.old.newest_key }
    {
        self.newest_range = self.newest_range.max(version);
    }

    /// Doubles the cells while there are fewer than `count`, and fewer than [`MAX_CELLS`], if the
    /// filter is useful. With more cells, fewer of the keys that are written from then on share
    /// one. Returns an error if an allocation fails. Each bound stays as it is, also after an
    /// error.
    pub fn reserve(&mut self, count: usize) -> Result<(), AllocError>
        ensures same { (key : List ℕ) → bound self.new key ≡ bound self.old key }
        ensures range { self.new.newest_range ≡ self.old.newest_range }
        ensures newest { self.new.newest_key ≡ self.old.newest_key }
        ensures no_fewer { length self.old.cells ≤ length self.new.cells }
        ensures enough { OnOk result (self.old.newest_range <ℤ self.old.newest_key
            → min count MAX_CELLS ≤ length self.new.cells) }
    {
        if !self.is_useful() {
            return Ok(());
        }
        while self.cells.len() < count.min(MAX_CELLS) {
            self.double()?;
        }
        Ok(())
    }

    // Makes two cells of each, with the same bounds.
    fn double(&mut self) -> Result<(), AllocError>
        requires few { length self.old.cells < MAX_CELLS }
        ensures same { (key : List ℕ) → bound self.new key ≡ bound self.old key }
        ensures range { self.new.newest_range ≡ self.old.newest_range }
        ensures newest { self.new.newest_key ≡ self.old.newest_key }
        ensures no_fewer { length self.old.cells ≤ length self.new.cells }
        ensures count { OnOk result (length self.new.cells ≡ 2 * length self.old.cells) }
    {
        let count = self.cells.len();
        self.cells.resize(2 * count, Cell::empty())?;
        spread(&mut self.cells, count);
        Ok(())
    }

    /// Returns the cell into which the keys of this hash fall, as [`key_hash`] returns it.
    pub fn cell(&self, hash: u32) -> usize
        ensures cell { result ≡ cell_at (length self.now.cells) hash }
        ensures within { result < length self.now.cells }
    {
        let count = self.cells.len() as u64;
        (u64::from(hash) * count / HALF) as usize
    }
}

// Makes two cells of each of the first ones, in order and in place. It goes from the last of them
// to the first, so that it overwrites no cell before it reads it.
fn spread(cells: &mut [Cell], count: usize)
    requires room { length cells.old ≡ 2 * count }
    ensures twice { cells.new ≡ each_twice (take count cells.old) }
{
    for index in (0..count).rev() {
        let cell = cells[index];
        cells[2 * index] = cell;
        cells[2 * index + 1] = cell;
    }
}
