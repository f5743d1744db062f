//! How an arena grows: it takes chunks until enough slots of a size are spare.

ghost use Rattle.std.specs.Prelude.{◌≡◌, ◌≢◌, ℕ, ◌+◌, ◌<◌, ◌≤◌, ◌==◌, if◌then◌else◌};
ghost use Rattle.std.specs.Prelude.{IsOk, OnOk, OnErr, IsOkUnless};
ghost use Rattle.arena.specs.Arena.{slots_of, spare_of};
ghost use Rattle.arena.specs.declared.size.TheConstants.{SIZES};

use super::Arena;
use crate::chunk::Chunk;
use crate::error::ArenaError;
use crate::size::{SIZES, slots_of};
use crate::slot::MAX_CHUNKS;
use std::alloc::Allocator;

impl<H: Copy, A: Allocator + Copy> Arena<H, A> {
    // Adds chunks until `wanted` slots of the size are spare.
    pub(super) fn fill_up(&mut self, size: usize, wanted: usize) -> Result<(), ArenaError>
        requires size { size < SIZES }
        ensures room { OnOk result (wanted ≤ spare_of self.new size) }
        ensures records { self.new.records ≡ self.old.records }
        ensures spare_stays { spare_of self.old size ≤ spare_of self.new size }
        ensures other_sizes { (s : ℕ) → s ≢ size → spare_of self.new s ≡ spare_of self.old s }
        ensures enough { wanted ≤ spare_of self.old size → IsOk result }
        ensures no_more { wanted ≤ spare_of self.old size
            → spare_of self.new size ≡ spare_of self.old size }
        ensures most { spare_of self.old size < wanted
            → spare_of self.new size < wanted + slots_of size }
        ensures memory { IsOkUnless result ArenaError.Memory }
    {
        while self.spares.count(size) < wanted {
            self.grow(size)?;
        }
        Ok(())
    }

    // Adds a chunk if no slot of the size is spare.
    pub(super) fn spare_one(&mut self, size: usize) -> Result<(), ArenaError>
        requires size { size < SIZES }
        ensures some { OnOk result (0 < spare_of self.new size) }
        ensures spare { OnOk result (spare_of self.new size
            ≡ (if spare_of self.old size == 0 then slots_of size else spare_of self.old size)) }
        ensures records { self.new.records ≡ self.old.records }
        ensures other_sizes { (s : ℕ) → s ≢ size → spare_of self.new s ≡ spare_of self.old s }
        ensures enough { 0 < spare_of self.old size → IsOk result }
        ensures unchanged { OnErr result (self.new ≡ self.old) }
        ensures memory { IsOkUnless result ArenaError.Memory }
    {
        if self.spares.count(size) == 0 {
            self.grow(size)?;
        }
        Ok(())
    }

    // Adds a chunk of spare slots of the size.
    fn grow(&mut self, size: usize) -> Result<(), ArenaError>
        requires size { size < SIZES }
        ensures records { self.new.records ≡ self.old.records }
        ensures spare { OnOk result (spare_of self.new size
            ≡ spare_of self.old size + slots_of size) }
        ensures more { OnOk result (spare_of self.old size < spare_of self.new size) }
        ensures other_sizes { (s : ℕ) → s ≢ size → spare_of self.new s ≡ spare_of self.old s }
        ensures unchanged { OnErr result (self.new ≡ self.old) }
        ensures memory { IsOkUnless result ArenaError.Memory }
    {
        let number = self.chunks.len();
        if number == MAX_CHUNKS {
            return Err(ArenaError::Memory);
        }
        self.chunks.reserve(1)?;
        let chunk = Chunk::new(self.alloc, size)?;
        self.spares.add(self.alloc, size, number, slots_of(size))?;
        self.chunks.push_reserved(chunk);
        Ok(())
    }
}
