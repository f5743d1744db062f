//! The name of a place where a record is kept.

ghost use Rattle.std.specs.Prelude.{◌≡◌, ◌+◌, ◌*◌, ◌/◌, ◌%◌, ◌<◌};

use std::marker::Model;

/// The greatest number of slots that a chunk has.
pub(crate) const CHUNK_SLOTS: usize = 512;

const _: () = prove!(CHUNK_SLOTS == 512);

/// The number of chunks that slots can name.
pub(crate) const MAX_CHUNKS: usize = 8_388_608;

const _: () = prove!(MAX_CHUNKS == 8_388_608);

/// The location of a record: a chunk and an index in it, in 4 bytes. The chunk knows the size of
/// its slots.
///
/// A slot names a record of the arena that gave it, from then until its release.
#[derive(Clone, Copy, Debug, Default, PartialEq, Eq, Hash)]
pub struct Slot {
    number: u32,
}

impl Model for Slot {
    ghost use Rattle.std.specs.Prelude.{ℕ};

    ghost Value = { ℕ };

    ghost view = { λ s. s.number };

    ghost inverse = { λ n. record { number = n } };
}

impl Slot {
    pub(crate) fn new(chunk: usize, index: usize) -> Self
        requires chunk { chunk < MAX_CHUNKS }
        requires index { index < CHUNK_SLOTS }
        ensures number { result ≡ chunk * CHUNK_SLOTS + index }
    {
        Slot {
            number: (chunk * CHUNK_SLOTS + index) as u32,
        }
    }

    pub(crate) fn chunk(self) -> usize
        ensures chunk { result ≡ self / CHUNK_SLOTS }
    {
        self.number as usize / CHUNK_SLOTS
    }

    pub(crate) fn index(self) -> usize
        ensures index { result ≡ self % CHUNK_SLOTS }
    {
        self.number as usize % CHUNK_SLOTS
    }
}
