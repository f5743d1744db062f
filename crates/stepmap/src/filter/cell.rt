//! A cell of the filter: the version of one key, and what bounds those of the others that fall into
//! it.

ghost use Rattle.std.specs.Prelude.{◌≡◌, ◌≤ℤ◌, ◌%◌, ◌^◌, ℕ, IsTrue, negsuc};
ghost use Rattle.std.specs.Int.{int_max};
ghost use Rattle.stepmap.specs.Cell.{bound_of, empty_cell, is_marked, newest_of};

/// What is known of the keys that fall into a cell.
///
/// Of one key the cell has the hash: that of the newest version. Of the others it has one bound,
/// and marks, one for each remainder of a hash by 32. A key whose hash isn't that one, and whose
/// mark isn't set, was never written.
#[derive(Clone, Copy, Debug)]
pub struct Cell {
    /// The newest version of the keys of one hash.
    pub version: i64,
    /// No version of another key is above it.
    pub others: i64,
    /// The hash.
    pub hash: u32,
    /// One bit for each remainder of a hash by 32.
    pub marks: u32,
}

impl Cell {
    /// Returns a cell into which no key is written: each bound is -1.
    pub fn empty() -> Self
        ensures empty { result ≡ empty_cell }
    {
        Cell {
            version: -1,
            others: -1,
            hash: 0,
            marks: 0,
        }
    }

    /// Returns the bound of the keys of a hash: no version that was written for one of them is
    /// above it.
    pub fn bound(&self, hash: u32) -> i64
        ensures bound { result ≡ bound_of self.now hash }
    {
        let own = if self.hash == hash { self.version } else { -1 };
        let others = if self.is_marked(hash) {
            self.others
        } else {
            -1
        };
        own.max(others)
    }

    /// Notes that a key of the hash is written at the version.
    pub fn write(&mut self, hash: u32, version: i64)
        ensures written { version ≤ℤ bound_of self.new hash }
        ensures raised { (other : ℕ) → bound_of self.old other
            ≤ℤ int_max (negsuc 0) (bound_of self.new other) }
        ensures newest { newest_of self.new ≡ int_max version (newest_of self.old) }
    {
        if self.hash == hash {
            self.version = self.version.max(version);
        } else if version < self.version {
            self.mark(hash, version);
        } else {
            self.mark(self.hash, self.version);
            self.hash = hash;
            self.version = version;
        }
    }

    // Notes the version of a key of the hash among those of the others.
    fn mark(&mut self, hash: u32, version: i64)
        ensures version { self.new.version ≡ self.old.version }
        ensures hash { self.new.hash ≡ self.old.hash }
        ensures others { self.new.others ≡ int_max version self.old.others }
        ensures marked { IsTrue (is_marked self.new hash) }
        ensures kept { (other : ℕ) → IsTrue (is_marked self.old other)
            → IsTrue (is_marked self.new other) }
    {
        self.others = self.others.max(version);
        self.marks |= mark_of(hash);
    }

    // Returns whether the mark of the hash is set.
    fn is_marked(&self, hash: u32) -> bool
        ensures marked { result ≡ is_marked self.now hash }
    {
        self.marks & mark_of(hash) != 0
    }
}

// Returns the mark of a hash: one of 32 bits.
fn mark_of(hash: u32) -> u32
    ensures mark { result ≡ 2 ^ (hash % 32) }
{
    1 << (hash % 32)
}
