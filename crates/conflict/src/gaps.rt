//! A set of gaps between neighbouring keys, one bit a gap: `MiniConflictSet` of FoundationDB 7.1.
//! Its words are kept from batch to batch.
ghost use Rattle.std.specs.Prelude.{◌≡◌, ◌↔◌, ◌⊎◌, ℕ, ◌≤◌, [], length, IsTrue, OnErr, OnOk};
ghost use Rattle.conflict.specs.Gaps.{IsInRun, IsMarked, SomeMarked};

mod words;

use self::words::{any_in_run, set_run};
use std::alloc::{AllocError, Global};
use std::marker::Model;

/// A set of gap numbers below a count, which contracts see as the list of the gaps' marks.
#[derive(Debug, Drop)]
pub struct Gaps {
    // More bits than gaps: a run may end at the count, and the word of its end exists.
    words: Vec<u64>,
    count: usize,
}

impl Model for Gaps {
    ghost use Rattle.std.specs.Prelude.{◌*◌, ◌<◌, Bool, List, vec_len};
    ghost use Rattle.conflict.specs.Gaps.{marks_of};

    ghost Value = { List Bool };

    ghost view = { λ g. marks_of g.count g.words.items };

    ghost invariant = { λ g. 0 < g.count → g.count < 64 * vec_len g.words };
}

impl Gaps {
    /// Creates a set of gaps with a count of 0, without taking memory.
    pub fn new(alloc: Global) -> Self
        ensures empty { result ≡ [] }
    {
        Gaps {
            words: Vec::new(alloc),
            count: 0,
        }
    }

    /// Sets the count of gaps and unmarks every gap. Takes memory only if the count exceeds all
    /// earlier ones. An error leaves a count of 0.
    pub fn reset(&mut self, count: usize) -> Result<(), AllocError>
        ensures count { OnOk result (length self.new ≡ count) }
        ensures unmarked { OnOk result ((gap : ℕ) → ¬ IsMarked self.new gap) }
        ensures err { OnErr result (self.new ≡ []) }
    {
        self.count = 0;
        self.words.clear();
        self.words.resize(count / 64 + 1, 0)?;
        self.count = count;
        Ok(())
    }

    /// Marks the gaps of the run `from..to`.
    pub fn mark(&mut self, from: usize, to: usize)
        requires ordered { from ≤ to }
        requires within { to ≤ length self.old }
        ensures count { length self.new ≡ length self.old }
        ensures marked { (gap : ℕ) → IsMarked self.new gap
            ↔ (IsMarked self.old gap ⊎ IsInRun from to gap) }
    {
        if from < to {
            set_run(&mut self.words, from, to);
        }
    }

    /// Returns `true` if a gap of the run `from..to` is marked.
    pub fn any(&self, from: usize, to: usize) -> bool
        requires ordered { from ≤ to }
        requires within { to ≤ length self.now }
        ensures marked { IsTrue result ↔ SomeMarked self.now from to }
    {
        from < to && any_in_run(&self.words, from, to)
    }
}
