//! How numbers are spread.

ghost use Rattle.std.specs.Prelude.{◌≡◌, ◌∷◌, ◌++◌, [], List, ℕ, OnSome};
ghost use Rattle.batches_tasks.specs.Stats.{spread_of};

/// How numbers are spread: how many there are, their sum, the least and the greatest of them.
#[derive(Clone, Copy, Debug, PartialEq, Eq)]
pub struct Spread {
    pub count: u64,
    pub total: u64,
    /// The least and the greatest number, or none if there is no number.
    pub ends: Option<(u64, u64)>,
}

impl Spread {
    /// Creates the spread of no numbers.
    pub fn new() -> Self
        ensures none { result ≡ spread_of [] }
    {
        Spread {
            count: 0,
            total: 0,
            ends: None,
        }
    }

    /// Counts a number. Returns none if a sum wouldn't fit.
    pub fn add(&mut self, number: u64) -> Option<()>
        ensures added { OnSome result ((numbers : List ℕ) → self.old ≡ spread_of numbers
            → self.new ≡ spread_of (numbers ++ number ∷ [])) }
    {
        self.count = self.count.checked_add(1)?;
        self.total = self.total.checked_add(number)?;
        self.ends = match self.ends {
            None => Some((number, number)),
            Some((least, greatest)) => Some((least.min(number), greatest.max(number))),
        };
        Some(())
    }
}
