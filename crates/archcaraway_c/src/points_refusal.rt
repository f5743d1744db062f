//! Why keys are refused as split points, and the number by which C sees it.

ghost use Rattle.std.specs.Prelude.{◌≡◌};
ghost use Rattle.archcaraway_c.specs.Points.{points_status, bad_key};
ghost use Rattle.archcaraway_c.specs.Points.{refusal_of_same_name};

use shards::SplitPointsError;

/// Why keys are refused as split points.
#[derive(Clone, Copy, Debug, PartialEq, Eq)]
pub enum PointsRefusal {
    /// There are more than [`shards::MAX_SPLIT_POINTS`].
    TooMany,
    /// The key at this index is the first that isn't after the one before it.
    NotRising(usize),
    /// The key at this index is too long.
    KeyLength(usize),
    /// The bytes end before the keys do.
    Argument,
    /// Memory was refused.
    Memory,
}

impl PointsRefusal {
    /// Returns the number by which C sees the refusal.
    pub fn status(&self) -> i32
        ensures status { result ≡ points_status self.now }
    {
        match self {
            PointsRefusal::TooMany => 301,
            PointsRefusal::NotRising(_) => 302,
            PointsRefusal::KeyLength(_) => 108,
            PointsRefusal::Argument => 202,
            PointsRefusal::Memory => 1,
        }
    }

    /// Returns the index of the key at fault, or the number of keys.
    pub fn bad_key(&self, count: usize) -> usize
        ensures bad { result ≡ bad_key count self.now }
    {
        match self {
            PointsRefusal::NotRising(index) | PointsRefusal::KeyLength(index) => *index,
            _ => count,
        }
    }
}

/// Returns the refusal of keys that are no split points.
pub fn refusal_of_points(error: SplitPointsError) -> PointsRefusal
    ensures refusal { result ≡ refusal_of_same_name error }
{
    match error {
        SplitPointsError::TooMany => PointsRefusal::TooMany,
        SplitPointsError::NotRising(index) => PointsRefusal::NotRising(index),
    }
}
