//! The shapes of transactions, and what their batches have in common.

ghost use Rattle.std.specs.Prelude.{◌≡◌, ◌≢◌, ◌≤◌, ◌<◌, IfSome, IfNone};
ghost use Rattle.workload_program.specs.Versions.{reads_of, writes_of, keys_of};
ghost use Rattle.workload_program.specs.Draws.{after_back, after_key, drawn_back, drawn_key};
ghost use Rattle.workload_program.specs.Random.{state_of};
ghost use Rattle.workload_program.specs.Txns.{LooksBack};
ghost use Rattle.workload_program.specs.Arguments.{name_of};

use crate::random::Random;

/// How many keys each shape draws from.
const RANGE_KEYS: u64 = 20_000_000;

const POINT_KEYS: u64 = 1_000_000;

/// What the transactions of a file look like.
#[derive(Clone, Copy, Debug, PartialEq, Eq)]
pub enum Shape {
    /// One read and one write, each of 1 to 10 keys side by side, as in `skiplisttest` of
    /// FoundationDB 7.1. All keys are equally likely.
    SkipListTest,
    /// Five reads and two writes of single keys. Small keys are likelier.
    Points,
}

impl Shape {
    /// Returns the shape of this name, if there is one.
    pub fn of_name(name: &str) -> Option<Self>
        ensures shape { IfSome result (λ shape. name.now ≡ name_of shape) }
        ensures none { IfNone result ((shape : Shape) → name.now ≢ name_of shape) }
    {
        match name {
            "skiplisttest" => Some(Shape::SkipListTest),
            "points" => Some(Shape::Points),
            _ => None,
        }
    }

    /// Returns how many reads a transaction has.
    pub fn reads(self) -> usize
        ensures reads { result ≡ reads_of self }
    {
        match self {
            Shape::SkipListTest => 1,
            Shape::Points => 5,
        }
    }

    /// Returns how many writes a transaction has.
    pub fn writes(self) -> usize
        ensures writes { result ≡ writes_of self }
    {
        match self {
            Shape::SkipListTest => 1,
            Shape::Points => 2,
        }
    }

    /// Returns how many batches back the next transaction reads.
    pub fn look_back(self, random: &mut Random) -> u32
        ensures back { LooksBack self result }
        ensures some { 1 ≤ result }
        ensures drawn { result ≡ drawn_back self (state_of random.old) }
        ensures state { state_of random.new ≡ after_back self (state_of random.old) }
    {
        match self {
            Shape::SkipListTest => 50,
            Shape::Points => 1 + random.below(8) as u32,
        }
    }

    /// Draws the number of the next key.
    pub fn draw(self, random: &mut Random) -> u64
        ensures few { result < keys_of self }
        ensures drawn { result ≡ drawn_key self (state_of random.old) }
        ensures state { state_of random.new ≡ after_key self (state_of random.old) }
    {
        match self {
            Shape::SkipListTest => random.below(RANGE_KEYS),
            Shape::Points => {
                let most = random.below(POINT_KEYS);
                random.below(1 + most)
            }
        }
    }
}
