//! A source of numbers that look drawn by chance.

ghost use Rattle.std.specs.Prelude.{◌≡◌, ◌≤◌, ◌<◌};
ghost use Rattle.workload_program.specs.Random.{number_below, state_after, state_of};

/// A linear congruence of 64 bits: the same seed gives the same numbers.
#[derive(Clone, Copy, Debug, PartialEq, Eq)]
pub struct Random {
    state: u64,
}

impl Random {
    /// Creates the source that begins with this seed.
    pub fn new(seed: u64) -> Self
        ensures seed { state_of result ≡ seed }
    {
        Random { state: seed }
    }

    /// Returns the next number below the bound. All of them are almost equally likely where the
    /// bound is much smaller than 2³².
    pub fn below(&mut self, bound: u64) -> u64
        requires some { 1 ≤ bound }
        ensures below { result < bound }
        ensures number { result ≡ number_below bound (state_of self.new) }
        ensures state { state_of self.new ≡ state_after (state_of self.old) }
    {
        self.state = self
            .state
            .wrapping_mul(6_364_136_223_846_793_005)
            .wrapping_add(1_442_695_040_888_963_407);
        (self.state >> 32) % bound
    }
}
