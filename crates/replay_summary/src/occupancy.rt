//! How full a resolver was during a run.

ghost use Rattle.std.specs.Prelude.{◌≡◌};
ghost use Rattle.replay_summary.specs.Occupancy.{occupancy_after};

/// How full a resolver was during a run.
#[derive(Clone, Copy, Debug, PartialEq, Eq)]
pub struct Occupancy {
    /// The greatest number of batches that it held at once.
    pub most_held: usize,
    /// The number of boundaries of its conflict set at the end.
    pub boundaries: usize,
    /// The greatest number of boundaries that its conflict set had after a turn.
    pub most_boundaries: usize,
}

impl Occupancy {
    /// Creates the occupancy of a resolver that has taken no batch, from the number of boundaries
    /// that its conflict set has then.
    pub fn new(boundaries: usize) -> Self
        ensures new { result ≡ record {
          most_held = 0;
          boundaries = boundaries;
          most_boundaries = boundaries;
        } }
    {
        Occupancy {
            most_held: 0,
            boundaries,
            most_boundaries: boundaries,
        }
    }

    /// Notes how many batches the resolver holds now, and how many boundaries its conflict set has.
    pub fn note(&mut self, held: usize, boundaries: usize)
        ensures noted { self.new ≡ occupancy_after held boundaries self.old }
    {
        self.most_held = self.most_held.max(held);
        self.boundaries = boundaries;
        self.most_boundaries = self.most_boundaries.max(boundaries);
    }
}
