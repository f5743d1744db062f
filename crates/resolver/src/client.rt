//! A client of the resolver: a commit proxy's ends of its lanes.

use keyspace::{Answer, Batch};
use lane::{Intake, Port};

/// A commit proxy's ends of its two lanes. It may move to another thread.
#[derive(Drop)]
pub struct Client {
    /// Sends the proxy's batches, and closes the lane after the last one.
    pub requests: Port<Batch>,
    /// Takes the answers to them.
    pub replies: Intake<Answer>,
}
