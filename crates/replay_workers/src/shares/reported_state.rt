//! The state of a proxy, as it reports it.

/// The next batch of a proxy whose share is used up.
#[derive(Clone, Copy, Debug, PartialEq, Eq)]
pub struct Stand {
    /// The batch's previous version.
    pub previous: i64,
    /// How many answers the proxy has received.
    pub answered: u64,
}

/// The state of a proxy, as it reports it.
#[derive(Clone, Copy, Debug, PartialEq, Eq)]
pub enum ReportedState {
    /// It reads, sends or takes answers.
    Goes,
    /// It has a batch to send, and its share is used up.
    Stands(Stand),
    /// It sends no more.
    Closed,
}
