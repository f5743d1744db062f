//! Which transactions report their read ranges in conflict.

/// Which transactions report their read ranges in conflict.
#[derive(Clone, Copy, Debug, PartialEq, Eq)]
pub enum Reports {
    /// Those that ask for it.
    Asked,
    /// All of them.
    All,
}
