//! From the least to the greatest of some versions.

ghost use Rattle.std.specs.Prelude.{◌≡◌};
ghost use Rattle.replay_summary.specs.Summary.{span_of_both};

/// The least and the greatest of some versions.
#[derive(Clone, Copy, Debug, PartialEq, Eq)]
pub struct Versions {
    pub first: i64,
    pub last: i64,
}

/// Returns the least and the greatest version of both.
pub fn spanning(one: Option<Versions>, other: Option<Versions>) -> Option<Versions>
    ensures span { result ≡ span_of_both one other }
{
    match (one, other) {
        (None, versions) | (versions, None) => versions,
        (Some(one), Some(other)) => Some(Versions {
            first: one.first.min(other.first),
            last: one.last.max(other.last),
        }),
    }
}
