//! Laws about the ranges that conflict most. Each is the contract of a function with an empty body.

ghost use Rattle.replay_hot_ranges.specs.Laws.{AllIfFewer, NoneIsTwice, OthersAreAtMost};

/// A range that isn't listed has at most the count of each that is. No range is listed twice. If
/// fewer are listed than may be, each range with a count is listed.
pub fn greatest_counts_are_listed()
    ensures others { OthersAreAtMost }
    ensures once { NoneIsTwice }
    ensures all { AllIfFewer }
{}
