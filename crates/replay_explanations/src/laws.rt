//! Laws about the lines. Each is the contract of a function with an empty body.

ghost use Rattle.replay_explanations.specs.Laws.{EachConflictHasALine, EachReportedReadHasALine};
ghost use Rattle.replay_explanations.specs.Laws.{LineIfInConflict};

/// Each transaction that the reply rejects as a conflict has a line.
pub fn each_conflict_has_a_line()
    ensures each { EachConflictHasALine }
{}

/// A read range has a line exactly if the reference resolver finds it in conflict. So each one that
/// the reply reports has a line.
pub fn each_read_in_conflict_has_a_line()
    ensures exactly { LineIfInConflict }
    ensures reported { EachReportedReadHasALine }
{}
