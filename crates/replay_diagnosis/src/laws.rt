//! Laws about the lines, and about what they say. Each is the contract of a function with an empty
//! body.

ghost use Rattle.replay_diagnosis.specs.Laws.{EachRemedyIsALine, EachRunRemedyIsALine};
ghost use Rattle.replay_diagnosis.specs.Laws.{NoneIsProcessed};

/// The text about a finding in a file is one line that begins with two spaces.
pub fn each_remedy_is_a_line()
    ensures each { EachRemedyIsALine }
{}

/// The text about a finding of a run is one line that begins with two spaces.
pub fn each_run_remedy_is_a_line()
    ensures each { EachRunRemedyIsALine }
{}

/// If no batch of a log follows version -1, the reference resolver processes none: it holds all of
/// them.
pub fn unbegun_batches_are_held()
    ensures none { NoneIsProcessed }
{}
