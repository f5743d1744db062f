//! Laws about explanations. Each is the contract of a function with an empty body.

ghost use Rattle.explanations.specs.Laws.{SameWrites, ExplainedIfInConflict};
ghost use Rattle.explanations.specs.Laws.{EachConflictExplained, DroppedExplainNothing};

/// The committed writes with their origins are the writes of the reference resolver.
pub fn same_writes()
    ensures same { SameWrites }
{}

/// A read range of the batch processed last has an explanation exactly if the reference resolver
/// finds it in conflict. Each transaction that is rejected as a conflict has such a read range.
pub fn conflicts_are_explained()
    ensures exactly { ExplainedIfInConflict }
    ensures each { EachConflictExplained }
{}

/// The batches that a history has dropped explain nothing of a transaction that isn't too old.
pub fn dropped_batches_explain_nothing()
    ensures nothing { DroppedExplainNothing }
{}
