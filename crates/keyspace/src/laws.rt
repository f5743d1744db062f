//! Laws about the reference definitions. Each is the contract of a function with an empty body.

ghost use Rattle.keyspace.specs.Laws.{JudgeIsRight, OnlyJudgeIsRight, RunsAreChains, NextDueLeaves};
ghost use Rattle.keyspace.specs.Laws.{NothingHeldIsDue, EachBatchIsAnswered, NoneIsHeldAfterFinish};
ghost use Rattle.keyspace.specs.Rows.{Limits, WorkedRows};

/// For each list of writes and each batch exactly one reply is right: that of the plain scan.
pub fn one_reply()
    ensures right { JudgeIsRight }
    ensures only { OnlyJudgeIsRight }
{}

/// The reference resolver processes a chain, whatever the log.
pub fn runs_are_chains()
    ensures chain { RunsAreChains }
{}

/// Held batches leave by the least previous version, among equals by arrival.
pub fn leaving()
    ensures next_due { NextDueLeaves }
{}

/// The reference resolver holds no batch that it could process or answer.
pub fn nothing_held_is_due()
    ensures waits { NothingHeldIsDue }
{}

/// The reference resolver answers each batch once, and the held ones at `Finish` at the latest.
pub fn each_batch_is_answered()
    ensures once { EachBatchIsAnswered }
    ensures none_held { NoneIsHeldAfterFinish }
{}

/// The worked examples, computed on the definitions.
pub fn worked_rows()
    ensures rows { (limits : Limits) × WorkedRows limits }
{}
