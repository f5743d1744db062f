//! Laws about shards. Each is the contract of a function with an empty body.

ghost use Rattle.std.specs.Prelude.{ℕ, ℤ, List};
ghost use Rattle.keyspace.specs.Processed.{Processed};
ghost use Rattle.serial.specs.Commits.{Current};
ghost use Rattle.serial.specs.Serial.{EachIsIsolated, Serializable, EffectsAreSerializable};
ghost use Rattle.serial.specs.Serial.{SnapshotsArePlaces, RealTime};
ghost use Rattle.serial.specs.Serial.{IsSerializable};
ghost use Rattle.shards.specs.Laws.{GoesToIsComputed, EachRangeGoes, AreCombined, CommitsNoMore};
ghost use Rattle.shards.specs.Laws.{AreCombinedAmongOthers};

/// A range goes to each shard that has a key of it, and an empty range to the shard of its begin
/// key: the test by ends says the same. Each range goes to some shard.
pub fn shards_of_a_range()
    ensures computed { GoesToIsComputed }
    ensures some { EachRangeGoes }
{}

/// Whatever chains the resolvers of the shards process, the transactions that all of them commit
/// are serializable.
pub fn serializable()
    ensures current { (window : ℤ) (points : List (List ℕ))
        (each : List (List Processed)) (ps : List Processed)
        → AreCombined window points each ps → Current ps }
    ensures isolated { (window : ℤ) (points : List (List ℕ))
        (each : List (List Processed)) (ps : List Processed)
        → AreCombined window points each ps → EachIsIsolated ps }
    ensures serializable { (window : ℤ) (points : List (List ℕ))
        (each : List (List Processed)) (ps : List Processed)
        → AreCombined window points each ps → Serializable ps }
    ensures effects { (window : ℤ) (points : List (List ℕ))
        (each : List (List Processed)) (ps : List Processed)
        → AreCombined window points each ps → EffectsAreSerializable ps }
    ensures places { (window : ℤ) (points : List (List ℕ))
        (each : List (List Processed)) (ps : List Processed)
        → AreCombined window points each ps → SnapshotsArePlaces ps }
    ensures follows { (window : ℤ) (points : List (List ℕ))
        (each : List (List Processed)) (ps : List Processed)
        → AreCombined window points each ps → RealTime ps }
{
    serial::laws::serializable_by_shards();
}

/// Of the batches that all shards have processed, the transactions that all of them commit are
/// serializable. Each shard may have processed other batches between them, as runs do that don't
/// wait for each other: what these wrote only makes conflicts.
pub fn serializable_among_others()
    ensures current { (window : ℤ) (points : List (List ℕ))
        (each : List (List Processed)) (ps : List Processed)
        → AreCombinedAmongOthers window points each ps → Current ps }
    ensures all { (window : ℤ) (points : List (List ℕ))
        (each : List (List Processed)) (ps : List Processed)
        → AreCombinedAmongOthers window points each ps → IsSerializable ps }
{}

/// What all shards commit, one resolver commits too, if it remembers just the writes that clients
/// received as committed.
pub fn commits_no_more()
    ensures none { (window : ℤ) (points : List (List ℕ))
        (each : List (List Processed)) (ps : List Processed)
        → AreCombined window points each ps → CommitsNoMore window ps }
{
    serializable();
}
