//! The laws. Each is the contract of a function that does nothing.

ghost use Rattle.std.specs.Prelude.{ℕ, ℤ, List};
ghost use Rattle.keyspace.specs.Processed.{Processed};
ghost use Rattle.keyspace.specs.Chain.{IsChain};
ghost use Rattle.keyspace.specs.Rows.{Limits};
ghost use Rattle.serial.specs.Commits.{Current};
ghost use Rattle.serial.specs.Serial.{EachIsIsolated, Serializable, InvariantsHold};
ghost use Rattle.serial.specs.Serial.{EffectsAreSerializable, SnapshotsArePlaces, RealTime};
ghost use Rattle.serial.specs.Serial.{IsSerializable, ChainsAreSerializable};
ghost use Rattle.serial.specs.Replies.{AnswersReportVerdicts};
ghost use Rattle.serial.specs.Shards.{OneShardEach, AreByShards};
ghost use Rattle.serial.specs.Rows.{WorkedRows};

/// Every write that a committed transaction of a chain could have missed is one that it has read:
/// at each key of its read ranges, the writes before it are those that its snapshot includes.
pub fn reads_are_current()
    ensures current { (window : ℤ) (ps : List Processed) → IsChain window ps → Current ps }
{}

/// Each committed transaction of a chain reads current values and may be run at its place in the
/// commit order, whatever the other transactions read.
pub fn isolated()
    ensures isolated { (ps : List Processed) → Current ps → EachIsIsolated ps }
    ensures chains { (window : ℤ) (ps : List Processed) → IsChain window ps → EachIsIsolated ps }
{}

/// If the committed transactions of a chain read only what they declare, they can be run one at a
/// time, in commit order. Each then reads the same values as it did, and leaves the same store.
/// Functions of the read ranges are such transactions.
pub fn serializable()
    ensures serializable { (ps : List Processed) → Current ps → Serializable ps }
    ensures chains { (window : ℤ) (ps : List Processed) → IsChain window ps → Serializable ps }
    ensures effects { (window : ℤ) (ps : List Processed) → IsChain window ps
        → EffectsAreSerializable ps }
{}

/// If the committed transactions of a chain read only what they declare, an invariant that each of
/// them preserves alone holds after any number of batches, as they were run.
pub fn invariants_hold()
    ensures invariants { (ps : List Processed) → Current ps → InvariantsHold ps }
{}

/// A snapshot is a place in the commit order of a chain, so transactions that only read are run
/// there.
pub fn snapshots_are_places()
    ensures places { (window : ℤ) (ps : List Processed) → IsChain window ps
        → SnapshotsArePlaces ps }
{}

/// Take a committed transaction of a chain that reads below its own batch's version. It comes after
/// each transaction that was committed when it read, and reads what that one wrote or a later
/// write.
pub fn real_time()
    ensures follows { (window : ℤ) (ps : List Processed) → IsChain window ps → RealTime ps }
{}

/// All of these in one: what a chain gives a database.
pub fn chains_are_serializable()
    ensures chains { ChainsAreSerializable }
{}

/// Each reply is that of one processed batch, which its proxy has sent, and the transactions that
/// replies report as committed are the committed ones.
pub fn answers_report_verdicts()
    ensures known_verdicts { AnswersReportVerdicts }
{
    keyspace::laws::runs_are_chains();
}

/// Rising split points make shards of which exactly one has each key.
pub fn one_shard_per_key()
    ensures one { OneShardEach }
{}

/// If each shard of the keys has its own resolver, and a transaction is committed only if every one
/// of them says so, the laws hold of the verdicts that the clients received. Each shard remembers
/// what it committed, which may be more than what all of them did.
pub fn serializable_by_shards()
    ensures current { (window : ℤ) (points : List (List ℕ)) (each : List (List Processed))
        (ps : List Processed)
        → AreByShards window points each ps → Current ps }
    ensures isolated { (window : ℤ) (points : List (List ℕ)) (each : List (List Processed))
        (ps : List Processed)
        → AreByShards window points each ps → EachIsIsolated ps }
    ensures serializable { (window : ℤ) (points : List (List ℕ)) (each : List (List Processed))
        (ps : List Processed)
        → AreByShards window points each ps → Serializable ps }
    ensures effects { (window : ℤ) (points : List (List ℕ)) (each : List (List Processed))
        (ps : List Processed)
        → AreByShards window points each ps → EffectsAreSerializable ps }
    ensures places { (window : ℤ) (points : List (List ℕ)) (each : List (List Processed))
        (ps : List Processed)
        → AreByShards window points each ps → SnapshotsArePlaces ps }
    ensures follows { (window : ℤ) (points : List (List ℕ)) (each : List (List Processed))
        (ps : List Processed)
        → AreByShards window points each ps → RealTime ps }
    ensures all { (window : ℤ) (points : List (List ℕ)) (each : List (List Processed))
        (ps : List Processed)
        → AreByShards window points each ps → IsSerializable ps }
{}

/// The worked examples, computed on the definitions.
pub fn worked_rows()
    ensures rows { (limits : Limits) × WorkedRows limits }
{
    keyspace::laws::runs_are_chains();
}
