//! Laws about the definitions of the headline and of shares. Each is the contract of a function
//! with an empty body.

ghost use Rattle.std.specs.Prelude.{◌≡◌, ◌≤◌, ◌<◌, ◌↔◌, ℕ, ℤ, List, [], Some, length, slice_get};
ghost use Rattle.keyspace.specs.declared.txn.Txn.{Txn};
ghost use Rattle.keyspace.specs.Processed.{Processed};
ghost use Rattle.keyspace.specs.Run.{Step, part, run};
ghost use Rattle.serial.specs.Commits.{IsCommitted};
ghost use Rattle.serial.specs.Replies.{IsCommittedAt, ReportsCommitted};
ghost use Rattle.lane.specs.Lane.{Lane};
ghost use Rattle.resolver.specs.declared.client.Client.{Client};
ghost use Rattle.resolver.specs.declared.turn.Account.{Account};
ghost use Rattle.resolver.specs.Lanes.{Lanes};
ghost use Rattle.resolver.specs.Resolver.{ResolverState, TakesOnlyFrom, StandsOverFrom};
ghost use Rattle.resolver.specs.Share.{HasMoreUnanswered, KeepsShare};
ghost use Rattle.resolver.specs.Settled.{SettledFrom};
ghost use Rattle.resolver.specs.OpeningLog.{OpeningsStart, ReadsFrom, log_from};

/// The logs of the headline hold no batch of a proxy without a client: of no other is a batch
/// taken, judged or answered.
pub fn no_other_proxy()
    ensures takes_only { (proxies : ℕ) (log : List Step) → TakesOnlyFrom proxies log
        ↔ ((proxy : ℕ) → proxies ≤ proxy → part log proxy ≡ []) }
    ensures stands { (version : ℤ) (r : ResolverState) (log : List Step)
        → StandsOverFrom version r log
        → (proxy : ℕ) → length r.lanes ≤ proxy → part log proxy ≡ [] }
    ensures settled { (version window : ℤ) (log : List Step) (lanes : List Lanes)
        (clients : List Client) (account : Account)
        → SettledFrom version window log lanes clients account
        → (proxy : ℕ) → length clients ≤ proxy → part log proxy ≡ [] }
{}

/// A client that keeps its share is never one that a full gate shows to have more unanswered.
pub fn within_share()
    ensures within { (share proxy : ℕ) (r : ResolverState) (c : Client) (l : Lanes)
        → slice_get r.lanes proxy ≡ Some l
        → Lane c.requests l.requests → Lane l.replies c.replies → KeepsShare share c
        → ¬ HasMoreUnanswered share proxy r }
{}

/// If a core starts at a version, its reference resolver is at that version and knows nothing of
/// the writes up to it. It has neither a batch nor an answer of any proxy.
pub fn openings()
    ensures start { OpeningsStart }
{}

/// A resolver that started at a version commits no transaction that reads below it. Each one that
/// it reports as committed has a snapshot at or above the version, or only empty read ranges.
pub fn none_reads_below()
    ensures committed { (version window : ℤ) (proxies : ℕ) (log : List Step) (i j : ℕ)
        (p : Processed) (t : Txn)
        → IsCommitted (run window (log_from version proxies log)).processed i j p t
        → p.proxy < proxies → ReadsFrom version t }
    ensures reported { (version window : ℤ) (log : List Step) (lanes : List Lanes)
        (clients : List Client) (account : Account)
        → SettledFrom version window log lanes clients account
        → (proxy : ℕ) (client : Client) → slice_get clients proxy ≡ Some client
        → (at : ℤ) (j : ℕ) → ReportsCommitted client.replies.taken at j
        → (is : IsCommittedAt (run window (log_from version (length clients) log)).processed proxy
        at j) × ReadsFrom version is.txn }
{
    keyspace::laws::runs_are_chains();
    conflict::laws::unknown_history();
}
