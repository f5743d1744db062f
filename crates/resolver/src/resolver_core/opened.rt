//! What a core that starts at a version keeps and owes: the reply to the batch that represents all
//! earlier writes, and no answer.

ghost use Rattle.std.specs.Prelude.{◌≡◌, ◌≤ℤ◌, ℕ, ℤ, pos, negsuc, [], ◌∷◌, replicate, IfOk, IfErr};
ghost use Rattle.keyspace.specs.declared.reply.Verdict.TheVariants.{Committed};
ghost use Rattle.keyspace.specs.Judge.{without_places};
ghost use Rattle.keyspace.specs.Found.{kept_reply};
ghost use Rattle.keyspace.specs.Run.{run};
ghost use Rattle.chain.specs.Replies.{reply_of};
ghost use Rattle.resolver.specs.OpeningLog.{opening_log};

use crate::owed::Owed;
use chain::Replies;
use keyspace::{Entry, Places, Reply, Sequence, Verdict};
use limits::Stop;
use std::alloc::{AllocError, Global};

/// Returns the replies that a resolver with this many proxies keeps when it starts at the version,
/// and nothing owed to any of them.
pub(super) fn answers_at(
    alloc: Global,
    proxies: usize,
    version: i64,
) -> Result<(Replies, Owed), Stop>
    requires least_version { negsuc 0 ≤ℤ version }
    ensures kept { IfOk result (λ made. (window : ℤ) (p : ℕ) (v : ℤ) → reply_of made.0 p v
        ≡ kept_reply (run window (opening_log proxies version)).processed p v) }
    ensures owed { IfOk result (λ made. made.1.answers ≡ replicate proxies []) }
    ensures memory { IfErr result (λ stop. stop ≡ Stop.Memory) }
{
    let replies = replies_at(alloc, proxies, version)?;
    let owed = Owed::new(alloc, proxies)?;
    Ok((replies, owed))
}

// Returns the replies that are kept: that to the opening batch, which no proxy can ask for, or none
// at -1.
fn replies_at(alloc: Global, proxies: usize, version: i64) -> Result<Replies, Stop>
    requires least_version { negsuc 0 ≤ℤ version }
    ensures kept { IfOk result (λ replies. (window : ℤ) (p : ℕ) (v : ℤ) → reply_of replies p v
        ≡ kept_reply (run window (opening_log proxies version)).processed p v) }
    ensures memory { IfErr result (λ stop. stop ≡ Stop.Memory) }
{
    let mut replies = Replies::new(alloc);
    if version < 0 {
        return Ok(replies);
    }
    replies.put(proxies, opening_reply(alloc, version)?)?;
    Ok(replies)
}

// Returns the reply to the opening batch of the version.
fn opening_reply(alloc: Global, version: i64) -> Result<Reply, AllocError>
    requires natural { pos 0 ≤ℤ version }
    ensures version { IfOk result (λ reply. reply.version ≡ version) }
    ensures entries { IfOk result (λ reply. reply.entries ≡ without_places Committed ∷ []) }
{
    let committed = Entry::new(Verdict::Committed, Places::new(Vec::new(alloc)));
    let mut entries = Vec::new(alloc);
    entries.push(committed)?;
    Ok(Reply::new(version, Sequence::new(entries)))
}
