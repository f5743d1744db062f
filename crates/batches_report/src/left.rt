//! Replies that wait for their batches.

ghost use Rattle.std.specs.Prelude.{◌≡◌, ◌∷◌, ◌++◌, [], List, ℤ, OnOk};
ghost use Rattle.keyspace.specs.declared.reply.Reply.{Reply as ReplyValue};
ghost use Rattle.batches_report.specs.Answered.{AreLeft, reply_unless_seen};

use keyspace::Reply;
use std::alloc::{AllocError, Global};
use std::collections::BTreeMap;

/// Replies that wait for their batches, by version.
#[derive(Debug, Drop)]
pub struct Left {
    pub replies: BTreeMap<i64, Reply>,
}

impl Left {
    /// Creates it without replies.
    pub fn new(alloc: Global) -> Self
        ensures none { AreLeft [] [] result }
    {
        Left {
            replies: BTreeMap::new(alloc),
        }
    }

    /// Adds a reply. Of a version that has one, the first one stays.
    pub fn add(&mut self, reply: Reply) -> Result<(), AllocError>
        ensures added { OnOk result ((replies : List ReplyValue) → AreLeft replies [] self.old
            → AreLeft (replies ++ reply ∷ []) [] self.new) }
    {
        if self.replies.contains_key(&reply.version) {
            return Ok(());
        }
        self.replies.insert(reply.version, reply)?;
        Ok(())
    }

    /// Takes the reply of a version, if it is left.
    pub fn take(&mut self, version: i64) -> Option<Reply>
        ensures reply { (replies : List ReplyValue) (seen : List ℤ) → AreLeft replies seen self.old
            → result ≡ reply_unless_seen replies seen version }
        ensures left { (replies : List ReplyValue) (seen : List ℤ) → AreLeft replies seen self.old
            → AreLeft replies (seen ++ version ∷ []) self.new }
    {
        self.replies.remove(&version)
    }
}
