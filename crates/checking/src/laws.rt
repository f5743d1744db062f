//! A law about the definition, the contract of a function that does nothing.

ghost use Rattle.std.specs.Prelude.{◌≡◌, ◌↔◌, List, []};
ghost use Rattle.keyspace.specs.declared.reply.Reply.{Reply as ReplyValue};
ghost use Rattle.checking.specs.Difference.{differences, version_of_reply};
ghost use Rattle.keyspace.specs.storage.InOrder.{in_order_by};

/// There is no difference exactly where both have the same replies in order of versions.
pub fn no_difference()
    ensures exact { (expected recorded : List ReplyValue) → (differences expected recorded ≡ [])
        ↔ (in_order_by version_of_reply expected ≡ in_order_by version_of_reply recorded) }
{}
