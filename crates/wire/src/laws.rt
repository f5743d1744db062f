//! Laws about the definitions, each the contract of a function that does nothing.

ghost use Rattle.std.specs.Prelude.{◌≡◌, ◌≢◌, ◌++◌, ℤ, ℕ, List, None};
ghost use Rattle.keyspace.specs.declared.batch.Batch.{Batch as BatchValue};
ghost use Rattle.keyspace.specs.declared.reply.Reply.{Reply as ReplyValue};
ghost use Rattle.keyspace.specs.Writes.{Write};
ghost use Rattle.keyspace.specs.Judged.{Judged};
ghost use Rattle.wire.specs.declared.version.WireVersion.{WireVersion as WireVersionValue};
ghost use Rattle.wire.specs.Fields.{batch_fields, reply_fields};
ghost use Rattle.wire.specs.Spelling.{batch_body, reply_body, IsShort, SpellsBatch, SpellsReply};
ghost use Rattle.wire.specs.Reading.{batch_fault, reply_fault, version_at_front};

/// A value has at most one spelling in each wire version, a text spells at most one value, and no
/// frame begins another. So decoding returns the encoded value, whatever follows it.
pub fn one_spelling()
    // A frame of one wire version begins none of the other.
    ensures batches { (v w : WireVersionValue) (x y s t : List ℕ) (a b : BatchValue)
        → SpellsBatch v x a → SpellsBatch w y b → x ++ s ≡ y ++ t → (v ≡ w) × (x ≡ y) × (a ≡ b) }
    ensures batch_text { (v : WireVersionValue) (x y : List ℕ) (a : BatchValue)
        → SpellsBatch v x a → SpellsBatch v y a → x ≡ y }
    ensures batch_read { (v : WireVersionValue) (x s : List ℕ) (a : BatchValue)
        → SpellsBatch v x a → batch_fault (x ++ s) ≡ None }
    ensures batch_of_tables { (v : WireVersionValue) (x s : List ℕ) (a : BatchValue)
        → SpellsBatch v x a → version_at_front (x ++ s) ≡ v }

    ensures replies { (x y s t : List ℕ) (a b : ReplyValue)
        → SpellsReply x a → SpellsReply y b → x ++ s ≡ y ++ t → (x ≡ y) × (a ≡ b) }
    ensures reply_text { (x y : List ℕ) (a : ReplyValue) → SpellsReply x a → SpellsReply y a
        → x ≡ y }
    ensures reply_read { (x s : List ℕ) (a : ReplyValue) → SpellsReply x a
        → reply_fault (x ++ s) ≡ None }

    // A frame of a batch begins none of a reply, nor the other way round.
    ensures kinds { (v : WireVersionValue) (x y s t : List ℕ) (a : BatchValue) (r : ReplyValue)
        → SpellsBatch v x a → SpellsReply y r → x ++ s ≢ y ++ t }
{}

/// If a batch fits a frame of either wire version, the right reply to it fits one too. It has at
/// most as many entries as the batch has transactions and, for each, at most as many places as read
/// ranges.
pub fn reply_fits()
    ensures fits { (v : WireVersionValue) (window : ℤ) (ws : List Write) (b : BatchValue)
        (r : ReplyValue)
        → Judged window ws b r → IsShort (batch_body v (batch_fields b))
        → IsShort (reply_body (reply_fields r)) }
{}
