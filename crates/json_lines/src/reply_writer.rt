//! Replies as lines.

ghost use Rattle.std.specs.Prelude.{◌≡◌, ◌++◌, Some, IfOk, OnOk, map};
ghost use Rattle.std.specs.List.{All};
ghost use Rattle.json.specs.Tree.{json_tokens};
ghost use Rattle.keyspace.specs.Places.{ArePlaces};
ghost use Rattle.wire.specs.Fields.{entry_fields, reply_fields};
ghost use Rattle.wire.specs.Spelling.{ReplyHolds};
ghost use Rattle.json_lines.specs.Replies.{reply_of};
ghost use Rattle.json_lines.specs.Written.{all_tokens, number_tokens, word_of, place_json};
ghost use Rattle.json_lines.specs.Written.{report_json, entry_json, reply_json, reply_line};
ghost use Rattle.json_lines.specs.Written.{list_json};

use crate::batch_writer::put_number;
use crate::member::Member;
use json::Writer;
use keyspace::{Entry, Reply, Verdict};
use std::alloc::{AllocError, Global};

/// Writes the line of a reply, without its line feed. The line reads back as the same reply.
pub fn write_reply(alloc: Global, reply: &Reply) -> Result<Vec<u8>, AllocError>
    ensures text { IfOk result (λ line. line.items ≡ reply_line (reply_fields reply.now)) }
    ensures reads_back { IfOk result (λ line. reply_of line.items ≡ Some (reply_fields reply.now)) }
{
    let mut writer = Writer::new(Vec::new(alloc));
    put_reply(&mut writer, reply)?;
    Ok(writer.into_inner())
}

#[tactic(auto, unfolding(crate::specs::Written::reply_json))]
fn put_reply(writer: &mut Writer, reply: &Reply) -> Result<(), AllocError>
    ensures tokens { OnOk result (writer.new.tokens
        ≡ writer.old.tokens ++ (json_tokens (reply_json (reply_fields reply.now)))) }
    ensures before { writer.new.before ≡ writer.old.before }
    ensures holds { OnOk result (ReplyHolds (reply_fields reply.now)) }
{
    writer.begin_object()?;
    put_number(writer, Member::Version, reply.version)?;
    writer.key(Member::Verdicts.name())?;
    put_entries(writer, reply.entries.as_slice())?;
    writer.end_object()?;
    Ok(())
}

// Writes the entries of a reply.
fn put_entries(writer: &mut Writer, entries: &[Entry]) -> Result<(), AllocError>
    ensures tokens { OnOk result (writer.new.tokens
        ≡ writer.old.tokens ++ (json_tokens
        (list_json entry_json (map entry_fields entries.now)))) }
    ensures before { writer.new.before ≡ writer.old.before }
    ensures places { OnOk result (All (λ entry. ArePlaces entry.places) entries.now) }
{
    writer.begin_array()?;
    each_entry(writer, entries)?;
    writer.end_array()?;
    Ok(())
}

fn each_entry(writer: &mut Writer, entries: &[Entry]) -> Result<(), AllocError>
    ensures tokens { OnOk result (writer.new.tokens
        ≡ writer.old.tokens ++ (all_tokens entry_json (map entry_fields entries.now))) }
    ensures before { writer.new.before ≡ writer.old.before }
    ensures places { OnOk result (All (λ entry. ArePlaces entry.places) entries.now) }
{
    for entry in entries {
        put_entry(writer, entry)?;
    }
    Ok(())
}

// Writes a verdict as a word, and a conflict with a report by its places.
#[tactic(auto, unfolding(crate::specs::Written::entry_json))]
fn put_entry(writer: &mut Writer, entry: &Entry) -> Result<(), AllocError>
    ensures tokens { OnOk result (writer.new.tokens
        ≡ writer.old.tokens ++ (json_tokens (entry_json (entry_fields entry.now)))) }
    ensures before { writer.new.before ≡ writer.old.before }
    ensures places { OnOk result (ArePlaces entry.now.places) }
{
    let places = entry.places.as_slice();
    if places.is_empty() {
        writer.string(word_of(entry.verdict))
    } else {
        put_report(writer, places)
    }
}

fn word_of(verdict: Verdict) -> &'static str
    ensures word { result.now ≡ word_of verdict }
{
    match verdict {
        Verdict::Conflict => "conflict",
        Verdict::TooOld => "tooold",
        Verdict::Committed => "committed",
    }
}

// Writes a conflict with its report.
fn put_report(writer: &mut Writer, places: &[u16]) -> Result<(), AllocError>
    ensures tokens { OnOk result (writer.new.tokens
        ≡ writer.old.tokens ++ (json_tokens (report_json places.now))) }
    ensures before { writer.new.before ≡ writer.old.before }
{
    writer.begin_object()?;
    writer.key(Member::Conflict.name())?;
    put_places(writer, places)?;
    writer.end_object()?;
    Ok(())
}

fn put_places(writer: &mut Writer, places: &[u16]) -> Result<(), AllocError>
    ensures tokens { OnOk result (writer.new.tokens
        ≡ writer.old.tokens ++ (json_tokens (list_json place_json places.now))) }
    ensures before { writer.new.before ≡ writer.old.before }
{
    writer.begin_array()?;
    each_place(writer, places)?;
    writer.end_array()?;
    Ok(())
}

fn each_place(writer: &mut Writer, places: &[u16]) -> Result<(), AllocError>
    ensures tokens { OnOk result (writer.new.tokens
        ≡ writer.old.tokens ++ (all_tokens place_json places.now)) }
    ensures before { writer.new.before ≡ writer.old.before }
{
    for place in places {
        writer.u64(u64::from(*place))?;
    }
    Ok(())
}
