//! The line of one answer as JSON.

ghost use Rattle.std.specs.Prelude.{◌≡◌, ◌∷◌, ◌++◌, OnOk, codes};
ghost use Rattle.std.specs.Fmt.{decimal};
ghost use Rattle.std.specs.List.{join_by};
ghost use Rattle.keyspace.specs.Answer.{version_of_answer};
ghost use Rattle.replay_output.specs.Lines.{conflict_json, entries_json, entry_json, json_line};
ghost use Rattle.replay_output.specs.Lines.{outcome_json};

use super::packed::{PackedText, Word};
use keyspace::{Answer, Entry, Verdict};
use std::io;
use std::io::Write;

/// Appends the line of an answer to this proxy: an object, its newline included.
pub fn print_json(
    text: &mut PackedText,
    proxy: usize,
    version: i64,
    answer: &Answer,
) -> io::Result<()>
    requires version { version ≡ version_of_answer answer.now }
    ensures text { OnOk result (text.new ≡ text.old ++ json_line proxy answer.now) }
{
    write!(text, "{{\"proxy\":{proxy},\"version\":{version},")?;
    print_outcome(text, answer)?;
    text.write_all(b"}\n")
}

fn print_outcome(text: &mut PackedText, answer: &Answer) -> io::Result<()>
    ensures text { OnOk result (text.new ≡ text.old ++ outcome_json answer.now) }
{
    match answer {
        Answer::Reply(reply) => {
            text.write_all(b"\"verdicts\":[")?;
            print_entries(text, reply.entries.as_slice())?;
            text.write_all(b"]")
        }
        Answer::Never(_) => text.write_all(b"\"answer\":\"never\""),
        Answer::Held(_) => text.write_all(b"\"answer\":\"held\""),
    }
}

// Appends the verdicts.
fn print_entries(text: &mut PackedText, entries: &[Entry]) -> io::Result<()>
    ensures text { OnOk result (text.new ≡ text.old ++ entries_json entries.now) }
{
    let Some((first, rest)) = entries.split_first() else {
        return Ok(());
    };
    print_entry(text, first)?;
    for entry in rest {
        print_next(text, entry)?;
    }
    Ok(())
}

// Appends a comma and an entry.
fn print_next(text: &mut PackedText, entry: &Entry) -> io::Result<()>
    ensures text { OnOk result (text.new ≡ text.old ++ codes "," ++ entry_json entry.now) }
{
    match entry.verdict {
        Verdict::Committed => text.push_word(Word::CommittedJson),
        Verdict::TooOld => text.push_word(Word::TooOldJson),
        Verdict::Conflict => print_next_conflict(text, entry.places.as_slice()),
    }
}

fn print_next_conflict(text: &mut PackedText, places: &[u16]) -> io::Result<()>
    ensures text { OnOk result (text.new ≡ text.old ++ codes "," ++ conflict_json places.now) }
{
    let Some((first, rest)) = places.split_first() else {
        return text.push_word(Word::ConflictJson);
    };
    text.push_word(Word::PlacesJson)?;
    print_places(text, *first, rest)?;
    text.write_all(b"]}")
}

// Appends the first entry, letter by letter.
fn print_entry(text: &mut PackedText, entry: &Entry) -> io::Result<()>
    ensures text { OnOk result (text.new ≡ text.old ++ entry_json entry.now) }
{
    match entry.verdict {
        Verdict::Committed => text.write_all(b"\"committed\""),
        Verdict::TooOld => text.write_all(b"\"tooold\""),
        Verdict::Conflict => print_conflict(text, entry.places.as_slice()),
    }
}

fn print_conflict(text: &mut PackedText, places: &[u16]) -> io::Result<()>
    ensures text { OnOk result (text.new ≡ text.old ++ conflict_json places.now) }
{
    let Some((first, rest)) = places.split_first() else {
        return text.write_all(b"\"conflict\"");
    };
    text.write_all(b"{\"conflict\":[")?;
    print_places(text, *first, rest)?;
    text.write_all(b"]}")
}

// Appends these places, of which the first comes separately, with a comma between.
fn print_places(text: &mut PackedText, first: u16, rest: &[u16]) -> io::Result<()>
    ensures text { OnOk result (text.new
        ≡ text.old ++ join_by decimal (codes ",") (first ∷ rest.now)) }
{
    write!(text, "{first}")?;
    for place in rest {
        write!(text, ",{place}")?;
    }
    Ok(())
}
