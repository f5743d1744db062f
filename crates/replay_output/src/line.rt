//! The line of one answer.

ghost use Rattle.std.specs.Prelude.{◌≡◌, ◌++◌, [], IfSome, IsOk, OnOk, codes, false};
ghost use Rattle.replay_output.specs.Lines.{conflict_word, entry_word, formed_line, frame_word};
ghost use Rattle.replay_output.specs.Lines.{line, outcome, plain_line, words};
ghost use Rattle.replay_output.specs.Line.{IsLineOf, answer_of, counted_of_line, kept_of};
ghost use Rattle.replay_output.specs.Line.{version_of_line};
ghost use Rattle.replay_output.specs.Notes.{with_member, with_note};

use crate::options::{Form, Style};
use crate::version::version_of;
use json::print_json;
use keyspace::{Answer, Entry, Reply, Verdict, Versioned};
use packed::Word;
use replay_summary::{Counted, HasCounted};
use std::alloc::Global;
use std::io;
use std::io::{Error, ErrorKind, Write};
use std::snapshot::Snapshot;
use wire::encode_reply;

mod json;
mod packed;

pub use packed::PackedText;

/// The line of an answer to a proxy, ready to be printed, or the reply if that is kept.
#[derive(Drop)]
pub struct Line {
    /// The answer of the line. It has no bytes.
    pub answer: Snapshot<Answer>,
    /// The answer's version, by which lines are sorted, and the numbers of its verdicts.
    pub counted: Counted,
    /// The text, its newline included. Empty if the line isn't shown, or replies are kept.
    pub text: PackedText,
    /// The reply, where replies are kept.
    pub reply: Option<Reply>,
}

impl Line {
    /// Makes the line of an answer to this proxy, in this style.
    ///
    /// Returns none if an allocation fails, or if the frame exceeds
    /// [`MAX_BODY_LENGTH`](wire::MAX_BODY_LENGTH). The right reply to a batch that was read doesn't
    /// exceed it.
    pub fn new(alloc: Global, style: Style, proxy: usize, answer: Answer) -> Option<Self>
        ensures line { IfSome result (IsLineOf style proxy) }
        ensures answer { IfSome result (λ line. answer_of line ≡ answer) }
    {
        let text = text_of(alloc, style, proxy, &answer)?;
        Some(Line {
            answer: Snapshot::of(&answer),
            counted: Counted::of(&answer),
            text,
            reply: kept_of(style.form, answer),
        })
    }

    /// Puts a note under the line, if the line is shown: further lines, in ASCII. After an error
    /// the text is unspecified. An empty note takes no memory.
    pub fn add_note(&mut self, note: &[u8]) -> io::Result<()>
        ensures text { OnOk result (self.new.text ≡ with_note self.old.text note.now) }
        ensures answer { self.new.answer ≡ self.old.answer }
        ensures counted { self.new.counted ≡ self.old.counted }
        ensures reply { self.new.reply ≡ self.old.reply }
        ensures empty { note.now ≡ [] → IsOk result }
    {
        if note.is_empty() || self.text.is_empty() {
            return Ok(());
        }
        self.text.reserve_more(note.len())?;
        self.text.write_all(note)
    }

    /// Puts a member at the end of a line of JSON, if the line is shown. `member` is ASCII without
    /// a comma at its ends. After an error the text is unspecified. An empty member takes no
    /// memory.
    ///
    /// It is an error if the text doesn't end in `}` and a line feed, letter by letter. JSON does.
    pub fn add_member(&mut self, member: &[u8]) -> io::Result<()>
        ensures text { OnOk result (self.new.text ≡ with_member self.old.text member.now) }
        ensures answer { self.new.answer ≡ self.old.answer }
        ensures counted { self.new.counted ≡ self.old.counted }
        ensures reply { self.new.reply ≡ self.old.reply }
        ensures empty { member.now ≡ [] → IsOk result }
    {
        if member.is_empty() || self.text.is_empty() {
            return Ok(());
        }
        self.text.reserve_more(member.len().saturating_add(1))?;
        if !self.text.remove_end(b"}\n") {
            return Err(Error::from(ErrorKind::InvalidInput));
        }
        self.text.write_all(b",")?;
        self.text.write_all(member)?;
        self.text.write_all(b"}\n")
    }
}

impl Versioned for Line {
    ghost item_version = { version_of_line };

    fn version(&self) -> i64 {
        self.counted.version
    }
}

impl HasCounted for Line {
    ghost item_counted = { counted_of_line };

    fn counted(&self) -> Counted {
        self.counted
    }
}

/// Returns the text of an answer to this proxy, or none as [`Line::new`] does. The text is empty if
/// the line isn't shown.
pub fn text_of(alloc: Global, style: Style, proxy: usize, answer: &Answer) -> Option<PackedText>
    ensures text { IfSome result (λ text. text ≡ line style proxy answer.now) }
{
    if !style.filter.shows(answer) {
        return Some(PackedText::new(alloc));
    }
    formed_text(alloc, style.form, proxy, answer)
}

fn formed_text(alloc: Global, form: Form, proxy: usize, answer: &Answer) -> Option<PackedText>
    ensures text { IfSome result (λ text. text ≡ formed_line form proxy answer.now) }
{
    let mut text = PackedText::new(alloc);
    match form {
        Form::Words => print_plain(alloc, &mut text, false, proxy, answer)?,
        Form::Frames => print_plain(alloc, &mut text, true, proxy, answer)?,
        Form::Json => print_json(&mut text, proxy, version_of(answer), answer).ok()?,
        Form::Kept => {}
    }
    Some(text)
}

// Returns the reply, if it must be kept.
fn kept_of(form: Form, answer: Answer) -> Option<Reply>
    ensures kept { result ≡ kept_of form answer }
{
    match (form, answer) {
        (Form::Kept, Answer::Reply(reply)) => Some(reply),
        _ => None,
    }
}

// Appends the line of words. With `frames` a reply is printed as its frame.
fn print_plain(
    alloc: Global,
    text: &mut PackedText,
    frames: bool,
    proxy: usize,
    answer: &Answer,
) -> Option<()>
    ensures text { IfSome result (λ _. text.new ≡ text.old ++ plain_line frames proxy answer.now) }
{
    let version = version_of(answer);
    write!(text, "{proxy} {version}").ok()?;
    match answer {
        Answer::Reply(reply) if frames => print_frame(alloc, text, reply)?,
        _ => print_outcome(text, answer).ok()?,
    }
    text.write_all(b"\n").ok()
}

// Appends a blank and the frame of a reply, in lower-case hexadecimal. There is room for the end of
// the line.
fn print_frame(alloc: Global, text: &mut PackedText, reply: &Reply) -> Option<()>
    ensures text { IfSome result (λ _. text.new ≡ text.old ++ codes " " ++ frame_word reply.now) }
{
    let frame = encode_reply(alloc, reply).ok()?;
    let word = hex::encode(alloc, frame).ok()?;
    text.reserve_more(word.len().saturating_add(2)).ok()?;
    text.write_all(b" ").ok()?;
    text.write_all(word.as_bytes()).ok()
}

// Appends a blank and the fate of the batch.
fn print_outcome(text: &mut PackedText, answer: &Answer) -> io::Result<()>
    ensures text { OnOk result (text.new ≡ text.old ++ codes " " ++ outcome false answer.now) }
{
    match answer {
        Answer::Reply(reply) => print_words(text, reply.entries.as_slice()),
        Answer::Never(_) => text.write_all(b" never"),
        Answer::Held(_) => text.write_all(b" held"),
    }
}

// Appends the words of the entries, a blank before each.
fn print_words(text: &mut PackedText, entries: &[Entry]) -> io::Result<()>
    ensures text { OnOk result (text.new ≡ text.old ++ codes " " ++ words entries.now) }
{
    if entries.is_empty() {
        return text.write_all(b" empty");
    }
    for entry in entries {
        print_word(text, entry)?;
    }
    Ok(())
}

fn print_word(text: &mut PackedText, entry: &Entry) -> io::Result<()>
    ensures text { OnOk result (text.new ≡ text.old ++ codes " " ++ entry_word entry.now) }
{
    match entry.verdict {
        Verdict::Committed => text.push_word(Word::Committed),
        Verdict::TooOld => text.push_word(Word::TooOld),
        Verdict::Conflict => print_conflict(text, entry.places.as_slice()),
    }
}

fn print_conflict(text: &mut PackedText, places: &[u16]) -> io::Result<()>
    ensures text { OnOk result (text.new ≡ text.old ++ codes " " ++ conflict_word places.now) }
{
    text.push_word(Word::Conflict)?;
    let Some((first, rest)) = places.split_first() else {
        return Ok(());
    };
    write!(text, ":{first}")?;
    for place in rest {
        write!(text, ",{place}")?;
    }
    Ok(())
}
