//! The column at which the fault of a line begins.

ghost use Rattle.json_columns.specs.Columns.{IsColumnOf};

use crate::json_fault::fault_in;
use crate::json_tokens::{JsonToken, next_token};
use json::{Scratch, Value};
use json_lines::{Cause, LinePlace, LineRefusal, Member};
use std::alloc::Global;

const MEMBERS: [Member; 10] = [
    Member::Previous,
    Member::Version,
    Member::Received,
    Member::Transactions,
    Member::Snapshot,
    Member::Report,
    Member::Reads,
    Member::Writes,
    Member::Verdicts,
    Member::Conflict,
];

// Which member of an object is looked for.
#[derive(Clone, Copy, Debug)]
enum Sought<'a> {
    /// The one of this name.
    Named(&'a str),
    /// The first that is in no list of members, which a refusal shows so.
    Unknown(&'a str),
}

// A line of JSON up to some token, read once more. Its memory was taken when it was first read.
#[derive(Drop)]
struct LineReader<'a> {
    alloc: Global,
    line: &'a [u8],
    scratch: &'a mut Scratch,
    at: usize,
}

/// Returns the column at which the fault of a refused line begins, in bytes from 1. The scratch is
/// that by which the line was read, so this takes no memory.
///
/// It is where the refused value begins; the object, if a member is missing; the name of an unknown
/// member, or of the second of two. If the line isn't JSON, it is where the first token begins that
/// can't be there, or one past the last byte if the line ends too early.
pub fn column_of(alloc: Global, line: &[u8], refusal: &LineRefusal, scratch: &mut Scratch) -> u64
    ensures column { IsColumnOf line.now result }
{
    let text = without_end(line);
    let index = match str::from_utf8(text) {
        Ok(_) => index_of(alloc, text, refusal, scratch),
        Err(error) => error.valid_up_to(),
    };
    index.min(line.len()) as u64 + 1
}

// Returns the line without its line feed, and without a carriage return before that.
fn without_end(line: &[u8]) -> &[u8] {
    match line.split_last() {
        Some((b'\n', text)) => match text.split_last() {
            Some((b'\r', shorter)) => shorter,
            _ => text,
        },
        _ => line,
    }
}

// Returns the index at which the fault begins. It is 0 if the line doesn't have the refused value.
fn index_of(alloc: Global, line: &[u8], refusal: &LineRefusal, scratch: &mut Scratch) -> usize {
    if refusal.cause == Cause::NotJson {
        return fault_in(alloc, line, scratch);
    }
    let mut reader = LineReader {
        alloc,
        line,
        scratch,
        at: 0,
    };
    reader.begin_of(refusal).unwrap_or(0)
}

impl<'a> LineReader<'a> {
    fn begin_of(&mut self, refusal: &LineRefusal) -> Option<usize> {
        match &refusal.cause {
            Cause::Missing => self.go_to(object_of(refusal.place))?,
            _ => self.go_to(refusal.place)?,
        }
        match &refusal.cause {
            Cause::Unknown(name) => self.begin_of_unknown(name),
            Cause::Doubled(name) => self.begin_of_second(name),
            _ => Some(self.peek()?.begin),
        }
    }

    // Reads the line up to the value at this place.
    fn go_to(&mut self, place: LinePlace) -> Option<()> {
        match place {
            LinePlace::Line => Some(()),
            LinePlace::Member(member) => self.go_to_member(member),
            LinePlace::Item(list, index) => self.go_to_item_of(list, index),
            LinePlace::ItemMember(list, index, member) => {
                self.go_to_item_of(list, index)?;
                self.go_to_member(member)
            }
            LinePlace::Inner(list, index, member, item) => {
                self.go_to_item_of(list, index)?;
                self.go_to_item_of(member, item)
            }
            LinePlace::End(list, index, member, range, end) => {
                self.go_to_item_of(list, index)?;
                self.go_to_item_of(member, range)?;
                self.go_to_item(end)
            }
        }
    }

    // Goes to an item of a list that is a member of the object that is next.
    fn go_to_item_of(&mut self, list: Member, index: usize) -> Option<()> {
        self.go_to_member(list)?;
        self.go_to_item(index)
    }

    // Goes to the value of a member of the object that is next.
    fn go_to_member(&mut self, member: Member) -> Option<()> {
        self.take()?;
        self.take_name(Sought::Named(member.name()))?;
        Some(())
    }

    // Goes to an item of the array that is next.
    fn go_to_item(&mut self, index: usize) -> Option<()> {
        self.take()?;
        for _ in 0..index {
            self.skip_value()?;
        }
        Some(())
    }

    // Returns the index of the name of an unknown member of the object that is next.
    fn begin_of_unknown(&mut self, shown: &str) -> Option<usize> {
        self.take()?;
        Some(self.take_name(Sought::Unknown(shown))?.begin)
    }

    // Returns the index of the second of two names of the object that is next.
    fn begin_of_second(&mut self, name: &str) -> Option<usize> {
        self.take()?;
        self.take_name(Sought::Named(name))?;
        self.skip_value()?;
        Some(self.take_name(Sought::Named(name))?.begin)
    }

    // Passes members up to the one that is looked for, and takes its name.
    fn take_name(&mut self, sought: Sought<'_>) -> Option<JsonToken<'a>> {
        for _ in 0..self.line.len() {
            let name = self.take()?;
            if name.first == b'}' {
                return None;
            }
            if self.has_name(&name, sought) {
                return Some(name);
            }
            self.skip_value()?;
        }
        None
    }

    fn has_name(&mut self, name: &JsonToken<'_>, sought: Sought<'_>) -> bool {
        match Value::from_slice(self.alloc, name.text, self.scratch) {
            Ok(Value::String(text)) => is_sought(text, sought),
            _ => false,
        }
    }

    // Takes a value, with all that is in it.
    fn skip_value(&mut self) -> Option<()> {
        let mut depth: usize = 0;
        for _ in 0..self.line.len() {
            match self.take()?.first {
                b'{' | b'[' => depth = depth.saturating_add(1),
                b'}' | b']' => depth = depth.saturating_sub(1),
                _ => {}
            }
            if depth == 0 {
                return Some(());
            }
        }
        None
    }

    fn take(&mut self) -> Option<JsonToken<'a>> {
        let token = self.peek()?;
        self.at = token.end;
        Some(token)
    }

    // Returns the next token that is no comma and no colon. Of these no two follow each other.
    fn peek(&self) -> Option<JsonToken<'a>> {
        let token = next_token(self.line, self.at)?;
        match token.first {
            b',' | b':' => next_token(self.line, token.end),
            _ => Some(token),
        }
    }
}

// Returns the place of the object that the member at this place belongs to.
fn object_of(place: LinePlace) -> LinePlace {
    match place {
        LinePlace::Member(_) => LinePlace::Line,
        LinePlace::ItemMember(list, index, _) => LinePlace::Item(list, index),
        LinePlace::Line
        | LinePlace::Item(_, _)
        | LinePlace::Inner(_, _, _, _)
        | LinePlace::End(_, _, _, _, _) => place,
    }
}

// A refusal shows an unknown name as keys are printed, and shortened. It names the first unknown
// member of an object. If the name is that of a member of another object, it is shown unchanged.
// Otherwise it is the first name that no member has.
fn is_sought(name: &str, sought: Sought<'_>) -> bool {
    match sought {
        Sought::Named(other) => name == other,
        Sought::Unknown(shown) => {
            if is_member(shown) {
                name == shown
            } else {
                !is_member(name)
            }
        }
    }
}

fn is_member(name: &str) -> bool {
    for member in &MEMBERS {
        if member.name() == name {
            return true;
        }
    }
    false
}
