//! The position at which a text stops being JSON.

use crate::json_tokens::{JsonToken, next_token};
use json::{MAX_DEPTH, Scratch, Value};
use std::alloc::Global;

// What has to come next.
#[derive(Clone, Copy, Debug, PartialEq, Eq)]
enum Wanted {
    Value,
    ItemOrEnd,
    Name,
    NameOrEnd,
    Colon,
    CommaOrEnd,
}

// What has to come after the tokens that were read.
#[derive(Debug, Drop)]
struct Grammar {
    wanted: Wanted,
    // Whether each of the open brackets, of which there are `depth`, is that of an object.
    objects: [bool; MAX_DEPTH],
    depth: usize,
}

/// Returns the index of the first token of a text that JSON doesn't have there, or the length of
/// the text if it ends too early. The scratch has room for the text, so this takes no memory.
pub fn fault_in(alloc: Global, text: &[u8], scratch: &mut Scratch) -> usize {
    let mut grammar = Grammar::new();
    let mut at = 0;
    for _ in 0..text.len() {
        let Some(token) = next_token(text, at) else {
            return text.len();
        };
        if !grammar.takes(&token) || !is_right(alloc, &token, scratch) {
            return token.begin;
        }
        at = token.end;
    }
    text.len()
}

// Returns whether a string or a word is a value of JSON. Other tokens are always right.
fn is_right(alloc: Global, token: &JsonToken<'_>, scratch: &mut Scratch) -> bool {
    match token.first {
        b'{' | b'}' | b'[' | b']' | b',' | b':' => true,
        _ => Value::from_slice(alloc, token.text, scratch).is_ok(),
    }
}

impl Grammar {
    fn new() -> Self {
        Grammar {
            wanted: Wanted::Value,
            objects: [false; MAX_DEPTH],
            depth: 0,
        }
    }

    // Takes a token. Returns false if it can't come next.
    fn takes(&mut self, token: &JsonToken<'_>) -> bool {
        match self.after(token.first) {
            Some(wanted) => {
                self.wanted = wanted;
                true
            }
            None => false,
        }
    }

    // Returns what has to come after a token that begins with this byte.
    fn after(&mut self, first: u8) -> Option<Wanted> {
        match first {
            b'{' => self.open(true),
            b'[' => self.open(false),
            b'}' => self.close(true),
            b']' => self.close(false),
            b',' => self.after_comma(),
            b':' => self.after_colon(),
            b'"' => self.after_string(),
            _ => self.after_value(),
        }
    }

    fn open(&mut self, is_object: bool) -> Option<Wanted> {
        self.after_value()?;
        let slot = self.objects.get_mut(self.depth)?;
        *slot = is_object;
        self.depth = self.depth.saturating_add(1);
        if is_object {
            Some(Wanted::NameOrEnd)
        } else {
            Some(Wanted::ItemOrEnd)
        }
    }

    fn close(&mut self, is_object: bool) -> Option<Wanted> {
        if self.is_in_object()? != is_object {
            return None;
        }
        match self.wanted {
            Wanted::ItemOrEnd | Wanted::NameOrEnd | Wanted::CommaOrEnd => {
                self.depth = self.depth.saturating_sub(1);
                Some(Wanted::CommaOrEnd)
            }
            Wanted::Value | Wanted::Name | Wanted::Colon => None,
        }
    }

    // Returns whether the innermost open bracket is that of an object.
    fn is_in_object(&self) -> Option<bool> {
        let innermost = self.depth.checked_sub(1)?;
        Some(*self.objects.get(innermost)?)
    }

    fn after_comma(&self) -> Option<Wanted> {
        if self.wanted != Wanted::CommaOrEnd {
            return None;
        }
        if self.is_in_object()? {
            Some(Wanted::Name)
        } else {
            Some(Wanted::Value)
        }
    }

    fn after_colon(&self) -> Option<Wanted> {
        match self.wanted {
            Wanted::Colon => Some(Wanted::Value),
            _ => None,
        }
    }

    fn after_string(&self) -> Option<Wanted> {
        match self.wanted {
            Wanted::Name | Wanted::NameOrEnd => Some(Wanted::Colon),
            _ => self.after_value(),
        }
    }

    fn after_value(&self) -> Option<Wanted> {
        match self.wanted {
            Wanted::Value | Wanted::ItemOrEnd => Some(Wanted::CommaOrEnd),
            _ => None,
        }
    }
}
