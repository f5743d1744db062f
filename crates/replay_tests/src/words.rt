//! The words of a command line: those that are accepted, and how the program ends with others.

use crate::runs::ended;
use replay_program::{Options, read_words};
use std::alloc::{AllocError, Global};
use std::test::Fail;
use test_values::Unmade;
use wire::StdSink;

fn push_word(alloc: Global, words: &mut Vec<String>, word: &str) -> Result<(), Unmade> {
    words
        .push(String::from_str(alloc, word)?)
        .map_err(AllocError::from)?;
    Ok(())
}

// Appends the words of a command line, with the program's name before them.
fn push_words(alloc: Global, words: &mut Vec<String>, given: &str) -> Result<(), Unmade> {
    push_word(alloc, words, "replay")?;
    for word in given.split_whitespace() {
        push_word(alloc, words, word)?;
    }
    Ok(())
}

/// Reads options, which are given before a file.
pub fn options_of(alloc: Global, given: &str) -> Result<Options, Unmade> {
    let mut words = Vec::new(alloc);
    push_words(alloc, &mut words, given)?;
    push_word(alloc, &mut words, "file")?;
    match read_words(alloc, &words) {
        Ok(line) => Ok(line.options),
        Err(_refusal) => Err(Unmade::Text("words")),
    }
}

// How the program ends instead of replaying.
fn end_of(alloc: Global, words: &[String]) -> Result<String, Unmade> {
    let Err(refusal) = read_words(alloc, words) else {
        return Err(Unmade::Text("words"));
    };
    let mut out = StdSink::new(Vec::new(alloc));
    let mut error = StdSink::new(Vec::new(alloc));
    let status = refusal.end(&mut out, &mut error);
    ended(status, out.into_inner(), &error.into_inner())
}

fn end_of_words(alloc: Global, given: &str) -> Result<String, Unmade> {
    let mut words = Vec::new(alloc);
    push_words(alloc, &mut words, given)?;
    end_of(alloc, &words)
}

// Rows of words that are refused.
const REFUSED: [(&str, &str); 3] = [
    ("capacity_zero", "--capacity 0 f"),
    ("window_out_of_range", "--window 0 f"),
    ("window_out_of_range", "--window 1099511627777 f"),
];

// Nothing is on standard output, and an error on standard error.
#[test]
fn rows_of_refused_words(rt: HostRuntime) -> Result<(), Fail> {
    for (name, given) in REFUSED {
        let end = end_of_words(rt.alloc(), given)?;
        assert!(rt; end.as_str().starts_with("usage: error: "), "{name}: {end}");
    }
    Ok(())
}
