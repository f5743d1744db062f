//! The lines of answers.

use keyspace::Answer;
use replay_program::{Form, Line, Style};
use std::alloc::{AllocError, Global};
use test_values::Unmade;

/// Appends the line, in words, of an answer to this proxy.
pub fn push_line(
    alloc: Global,
    lines: &mut Vec<Line>,
    proxy: usize,
    answer: Answer,
) -> Result<(), Unmade> {
    match Line::new(alloc, Style::all(Form::Words), proxy, answer) {
        Some(line) => Ok(lines.push(line).map_err(AllocError::from)?),
        None => Err(Unmade::Memory),
    }
}
