//! The tokens of a line of JSON.

ghost use Rattle.std.specs.Prelude.{◌≡◌, ◌<◌, ◌≤◌, IfSome, length};
ghost use Rattle.json.specs.Word.{is_space};

/// A token of a line: a bracket, a comma, a colon, a string, or a word such as a number.
#[derive(Clone, Copy, Debug)]
pub struct JsonToken<'a> {
    /// The index of its first byte.
    pub begin: usize,
    /// The index after its last byte.
    pub end: usize,
    /// Its first byte, which says what it is.
    pub first: u8,
    pub text: &'a [u8],
}

/// Returns the first token that begins at this index or after it, or none at the end of the line.
pub fn next_token(line: &[u8], from: usize) -> Option<JsonToken<'_>> {
    let begin = after_blanks(line, from)?;
    let end = end_of(line, begin);
    Some(JsonToken {
        begin,
        end,
        first: line[begin],
        text: &line[begin..end],
    })
}

/// Returns whether a byte is a blank of JSON.
pub fn is_space(byte: u8) -> bool
    ensures exact { result ≡ is_space byte }
{
    byte == b' ' || byte == b'\t' || byte == b'\n' || byte == b'\r'
}

// Returns the index of the first byte, from this index on, that isn't a blank.
fn after_blanks(line: &[u8], from: usize) -> Option<usize>
    ensures within { IfSome result (λ index. index < length line.now) }
{
    for index in from..line.len() {
        if !is_space(line[index]) {
            return Some(index);
        }
    }
    None
}

// Returns the index after the token that begins here.
fn end_of(line: &[u8], begin: usize) -> usize
    requires within { begin < length line.now }
    ensures after { begin < result }
    ensures within { result ≤ length line.now }
{
    match line[begin] {
        b'"' => end_of_string(line, begin + 1),
        b'{' | b'}' | b'[' | b']' | b',' | b':' => begin + 1,
        _ => end_of_word(line, begin + 1),
    }
}

// Returns the index after a string whose first quote is before this index: after its last quote, or
// the end of the line.
fn end_of_string(line: &[u8], from: usize) -> usize
    requires within { from ≤ length line.now }
    ensures after { from ≤ result }
    ensures within { result ≤ length line.now }
{
    let mut is_escaped = false;
    for index in from..line.len() {
        let byte = line[index];
        if byte == b'"' && !is_escaped {
            return index + 1;
        }
        is_escaped = byte == b'\\' && !is_escaped;
    }
    line.len()
}

// Returns the index after a word whose first byte is before this index.
fn end_of_word(line: &[u8], from: usize) -> usize
    requires within { from ≤ length line.now }
    ensures after { from ≤ result }
    ensures within { result ≤ length line.now }
{
    for index in from..line.len() {
        if ends_word(line[index]) {
            return index;
        }
    }
    line.len()
}

fn ends_word(byte: u8) -> bool {
    match byte {
        b'{' | b'}' | b'[' | b']' | b',' | b':' | b'"' => true,
        _ => is_space(byte),
    }
}
