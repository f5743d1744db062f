//! Laws about keys as text and about lines. Each is the contract of a function with an empty body.

ghost use Rattle.json_lines.specs.Laws.{FormsAreExact, BatchLinesReadBack, ReplyLinesReadBack};

/// Each byte string has exactly one printed form, which is ASCII and spells it, and it alone.
pub fn key_forms()
    ensures exact { FormsAreExact }
{}

/// What is written reads back as the same batch, or the same reply.
pub fn lines_read_back()
    ensures batches { BatchLinesReadBack }
    ensures replies { ReplyLinesReadBack }
{}
