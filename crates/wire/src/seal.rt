//! Puts the end of each single key into the frame that its key lies in.

ghost use Rattle.std.specs.Prelude.{◌≡◌, ◌+◌, OnOk, vec_len, map};
ghost use Rattle.keyspace.specs.storage.Tables.{range_of_span};
ghost use Rattle.wire.specs.Lying.{AreApart, range_read};

use keyspace::Span;
use std::alloc::AllocError;

/// Puts the zero byte after each single key, which ends its range. The byte there was read before:
/// the form or the length of a range, or a count. One byte is appended for a key at the very end.
pub fn seal(frame: &mut Vec<u8>, spans: &[Span]) -> Result<(), AllocError>
    requires apart { AreApart 0 spans.now (vec_len frame.old) }
    ensures reported { OnOk result
        (map (range_of_span frame.new.items) spans.now
        ≡ map (range_read frame.old.items) spans.now) }
    ensures count { OnOk result (vec_len frame.new ≡ vec_len frame.old + 1) }
{
    frame.push(0)?;
    for span in spans {
        if span.begin == span.end {
            frame[span.begin as usize + span.begin_length as usize] = 0;
        }
    }
    Ok(())
}
