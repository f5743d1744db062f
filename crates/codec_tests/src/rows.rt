//! Tables of texts: each row is what is read, `=>`, and what comes of it as text. A row that is too
//! long continues in the next line of the source, after a backslash.

use crate::frames::of_text;
use crate::texts::{batch_at, batch_both_ways, reply_at, reply_both_ways};
use std::alloc::Global;
use std::process::Abort;
use std::test::Fail;
use test_values::Unmade;
use wire::WireVersion;

/// What is done with the text of a row.
#[derive(Clone, Copy)]
pub(crate) enum Way {
    /// `decode_batch` reads it.
    Batch,
    /// `decode_reply` reads it.
    Reply,
    /// `decode_batch` reads it, and the batch is encoded again in this wire version.
    BatchBothWays(WireVersion),
    /// `decode_reply` reads it, and the reply is encoded again.
    ReplyBothWays,
    /// `Frames` reads it, at most n bytes per call, and its reader fails at the end if the row says
    /// so.
    Frames(usize, bool),
}

fn outcome(alloc: Global, way: Way, text: &str) -> Result<String, Unmade> {
    match way {
        Way::Batch => batch_at(alloc, text),
        Way::Reply => reply_at(alloc, text),
        Way::BatchBothWays(version) => batch_both_ways(alloc, version, text),
        Way::ReplyBothWays => reply_both_ways(alloc, text),
        Way::Frames(step, fails) => of_text(alloc, text, step, fails),
    }
}

/// Expects this text.
pub(crate) fn expect(
    rt: &impl Abort,
    shown: Result<String, Unmade>,
    want: &str,
) -> Result<(), Fail> {
    assert_eq!(rt; shown?.as_str(), want);
    Ok(())
}

// The first row that something else comes of, and what does; or nothing.
fn first_wrong(alloc: Global, way: Way, rows: &str) -> Result<String, Unmade> {
    for row in rows.lines() {
        let Some((text, want)) = row.split_once("=> ") else {
            return Err(Unmade::Text("row"));
        };
        let shown = outcome(alloc, way, text)?;
        if shown.as_str() != want {
            return Ok(format!(in alloc; "{row} but {shown}")?);
        }
    }
    Ok(String::new(alloc))
}

/// Expects of each row what it says.
pub(crate) fn expect_rows(
    rt: &impl Abort,
    alloc: Global,
    way: Way,
    rows: &str,
) -> Result<(), Fail> {
    expect(rt, first_wrong(alloc, way, rows), "")
}
