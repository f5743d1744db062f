//! Tests of `Frames`.

use crate::readers::Pieces;
use crate::rows::{Way, expect, expect_rows};
use crate::texts::{EMPTY_BATCH, EMPTY_BATCH_2, ONE_WRITE, ONE_WRITE_2, bytes_of, joined, refused};
use std::alloc::Global;
use std::test::Fail;
use test_values::{Unmade, show_batch};
use wire::{Frames, StdSource, read_frames};

// A reader of bytes in pieces.
type Reader<'a> = StdSource<Pieces<'a>>;

// The next answer as text: the batch, `none`, or the number and the name of the refusal.
fn next_shown(alloc: Global, frames: &mut Frames<Reader<'_>>) -> Result<String, Unmade> {
    match frames.next() {
        Ok(Some(batch)) => show_batch(alloc, &batch),
        Ok(None) => Ok(String::from_str(alloc, "none")?),
        Err(refusal) => refused(alloc, refusal),
    }
}

// The first three answers, with a bar between two.
fn three_shown(alloc: Global, frames: &mut Frames<Reader<'_>>) -> Result<String, Unmade> {
    let first = next_shown(alloc, frames)?;
    let second = next_shown(alloc, frames)?;
    let third = next_shown(alloc, frames)?;
    Ok(format!(in alloc; "{first} | {second} | {third}")?)
}

// The first three answers over these bytes, given n per call.
fn by_step(alloc: Global, bytes: &[u8], step: usize, fails: bool) -> Result<String, Unmade> {
    let reader = StdSource::new(Pieces { bytes, step, fails });
    let mut frames = read_frames(alloc, reader);
    three_shown(alloc, &mut frames)
}

/// The first three answers over the bytes of a text.
pub(crate) fn of_text(
    alloc: Global,
    text: &str,
    step: usize,
    fails: bool,
) -> Result<String, Unmade> {
    let bytes = bytes_of(alloc, text)?;
    by_step(alloc, &bytes, step, fails)
}

const ANSWERS: &str = "\
=> none | none | none
0000001b 01 ffffffffffffffff 0000000000000000 ffffffffffffffff 0000 \
     0000002e 01 0000000000000000 0000000000000064 ffffffffffffffff 0001 0000000000000000 00 \
     0000 0001 0001 61 0001 62 \
     => -1>0 received -1 | 0>100 received -1; W[61,62) @0 | none
0000001b 01 ffffffffffffffff 0000000000000000 ffffffffffffffff 0000 00 => -1>0 received -1 | \
     1 Short | 1 Short
0000001b 01 ffffffffffffffff 0000000000000000 ffffffffffffffff 0000 \
     00000001 02 \
     0000002e 01 0000000000000000 0000000000000064 ffffffffffffffff 0001 0000000000000000 00 \
     0000 0001 0001 61 0001 62 \
     => -1>0 received -1 | 3 Kind | 3 Kind";

// What is answered if the reader fails after the first frame.
const FAILED: &str = "\
0000001b 01 ffffffffffffffff 0000000000000000 ffffffffffffffff 0000 => -1>0 received -1 | 12 \
     Read | 12 Read";

#[test]
fn answers_of_frames(rt: HostRuntime) -> Result<(), Fail> {
    let alloc = rt.alloc();
    for step in [1, 100_000] {
        expect_rows(&rt, alloc, Way::Frames(step, false), ANSWERS)?;
        expect_rows(&rt, alloc, Way::Frames(step, true), FAILED)?;
    }
    Ok(())
}

// The frame of `-1>0`, then a length of 30 and 29 bytes.
const SHORT_SECOND: &str = "\
0000001b 01 ffffffffffffffff 0000000000000000 ffffffffffffffff 0000 0000001e \
     0101010101010101010101010101010101010101010101010101010101 \
     => -1>0 received -1 | 1 Short | 1 Short";

#[test]
fn short_second_frame(rt: HostRuntime) -> Result<(), Fail> {
    expect_rows(&rt, rt.alloc(), Way::Frames(1, false), SHORT_SECOND)?;
    expect_rows(&rt, rt.alloc(), Way::Frames(100_000, false), SHORT_SECOND)
}

// The outcome of the first run if its reader fails after n of its bytes.
fn failed_after(count: usize, all: usize) -> &'static str {
    if count < 31 {
        "12 Read | 12 Read | 12 Read"
    } else if count < all {
        "-1>0 received -1 | 12 Read | 12 Read"
    } else {
        "-1>0 received -1 | 0>100 received -1; W[61,62) @0 | 12 Read"
    }
}

// The outcome of the first run if it ends after n of its bytes.
fn cut_after(count: usize, all: usize) -> &'static str {
    if count == 0 {
        "none | none | none"
    } else if count < 31 {
        "1 Short | 1 Short | 1 Short"
    } else if count == 31 {
        "-1>0 received -1 | none | none"
    } else if count < all {
        "-1>0 received -1 | 1 Short | 1 Short"
    } else {
        "-1>0 received -1 | 0>100 received -1; W[61,62) @0 | none"
    }
}

// The first wrong answers if the reader gives a prefix of these bytes; or nothing.
fn first_wrong(alloc: Global, bytes: &[u8], step: usize, fails: bool) -> Result<String, Unmade> {
    for count in 0..=bytes.len() {
        let shown = by_step(alloc, &bytes[..count], step, fails)?;
        let want = if fails {
            failed_after(count, bytes.len())
        } else {
            cut_after(count, bytes.len())
        };
        if shown.as_str() != want {
            return Ok(format!(in alloc; "{shown} after {count}")?);
        }
    }
    Ok(String::new(alloc))
}

// The same of the first run in both wire versions: an empty batch of 31 bytes, and one with one
// write.
fn first_wrong_of_run(alloc: Global, step: usize, fails: bool) -> Result<String, Unmade> {
    for texts in [[EMPTY_BATCH, ONE_WRITE], [EMPTY_BATCH_2, ONE_WRITE_2]] {
        let bytes = joined(alloc, &texts)?;
        let wrong = first_wrong(alloc, &bytes, step, fails)?;
        if !wrong.is_empty() {
            return Ok(wrong);
        }
    }
    Ok(String::new(alloc))
}

#[test]
fn reader_fails_everywhere(rt: HostRuntime) -> Result<(), Fail> {
    expect(&rt, first_wrong_of_run(rt.alloc(), 1, true), "")
}

#[test]
fn first_run_cut_everywhere(rt: HostRuntime) -> Result<(), Fail> {
    expect(&rt, first_wrong_of_run(rt.alloc(), 1, false), "")?;
    expect(&rt, first_wrong_of_run(rt.alloc(), 100_000, false), "")
}
