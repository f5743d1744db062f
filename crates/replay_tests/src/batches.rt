//! Rows of batches and their answers: those off the chain, repeats, held ones and stops.

use crate::runs::{FileRow, Reader, give, push_batch, reader, replayed};
use replay_program::Options;
use std::alloc::{AllocError, Global};
use std::test::Fail;
use test_values::Unmade;

const ROWS: &[FileRow<'static>] = &[
    FileRow {
        name: "empty_batch",
        options: "",
        files: &[(&["-1>0"], b"")],
        expected: "0 0 empty\ndone: ",
    },
    FileRow {
        name: "empty_batch, a file of no bytes",
        options: "",
        files: &[(&[], b"")],
        expected: "done: ",
    },
    // A program that always stops with `Memory` prints no line, and ends with status 1.
    FileRow {
        name: "always_memory_stop",
        options: "",
        files: &[(&["-1>0", "0>100"], b"")],
        expected: "0 0 empty\n0 100 empty\ndone: ",
    },
    FileRow {
        name: "off_chain_and_held",
        options: "",
        files: &[(&["-1>0", "0>100", "100>200", "150>300", "900>1000"], b"")],
        expected: "0 0 empty\n0 100 empty\n0 200 empty\n0 300 never\n0 1000 held\ndone: ",
    },
    FileRow {
        name: "repeat_answered_again",
        options: "",
        files: &[(
            &["-1>0", "0>100: R[a,b) W[a,b)", "0>100: R[a,b) W[a,b)"],
            b"",
        )],
        expected: "0 0 empty\n0 100 committed\n0 100 committed\ndone: ",
    },
    FileRow {
        name: "repeat_after_given_up",
        options: "",
        files: &[(
            &[
                "-1>0",
                "0>100: W[a,b)",
                "100>200 received 100",
                "0>100: W[a,b)",
            ],
            b"",
        )],
        expected: "0 0 empty\n0 100 committed\n0 100 never\n0 200 empty\ndone: ",
    },
];

#[test]
fn rows_of_batches(rt: HostRuntime) -> Result<(), Fail> {
    give(&rt, rt.alloc(), ROWS)
}

// Appends the first batch, as many as can be held, and one more.
fn push_held(alloc: Global, file: &mut Vec<u8>) -> Result<(), Unmade> {
    push_batch(alloc, file, "-1>0")?;
    for previous in 10..1_034_u32 {
        let text = format!(in alloc; "{previous}>{}", previous + 1)?;
        push_batch(alloc, file, text.as_str())?;
    }
    push_batch(alloc, file, "2000>2001")
}

// The reader of a file of these.
fn held(alloc: Global) -> Result<Vec<Reader>, Unmade> {
    let mut file = Vec::new(alloc);
    push_held(alloc, &mut file)?;
    Ok(vec![in alloc; reader(file)].map_err(AllocError::from)?)
}

// After a stop the 1,024 batches that are held have no answer.
#[test]
fn gate_full_through_replay(rt: HostRuntime) -> Result<(), Fail> {
    let readers = held(rt.alloc())?;
    let found = replayed(&rt, rt.alloc(), Options::default(), readers)?;
    assert_eq!(rt;
        found.as_str(),
        "0 0 empty\nfailed: replay: stop 2 GateFull\n"
    );
    Ok(())
}
