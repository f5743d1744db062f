//! Rows of faulty files, of several files, and of the second version of the form.

use crate::runs::{FileRow, Reader, give, push_batch, reader, readers_of, replayed};
use replay_program::Options;
use std::alloc::{AllocError, Global};
use std::sync::Wait;
use std::test::Fail;
use std::thread::Threads;
use test_values::Unmade;

/// The frames of the first run: of an empty batch, and of one with one write.
pub const FIRST_RUN: &[u8; 81] = b"\0\0\0\x1b\x01\xff\xff\xff\xff\xff\xff\xff\xff\0\0\0\0\0\0\0\0\
      \xff\xff\xff\xff\xff\xff\xff\xff\0\0\
      \0\0\0\x2e\x01\0\0\0\0\0\0\0\0\0\0\0\0\0\0\0\x64\xff\xff\xff\xff\xff\xff\xff\xff\
      \0\x01\0\0\0\0\0\0\0\0\0\0\0\0\x01\0\x01a\0\x01b";

// The first 20 bytes of the second of these frames.
const CUT_FRAME: &[u8; 20] = b"\0\0\0\x2e\x01\0\0\0\0\0\0\0\0\0\0\0\0\0\0\0";

// That frame in the second version of the form.
const ONE_WRITE_2: &[u8; 51] =
    b"\0\0\0\x2f\x03\0\0\0\0\0\0\0\0\0\0\0\0\0\0\0\x64\xff\xff\xff\xff\xff\xff\xff\xff\
      \0\x01\0\0\0\0\0\0\0\0\0\0\0\0\x01\0\0\x01a\0\x01b";

// A length of 30 and 29 bytes.
const SHORT_FRAME: &[u8; 33] =
    b"\0\0\0\x1e\0\0\0\0\0\0\0\0\0\0\0\0\0\0\0\0\0\0\0\0\0\0\0\0\0\0\0\0\0";

const ROWS: &[FileRow<'static>] = &[
    FileRow {
        name: "short_second_frame",
        options: "",
        files: &[(&["-1>0"], SHORT_FRAME)],
        expected: "0 0 empty\nfailed: replay: proxy 0: wire 1 Short\n",
    },
    FileRow {
        name: "both versions in one file",
        options: "",
        files: &[(&["-1>0"], ONE_WRITE_2)],
        expected: "0 0 empty\n0 100 committed\ndone: ",
    },
    FileRow {
        name: "fault_closes_own_lane",
        options: "",
        files: &[(&["-1>0"], CUT_FRAME), (&["0>100"], b"")],
        expected: "0 0 empty\n1 100 empty\nfailed: replay: proxy 0: wire 1 Short\n",
    },
    FileRow {
        name: "fault_leaves_other_held",
        options: "",
        files: &[(&["-1>0"], CUT_FRAME), (&["100>200"], b"")],
        expected: "0 0 empty\n1 200 held\nfailed: replay: proxy 0: wire 1 Short\n",
    },
    FileRow {
        name: "second_file_continues_chain",
        options: "",
        files: &[
            (&["-1>0", "0>100: W[a,b)"], b""),
            (&["100>200: R[a,b) @100"], b""),
        ],
        expected: "0 0 empty\n0 100 committed\n1 200 committed\ndone: ",
    },
    FileRow {
        name: "empty_first_file",
        options: "",
        files: &[
            (&[], b""),
            (&["-1>0", "0>100: W[a,b)", "100>200: R[a,b) @100"], b""),
        ],
        expected: "1 0 empty\n1 100 committed\n1 200 committed\ndone: ",
    },
];

#[test]
fn rows_of_files(rt: HostRuntime) -> Result<(), Fail> {
    give(&rt, rt.alloc(), ROWS)
}

// What comes of the first run if its file ends after n bytes.
fn cut_at(length: usize) -> &'static str {
    match length {
        0 => "done: ",
        1..=30 => "failed: replay: proxy 0: wire 1 Short\n",
        31 => "0 0 empty\ndone: ",
        32..=80 => "0 0 empty\nfailed: replay: proxy 0: wire 1 Short\n",
        _ => "0 0 empty\n0 100 committed\ndone: ",
    }
}

// Replays the first run, cut to this length, and returns whether that comes of it.
fn is_cut<R: Threads + Wait + Copy + Send + 'static>(
    rt: &R,
    alloc: Global,
    length: usize,
) -> Result<bool, Unmade> {
    let front = &FIRST_RUN[..length.min(FIRST_RUN.len())];
    let readers = readers_of(alloc, &[(&[], front)])?;
    let found = replayed(rt, alloc, Options::default(), readers)?;
    Ok(found.as_str() == cut_at(length))
}

#[test]
fn first_run_cut_everywhere(rt: HostRuntime) -> Result<(), Fail> {
    for length in 0..82_usize {
        assert!(rt; is_cut(&rt, rt.alloc(), length)?, "at {length}");
    }
    Ok(())
}

// Appends every fourth batch of the chain, from that of the proxy's number on.
fn push_every_fourth(alloc: Global, file: &mut Vec<u8>, proxy: u32) -> Result<(), Unmade> {
    for version in 0..1_024_u32 {
        if version % 4 == proxy {
            let previous = i64::from(version) - 1;
            let text = format!(in alloc; "{previous}>{version}")?;
            push_batch(alloc, file, text.as_str())?;
        }
    }
    Ok(())
}

fn every_fourth(alloc: Global, proxy: u32) -> Result<Reader, Unmade> {
    let mut file = Vec::new(alloc);
    push_every_fourth(alloc, &mut file, proxy)?;
    Ok(reader(file))
}

// The readers of four files of these.
fn four_readers(alloc: Global) -> Result<Vec<Reader>, Unmade> {
    let mut readers = Vec::new(alloc);
    for proxy in 0..4 {
        readers
            .push(every_fourth(alloc, proxy)?)
            .map_err(AllocError::from)?;
    }
    Ok(readers)
}

fn every_fourth_line(alloc: Global) -> Result<String, Unmade> {
    let mut lines = String::new(alloc);
    for proxy in 0..4_u32 {
        for version in 0..1_024_u32 {
            if version % 4 == proxy {
                write!(lines, "{proxy} {version} empty\n")?;
            }
        }
    }
    lines.push_str("done: ")?;
    Ok(lines)
}

// Replays the four files by lanes of one.
fn four_replayed<R: Threads + Wait + Copy + Send + 'static>(
    rt: &R,
    alloc: Global,
) -> Result<String, Unmade> {
    let mut options = Options::default();
    options.capacity = 1;
    replayed(rt, alloc, options, four_readers(alloc)?)
}

#[test]
fn four_files_alternate(rt: HostRuntime) -> Result<(), Fail> {
    let found = four_replayed(&rt, rt.alloc())?;
    let expected = every_fourth_line(rt.alloc())?;
    assert_eq!(rt; found.as_str(), expected.as_str());
    Ok(())
}
