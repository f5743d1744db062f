//! Runs over files in memory, and what they give.

use crate::words::options_of;
use replay_program::{Gatekeeper, Options, ShareKeeper, Status, replay_over};
use replay_workers::WaitingRoom;
use resolver::MAX_PROXIES;
use std::alloc::{AllocError, Global};
use std::io::Cursor;
use std::process::Abort;
use std::sync::{Arc, Wait};
use std::test::Fail;
use std::thread::Threads;
use test_values::{Unmade, batch};
use wire::{StdSink, StdSource, WireError, encode_batch_1};

/// A file: the frames of these batches, and bytes after them.
pub type TestFile<'a> = (&'a [&'a str], &'a [u8]);

/// A row over files.
pub struct FileRow<'a> {
    pub name: &'a str,
    /// The options of the command line.
    pub options: &'a str,
    pub files: &'a [TestFile<'a>],
    /// The text of standard output, how the run ends, and the text of standard error.
    pub expected: &'a str,
}

/// A reader of a file in memory.
pub type Reader = StdSource<Cursor<Vec<u8>>>;

/// Returns a reader of the file.
pub fn reader(file: Vec<u8>) -> Reader {
    StdSource::new(Cursor::new(file))
}

/// Appends the frame of a batch to the file.
pub fn push_batch(alloc: Global, file: &mut Vec<u8>, text: &str) -> Result<(), Unmade> {
    let batch = batch(alloc, text)?;
    match encode_batch_1(alloc, &batch) {
        Ok(frame) => Ok(file.extend_from_slice(&frame)?),
        Err(WireError::Memory) => Err(Unmade::Memory),
        Err(_long) => Err(Unmade::Beyond("frame")),
    }
}

fn bytes_of(alloc: Global, (batches, rest): TestFile<'_>) -> Result<Vec<u8>, Unmade> {
    let mut bytes = Vec::new(alloc);
    for text in batches {
        push_batch(alloc, &mut bytes, text)?;
    }
    bytes.extend_from_slice(rest)?;
    Ok(bytes)
}

/// Makes readers of the files.
pub fn readers_of(alloc: Global, files: &[TestFile<'_>]) -> Result<Vec<Reader>, Unmade> {
    let mut readers = Vec::new(alloc);
    for file in files {
        readers
            .push(reader(bytes_of(alloc, *file)?))
            .map_err(AllocError::from)?;
    }
    Ok(readers)
}

/// Returns the end of a run as text: its standard output, its status in words, and its standard
/// error.
pub fn ended(status: Status, out: Vec<u8>, error: &[u8]) -> Result<String, Unmade> {
    let mut text = out;
    text.extend_from_slice(match status {
        Status::Done => b"done: ".as_slice(),
        Status::Failed => b"failed: ",
        Status::Usage => b"usage: ",
        Status::Differs => b"differs: ",
    })?;
    text.extend_from_slice(error)?;
    match String::from_utf8(text) {
        Ok(text) => Ok(text),
        Err(_bytes) => Err(Unmade::Text("UTF-8")),
    }
}

/// Replays as the program does, from these readers, and puts what comes of it into words.
pub fn replayed_from<
    G: Gatekeeper + ShareKeeper + Send + Sync + Drop + 'static,
    R: Threads + Wait + Copy + Send + 'static,
>(
    rt: &R,
    alloc: Global,
    readers: Vec<Reader>,
    options: Options,
    gatekeeper: &Arc<G, Global>,
) -> Result<String, Unmade> {
    let mut out = StdSink::new(Vec::new(alloc));
    let mut error = StdSink::new(Vec::new(alloc));
    let status = replay_into(
        rt, alloc, readers, options, gatekeeper, &mut out, &mut error,
    )?;
    ended(status, out.into_inner(), &error.into_inner())
}

/// Replays as the program does, from these readers to these writers. No other test calls what it
/// calls, whose contract is long.
pub fn replay_into<
    G: Gatekeeper + ShareKeeper + Send + Sync + Drop + 'static,
    R: Threads + Wait + Copy + Send + 'static,
>(
    rt: &R,
    alloc: Global,
    readers: Vec<Reader>,
    options: Options,
    gatekeeper: &Arc<G, Global>,
    out: &mut StdSink<Vec<u8>>,
    error: &mut StdSink<Vec<u8>>,
) -> Result<Status, Unmade> {
    if readers.is_empty() || readers.len() > MAX_PROXIES {
        return Err(Unmade::Beyond("number of files"));
    }
    Ok(replay_over(rt, alloc, readers, options, gatekeeper, out, error).status)
}

// Makes the gatekeeper that the program has, for n proxies.
fn waiting_room(alloc: Global, proxies: usize) -> Result<Arc<WaitingRoom, Global>, AllocError> {
    Ok(Arc::new(alloc, WaitingRoom::new(alloc, proxies)?)?)
}

/// Replays as the program does, with its gatekeeper.
pub fn replayed<R: Threads + Wait + Copy + Send + 'static>(
    rt: &R,
    alloc: Global,
    options: Options,
    readers: Vec<Reader>,
) -> Result<String, Unmade> {
    let gatekeeper = waiting_room(alloc, readers.len())?;
    replayed_from(rt, alloc, readers, options, &gatekeeper)
}

fn found<R: Threads + Wait + Copy + Send + 'static>(
    rt: &R,
    alloc: Global,
    row: &FileRow<'_>,
) -> Result<String, Unmade> {
    let options = options_of(alloc, row.options)?;
    replayed(rt, alloc, options, readers_of(alloc, row.files)?)
}

/// Replays the files of each row with its options, and compares what comes of it.
pub fn give<R: Abort + Threads + Wait + Copy + Send + 'static>(
    rt: &R,
    alloc: Global,
    rows: &[FileRow<'_>],
) -> Result<(), Fail> {
    for row in rows {
        let found = found(rt, alloc, row)?;
        let name = row.name;
        assert_eq!(rt; found.as_str(), row.expected, "{name}");
    }
    Ok(())
}
