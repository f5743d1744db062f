//! The files of a command line, opened before anything else is done.

ghost use Rattle.std.specs.Prelude.{◌≡◌, ◌↔◌, ◌<◌, ◌≤◌, ◌⊎◌, ℕ, [], map, length, vec_capacity};
ghost use Rattle.std.specs.Prelude.{IfOk, IsErr, MatchOption, OnErr, OnOk};
ghost use Rattle.std.specs.Io.KnownBytes.{Appends};
ghost use Rattle.std.specs.List.{All};
ghost use Rattle.replay_arguments.specs.Opening.{IsFirstRefused, contents_each, creating_line};
ghost use Rattle.replay_arguments.specs.Opening.{opening_line, replies_of};

use itoa::Buffer;
use replay_output::{StartError, Status, begin_line, print_start_error};
use std::alloc::Global;
use wire::{Failed, Sink, write_all};

mod files;
mod written;

pub use files::{Extent, FileError, Files, STANDARD_INPUT};
pub use written::{WrittenFile, fail_to_create_file};

/// Why the files were not opened.
#[derive(Clone, Copy, Debug, PartialEq, Eq)]
pub enum OpeningError {
    /// The file of this proxy can't be opened.
    CannotOpen(usize),
    /// Memory was refused.
    Memory,
}

impl OpeningError {
    fn new(proxy: usize, error: FileError) -> Self
        ensures place { (at : ℕ) → result ≡ OpeningError.CannotOpen at → (at ≡ proxy)
            × (error ≡ FileError.CannotOpen) }
        ensures memory { result ≡ OpeningError.Memory → error ≡ FileError.Memory }
    {
        match error {
            FileError::CannotOpen => OpeningError::CannotOpen(proxy),
            FileError::Memory => OpeningError::Memory,
        }
    }
}

/// Opens the files of these names, of which each is that of the proxy at its place. The first that
/// can't be opened is the error. A folder opens, and fails when it is read.
pub fn open_files<F: Files>(
    alloc: Global,
    files: &F,
    names: &[&str],
    extent: Extent,
) -> Result<Vec<F::Reader>, OpeningError>
    ensures contents { IfOk result (λ readers.
        map F.Reader.remaining readers.items
        ≡ contents_each (F.contents files.now) (map (λ name. name.now) names.now)) }
    ensures opened { OnOk result (All (F.has_opened files.now)
        (map (λ name. name.now) names.now)) }
    ensures refused { (proxy : ℕ) → result ≡ Err (OpeningError.CannotOpen proxy)
        → IsFirstRefused (F.has_opened files.now) (F.cannot_open files.now)
        (map (λ name. name.now) names.now) proxy }
    ensures memory { result ≡ Err OpeningError.Memory → 0 < length names.now }
{
    let readers = Vec::with_capacity(alloc, names.len()).map_err(|_| OpeningError::Memory)?;
    open_each(files, names, extent, readers)
}

// Opens them all, into an empty vector with room for their readers. Takes no memory but in the
// opening of a file.
fn open_each<F: Files>(
    files: &F,
    names: &[&str],
    extent: Extent,
    room: Vec<F::Reader>,
) -> Result<Vec<F::Reader>, OpeningError>
    requires empty { room.items ≡ [] }
    requires each { length names.now ≤ vec_capacity room }
    ensures contents { IfOk result (λ readers.
        map F.Reader.remaining readers.items
        ≡ contents_each (F.contents files.now) (map (λ name. name.now) names.now)) }
    ensures opened { OnOk result (All (F.has_opened files.now)
        (map (λ name. name.now) names.now)) }
    ensures refused { (proxy : ℕ) → result ≡ Err (OpeningError.CannotOpen proxy)
        → IsFirstRefused (F.has_opened files.now) (F.cannot_open files.now)
        (map (λ name. name.now) names.now) proxy }
    // A file that can't be opened isn't reported as a failed allocation.
    ensures memory { result ≡ Err OpeningError.Memory → (proxy : ℕ)
        × IsFirstRefused (F.has_opened files.now) (F.lacks_memory files.now)
        (map (λ name. name.now) names.now) proxy }
{
    let mut readers = room;
    for (proxy, name) in names.iter().enumerate() {
        let reader = match files.open(name, extent) {
            Ok(reader) => reader,
            Err(error) => return Err(OpeningError::new(proxy, error)),
        };
        readers.push_reserved(reader);
    }
    Ok(readers)
}

/// Returns the index of the first of these names that isn't that of a regular file.
pub fn first_irregular<F: Files>(files: &F, names: &[&str]) -> Option<usize>
    ensures first { MatchOption result
        (All (F.is_regular files.now) (map (λ name. name.now) names.now))
        (IsFirstRefused (F.is_regular files.now) (F.is_irregular files.now)
        (map (λ name. name.now) names.now)) }
{
    for (proxy, name) in names.iter().enumerate() {
        if !files.is_regular(name) {
            return Some(proxy);
        }
    }
    None
}

/// Opens the files of these names to be written, of which each is for the answers to the proxy at
/// its place. The first that can't be opened is the error.
pub fn create_files<F: Files>(
    alloc: Global,
    files: &F,
    names: &[&str],
) -> Result<Vec<F::Writer>, OpeningError>
    ensures begun { IfOk result (λ writers.
        map F.Writer.given writers.items
        ≡ contents_each (F.begun files.now) (map (λ name. name.now) names.now)) }
    ensures refused { (proxy : ℕ) → result ≡ Err (OpeningError.CannotOpen proxy)
        → IsFirstRefused (F.has_created files.now) (F.cannot_create files.now)
        (map (λ name. name.now) names.now) proxy }
{
    let writers = Vec::with_capacity(alloc, names.len()).map_err(|_| OpeningError::Memory)?;
    create_each(files, names, writers)
}

// Opens them all, into an empty vector with room for their writers. Takes no memory but in the
// opening of a file.
fn create_each<F: Files>(
    files: &F,
    names: &[&str],
    room: Vec<F::Writer>,
) -> Result<Vec<F::Writer>, OpeningError>
    requires empty { room.items ≡ [] }
    requires each { length names.now ≤ vec_capacity room }
    ensures begun { IfOk result (λ writers.
        map F.Writer.given writers.items
        ≡ contents_each (F.begun files.now) (map (λ name. name.now) names.now)) }
    ensures refused { (proxy : ℕ) → result ≡ Err (OpeningError.CannotOpen proxy)
        → IsFirstRefused (F.has_created files.now) (F.cannot_create files.now)
        (map (λ name. name.now) names.now) proxy }
    // A file that can't be opened isn't reported as a failed allocation.
    ensures memory { result ≡ Err OpeningError.Memory → (proxy : ℕ)
        × IsFirstRefused (F.has_created files.now) (F.lacks_memory files.now)
        (map (λ name. name.now) names.now) proxy }
{
    let mut writers = room;
    for (proxy, name) in names.iter().enumerate() {
        let writer = match files.create(name) {
            Ok(writer) => writer,
            Err(cause) => return Err(OpeningError::new(proxy, cause)),
        };
        writers.push_reserved(writer);
    }
    Ok(writers)
}

/// Prints the line of a file for records that can't be opened, and returns how the program ends. A
/// failed write changes nothing. Takes no memory.
pub fn fail_to_create<W: Sink>(error: &mut W, cause: OpeningError) -> Status
    ensures status { result ≡ Status.Failed }
    ensures line { (W.failures error.old < W.failures error.new)
        ⊎ Appends (W.given error.old) (W.given error.new) (creating_line cause) }
{
    let _ = print_creating_error(error, cause);
    Status::Failed
}

/// Writes `replay: replies ` and the number of the proxy. Takes no memory.
pub fn begin_replies<W: Sink>(error: &mut W, proxy: usize) -> Result<(), Failed>
    ensures text { OnOk result (Appends (W.given error.old) (W.given error.new)
        (replies_of proxy)) }
    ensures ok { OnOk result (W.failures error.new ≡ W.failures error.old) }
    ensures failed { OnErr result (W.failures error.old < W.failures error.new) }
{
    let mut buffer = Buffer::new();
    write_all(error, b"replay: replies ")?;
    write_all(error, buffer.format(proxy).as_bytes())
}

fn print_creating_error<W: Sink>(error: &mut W, cause: OpeningError) -> Result<(), Failed>
    ensures text { OnOk result (Appends (W.given error.old) (W.given error.new)
        (creating_line cause)) }
    ensures failed { IsErr result ↔ (W.failures error.old < W.failures error.new) }
    ensures least_failures { W.failures error.old ≤ W.failures error.new }
{
    match cause {
        OpeningError::CannotOpen(proxy) => {
            begin_replies(error, proxy)?;
            write_all(error, b": cannot open\n")
        }
        OpeningError::Memory => print_start_error(error, StartError::Memory),
    }
}

/// Prints the line of the cause, and returns how the program ends. A failed write changes nothing.
/// Takes no memory.
pub fn fail_to_open<W: Sink>(error: &mut W, cause: OpeningError) -> Status
    ensures status { result ≡ Status.Failed }
    ensures line { (W.failures error.old < W.failures error.new)
        ⊎ Appends (W.given error.old) (W.given error.new) (opening_line cause) }
{
    let _ = print_opening_error(error, cause);
    Status::Failed
}

fn print_opening_error<W: Sink>(error: &mut W, cause: OpeningError) -> Result<(), Failed>
    ensures text { OnOk result (Appends (W.given error.old) (W.given error.new)
        (opening_line cause)) }
    ensures failed { IsErr result ↔ (W.failures error.old < W.failures error.new) }
    ensures least_failures { W.failures error.old ≤ W.failures error.new }
{
    match cause {
        OpeningError::CannotOpen(proxy) => {
            begin_line(error, proxy)?;
            write_all(error, b": cannot open\n")
        }
        OpeningError::Memory => print_start_error(error, StartError::Memory),
    }
}
