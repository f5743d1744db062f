//! The files of the process, and its standard input.

ghost use Rattle.std.specs.Prelude.{None, ⊤};

use crate::known_files::{Access, KnownFiles};
use crate::output::Output;
use crate::progress::{LONG_FILE, Progress};
use replay_program::{Extent, FileError, Files, STANDARD_INPUT};
use std::cell::Cell;
use std::fs::{File, Metadata, OpenOptions};
use std::io::{BufReader, BufWriter, Read};
use std::rt::{Stderr, Stdin};
use std::{fs, io};
use wire::{StdSink, StdSource};

// A name of the file that is standard input.
const STANDARD_INPUT_FILE: &str = "/dev/stdin";

/// The files that the process can open, and its standard input. `std` reports neither which file it
/// opened nor what a file contains, so no clause does.
///
/// A regular file that was opened to be read isn't opened to be written, by whatever name, nor the
/// other way round, and none is written twice: it can't be opened then.
#[derive(Drop)]
pub struct Disk<'a, R> {
    pub rt: &'a R,
    pub input: Stdin,
    /// Standard error, if it is a terminal. The first long file that is opened to be read to its
    /// end shows there how much of it was read. All files of a run are parts of one chain, so the
    /// others get as far.
    pub terminal: Cell<Option<Stderr>>,
    /// The files that were opened.
    pub known: KnownFiles,
}

/// A file that was opened, or standard input.
#[derive(Drop)]
pub enum Input {
    File(File),
    Shown(File, Progress),
    Standard(Stdin),
}

impl Read for Input {
    fn read(&mut self, buf: &mut [u8]) -> io::Result<usize> {
        match self {
            Input::File(file) => file.read(buf),
            Input::Shown(file, progress) => {
                let count = file.read(buf)?;
                progress.advance(count);
                Ok(count)
            }
            Input::Standard(input) => input.read(buf),
        }
    }
}

impl<R: fs::Files<File = File> + AllocGlobal> Disk<'_, R> {
    // Opens the file of this name, or standard input by its own.
    fn input(&self, name: &str, extent: Extent) -> Result<Input, FileError> {
        if name == STANDARD_INPUT {
            self.add_read(fs::metadata(self.rt, STANDARD_INPUT_FILE))?;
            return Ok(Input::Standard(self.input));
        }
        let Ok(file) = File::open(self.rt, name) else {
            return Err(FileError::CannotOpen);
        };
        self.add_read(file.metadata())?;
        Ok(self.shown_if_long(file, extent))
    }

    // A file without metadata can still be read: it isn't written, since that needs them.
    fn add_read(&self, metadata: io::Result<Metadata>) -> Result<(), FileError> {
        match metadata {
            Ok(metadata) => self.known.add(&metadata, Access::Read),
            Err(_) => Ok(()),
        }
    }

    // Opens the file of this name to be written, with the bytes that it has. The metadata are those
    // of the open file, so it is the one that is written, even if the name is given to another.
    fn output(&self, name: &str) -> Result<Output, FileError> {
        let opened = OpenOptions::new()
            .write(true)
            .create(true)
            .truncate(false)
            .open(self.rt, name);
        let Ok(file) = opened else {
            return Err(FileError::CannotOpen);
        };
        let Ok(metadata) = file.metadata() else {
            return Err(FileError::CannotOpen);
        };
        self.known.add(&metadata, Access::Write)?;
        Ok(Output::new(file, metadata.is_file()))
    }

    fn shown_if_long(&self, file: File, extent: Extent) -> Input {
        let Some(length) = length_if_shown(&file, extent) else {
            return Input::File(file);
        };
        match self.terminal.take() {
            Some(terminal) => {
                let progress = Progress::new(self.rt.alloc(), terminal, length);
                Input::Shown(file, progress)
            }
            None => Input::File(file),
        }
    }
}

impl<R: fs::Files<File = File> + AllocGlobal> Files for Disk<'_, R> {
    type Reader = StdSource<BufReader<Input>>;

    type Writer = StdSink<BufWriter<Output>>;

    ghost contents = { λ _ _. None };

    ghost has_opened = { λ _ _. ⊤ };

    ghost cannot_open = { λ _ _. ⊤ };

    ghost lacks_memory = { λ _ _. ⊤ };

    ghost is_regular = { λ _ _. ⊤ };

    ghost is_irregular = { λ _ _. ⊤ };

    ghost begun = { λ _ _. None };

    ghost has_created = { λ _ _. ⊤ };

    ghost cannot_create = { λ _ _. ⊤ };

    fn open(&self, name: &str, extent: Extent) -> Result<StdSource<BufReader<Input>>, FileError> {
        let input = self.input(name, extent)?;
        let reader = BufReader::new(self.rt.alloc(), input).map_err(|_| FileError::Memory)?;
        Ok(StdSource::new(reader))
    }

    fn is_regular(&self, name: &str) -> bool {
        match fs::metadata(self.rt, name) {
            Ok(metadata) => metadata.is_file(),
            Err(_) => false,
        }
    }

    // What is printed to it is gathered, as for standard output, and passed on by each flush.
    fn create(&self, name: &str) -> Result<StdSink<BufWriter<Output>>, FileError> {
        let output = self.output(name)?;
        let writer = BufWriter::new(self.rt.alloc(), output).map_err(|_| FileError::Memory)?;
        Ok(StdSink::new(writer))
    }
}

// Returns the number of bytes of a file if its progress is shown.
fn length_if_shown(file: &File, extent: Extent) -> Option<u64> {
    if extent == Extent::FirstBatches {
        return None;
    }
    let length = file.metadata().ok()?.len();
    if length > LONG_FILE {
        Some(length)
    } else {
        None
    }
}
