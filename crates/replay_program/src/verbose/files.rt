//! The files of batches of a run that failed, opened once more.

ghost use Rattle.std.specs.Prelude.{◌≡◌, ◌⊎◌, IfErr, IfOk, List};
ghost use Rattle.keyspace.specs.declared.batch.Batch.{Batch as BatchValue};
ghost use Rattle.replay_diagnosis.specs.Following.{HasLeast};
ghost use Rattle.replay_program.specs.Verbose.{AreBatches, AreExamined, IsFirstFound, IsFoundIn};
ghost use Rattle.replay_program.specs.Program.{texts};

use replay_arguments::{Extent, FileError, Files, STANDARD_INPUT};
use replay_diagnosis::{FileBatches, Finding, examine};
use std::alloc::Global;

/// What was found in the file of this name.
#[derive(Clone, Copy, Debug)]
pub struct FileFinding<'a> {
    pub name: &'a str,
    pub finding: Finding,
}

/// Reads the files of these names to their ends, in order. Returns which versions their batches
/// follow, or what was found in the first file that can't be opened or has something else than
/// frames of batches.
pub fn examine_files<'a, F: Files>(
    alloc: Global,
    files: &F,
    names: &[&'a str],
) -> Result<FileBatches, FileFinding<'a>>
    ensures batches { IfOk result (λ batches. AreExamined (F.contents files.now) (texts names.now)
        batches.least_previous) }
    ensures found { IfErr result (λ found. IsFirstFound (F.contents files.now)
        (F.cannot_open files.now) (texts names.now) found.name.now found.finding) }
{
    let mut batches = FileBatches::none();
    for name in names {
        match examine_file(alloc, files, name) {
            Ok(own) => batches.join(&own),
            Err(finding) => {
                return Err(FileFinding {
                    name: *name,
                    finding,
                });
            }
        }
    }
    Ok(batches)
}

// Reads the file of this name to its end. Standard input can't be read again.
fn examine_file<F: Files>(alloc: Global, files: &F, name: &str) -> Result<FileBatches, Finding>
    ensures batches { IfOk result (λ batches. (own : List BatchValue)
        × AreBatches (F.contents files.now name.now) own × HasLeast own batches.least_previous) }
    ensures found { IfErr result (IsFoundIn (F.contents files.now) (F.cannot_open files.now)
        name.now) }
{
    if name == STANDARD_INPUT {
        return Err(Finding::StandardInput);
    }
    let mut reader = match files.open(name, Extent::Complete) {
        Ok(reader) => reader,
        Err(error) => return Err(unopened(error)),
    };
    examine(alloc, &mut reader)
}

// Returns the finding about a file that was not opened.
fn unopened(error: FileError) -> Finding
    ensures cannot_open { result ≡ Finding.CannotOpen → error ≡ FileError.CannotOpen }
    ensures either { (result ≡ Finding.CannotOpen) ⊎ (result ≡ Finding.Memory) }
{
    match error {
        FileError::CannotOpen => Finding::CannotOpen,
        FileError::Memory => Finding::Memory,
    }
}
