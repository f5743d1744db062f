//! The files of batches of a command line, opened.

ghost use Rattle.std.specs.Prelude.{◌≡◌, ℕ, Err, IfOk, OnOk, length, map, vec_len};
ghost use Rattle.std.specs.List.{All};
ghost use Rattle.replay_arguments.specs.Opening.{IsFirstRefused, contents_each};
ghost use Rattle.replay_program.specs.Program.{texts};

use replay_arguments::{CommandLine, Extent, Files, OpeningError, open_files};
use replay_workers::WaitingRoom;
use std::alloc::{AllocError, Global};
use std::sync::Arc;

/// The readers of the files of batches, and the room in which their workers wait.
#[derive(Drop)]
pub struct Opened<S> {
    /// Each is that of the proxy at its place.
    pub readers: Vec<S>,
    pub room: Arc<WaitingRoom, Global>,
}

/// Opens the files of batches of a command line. The first that can't be opened is the error.
pub fn open_batches<F: Files>(
    alloc: Global,
    files: &F,
    line: &CommandLine,
) -> Result<Opened<F::Reader>, OpeningError>
    ensures contents { IfOk result (λ opened.
        map F.Reader.remaining opened.readers.items
        ≡ contents_each (F.contents files.now) (texts line.now.files.items)) }
    ensures each { IfOk result (λ opened. vec_len opened.readers ≡ vec_len line.now.files) }
    ensures opened { OnOk result (All (F.has_opened files.now) (texts line.now.files.items)) }
    ensures refused { (proxy : ℕ) → result ≡ Err (OpeningError.CannotOpen proxy)
        → IsFirstRefused (F.has_opened files.now) (F.cannot_open files.now)
        (texts line.now.files.items) proxy }
{
    let readers = match open_files(alloc, files, &line.files, Extent::Complete) {
        Ok(readers) => readers,
        Err(cause) => return Err(cause),
    };
    let Ok(room) = waiting_room(alloc, &readers) else {
        return Err(OpeningError::Memory);
    };
    Ok(Opened { readers, room })
}

// Makes the room of the proxies that have these readers, with a place for each.
fn waiting_room<S>(alloc: Global, readers: &[S]) -> Result<Arc<WaitingRoom, Global>, AllocError>
    ensures places { IfOk result (λ room. length room.value ≡ length readers.now) }
{
    Ok(Arc::new(alloc, WaitingRoom::new(alloc, readers.len())?)?)
}
