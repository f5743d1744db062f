//! The opening of the program's files.

ghost use Rattle.std.specs.Prelude.{◌≡◌, ℕ, List, Option, IfOk, OnOk, false, true};

use wire::{Sink, Source};

/// The name of standard input, which is read instead of a file.
pub const STANDARD_INPUT: &str = "-";

/// Why a file was not opened.
#[derive(Clone, Copy, Debug, PartialEq, Eq)]
pub enum FileError {
    /// It can't be opened.
    CannotOpen,
    /// Memory was refused.
    Memory,
}

/// How much of a file its reader is for.
#[derive(Clone, Copy, Debug, PartialEq, Eq)]
pub enum Extent {
    /// All of it: the progress through a long file may be shown.
    Complete,
    /// Its first batches: no progress is shown.
    FirstBatches,
}

/// Opens files by their names, and standard input by its own, [`STANDARD_INPUT`].
pub trait Files {
    type Reader: Source + Send + Drop + 'static;

    type Writer: Sink + Send + Drop + 'static;

    // The bytes of the file of this name, if they are reported.
    ghost contents: { Self → List ℕ → Option (List ℕ) };

    // The file of this name was opened.
    ghost has_opened: { Self → List ℕ → Type 0 };

    // The file of this name can't be opened.
    ghost cannot_open: { Self → List ℕ → Type 0 };

    // Memory is refused in the opening of the file of this name, to be read or written.
    ghost lacks_memory: { Self → List ℕ → Type 0 };

    // The name is that of a regular file: each opening gives its bytes from the beginning.
    ghost is_regular: { Self → List ℕ → Type 0 };

    // The name is that of no regular file.
    ghost is_irregular: { Self → List ℕ → Type 0 };

    // The bytes that a new writer of the file of this name was given, if they are reported.
    ghost begun: { Self → List ℕ → Option (List ℕ) };

    // The file of this name was opened to be written.
    ghost has_created: { Self → List ℕ → Type 0 };

    // The file of this name can't be opened to be written.
    ghost cannot_create: { Self → List ℕ → Type 0 };

    /// Opens the file of this name, to be read from its beginning. The extent changes no byte.
    fn open(&self, name: &str, extent: Extent) -> Result<Self::Reader, FileError>
        ensures contents { IfOk result (λ reader. Self.Reader.remaining reader
            ≡ contents self.now name.now) }
        ensures opened { OnOk result (has_opened self.now name.now) }
        ensures refused { result ≡ Err FileError.CannotOpen → cannot_open self.now name.now }
        ensures memory { result ≡ Err FileError.Memory → lacks_memory self.now name.now };

    /// Returns whether the name is that of a regular file, which can be opened several times: not
    /// that of a pipe, of a folder, or of no file.
    fn is_regular(&self, name: &str) -> bool
        ensures regular { result ≡ true → is_regular self.now name.now }
        ensures irregular { result ≡ false → is_irregular self.now name.now };

    /// Opens the file of this name, to be written from its beginning. Creates it, if there is none.
    fn create(&self, name: &str) -> Result<Self::Writer, FileError>
        ensures begun { IfOk result (λ writer. Self.Writer.given writer ≡ begun self.now name.now) }
        ensures created { OnOk result (has_created self.now name.now) }
        ensures refused { result ≡ Err FileError.CannotOpen → cannot_create self.now name.now }
        ensures memory { result ≡ Err FileError.Memory → lacks_memory self.now name.now };
}
