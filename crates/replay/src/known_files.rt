//! Which files are open, by whatever name they were opened.

use replay_program::FileError;
use std::alloc::Global;
use std::cell::Cell;
use std::fs::Metadata;
use std::os::unix::fs::MetadataExt;

/// What a file was opened for.
#[derive(Clone, Copy)]
pub enum Access {
    Read,
    Write,
}

// A file keeps its device and inode while it is open, whatever its names are.
#[derive(Clone, Copy)]
struct KnownFile {
    device: u64,
    inode: u64,
    access: Access,
}

impl KnownFile {
    fn new(metadata: &Metadata, access: Access) -> Self {
        KnownFile {
            device: metadata.dev(),
            inode: metadata.ino(),
            access,
        }
    }

    fn is_same(&self, other: &KnownFile) -> bool {
        self.device == other.device && self.inode == other.inode
    }

    // A file has several readers or one writer.
    fn share(&self, access: Access) -> Result<(), FileError> {
        match (self.access, access) {
            (Access::Read, Access::Read) => Ok(()),
            (Access::Write, _) | (_, Access::Write) => Err(FileError::CannotOpen),
        }
    }
}

/// The regular files that were opened.
#[derive(Drop)]
pub struct KnownFiles {
    alloc: Global,
    files: Cell<Vec<KnownFile>>,
}

impl KnownFiles {
    /// Creates an empty set. Takes no memory.
    pub fn new(alloc: Global) -> Self {
        KnownFiles {
            alloc,
            files: Cell::new(Vec::new(alloc)),
        }
    }

    /// Adds a file that was opened. Refuses it if it is written and was opened before, or is read
    /// and was opened to be written. A device or a pipe isn't added, and never refused.
    pub fn add(&self, metadata: &Metadata, access: Access) -> Result<(), FileError> {
        if !metadata.is_file() {
            return Ok(());
        }
        let mut files = self.files.replace(Vec::new(self.alloc));
        let added = add_to(&mut files, KnownFile::new(metadata, access));
        self.files.set(files);
        added
    }
}

fn add_to(files: &mut Vec<KnownFile>, file: KnownFile) -> Result<(), FileError> {
    for known in files.iter() {
        if known.is_same(&file) {
            return known.share(file.access);
        }
    }
    files.push(file).map_err(|_| FileError::Memory)
}
