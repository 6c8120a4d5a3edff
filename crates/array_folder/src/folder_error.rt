// Why a folder is not read.
ghost use Rattle.array_folder.specs.Shown.{IsPathPrinted};

use array_fields::escaped;
use std::alloc::{AllocError, AllocFailed, Global};
use std::io;
use thiserror::Error;

/// Why a folder, or a file in it, is not read.
#[derive(Debug, Drop, Error)]
pub enum FolderError {
    /// A growth was refused.
    #[error("out of memory")]
    OutOfMemory,
    /// What the system said of a file or folder, whose path is escaped for a terminal.
    #[error("{path}: {error}")]
    System { path: String, error: io::Error },
    /// What the system said where no new file could be made in a folder, whose path is escaped for a terminal.
    #[error("{path}: no new file can be made in this folder: {error}")]
    Folder { path: String, error: io::Error },
}

impl FolderError {
    /// What the system said of the file or folder at a path, or that memory ran out.
    pub fn system(alloc: Global, path: &str, error: io::Error) -> FolderError
        ensures printed { IsPathPrinted result }
    {
        if error.kind() == io::ErrorKind::OutOfMemory {
            return FolderError::OutOfMemory;
        }
        match escaped(alloc, path) {
            Ok(path) => FolderError::System { path, error },
            Err(_) => FolderError::OutOfMemory,
        }
    }

    /// What the system said where no new file could be made in the folder at a path, or that memory ran out.
    pub fn folder(alloc: Global, path: &str, error: io::Error) -> FolderError
        ensures printed { IsPathPrinted result }
    {
        match FolderError::system(alloc, path, error) {
            FolderError::System { path, error } => FolderError::Folder { path, error },
            refusal => refusal,
        }
    }
}

impl From<AllocError> for FolderError {
    fn from(_error: AllocError) -> FolderError {
        FolderError::OutOfMemory
    }
}

impl<T: Drop> From<AllocFailed<T>> for FolderError {
    fn from(_error: AllocFailed<T>) -> FolderError {
        FolderError::OutOfMemory
    }
}
