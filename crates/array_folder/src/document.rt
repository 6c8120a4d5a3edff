// The text of an array's metadata.
ghost use Rattle.std.specs.Prelude.{IfErr};
ghost use Rattle.array_folder.specs.Shown.{IsPathPrinted};

use crate::folder_error::FolderError;
use std::alloc::Global;
use std::io::{ErrorKind, Read};
use std::{fs, io};
use storage_files::{check_folder, file_length};

/// What the system said of the file or folder at a path, with the path where that was refused.
pub fn named<T: Drop>(alloc: Global, path: &str, answer: io::Result<T>) -> Result<T, FolderError>
    ensures { IfErr result IsPathPrinted }
{
    match answer {
        Ok(value) => Ok(value),
        Err(error) => Err(FolderError::system(alloc, path, error)),
    }
}

// The length of a regular file that is there.
fn length_of(rt: &HostRuntime, path: &str) -> io::Result<u64> {
    match file_length(rt, path)? {
        Some(length) => Ok(length),
        None => Err(io::Error::new(ErrorKind::NotFound, "is not there")),
    }
}

// The text of a file: `most` bytes of it at most.
fn text_of(rt: &HostRuntime, path: &str, most: u64) -> io::Result<String> {
    io::read_to_string(rt.alloc(), fs::open(rt, path)?.take(most))
}

/// The length of the document of a folder that has this path. Refused where the folder is none, or the document is not a regular
/// file in it.
pub fn document_length(rt: &HostRuntime, path: &str, document: &str) -> Result<u64, FolderError>
    ensures { IfErr result IsPathPrinted }
{
    named(rt.alloc(), path, check_folder(rt, path))?;
    named(rt.alloc(), document, length_of(rt, document))
}

/// The text of a document, of which no more than the first `most` bytes are read.
pub fn read_document(rt: &HostRuntime, document: &str, most: u64) -> Result<String, FolderError>
    ensures { IfErr result IsPathPrinted }
{
    named(rt.alloc(), document, text_of(rt, document, most))
}
