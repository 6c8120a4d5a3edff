// What stands at a path. Links are followed.
use std::fs::{FileType, Metadata};
use std::io::ErrorKind;
use std::os::unix::fs::FileTypeExt;
use std::path::Path;
use std::rt::Files;
use std::{fs, io};

// Why something that is neither a regular file nor a folder is not read as a regular file.
fn words_of_special(kind: FileType) -> &'static str {
    if kind.is_fifo() {
        "is a FIFO, not a regular file"
    } else if kind.is_socket() {
        "is a socket, not a regular file"
    } else if kind.is_char_device() {
        "is a character device, not a regular file"
    } else if kind.is_block_device() {
        "is a block device, not a regular file"
    } else {
        "is not a regular file"
    }
}

// Why what stands at a path is not read as a regular file.
fn no_file(found: &Metadata) -> io::Error {
    if found.is_dir() {
        return io::Error::new(ErrorKind::IsADirectory, "is a folder, not a regular file");
    }
    io::Error::new(ErrorKind::InvalidInput, words_of_special(found.file_type()))
}

// Why what stands at a path is not read as a folder.
fn no_folder(found: &Metadata) -> io::Error {
    let kind = found.file_type();
    let words = if kind.is_file() {
        "is a regular file, not a folder"
    } else if kind.is_fifo() {
        "is a FIFO, not a folder"
    } else if kind.is_socket() {
        "is a socket, not a folder"
    } else {
        "is a device, not a folder"
    };
    io::Error::new(ErrorKind::NotADirectory, words)
}

// Tests that no entry has this name, not even a link to nothing, which is refused in these words.
fn check_no_entry<R: Files>(files: &R, path: &str, words: &str) -> io::Result<()> {
    match fs::symlink_metadata(files, path) {
        Ok(_) => Err(io::Error::new(ErrorKind::InvalidInput, words)),
        Err(error) if error.kind() == ErrorKind::NotFound => Ok(()),
        Err(error) => Err(error),
    }
}

// Why a path is refused that goes through something else than folders.
fn below_no_folder() -> io::Error {
    io::Error::new(ErrorKind::NotADirectory, "lies below what is not a folder")
}

// Whether a folder that a path lies in is there. Refused where it is something else, or a link to nothing.
fn is_folder_above<R: Files>(files: &R, folder: &str) -> io::Result<bool> {
    match fs::metadata(files, folder) {
        Ok(found) if found.is_dir() => Ok(true),
        Ok(_) => Err(below_no_folder()),
        Err(error) if error.kind() == ErrorKind::NotFound => {
            check_no_entry(files, folder, "lies below a link to nothing")?;
            Ok(false)
        }
        Err(error) => Err(error),
    }
}

// Tests that nothing stands at a path at which nothing was found: no entry has this name, and what the path lies in is a
// folder, or no entry either.
fn check_absent<R: Files>(files: &R, path: &str) -> io::Result<()> {
    check_no_entry(files, path, "is a link to nothing")?;
    for folder in Path::new(path).ancestors().skip(1) {
        let folder = if folder.as_str().is_empty() {
            "."
        } else {
            folder.as_str()
        };
        if is_folder_above(files, folder)? {
            return Ok(());
        }
    }
    Ok(())
}

/// The length of the regular file at a path, or `None` where nothing of that name is there. Refused where something else
/// is there, as a folder, a FIFO or a device, and where a link leads to nothing, also one on the way.
pub fn file_length<R: Files>(files: &R, path: &str) -> io::Result<Option<u64>> {
    match fs::metadata(files, path) {
        Ok(found) if found.is_file() => Ok(Some(found.len())),
        Ok(found) => Err(no_file(&found)),
        Err(error) if error.kind() == ErrorKind::NotFound => {
            check_absent(files, path)?;
            Ok(None)
        }
        Err(error) if error.kind() == ErrorKind::NotADirectory => Err(below_no_folder()),
        Err(error) => Err(error),
    }
}

/// Tests that a folder stands at a path.
pub fn check_folder<R: Files>(files: &R, path: &str) -> io::Result<()> {
    match fs::metadata(files, path) {
        Ok(found) if found.is_dir() => Ok(()),
        Ok(found) => Err(no_folder(&found)),
        Err(error) if error.kind() == ErrorKind::NotFound => {
            check_no_entry(files, path, "is a link to nothing")?;
            Err(error)
        }
        Err(error) => Err(error),
    }
}

// How many bytes an open file holds. Anything but a regular file is refused.
pub fn regular_length(found: &Metadata) -> io::Result<u64> {
    if found.is_file() {
        Ok(found.len())
    } else {
        Err(no_file(found))
    }
}
