// What a handle asks of the system, over one file.
use crate::entries::{file_length, regular_length};
use crate::replacement::{Replacement, folder_of};
use std::alloc::Global;
use std::fs::{OpenFile, OpenOptions};
use std::io::{ErrorKind, Read, Seek, SeekFrom, Write};
use std::rt::Files;
use std::{fs, io};

// Opens what stands at a path, to be read; none where nothing is there.
pub fn open_to_read<R: Files>(files: &R, path: &str) -> io::Result<Option<R::File>> {
    match fs::open(files, path) {
        Ok(file) => Ok(Some(file)),
        Err(error) if error.kind() == ErrorKind::NotFound => Ok(None),
        Err(error) => Err(error),
    }
}

// The regular file at a path, to be read, and how many bytes it holds; none where there is none.
pub fn open_if_there<R: Files>(files: &R, path: &str) -> io::Result<Option<(R::File, u64)>> {
    if file_length(files, path)?.is_none() {
        return Ok(None);
    }
    match open_to_read(files, path)? {
        Some(file) => {
            let length = length_of(&file)?;
            Ok(Some((file, length)))
        }
        None => Ok(None),
    }
}

// How many bytes a file holds. Anything but a regular file is refused.
pub fn length_of<F: OpenFile>(file: &F) -> io::Result<u64> {
    regular_length(&file.metadata()?)
}

// How many bytes an open regular file holds, for which the system tells nothing else of the file.
pub fn end_of<F: Seek>(file: &mut F) -> io::Result<u64> {
    file.seek(SeekFrom::End(0))
}

// Fills the room with the bytes from an offset on.
pub fn read_at<F: Read + Seek>(file: &mut F, offset: u64, room: &mut [u8]) -> io::Result<()> {
    file.seek(SeekFrom::Start(offset))?;
    file.read_exact(room)
}

// Opens a file to be written, which is made where there is none, and its folder too.
fn open_to_write<R: Files>(files: &R, how: &OpenOptions, path: &str) -> io::Result<R::File> {
    match how.open(files, path) {
        Err(error) if error.kind() == ErrorKind::NotFound => {
            fs::create_dir_all(files, folder_of(path))?;
            how.open(files, path)
        }
        opened => opened,
    }
}

// Writes pieces at offsets, in the list's order.
fn write_pieces<F: Write + Seek>(file: &mut F, pieces: &[(u64, &[u8])]) -> io::Result<()> {
    for piece in pieces {
        file.seek(SeekFrom::Start(piece.0))?;
        file.write_all(piece.1)?;
    }
    Ok(())
}

// Writes pieces into the file in place, which first grows to the furthest end.
pub fn write_in_place<R: Files>(
    files: &R,
    path: &str,
    pieces: &[(u64, &[u8])],
    furthest: u64,
) -> io::Result<()> {
    file_length(files, path)?;
    let mut how = OpenOptions::new();
    how.write(true).create(true);
    let mut file = open_to_write(files, &how, path)?;
    if length_of(&file)? < furthest {
        file.set_len(furthest)?;
    }
    write_pieces(&mut file, pieces)
}

// Makes the file these bytes, by a new file beside it.
pub fn replace_file<R: Files>(
    alloc: Global,
    files: &R,
    path: &str,
    bytes: &[u8],
) -> io::Result<()> {
    let mut replacement = Replacement::begin(alloc, files, path)?;
    match replacement.write(bytes) {
        Ok(()) => replacement.finish(),
        Err(error) => {
            replacement.abandon();
            Err(error)
        }
    }
}

// Removes the file, where there is one.
pub fn remove_if_there<R: Files>(files: &R, path: &str) -> io::Result<()> {
    match fs::remove_file(files, path) {
        Err(error) if error.kind() == ErrorKind::NotFound => Ok(()),
        removed => removed,
    }
}
