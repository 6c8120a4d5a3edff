// A subset of an array as a file of NumPy's format.
use crate::reading::{Reading, Sink, read_bands};
use array_cli::{Array, Ending, Output, Progress, Stop};
use array_folder::{begin_new, npy_beside};
use array_grid::{Requested, VaryingCells, subset_of};
use array_updates::header_of;
use parts_errors::CodecError;
use std::alloc::Global;
use std::io;
use std::io::Write;
use std::thread::Threads;
use storage_files::Replacement;

// A new file of a path, into which elements are written.
#[derive(Drop)]
struct NewFile<'n> {
    alloc: Global,
    file: Replacement<&'n HostRuntime>,
    path: &'n str,
}

impl NewFile<'_> {
    // Writes bytes behind those that are there.
    fn write(&mut self, bytes: &[u8]) -> Result<(), Stop> {
        match self.file.write(bytes) {
            Ok(()) => Ok(()),
            Err(error) => Err(Stop::system(self.alloc, self.path, error)),
        }
    }
}

impl Sink for NewFile<'_> {
    fn put(&mut self, bytes: &[u8], _ending: Ending) -> Result<(), Stop> {
        self.write(bytes)
    }

    fn put_varying(&mut self, _cells: &VaryingCells, _ending: Ending) -> Result<(), Stop> {
        Err(CodecError::WrongElementKind.into())
    }

    fn shows_text(&self) -> bool {
        false
    }
}

// Puts a new file in its place once all is written, or leaves nothing of it.
fn end_file(new: NewFile<'_>, wrote: Result<Ending, Stop>) -> Result<Ending, Stop> {
    let NewFile { alloc, file, path } = new;
    if wrote.is_err() {
        file.abandon();
        return wrote;
    }
    let finished: io::Result<()> = file.finish();
    match finished {
        Ok(()) => wrote,
        Err(error) => Err(Stop::system(alloc, path, error)),
    }
}

// Reads what is requested, and writes it into a new file behind a header.
fn fill<T: Threads + Sync>(
    array: &Array<'_>,
    requested: &Requested,
    reading: &Reading<'_, T>,
    header: &[u8],
    new: &mut NewFile<'_>,
    progress: &mut Progress,
) -> Result<Ending, Stop> {
    new.write(header)?;
    read_bands(array, &requested.subset, reading, new, progress)
}

// Reads what is requested into a new file of a path, which stands beside it until it is whole.
fn save_requested<T: Threads + Sync>(
    array: &Array<'_>,
    requested: &Requested,
    (path, beside): (&str, &str),
    reading: &Reading<'_, T>,
    out: &mut Output,
    progress: &mut Progress,
) -> Result<Ending, Stop> {
    let header = header_of(array, requested, path)?;
    let file = begin_new(array.rt, path, beside, out)?;
    let alloc = array.alloc();
    let mut new = NewFile { alloc, file, path };
    let wrote = fill(array, requested, reading, &header, &mut new, progress);
    progress.clear();
    end_file(new, wrote)
}

/// Reads a subset, and makes a file of NumPy's format of it, which has no axis that is named by one coordinate. A file of that
/// name is replaced once the new one is whole. Where the path is refused nothing is read.
pub fn save_subset<T: Threads + Sync>(
    array: &Array<'_>,
    requested: Option<&str>,
    path: &str,
    reading: &Reading<'_, T>,
    out: &mut Output,
    progress: &mut Progress,
) -> Result<Ending, Stop> {
    array.test_sized()?;
    let requested = subset_of(array.alloc(), requested, &array.metadata.shape)?;
    let beside = npy_beside(array.rt, path)?;
    save_requested(array, &requested, (path, &beside), reading, out, progress)
}
