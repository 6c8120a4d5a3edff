// A store whose objects are files.
ghost use Rattle.std.specs.Prelude.{false, None};

use crate::array::Array;
use crate::store::Store;
use array_folder::{ChunkFiles, ChunkGrid, FolderError, list_chunks};
use parts_errors::CodecError;
use std::alloc::{AllocError, Global};
use std::rt::Files;
use storage_files::FileHandle;
use storage_handles::BytesPartialEncoderTraits;

// How many bytes of a file are read at once at most, where all of it is to be read and its slices are small.
const READ_AHEAD: usize = 65_536;

/// Objects that are the files of a folder: the key is the path from there (Zarr V3, "File system store"). It is not transparent. Files
/// are read, replaced and removed as `FileHandle` says: whoever reads a file meanwhile finds the old object or the new one.
#[derive(Drop)]
pub struct FileStore<'a, R> {
    files: &'a R,
    path: String,
}

impl<'a, R: Files> FileStore<'a, R> {
    /// The objects in the folder of this path, which need not be there.
    pub fn new(alloc: Global, files: &'a R, path: &str) -> Result<Self, AllocError> {
        Ok(FileStore {
            files,
            path: String::from_str(alloc, path)?,
        })
    }

    // A handle over the file of a key.
    fn handle(&self, alloc: Global, key: &str) -> Result<FileHandle<&'a R>, AllocError> {
        let path = format!(in alloc; "{}/{key}", self.path)?;
        FileHandle::new(alloc, self.files, &path)
    }
}

impl<'a, R: Files> Store for FileStore<'a, R> {
    type Handle = FileHandle<&'a R>;

    ghost state = { λ store. record { transparent = false; contents = λ key. None } };

    fn open(&self, alloc: Global, key: &str) -> Result<FileHandle<&'a R>, CodecError> {
        Ok(self.handle(alloc, key)?)
    }

    fn open_whole(&self, alloc: Global, key: &str) -> Result<FileHandle<&'a R>, CodecError> {
        let mut handle = self.handle(alloc, key)?;
        handle.read_ahead(alloc, READ_AHEAD);
        Ok(handle)
    }

    fn put(&mut self, alloc: Global, key: &str, bytes: Vec<u8>) -> Result<(), CodecError> {
        self.handle(alloc, key)?.replace(alloc, &bytes)
    }

    fn erase(&mut self, alloc: Global, key: &str) -> Result<(), CodecError> {
        self.handle(alloc, key)?.erase()
    }
}

impl<C> Array<'_, FileStore<'_, HostRuntime>, C> {
    /// The files that stand in the array's folder: those of chunks, in row-major order of their coordinates, and how many others. Refused
    /// where one of the folders that keys name is none, or cannot be read.
    pub fn chunks(&self, alloc: Global) -> Result<ChunkFiles, FolderError> {
        let grid = ChunkGrid::new(alloc, self.format.shape, self.format.chunk.as_slice())?;
        list_chunks(self.store.files, &self.store.path, self.format.keys, &grid)
    }
}
