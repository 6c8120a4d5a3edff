// Files of an array's folder, of which one is read after the other.
use std::alloc::{AllocError, Global};
use std::io;
use storage_files::read_file_range;
use storage_handles::ByteRange;

/// The files of a folder, to be read one after the other. Path and bytes of a file stand in memory that the next one has again.
#[derive(Drop)]
pub struct FolderFiles<'a> {
    files: &'a HostRuntime,
    // what the path of each file begins with
    folder: String,
    path: String,
    room: Vec<u8>,
}

impl<'a> FolderFiles<'a> {
    /// The files of the folder that has this path.
    pub fn new(alloc: Global, files: &'a HostRuntime, folder: &str) -> Result<Self, AllocError> {
        Ok(FolderFiles {
            files,
            folder: format!(in alloc; "{folder}/")?,
            path: String::new(alloc),
            room: Vec::new(alloc),
        })
    }

    // Makes the path that of the file with a key.
    fn set_path(&mut self, key: &str) -> Result<(), AllocError> {
        self.path.clear();
        self.path.push_str(&self.folder)?;
        self.path.push_str(key)
    }

    /// The length of the file with a key and the bytes of a range of it, which are none where the range passes it; or `None` where
    /// nothing of that name is there. Refused where it is no regular file.
    pub fn read(&mut self, key: &str, range: ByteRange) -> io::Result<Option<(u64, &[u8])>> {
        self.set_path(key)?;
        match read_file_range(self.files, &self.path, range, &mut self.room)? {
            Some(length) => Ok(Some((length, self.room.as_slice()))),
            None => Ok(None),
        }
    }
}
