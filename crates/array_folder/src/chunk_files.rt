// The files of an array's chunks, as they are listed in its folder.
use crate::chunk_grid::ChunkGrid;
use crate::folder_error::FolderError;
use crate::names::{Level, levels_of};
use array_fields::ChunkKeys;
use std::alloc::{AllocError, Global};
use std::io::Read;
use std::rt::Files;
use std::{io, mem, str};
use storage_files::check_folder;

// The name behind which a new file stands until it is whole.
const REPLACING: &str = ".replacing";

/// How many bytes of names are asked for at once.
pub const ROOM: usize = 32768;

/// The file of a chunk, or while a folder is listed, a folder of chunks: its coordinates in the chunk grid, as far as its name
/// says, and its key.
#[derive(Debug, PartialEq, Eq, PartialOrd, Ord, Drop)]
pub struct ChunkFile {
    pub coordinates: Vec<u64>,
    pub key: String,
}

/// What stands in the folder of an array.
#[derive(Debug, Drop)]
pub struct ChunkFiles {
    /// What has the key of a chunk in the grid, by coordinates. Whether it is a file shows when it is opened.
    pub chunks: Vec<ChunkFile>,
    /// How many other files and folders there are, beside `zarr.json`. Nobody looks into such a folder.
    pub others: u64,
    /// The new files that stand beside those of chunks, by their keys.
    pub replacing: Vec<String>,
}

// A folder that is read, and what was found so far.
#[derive(Drop)]
struct Walk<'a, 'l> {
    alloc: Global,
    // the folder's key
    key: &'a str,
    // its coordinates
    coordinates: &'a [u64],
    level: &'a Level<'l>,
    is_first: bool,
    is_last: bool,
}

impl Walk<'_, '_> {
    // The key of a name in the folder.
    fn key_of(&self, name: &str) -> Result<String, AllocError> {
        if self.key.is_empty() {
            return String::from_str(self.alloc, name);
        }
        let length = self.key.len().saturating_add(name.len()).saturating_add(1);
        let mut key = String::with_capacity(self.alloc, length)?;
        key.push_str(self.key)?;
        key.push('/')?;
        key.push_str(name)?;
        Ok(key)
    }

    // The coordinates of a name in the folder, where it is a part of a key.
    fn coordinates_of(&self, name: &str) -> Result<Option<Vec<u64>>, AllocError> {
        self.level.coordinates(self.alloc, self.coordinates, name)
    }

    // Whether a name is that of a new file beside that of a chunk.
    fn is_replacing(&self, name: &str) -> Result<bool, AllocError> {
        match name.strip_suffix(REPLACING) {
            Some(name) if self.is_last => Ok(self.coordinates_of(name)?.is_some()),
            _ => Ok(false),
        }
    }

    // Adds what a name in the folder is to what was found.
    fn add(&self, name: &str, found: &mut ChunkFiles) -> Result<(), AllocError> {
        if let Some(coordinates) = self.coordinates_of(name)? {
            let key = self.key_of(name)?;
            found.chunks.push(ChunkFile { coordinates, key })?;
        } else if self.is_replacing(name)? {
            found.replacing.push(self.key_of(name)?)?;
        } else if !(self.is_first && name == "zarr.json") {
            found.others = found.others.saturating_add(1);
        }
        Ok(())
    }

    // Adds what names in the folder are, each with a zero behind it.
    fn add_names(&self, names: &[u8], found: &mut ChunkFiles) -> Result<(), AllocError> {
        for name in names.split(|byte| *byte == 0) {
            match str::from_utf8(name) {
                Ok("" | "." | "..") => {}
                Ok(name) => self.add(name, found)?,
                Err(_) => found.others = found.others.saturating_add(1),
            }
        }
        Ok(())
    }

    // Adds what each name in the folder is, which is open.
    fn add_all<D: Read>(
        &self,
        mut folder: D,
        room: &mut [u8],
        found: &mut ChunkFiles,
    ) -> io::Result<()>
    where
        D: Drop,
    {
        for _ in 0..u64::MAX {
            let count = folder.read(room)?;
            if count == 0 {
                break;
            }
            self.add_names(&room[..count], found)?;
        }
        Ok(())
    }
}

/// Opens a folder, to read its names.
pub fn open_folder(rt: &HostRuntime, path: &str) -> io::Result<<HostRuntime as Files>::Dir> {
    check_folder(rt, path)?;
    let path = format!(in rt.alloc(); "{path}/")?;
    rt.open_dir(&path)
}

// Lists a folder below that of the array, which has this path.
fn list_folder(
    rt: &HostRuntime,
    path: &str,
    walk: &Walk<'_, '_>,
    room: &mut [u8],
    found: &mut ChunkFiles,
) -> Result<(), FolderError> {
    let alloc = rt.alloc();
    let path = if walk.key.is_empty() {
        String::from_str(alloc, path)?
    } else {
        format!(in alloc; "{path}/{}", walk.key)?
    };
    let listed = match open_folder(rt, &path) {
        Ok(folder) => walk.add_all(folder, room, found),
        Err(error) => Err(error),
    };
    match listed {
        Ok(()) => Ok(()),
        Err(error) => Err(FolderError::system(alloc, &path, error)),
    }
}

// Sorts files from a place on.
fn sort_from(chunks: &mut [ChunkFile], place: usize) {
    let place = place.min(chunks.len());
    let (_, last) = chunks.split_at_mut(place);
    last.sort_unstable();
}

// Lists the folders of a level, which are sorted, and so are then the folders or files that they hold.
fn list_level(
    rt: &HostRuntime,
    path: &str,
    level: &Level<'_>,
    is_first: bool,
    is_last: bool,
    room: &mut [u8],
    found: &mut ChunkFiles,
) -> Result<(), FolderError> {
    let folders = mem::replace(&mut found.chunks, Vec::new(rt.alloc()));
    for folder in folders.iter() {
        let walk = Walk {
            alloc: rt.alloc(),
            key: &folder.key,
            coordinates: &folder.coordinates,
            level: &*level,
            is_first,
            is_last,
        };
        let place = found.chunks.len();
        list_folder(rt, path, &walk, room, found)?;
        sort_from(&mut found.chunks, place);
    }
    Ok(())
}

/// Lists the folder of an array, which has this path and a `zarr.json`. Only folders whose names are parts of keys of chunks in
/// the grid are read. Refused where one of these is something else than a folder, as a link to nothing, or cannot be read.
pub fn list_chunks(
    rt: &HostRuntime,
    path: &str,
    keys: ChunkKeys,
    grid: &ChunkGrid,
) -> Result<ChunkFiles, FolderError> {
    let alloc = rt.alloc();
    let levels = levels_of(alloc, keys, grid.counts())?;
    let whole = ChunkFile {
        coordinates: Vec::new(alloc),
        key: String::new(alloc),
    };
    let mut found = ChunkFiles {
        chunks: vec![in alloc; whole]?,
        others: 0,
        replacing: Vec::new(alloc),
    };
    let mut room = vec![in alloc; 0u8; ROOM]?;
    for (depth, level) in levels.iter().enumerate() {
        let is_last = depth.saturating_add(1) == levels.len();
        list_level(rt, path, level, depth == 0, is_last, &mut room, &mut found)?;
    }
    found.replacing.sort_unstable();
    Ok(found)
}
