// The members of a group, as they are listed in its folder.
use crate::chunk_files::{ROOM, open_folder};
use crate::document::named;
use crate::folder_error::FolderError;
use std::alloc::{AllocError, Global};
use std::io::Read;
use std::{fs, io, str};
use storage_files::file_length;

// Whether a name is that of something in a folder.
fn is_member(name: &str) -> bool {
    !matches!(name, "" | "." | "..")
}

// Adds names, each with a zero after it.
fn add_names(alloc: Global, names: &[u8], found: &mut Vec<String>) -> Result<(), AllocError> {
    for name in names.split(|byte| *byte == 0) {
        if let Ok(name) = str::from_utf8(name)
            && is_member(name)
        {
            found.push(String::from_str(alloc, name)?)?;
        }
    }
    Ok(())
}

// The names in a folder, which is open.
fn names_in<D: Read>(alloc: Global, mut folder: D) -> io::Result<Vec<String>>
where
    D: Drop,
{
    let mut found: Vec<String> = Vec::new(alloc);
    let mut room = vec![in alloc; 0u8; ROOM]?;
    for _ in 0..u64::MAX {
        let count = folder.read(&mut room)?;
        if count == 0 {
            break;
        }
        add_names(alloc, &room[..count], &mut found)?;
    }
    found.sort_unstable();
    Ok(found)
}

// Whether a folder stands at a path, and no link to one, that has an entry `zarr.json`.
fn has_document(rt: &HostRuntime, path: &str) -> Result<bool, AllocError> {
    match fs::symlink_metadata(rt, path) {
        Ok(found) if found.is_dir() => {}
        _ => return Ok(false),
    }
    let document = format!(in rt.alloc(); "{path}/zarr.json")?;
    Ok(!matches!(file_length(rt, &document), Ok(None)))
}

/// The members of the group whose folder has this path, by name: the folders in it that have an entry `zarr.json`. A link to a folder is
/// none, so that nobody goes in a circle.
pub fn list_members(rt: &HostRuntime, path: &str) -> Result<Vec<String>, FolderError> {
    let alloc = rt.alloc();
    let folder = named(alloc, path, open_folder(rt, path))?;
    let names = named(alloc, path, names_in(alloc, folder))?;
    let mut members: Vec<String> = Vec::new(alloc);
    for name in names {
        let path = format!(in alloc; "{path}/{name}")?;
        if has_document(rt, &path)? {
            members.push(name)?;
        }
    }
    Ok(members)
}
