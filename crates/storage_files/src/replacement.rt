// A new file in the place of an old one.
use std::alloc::Global;
use std::fs::{Metadata, OpenFile, OpenOptions, Permissions};
use std::io::{ErrorKind, Write};
use std::os::unix::fs::{MetadataExt, OpenOptionsExt, PermissionsExt, lchown};
use std::path::Path;
use std::rt::Files;
use std::{fs, io};

/// A new file that is to stand in the place of another. It is written beside that one, with `.replacing` behind its name, and
/// renamed over it once it is whole and synced: whoever reads, and whoever looks after a crash, finds the old file or the new
/// one. Where the path is a link, the file that it leads to is replaced. The new file has the owner, the group and the
/// permissions of the old one, as far as the system lets this program set them, and never more permissions.
#[derive(Drop)]
pub struct Replacement<R: Files> {
    files: R,
    path: String,
    beside: String,
    file: R::File,
    keeps_owner: bool,
}

/// The folder in which a path lies.
pub fn folder_of(path: &str) -> &str {
    match Path::new(path).parent() {
        Some(folder) if !folder.as_str().is_empty() => folder.as_str(),
        _ => ".",
    }
}

// Whether a path is a link.
fn is_link<R: Files>(files: &R, path: &str) -> bool {
    match fs::symlink_metadata(files, path) {
        Ok(found) => found.is_symlink(),
        Err(_) => false,
    }
}

// The path of the file itself, where a path is a link to it.
fn resolved_links<R: Files>(alloc: Global, files: &R, path: &str) -> io::Result<String> {
    if is_link(files, path) {
        let target = files.canonicalize(alloc, path)?;
        return Ok(String::from_str(alloc, target.as_str())?);
    }
    Ok(String::from_str(alloc, path)?)
}

/// The path at which the new file of a path stands until it is whole.
pub fn path_beside<R: Files>(alloc: Global, files: &R, path: &str) -> io::Result<String> {
    let path = resolved_links(alloc, files, path)?;
    Ok(format!(in alloc; "{path}.replacing")?)
}

// What the system says of the file that is to be replaced, or `None` if there is none.
fn found_at<R: Files>(files: &R, path: &str) -> io::Result<Option<Metadata>> {
    match fs::metadata(files, path) {
        Ok(found) => Ok(Some(found)),
        Err(error) if error.kind() == ErrorKind::NotFound => Ok(None),
        Err(error) => Err(error),
    }
}

// Makes a new file, and its folder too. Of the permissions of an old file it has those of the owner.
fn create<R: Files>(files: &R, path: &str, old: &Option<Metadata>) -> io::Result<R::File> {
    let mut how = OpenOptions::new();
    how.write(true).create_new(true);
    if let Some(old) = old {
        how.mode(old.mode() & 0o700);
    }
    match how.open(files, path) {
        Err(error) if error.kind() == ErrorKind::NotFound => {
            fs::create_dir_all(files, folder_of(path))?;
            how.open(files, path)
        }
        opened => opened,
    }
}

// Gives a new file the owner and the group of the old one, and says whether it has them.
fn keep_owner<R: Files>(files: &R, path: &str, new: &Metadata, old: &Metadata) -> bool {
    let keeps_user = new.uid() == old.uid() || lchown(files, path, Some(old.uid()), None).is_ok();
    let keeps_group = new.gid() == old.gid() || lchown(files, path, None, Some(old.gid())).is_ok();
    keeps_user && keeps_group
}

// Permissions as those of an old file, but for a group that may be another one: it may do what all others may.
fn of_another_group(mode: u32) -> u32 {
    let others = mode & 0o007;
    (mode & 0o707) | ((others << 3) & mode)
}

// Makes the new file as the old one is, and says whether it has its owner and its group.
fn keep<R: Files>(files: &R, path: &str, file: &R::File, old: &Metadata) -> io::Result<bool> {
    let keeps_owner = keep_owner(files, path, &file.metadata()?, old);
    let mode = if keeps_owner {
        old.mode()
    } else {
        of_another_group(old.mode())
    };
    file.set_permissions(Permissions::from_mode(mode))?;
    Ok(keeps_owner)
}

impl<R: Files> Replacement<R> {
    /// Begins a new file for a path. Refused as `AlreadyExists` while a file with `.replacing` behind its name stands there.
    pub fn begin(alloc: Global, files: R, path: &str) -> io::Result<Self>
    where
        R: Drop,
    {
        let path = resolved_links(alloc, &files, path)?;
        let beside = format!(in alloc; "{path}.replacing")?;
        let old = found_at(&files, &path)?;
        let file = create(&files, &beside, &old)?;
        let kept = match &old {
            Some(old) => keep(&files, &beside, &file, old),
            None => Ok(true),
        };
        match kept {
            Ok(keeps_owner) => Ok(Replacement {
                files,
                path,
                beside,
                file,
                keeps_owner,
            }),
            Err(error) => {
                let _ = fs::remove_file(&files, &beside);
                Err(error)
            }
        }
    }

    /// Whether the new file has the owner and the group of the old one.
    pub fn keeps_owner(&self) -> bool {
        self.keeps_owner
    }

    /// Appends bytes. Where that is refused, nothing is left but to abandon the file.
    pub fn write(&mut self, bytes: &[u8]) -> io::Result<()> {
        self.file.write_all(bytes)
    }

    // Syncs the new file and puts it in the place of the old one.
    fn put(&self) -> io::Result<()> {
        self.file.sync_all()?;
        fs::rename(&self.files, &self.beside, &self.path)
    }

    /// Puts the new file in the place of the old one. Where that is refused the old one stands, and the new one is removed;
    /// an error of the last step, which syncs the folder, comes when the new one stands.
    pub fn finish(self) -> io::Result<()>
    where
        R: Drop,
    {
        if let Err(error) = self.put() {
            self.abandon();
            return Err(error);
        }
        fs::open(&self.files, folder_of(&self.path))?.sync_all()
    }

    /// Removes the new file.
    pub fn abandon(self)
    where
        R: Drop,
    {
        let _ = fs::remove_file(&self.files, &self.beside);
    }
}
