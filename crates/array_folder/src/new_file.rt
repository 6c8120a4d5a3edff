// A new file that is put at a path once it is whole.
use crate::folder_error::FolderError;
use crate::npy::{npy_beside, write_npy};
use array_fields::escaped;
use std::io;
use std::io::{ErrorKind, Write};
use storage_files::{Replacement, folder_of};

/// The new file of a path, or `None` where one stands there already.
pub fn begin<'a>(
    rt: &'a HostRuntime,
    path: &str,
    beside: &str,
) -> Result<Option<Replacement<&'a HostRuntime>>, FolderError> {
    match Replacement::begin(rt.alloc(), rt, path) {
        Ok(replacement) => Ok(Some(replacement)),
        Err(error) if error.kind() == ErrorKind::AlreadyExists => Ok(None),
        Err(error) => Err(FolderError::folder(rt.alloc(), folder_of(beside), error)),
    }
}

/// Tells where a new file has not the owner and the group of the old one.
pub fn tell_owner<W: Write>(
    out: &mut W,
    key: &str,
    replacement: &Replacement<&HostRuntime>,
) -> io::Result<()> {
    if replacement.keeps_owner() {
        return Ok(());
    }
    writeln!(
        out,
        "{key}: this program may not give its new file the owner and group of the old one"
    )?;
    out.flush()
}

// Why a new file is not begun where another one stands.
fn busy() -> io::Error {
    io::Error::new(
        ErrorKind::AlreadyExists,
        "stands there; if no program writes it, remove it",
    )
}

/// The new file of a path, which is refused where one stands there already. A line says so where it has not the owner of the old one.
pub fn begin_new<'a, W: Write>(
    rt: &'a HostRuntime,
    path: &str,
    beside: &str,
    out: &mut W,
) -> Result<Replacement<&'a HostRuntime>, FolderError> {
    let shown = escaped(rt.alloc(), path)?;
    let Some(new) = begin(rt, path, beside)? else {
        return Err(FolderError::system(rt.alloc(), beside, busy()));
    };
    // a line that nobody reads stops nothing
    let _ = tell_owner(out, &shown, &new);
    Ok(new)
}

/// Makes the file at a path of a header and what follows it. A file of that name is replaced once the new one is whole.
pub fn save<W: Write>(
    rt: &HostRuntime,
    path: &str,
    beside: &str,
    header: &[u8],
    rest: &[u8],
    out: &mut W,
) -> Result<(), FolderError> {
    let new = begin_new(rt, path, beside, out)?;
    match write_npy(new, header, rest) {
        Ok(()) => Ok(()),
        Err(error) => Err(FolderError::system(rt.alloc(), path, error)),
    }
}

/// Makes a file at a path of bytes. A file of that name is replaced once the new one is whole.
pub fn save_bytes<W: Write>(
    rt: &HostRuntime,
    path: &str,
    bytes: &[u8],
    out: &mut W,
) -> Result<(), FolderError> {
    let beside = npy_beside(rt, path)?;
    save(rt, path, &beside, &[], bytes, out)
}
