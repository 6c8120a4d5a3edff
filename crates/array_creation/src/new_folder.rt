// The folder of a new array, which stands beside its path until it is whole.
use array_cli::{Array, Stop};
use array_metadata::ArrayMetadata;
use std::io::ErrorKind;
use std::rt::Files;
use std::{fs, io};
use storage_files::Replacement;

// Makes a file of bytes, with its folder.
fn save(rt: &HostRuntime, path: &str, bytes: &[u8]) -> io::Result<()> {
    let mut file = Replacement::begin(rt.alloc(), rt, path)?;
    match file.write(bytes) {
        Ok(()) => file.finish(),
        Err(error) => {
            file.abandon();
            Err(error)
        }
    }
}

/// Makes a file of bytes under a key of a folder.
pub fn put_file(rt: &HostRuntime, folder: &str, key: &str, bytes: &[u8]) -> Result<(), Stop> {
    let path = format!(in rt.alloc(); "{folder}/{key}")?;
    match save(rt, &path, bytes) {
        Ok(()) => Ok(()),
        Err(error) => Err(Stop::system(rt.alloc(), &path, error)),
    }
}

/// Begins the folder of a new array, which stands beside the one that it will be. Refused where either stands there.
pub fn begin_folder(rt: &HostRuntime, path: &str, beside: &str) -> Result<(), Stop> {
    let alloc = rt.alloc();
    if fs::symlink_metadata(rt, path).is_ok() {
        let error = io::Error::new(ErrorKind::AlreadyExists, "stands there already");
        return Err(Stop::system(alloc, path, error));
    }
    match fs::create_dir(rt, beside) {
        Ok(()) => Ok(()),
        Err(error) if error.kind() == ErrorKind::AlreadyExists => {
            let words = "stands there; if no program writes it, remove it";
            let error = io::Error::new(ErrorKind::AlreadyExists, words);
            Err(Stop::system(alloc, beside, error))
        }
        Err(error) => Err(Stop::system(alloc, beside, error)),
    }
}

/// Puts the folder of a new array at its path, with its `zarr.json`, which is the last file.
pub fn end_folder(rt: &HostRuntime, path: &str, beside: &str, document: &str) -> Result<(), Stop> {
    put_file(rt, beside, "zarr.json", document.as_bytes())?;
    match rt.rename(beside, path) {
        Ok(()) => Ok(()),
        Err(error) => Err(Stop::system(rt.alloc(), path, error)),
    }
}

/// Tests that the codecs that metadata names serve a new array, and that its elements are read.
pub fn test_served(rt: &HostRuntime, path: &str, metadata: &ArrayMetadata) -> Result<(), Stop> {
    Array::open(rt, path, metadata)?.test_read()
}
