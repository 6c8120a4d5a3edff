// A handle over a file of the host.
ghost use Rattle.std.specs.Prelude.{◌≡◌, IfOk};

use crate::file_handle::FileHandle;
use parts_errors::CodecError;
use std::alloc::{AllocError, Global};
use std::io;
use storage_handles::{ByteRange, LendsSlice};

/// A `FileHandle` over a file of the host, which is read alone. As a type of its own it spares whoever reads by it the type of what files are.
pub struct HostFile<'a> {
    handle: FileHandle<&'a HostRuntime>,
}

impl Drop for HostFile<'_> {
    fn drop(self) {
        let HostFile { handle: _ } = self;
    }
}

impl<'a> HostFile<'a> {
    /// A handle over the file of this path, which need not be there.
    pub fn new(alloc: Global, rt: &'a HostRuntime, path: &str) -> Result<Self, AllocError>
        ensures { IfOk result (λ file. file.handle ≡ record { faults = 0; cached = 0 }) }
    {
        Ok(HostFile {
            handle: FileHandle::new(alloc, rt, path)?,
        })
    }

    /// As `FileHandle::read_ahead`.
    pub fn read_ahead(&mut self, alloc: Global, size: usize)
        ensures { self.new ≡ self.old }
    {
        self.handle.read_ahead(alloc, size);
    }

    /// What the system said when it failed last.
    pub fn error(&self) -> Option<io::Error> {
        self.handle.error()
    }
}

impl LendsSlice for HostFile<'_> {
    ghost use Rattle.storage_files.specs.Files.{untold};

    ghost state = { λ file. untold file.handle };

    fn find(&mut self) -> Result<bool, CodecError> {
        self.handle.find()
    }

    fn measure(&mut self) -> Result<Option<u64>, CodecError> {
        self.handle.measure()
    }

    fn cached_bytes(&self) -> usize {
        self.handle.cached_bytes()
    }

    fn lend(&mut self, _alloc: Global, range: ByteRange) -> Result<Option<&[u8]>, CodecError> {
        if self.handle.fetch(range)? {
            Ok(Some(self.handle.room.as_slice()))
        } else {
            Ok(None)
        }
    }

    fn lends_parts(&self) -> bool {
        self.handle.lends_parts()
    }
}
