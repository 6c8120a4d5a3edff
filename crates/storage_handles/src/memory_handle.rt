// Handles over bytes in memory.
ghost use Rattle.std.specs.Prelude.{◌≡◌, true, false, Some, length};
ghost use Rattle.storage_handles.specs.Handles.{seen, in_memory};

mod writes;

use crate::bytes::{ByteRange, part_of};
use crate::handle::LendsSlice;
use parts_errors::CodecError;
use std::alloc::Global;
use std::marker::Model;

/// An object in memory of its own, or none. It is transparent and never fails.
pub struct MemoryHandle {
    object: Option<Vec<u8>>,
}

impl Drop for MemoryHandle {
    fn drop(self) {
        let MemoryHandle { object: _ } = self;
    }
}

impl Model for MemoryHandle {
    ghost use Rattle.std.specs.Prelude.{ℕ, List, Option};
    ghost use Rattle.storage_handles.specs.Handles.{seen};

    // the object's bytes, or none
    ghost Value = { Option (List ℕ) };

    ghost view = { λ handle. seen (λ bytes. bytes.items) handle.object };
}

impl MemoryHandle {
    /// A handle over these bytes, or over no object.
    pub fn new(object: Option<Vec<u8>>) -> Self
        ensures { result ≡ seen (λ bytes. bytes.items) object }
    {
        MemoryHandle { object }
    }

    /// The object's bytes, or `None` where there is no object.
    pub fn into_inner(self) -> Option<Vec<u8>>
        ensures { seen (λ bytes. bytes.items) result ≡ self }
    {
        let MemoryHandle { object } = self;
        object
    }
}

impl LendsSlice for MemoryHandle {
    ghost state = { in_memory };

    fn find(&mut self) -> Result<bool, CodecError> {
        Ok(self.object.is_some())
    }

    fn measure(&mut self) -> Result<Option<u64>, CodecError> {
        Ok(self.object.as_ref().map(|bytes| bytes.len() as u64))
    }

    fn cached_bytes(&self) -> usize {
        self.object.as_ref().map_or(0, |bytes| bytes.len())
    }

    fn lend(&mut self, _alloc: Global, range: ByteRange) -> Result<Option<&[u8]>, CodecError> {
        match &self.object {
            Some(bytes) => {
                let part = part_of(bytes.as_slice(), range)?;
                Ok(Some(part))
            }
            None => Ok(None),
        }
    }

    fn lends_parts(&self) -> bool {
        true
    }
}

/// Borrowed bytes, that are only read. It always lends, is transparent and never fails.
#[derive(Drop)]
pub struct SliceHandle<'a> {
    bytes: &'a [u8],
}

impl<'a> Model for SliceHandle<'a> {
    ghost use Rattle.std.specs.Prelude.{ℕ, List};

    // the bytes
    ghost Value = { List ℕ };

    ghost view = { λ handle. handle.bytes.now };
}

impl<'a> SliceHandle<'a> {
    /// A handle over these bytes.
    pub fn new(bytes: &'a [u8]) -> SliceHandle<'a>
        ensures { result ≡ bytes.entry.now }
    {
        SliceHandle { bytes }
    }
}

impl<'a> LendsSlice for SliceHandle<'a> {
    ghost state = { λ handle. record {
      transparent = true;
      contents = Some handle;
      faults = 0;
      cached = length handle;
      supports = record { decode = true; encode = false };
    } };

    fn find(&mut self) -> Result<bool, CodecError> {
        Ok(true)
    }

    fn measure(&mut self) -> Result<Option<u64>, CodecError> {
        Ok(Some(self.bytes.len() as u64))
    }

    fn cached_bytes(&self) -> usize {
        self.bytes.len()
    }

    fn lend(&mut self, _alloc: Global, range: ByteRange) -> Result<Option<&[u8]>, CodecError> {
        let part = part_of(self.bytes, range)?;
        Ok(Some(part))
    }

    fn lends_parts(&self) -> bool {
        true
    }
}
