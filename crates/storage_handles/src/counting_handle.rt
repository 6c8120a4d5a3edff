// A handle that counts what is read, for tests.
ghost use Rattle.std.specs.Prelude.{◌≡◌};

use crate::bytes::{ByteRange, part_of};
use crate::handle::LendsSlice;
use parts_errors::CodecError;
use std::alloc::Global;
use std::marker::Model;

/// Bytes in memory of its own, that are only read, and how many of them were lent in all: those that are lent twice count
/// twice. It always lends, is transparent and never fails. No clause says what it counts.
pub struct CountingHandle {
    bytes: Vec<u8>,
    // as `u64::MAX` where it would pass that
    bytes_read: u64,
}

impl Drop for CountingHandle {
    fn drop(self) {
        let CountingHandle {
            bytes: _,
            bytes_read: _,
        } = self;
    }
}

impl Model for CountingHandle {
    ghost use Rattle.storage_handles.specs.Handles.{Counting};

    // the bytes, and how many were read
    ghost Value = { Counting };

    ghost view = { λ handle. record { bytes = handle.bytes.items; bytes_read = handle.bytes_read } };
}

impl CountingHandle {
    /// A handle over these bytes, of which none was read.
    pub fn new(bytes: Vec<u8>) -> Self
        ensures { result ≡ record { bytes = bytes.items; bytes_read = 0 } }
    {
        CountingHandle {
            bytes,
            bytes_read: 0,
        }
    }

    /// How many bytes were lent in all, or `u64::MAX` where they are more.
    pub fn bytes_read(&self) -> u64
        ensures { result ≡ self.now.bytes_read }
    {
        self.bytes_read
    }
}

impl LendsSlice for CountingHandle {
    ghost use Rattle.std.specs.Prelude.{true, false, Some, length};

    ghost state = { λ handle. record {
      transparent = true;
      contents = Some handle.bytes;
      faults = 0;
      cached = length handle.bytes;
      supports = record { decode = true; encode = false };
    } };

    fn find(&mut self) -> Result<bool, CodecError> {
        Ok(true)
    }

    fn measure(&mut self) -> Result<Option<u64>, CodecError> {
        Ok(Some(self.bytes.len() as u64))
    }

    fn cached_bytes(&self) -> usize {
        self.bytes.len()
    }

    fn lend(&mut self, _alloc: Global, range: ByteRange) -> Result<Option<&[u8]>, CodecError> {
        let length = part_of(&self.bytes, range)?.len() as u64;
        self.bytes_read = self.bytes_read.saturating_add(length);
        let part = part_of(&self.bytes, range)?;
        Ok(Some(part))
    }

    fn lends_parts(&self) -> bool {
        true
    }
}
