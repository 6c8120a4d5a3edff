// An object in memory that counts how often it is read.
use std::alloc::Global;
use zarr_codecs::{ByteRange, LendsSlice, part_of};
use zarr_parts::CodecError;

/// Bytes, and how many byte ranges of them were read.
#[derive(Drop)]
pub struct Counted {
    pub bytes: Vec<u8>,
    pub reads: u64,
}

impl LendsSlice for Counted {
    ghost use Rattle.std.specs.Prelude.{true, false, Some, length};

    // `transparent`: the contracts speak of these bytes. `contents`: there is an object, and its bytes. `faults`: none ever.
    // `cached`: how many bytes are in memory. `supports`: it can be read in part, and is not written.
    ghost state = { λ handle. record {
      transparent = true;
      contents = Some handle.bytes.items;
      faults = 0;
      cached = length handle.bytes.items;
      supports = record { decode = true; encode = false };
    } };

    fn find(&mut self) -> Result<bool, CodecError> {
        Ok(true)
    }

    fn measure(&mut self) -> Result<Option<u64>, CodecError> {
        Ok(Some(self.bytes.len() as u64))
    }

    fn cached_bytes(&self) -> usize {
        self.bytes.len()
    }

    fn lend(&mut self, _alloc: Global, range: ByteRange) -> Result<Option<&[u8]>, CodecError> {
        self.reads = self.reads.saturating_add(1);
        let part = part_of(&self.bytes, range)?;
        Ok(Some(part))
    }

    fn lends_parts(&self) -> bool {
        true
    }
}
