// Chunks of an array, compacted.
ghost use Rattle.std.specs.Prelude.{◌≡◌, ℕ, IsTrue, IfOk, IfErr, option_map};
ghost use Rattle.array_fields.specs.ChunkKeys.{chunk_key};
ghost use Rattle.array_store.specs.ArrayElements.{cell_of, chunk_spec};
ghost use Rattle.array_store.specs.ChunkWrites.{IsChunkRefusal, IsCompacted, IsKeptUnlessFault};
ghost use Rattle.array_store.specs.Stores.{AreKept};

use crate::array::Array;
use crate::error::ArrayError;
use crate::store::Store;
use codec_traits::ArrayToBytesCodecTraits;
use parts_errors::{CodecError, CodecOptions};
use std::alloc::Global;
use storage_handles::{ByteRange, BytesPartialDecoderTraits, copy_range};

impl<S: Store, C: ArrayToBytesCodecTraits> Array<'_, S, C> {
    // The bytes of the object of a key, or `None` where there is none.
    fn object(&self, alloc: Global, key: &str) -> Result<Option<Vec<u8>>, CodecError>
        ensures { IfOk result (λ found. IsTrue (S.state self.now.store).transparent → (S.state self.now.store).contents key.now ≡ option_map (λ bytes. bytes.items) found) }
    {
        let mut handle = self.store.open(alloc, key)?;
        match handle.len()? {
            Some(size) => copy_range(&mut handle, alloc, ByteRange::FromStart(0, Some(size))),
            None => Ok(None),
        }
    }

    // Compacts the object of a key, and says whether it was changed.
    fn compact_object(&mut self, alloc: Global, key: &str) -> Result<bool, CodecError>
        ensures same_format { self.new.format ≡ self.old.format }
        ensures same_codec { self.new.codec ≡ self.old.codec }
        ensures others { AreKept (S.state self.old.store) (S.state self.new.store) key.now }
        ensures compacted { let m = C.meaning self.old.codec.now (chunk_spec self.old.format) in
            IfOk result (λ changed. IsTrue (S.state self.old.store).transparent
            → IsCompacted m changed ((S.state self.old.store).contents key.now) ((S.state self.new.store).contents key.now)) }
        ensures kept { IfErr result (IsKeptUnlessFault (S.state self.old.store) (S.state self.new.store) key.now) }
    {
        let Some(bytes) = self.object(alloc, key)? else {
            return Ok(false);
        };
        let compacted = self.codec.compact(
            alloc,
            &bytes,
            self.format.chunk,
            self.format.data_type,
            self.format.fill_value,
            &CodecOptions::default(),
        )?;
        match compacted {
            Some(bytes) => {
                self.store.put(alloc, key, bytes)?;
                Ok(true)
            }
            None => Ok(false),
        }
    }

    /// Compacts the object of the chunk at some coordinates of the chunk grid as the codec's `compact` does, and says whether it was
    /// changed: not where there is no object, and not where nothing is to be gained. Each element stays as it was, and under each other
    /// key the store holds what it held. Object and new object stand in memory. Refused as the store and the codec's `compact` refuse, with
    /// the chunk's key; a refusal that is no fault changes nothing.
    pub fn compact_chunk(&mut self, alloc: Global, coordinates: &[u64]) -> Result<bool, ArrayError>
        ensures same_format { self.new.format ≡ self.old.format }
        ensures same_codec { self.new.codec ≡ self.old.codec }
        ensures others { AreKept (S.state self.old.store) (S.state self.new.store) (chunk_key self.old.format.keys coordinates.now) }
        ensures compacted { let f = self.old.format in let m = C.meaning self.old.codec.now (chunk_spec f) in let key = chunk_key f.keys coordinates.now in
            IfOk result (λ changed. IsTrue (S.state self.old.store).transparent
            → IsCompacted m changed ((S.state self.old.store).contents key) ((S.state self.new.store).contents key)) }
        ensures elements { let f = self.old.format in let m = C.meaning self.old.codec.now (chunk_spec f) in let key = chunk_key f.keys coordinates.now in
            IfOk result (λ changed. IsTrue (S.state self.old.store).transparent → m.serves → (place : ℕ)
            → cell_of m.cells f.fill_value.now ((S.state self.new.store).contents key) place
            ≡ cell_of m.cells f.fill_value.now ((S.state self.old.store).contents key) place) }
        ensures refused { IfErr result (IsChunkRefusal (S.state self.old.store) (S.state self.new.store) (chunk_key self.old.format.keys coordinates.now)) }
    {
        let key = self.format.keys.key_of(alloc, coordinates)?;
        match self.compact_object(alloc, &key) {
            Ok(changed) => Ok(changed),
            Err(error) => Err(ArrayError::Chunk { key, error }),
        }
    }
}
