// Whole chunks of an array, written and erased.
ghost use Rattle.std.specs.Prelude.{◌≡◌, None, IsTrue, IfErr, OnOk};
ghost use Rattle.parts_arrays.specs.ArraySpec.{IsArrayOf};
ghost use Rattle.array_store.specs.ArrayElements.{chunk_spec};
ghost use Rattle.array_fields.specs.ChunkKeys.{chunk_key};
ghost use Rattle.array_store.specs.ChunkWrites.{HoldsEncoding, IsKeptUnlessFault, IsChunkRefusal};
ghost use Rattle.array_store.specs.Stores.{AreKept};

use crate::array::Array;
use crate::error::ArrayError;
use crate::store::Store;
use codec_traits::ArrayToBytesCodecTraits;
use parts_arrays::ArrayBytes;
use parts_errors::{CodecError, CodecOptions};
use std::alloc::Global;

impl<S: Store, C: ArrayToBytesCodecTraits> Array<'_, S, C> {
    // Puts an encoding of the elements of a chunk under its key.
    pub(crate) fn put_elements(
        &mut self,
        alloc: Global,
        key: &str,
        elements: &ArrayBytes,
    ) -> Result<(), CodecError>
        ensures same_format { self.new.format ≡ self.old.format }
        ensures same_codec { self.new.codec ≡ self.old.codec }
        ensures others { AreKept (S.state self.old.store) (S.state self.new.store) key.now }
        ensures written { let m = C.meaning self.old.codec.now (chunk_spec self.old.format) in
            OnOk result (IsTrue (S.state self.old.store).transparent → HoldsEncoding m elements.now.elements ((S.state self.new.store).contents key.now)) }
        ensures array { OnOk result (IsArrayOf (chunk_spec self.old.format) elements.now.elements) }
        ensures kept { IfErr result (IsKeptUnlessFault (S.state self.old.store) (S.state self.new.store) key.now) }
    {
        let encoded = self.codec.encode(
            alloc,
            elements,
            self.format.chunk,
            self.format.data_type,
            self.format.fill_value,
            &CodecOptions::default(),
        )?;
        self.store.put(alloc, key, encoded)
    }

    /// Writes all elements of the chunk at some coordinates of the chunk grid: then the store holds an encoding of them under the
    /// chunk's key, and under each other key what it held. Refused as the codec's `encode` and the store's `put` refuse, with the chunk's
    /// key; a refusal that is no fault changes nothing.
    pub fn write_chunk(
        &mut self,
        alloc: Global,
        coordinates: &[u64],
        elements: &ArrayBytes,
    ) -> Result<(), ArrayError>
        ensures same_format { self.new.format ≡ self.old.format }
        ensures same_codec { self.new.codec ≡ self.old.codec }
        ensures others { AreKept (S.state self.old.store) (S.state self.new.store) (chunk_key self.old.format.keys coordinates.now) }
        ensures written { let f = self.old.format in let m = C.meaning self.old.codec.now (chunk_spec f) in
            OnOk result (IsTrue (S.state self.old.store).transparent
            → HoldsEncoding m elements.now.elements ((S.state self.new.store).contents (chunk_key f.keys coordinates.now))) }
        ensures refused { IfErr result (IsChunkRefusal (S.state self.old.store) (S.state self.new.store) (chunk_key self.old.format.keys coordinates.now)) }
    {
        let key = self.format.keys.key_of(alloc, coordinates)?;
        match self.put_elements(alloc, &key, elements) {
            Ok(()) => Ok(()),
            Err(error) => Err(ArrayError::Chunk { key, error }),
        }
    }

    /// Removes the object of the chunk at some coordinates of the chunk grid: then each of its elements is the fill value, and under each
    /// other key the store holds what it held. Refused as the store's `erase` refuses, with the chunk's key; a refusal that is no
    /// fault changes nothing.
    pub fn erase_chunk(&mut self, alloc: Global, coordinates: &[u64]) -> Result<(), ArrayError>
        ensures same_format { self.new.format ≡ self.old.format }
        ensures same_codec { self.new.codec ≡ self.old.codec }
        ensures others { AreKept (S.state self.old.store) (S.state self.new.store) (chunk_key self.old.format.keys coordinates.now) }
        ensures erased { OnOk result (IsTrue (S.state self.old.store).transparent → (S.state self.new.store).contents (chunk_key self.old.format.keys coordinates.now) ≡ None) }
        ensures refused { IfErr result (IsChunkRefusal (S.state self.old.store) (S.state self.new.store) (chunk_key self.old.format.keys coordinates.now)) }
    {
        let key = self.format.keys.key_of(alloc, coordinates)?;
        match self.store.erase(alloc, &key) {
            Ok(()) => Ok(()),
            Err(error) => Err(ArrayError::Chunk { key, error }),
        }
    }
}
