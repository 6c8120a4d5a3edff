// Elements that are written into a subset of a chunk.
ghost use Rattle.std.specs.Prelude.{◌≡◌, ◌<◌, ℕ, Some, IsTrue, IfOk, IfErr, OnOk, All, length, replicate};
ghost use Rattle.parts_row_major.specs.Numbering.{count_of};
ghost use Rattle.parts_row_major.specs.Pieces.{piece};
ghost use Rattle.parts_row_major.specs.Subsets.{LiesIn};
ghost use Rattle.parts_arrays.specs.Arrays.{element_of};
ghost use Rattle.array_store.specs.ArrayElements.{cell_of, chunk_spec};
ghost use Rattle.array_fields.specs.ChunkKeys.{chunk_key};
ghost use Rattle.array_store.specs.ChunkWrites.{IsUpdatedObject, IsKeptUnlessFault, IsChunkRefusal};
ghost use Rattle.array_store.specs.Stores.{AreKept};

use crate::array::Array;
use crate::error::ArrayError;
use crate::store::Store;
use array_grid::SubsetCells;
use codec_traits::ArrayToBytesCodecTraits;
use parts_arrays::ArrayBytes;
use parts_errors::CodecError;
use parts_subsets::{ArraySubset, ChunkShape};
use std::alloc::Global;

// Whether each number is 0.
fn are_zero(numbers: &[u64]) -> bool
    ensures { IsTrue result → All (λ number. number ≡ 0) numbers.now }
{
    numbers.iter().all(|number| *number == 0)
}

// Whether a subset of a chunk has all of its elements.
fn has_all(in_chunk: &ArraySubset, chunk: &ChunkShape) -> bool
    ensures { IsTrue result → in_chunk.now ≡ record { start = replicate (length chunk.now) 0; shape = chunk.now } }
{
    in_chunk.shape() == chunk.as_slice() && are_zero(in_chunk.start())
}

impl<S: Store, C: ArrayToBytesCodecTraits> Array<'_, S, C> {
    // The elements of the chunk of a key: those that its object has, and fill values where there is no object.
    fn old_elements(&self, alloc: Global, key: &str) -> Result<SubsetCells, CodecError>
        ensures shape { IfOk result (λ cells. cells.shape ≡ self.now.format.chunk.now) }
        ensures size { IfOk result (λ cells. cells.element_size ≡ length self.now.format.fill_value.now) }
        ensures old { let f = self.now.format in let m = C.meaning self.now.codec.now (chunk_spec f) in
            IfOk result (λ cells. IsTrue (S.state self.now.store).transparent → (p : ℕ) → p < count_of f.chunk.now
            → cell_of m.cells f.fill_value.now ((S.state self.now.store).contents key.now) p ≡ Some (piece cells.element_size cells.bytes p)) }
    {
        let shape = Vec::from_slice(alloc, self.format.chunk.as_slice())?;
        let whole = ArraySubset::new_with_shape(alloc, shape)?;
        let mut cells = SubsetCells::new(alloc, &whole, self.format.fill_value)?;
        self.put_part(alloc, key, &whole, &whole, &mut cells)?;
        Ok(cells)
    }

    // Writes elements into a subset of the chunk of a key. Where it is all of the chunk, no old element is read.
    fn update_elements(
        &mut self,
        alloc: Global,
        key: &str,
        in_chunk: &ArraySubset,
        elements: &ArrayBytes,
    ) -> Result<(), CodecError>
        ensures same_format { self.new.format ≡ self.old.format }
        ensures same_codec { self.new.codec ≡ self.old.codec }
        ensures others { AreKept (S.state self.old.store) (S.state self.new.store) key.now }
        ensures written { let f = self.old.format in let m = C.meaning self.old.codec.now (chunk_spec f) in
            OnOk result (IsTrue (S.state self.old.store).transparent
            → IsUpdatedObject m f.chunk.now in_chunk.now (element_of elements.now) (cell_of m.cells f.fill_value.now ((S.state self.old.store).contents key.now)) ((S.state self.new.store).contents key.now)) }
        ensures kept { IfErr result (IsKeptUnlessFault (S.state self.old.store) (S.state self.new.store) key.now) }
    {
        if has_all(in_chunk, self.format.chunk) {
            self.put_elements(alloc, key, elements)?;
            return Ok(());
        }
        let mut cells = self.old_elements(alloc, key)?;
        cells.put(in_chunk, elements)?;
        let updated = cells.array();
        self.put_elements(alloc, key, &updated)?;
        Ok(())
    }

    /// Writes elements into a subset of the chunk at some coordinates of the chunk grid, in row-major order of the subset: then the
    /// store holds, under the chunk's key, an encoding of these where the subset is and of what the chunk had elsewhere, fill values
    /// where there was no object; and under each other key what it held. Refused with the chunk's key, in this order, as the old elements
    /// are read, as the subset does not lie in the chunk, as the elements are not of its kind and number, and as `encode` and `put`
    /// refuse; a subset that is all of the chunk is written as by `write_chunk`, and nothing is read. A refusal that is no fault changes
    /// nothing.
    pub fn write_in_chunk(
        &mut self,
        alloc: Global,
        coordinates: &[u64],
        in_chunk: &ArraySubset,
        elements: &ArrayBytes,
    ) -> Result<(), ArrayError>
        ensures same_format { self.new.format ≡ self.old.format }
        ensures same_codec { self.new.codec ≡ self.old.codec }
        ensures others { AreKept (S.state self.old.store) (S.state self.new.store) (chunk_key self.old.format.keys coordinates.now) }
        ensures written { let f = self.old.format in let m = C.meaning self.old.codec.now (chunk_spec f) in let key = chunk_key f.keys coordinates.now in
            OnOk result (IsTrue (S.state self.old.store).transparent
            → IsUpdatedObject m f.chunk.now in_chunk.now (element_of elements.now) (cell_of m.cells f.fill_value.now ((S.state self.old.store).contents key)) ((S.state self.new.store).contents key)) }
        ensures refused { IfErr result (IsChunkRefusal (S.state self.old.store) (S.state self.new.store) (chunk_key self.old.format.keys coordinates.now)) }
    {
        let key = self.format.keys.key_of(alloc, coordinates)?;
        match self.update_elements(alloc, &key, in_chunk, elements) {
            Ok(()) => Ok(()),
            Err(error) => Err(ArrayError::Chunk { key, error }),
        }
    }
}
