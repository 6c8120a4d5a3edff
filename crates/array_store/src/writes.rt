// Elements that are written into a subset of an array, chunk by chunk.
ghost use Rattle.std.specs.Prelude.{◌≡◌, ◌<◌, ◌≤◌, [], ℕ, List, IsTrue, IfOk, IfErr, OnOk, length, slice_index};
ghost use Rattle.parts_row_major.specs.Subsets.{LiesIn};
ghost use Rattle.parts_subsets.specs.Touched.{AreTouched};
ghost use Rattle.parts_arrays.specs.Arrays.{element_of};
ghost use Rattle.parts_errors.specs.Words.{Bytes};
ghost use Rattle.array_store.specs.ArrayElements.{chunk_spec, element_at};
ghost use Rattle.array_store.specs.ArrayWrites.{IsArrayWritten, AreOthersKept, IsFaultAt, IsWriteStopped};
ghost use Rattle.array_store.specs.steps.Writing.{ArePartsOf, AreOtherChunksKept, AreStoppedAt, AreWrittenTo, IsChunkWritten, whole_of};

use crate::array::Array;
use crate::error::{ArrayError, WriteError};
use crate::store::Store;
use array_grid::{ShardGrid, ShardParts};
use codec_traits::ArrayToBytesCodecTraits;
use parts_arrays::ArrayBytes;
use parts_subsets::ArraySubset;
use std::alloc::Global;

impl<S: Store, C: ArrayToBytesCodecTraits> Array<'_, S, C> {
    // Writes the elements of a subset that lie in the chunk with a place among those that it meets, and says the chunk's number.
    fn write_part(
        &mut self,
        alloc: Global,
        parts: &ShardParts,
        place: u64,
        subset: &ArraySubset,
        elements: &ArrayBytes,
    ) -> Result<u64, ArrayError>
        requires parts { ArePartsOf self.old.format subset.now parts.now }
        requires place { place < parts.now.count }
        ensures same_format { self.new.format ≡ self.old.format }
        ensures same_codec { self.new.codec ≡ self.old.codec }
        ensures same_store { (S.state self.new.store).transparent ≡ (S.state self.old.store).transparent }
        ensures others { IsTrue (S.state self.old.store).transparent
            → AreOtherChunksKept self.old.format subset.now place (S.state self.old.store).contents (S.state self.new.store).contents }
        ensures number { IfOk result (λ number. (touched : List ℕ) → AreTouched (whole_of self.old.format) self.old.format.chunk.now subset.now touched → slice_index touched place ≡ number) }
        ensures written { let f = self.old.format in let cells = (C.meaning self.old.codec.now (chunk_spec f)).cells in
            IfOk result (λ number. IsTrue (S.state self.old.store).transparent
            → IsChunkWritten f subset.now (element_of elements.now) number (element_at (S.state self.old.store).contents f cells) (element_at (S.state self.new.store).contents f cells)) }
        ensures kept { IfErr result (λ e. IsTrue (S.state self.old.store).transparent
            → (key : Bytes) → ¬ IsFaultAt e key → (S.state self.new.store).contents key ≡ (S.state self.old.store).contents key) }
    {
        let Some(part) = parts.part(alloc, place)? else {
            unreachable!()
        };
        let data_type = self.format.data_type;
        let here = elements.extract_array_subset(
            alloc,
            &part.in_subset,
            subset.shape(),
            data_type,
        )?;
        match self.write_in_chunk(alloc, &part.coordinates, &part.in_shard, &here) {
            Ok(()) => Ok(part.shard),
            Err(error) => Err(error),
        }
    }

    // Writes the elements of a subset, and lists the chunks that were written.
    fn write_parts(
        &mut self,
        alloc: Global,
        parts: &ShardParts,
        subset: &ArraySubset,
        elements: &ArrayBytes,
        written: &mut Vec<u64>,
    ) -> Result<(), ArrayError>
        requires parts { ArePartsOf self.old.format subset.now parts.now }
        requires none { written.old.items ≡ [] }
        ensures same_format { self.new.format ≡ self.old.format }
        ensures same_codec { self.new.codec ≡ self.old.codec }
        ensures same_store { (S.state self.new.store).transparent ≡ (S.state self.old.store).transparent }
        ensures others { IsTrue (S.state self.old.store).transparent → AreOthersKept self.old.format subset.now (S.state self.old.store) (S.state self.new.store) }
        ensures listed { (touched : List ℕ) → AreTouched (whole_of self.old.format) self.old.format.chunk.now subset.now touched
            → (i : ℕ) → i < length written.new.items → slice_index touched i ≡ slice_index written.new.items i }
        ensures few { length written.new.items ≤ parts.now.count }
        ensures all { OnOk result (length written.new.items ≡ parts.now.count) }
        ensures done { let f = self.old.format in let cells = (C.meaning self.old.codec.now (chunk_spec f)).cells in
            OnOk result (IsTrue (S.state self.old.store).transparent
            → AreWrittenTo f subset.now (element_of elements.now) written.new.items (element_at (S.state self.old.store).contents f cells) (element_at (S.state self.new.store).contents f cells)) }
        ensures stopped { let f = self.old.format in let cells = (C.meaning self.old.codec.now (chunk_spec f)).cells in
            IfErr result (λ e. IsTrue (S.state self.old.store).transparent
            → AreStoppedAt f subset.now (element_of elements.now) written.new.items e (element_at (S.state self.old.store).contents f cells) (element_at (S.state self.new.store).contents f cells)) }
    {
        for place in 0..parts.len() {
            written.reserve(1)?;
            let number = self.write_part(alloc, parts, place, subset, elements)?;
            let Ok(()) = written.push(number) else {
                unreachable!()
            };
        }
        Ok(())
    }

    // Writes elements into a subset, and lists the chunks that were written.
    fn write_listed(
        &mut self,
        alloc: Global,
        subset: &ArraySubset,
        elements: &ArrayBytes,
        written: &mut Vec<u64>,
    ) -> Result<(), ArrayError>
        requires none { written.old.items ≡ [] }
        ensures same_format { self.new.format ≡ self.old.format }
        ensures same_codec { self.new.codec ≡ self.old.codec }
        ensures same_store { (S.state self.new.store).transparent ≡ (S.state self.old.store).transparent }
        ensures others { IsTrue (S.state self.old.store).transparent → AreOthersKept self.old.format subset.now (S.state self.old.store) (S.state self.new.store) }
        ensures inside { OnOk result (LiesIn subset.now self.old.format.shape.now) }
        ensures elements { let f = self.old.format in let cells = (C.meaning self.old.codec.now (chunk_spec f)).cells in
            OnOk result (IsTrue (S.state self.old.store).transparent
            → IsArrayWritten (element_at (S.state self.old.store).contents f cells) (element_at (S.state self.new.store).contents f cells) f.shape.now subset.now (element_of elements.now)) }
        ensures stopped { let f = self.old.format in let cells = (C.meaning self.old.codec.now (chunk_spec f)).cells in
            IfErr result (λ e. IsTrue (S.state self.old.store).transparent
            → IsWriteStopped f cells subset.now (element_of elements.now) written.new.items e (S.state self.old.store).contents (S.state self.new.store).contents) }
    {
        let _axes = self.format.chunk.as_slice();
        let grid = ShardGrid::new(alloc, self.format.shape, self.format.chunk)?;
        let parts = grid.parts(alloc, subset)?;
        self.write_parts(alloc, &parts, subset, elements, written)
    }

    /// Writes elements into a subset, in row-major order of it: then they stand at the points of the subset, and elsewhere what stood
    /// there; under each key of another chunk the store holds what it held. Refused, in this order, as `ShardGrid::new` and as
    /// `ShardGrid::parts` refuse; and then for the first chunk, in the order of the grid, for which `extract_array_subset` refuses the
    /// elements, or `write_in_chunk` the chunk. Such a refusal lists the chunks that were written before; no chunk behind is touched.
    pub fn write(
        &mut self,
        alloc: Global,
        subset: &ArraySubset,
        elements: &ArrayBytes,
    ) -> Result<(), WriteError>
        ensures same_format { self.new.format ≡ self.old.format }
        ensures same_codec { self.new.codec ≡ self.old.codec }
        ensures same_store { (S.state self.new.store).transparent ≡ (S.state self.old.store).transparent }
        ensures others { IsTrue (S.state self.old.store).transparent → AreOthersKept self.old.format subset.now (S.state self.old.store) (S.state self.new.store) }
        ensures inside { OnOk result (LiesIn subset.now self.old.format.shape.now) }
        ensures elements { let f = self.old.format in let cells = (C.meaning self.old.codec.now (chunk_spec f)).cells in
            OnOk result (IsTrue (S.state self.old.store).transparent
            → IsArrayWritten (element_at (S.state self.old.store).contents f cells) (element_at (S.state self.new.store).contents f cells) f.shape.now subset.now (element_of elements.now)) }
        ensures stopped { let f = self.old.format in let cells = (C.meaning self.old.codec.now (chunk_spec f)).cells in
            IfErr result (λ stop. IsTrue (S.state self.old.store).transparent
            → IsWriteStopped f cells subset.now (element_of elements.now) stop.written.items stop.error (S.state self.old.store).contents (S.state self.new.store).contents) }
    {
        let mut written = Vec::new(alloc);
        match self.write_listed(alloc, subset, elements, &mut written) {
            Ok(()) => Ok(()),
            Err(error) => Err(WriteError { written, error }),
        }
    }
}
