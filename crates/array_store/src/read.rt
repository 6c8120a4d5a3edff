// A subset of an array that is read chunk by chunk.
ghost use Rattle.std.specs.Prelude.{◌≡◌, ◌<◌, ◌^◌, ℕ, Some, IsTrue, IfOk, IfErr, OnOk, List, length, slice_index};
ghost use Rattle.std.specs.List.{All};
ghost use Rattle.parts_row_major.specs.Numbering.{count_of, point_of};
ghost use Rattle.parts_row_major.specs.Pieces.{piece};
ghost use Rattle.parts_row_major.specs.Subsets.{LiesIn, point_in};
ghost use Rattle.parts_subsets.specs.Grid.{grid_of};
ghost use Rattle.parts_subsets.specs.Touched.{AreTouched};
ghost use Rattle.parts_arrays.specs.Types.{size_of};
ghost use Rattle.parts_arrays.specs.declared.data_type.DataTypeSize.TheVariants.{Fixed};
ghost use Rattle.sharding_plans.specs.Chunks.{whole_chunks};
ghost use Rattle.array_grid.specs.Parts.{IsPartAt};
ghost use Rattle.array_store.specs.ArrayElements.{AreElementsAt, cell_of, chunk_spec, element_at, object_of};
ghost use Rattle.array_fields.specs.ChunkKeys.{chunk_key};
ghost use Rattle.array_store.specs.Stores.{IsOpened};
ghost use Rattle.array_store.specs.ReadRefusals.{IsReadRefusal, IsRefusalIn};
ghost use Rattle.array_store.specs.steps.Reading.{IsPartPut, IsChunkRead, IsRefusalAt, AreReadTo, chunk_at};
ghost use Rattle.array_store.specs.steps.Writing.{ArePartsOf};

use crate::array::Array;
use crate::error::ArrayError;
use crate::store::Store;
use array_grid::{ShardGrid, ShardPart, ShardParts, SubsetCells};
use codec_traits::{ArrayToBytesCodecTraits, StoredArray};
use parts_errors::CodecError;
use parts_subsets::ArraySubset;
use std::alloc::Global;
use storage_handles::{BytesPartialDecoderTraits, Interval};

impl<S: Store, C: ArrayToBytesCodecTraits> Array<'_, S, C> {
    // A handle over the chunk of a key, of which a part is to be read.
    fn opened(&self, alloc: Global, key: &str, part: &ArraySubset) -> Result<S::Handle, CodecError>
        ensures opened { IfOk result (λ handle. IsOpened (S.state self.now.store) key.now (S.Handle.state handle)) }
    {
        if part.shape() == self.format.chunk.as_slice() {
            self.store.open_whole(alloc, key)
        } else {
            self.store.open(alloc, key)
        }
    }

    // Puts the part of a subset that lies in the chunk of a key among the elements of the subset: what is read of the chunk's object, and
    // the fill value where there is none.
    pub(crate) fn put_part(
        &self,
        alloc: Global,
        key: &str,
        in_chunk: &ArraySubset,
        in_subset: &ArraySubset,
        cells: &mut SubsetCells,
    ) -> Result<(), CodecError>
        ensures same_size { cells.new.element_size ≡ cells.old.element_size }
        ensures same_shape { cells.new.shape ≡ cells.old.shape }
        ensures put { let f = self.now.format in let m = C.meaning self.now.codec.now (chunk_spec f) in
            OnOk result (IsTrue (S.state self.now.store).transparent
            → IsPartPut (cell_of m.cells f.fill_value.now ((S.state self.now.store).contents key.now)) f.chunk.now in_chunk.now in_subset.now cells.old cells.new) }
    {
        let format = &self.format;
        let mut handle = self.opened(alloc, key, in_chunk)?;
        let Some(size) = handle.len()? else {
            return cells.fill_part(in_subset, format.fill_value);
        };
        let stored = StoredArray {
            interval: Interval { offset: 0, size },
            shape: format.chunk,
            data_type: format.data_type,
            fill_value: format.fill_value,
        };
        cells.read_part(alloc, self.codec, &mut handle, &stored, in_chunk, in_subset)
    }

    // Reads the part of a subset that lies in a chunk of a grid.
    fn read_chunk(
        &self,
        alloc: Global,
        part: &ShardPart,
        cells: &mut SubsetCells,
    ) -> Result<(), ArrayError>
        ensures same_size { cells.new.element_size ≡ cells.old.element_size }
        ensures same_shape { cells.new.shape ≡ cells.old.shape }
        ensures read { let f = self.now.format in let m = C.meaning self.now.codec.now (chunk_spec f) in
            OnOk result (IsTrue (S.state self.now.store).transparent
            → IsPartPut (cell_of m.cells f.fill_value.now (object_of (S.state self.now.store).contents f part.now.coordinates.items)) f.chunk.now part.now.in_shard part.now.in_subset cells.old cells.new) }
        ensures refused { IfErr result (IsRefusalAt (chunk_key self.now.format.keys part.now.coordinates.items)) }
    {
        let key = self.format.keys.key_of(alloc, &part.coordinates)?;
        match self.put_part(alloc, &key, &part.in_shard, &part.in_subset, cells) {
            Ok(()) => Ok(()),
            Err(error) => Err(ArrayError::Chunk { key, error }),
        }
    }

    // Reads the part of a subset with this number, of which the parts are.
    fn read_numbered(
        &self,
        alloc: Global,
        parts: &ShardParts,
        number: u64,
        cells: &mut SubsetCells,
    ) -> Result<(), ArrayError>
        requires parts { ArePartsOf self.now.format parts.now.subset parts.now }
        requires around { cells.old.shape ≡ parts.now.subset.shape }
        requires number { number < parts.now.count }
        ensures same_size { cells.new.element_size ≡ cells.old.element_size }
        ensures same_shape { cells.new.shape ≡ cells.old.shape }
        ensures read { let f = self.now.format in let subset = parts.now.subset in let whole = whole_chunks f.shape.now f.chunk.now in
            OnOk result (IsTrue (S.state self.now.store).transparent → (touched : List ℕ) → AreTouched whole f.chunk.now subset touched
            → IsChunkRead (λ q. element_at (S.state self.now.store).contents f (C.meaning self.now.codec.now (chunk_spec f)).cells (point_in subset q)) (chunk_at whole f.chunk.now subset)
            (count_of subset.shape) (slice_index touched number) (piece cells.old.element_size cells.old.bytes) (piece cells.old.element_size cells.new.bytes)) }
        ensures refused { IfErr result (IsRefusalIn self.now.format parts.now.subset) }
    {
        let Some(part) = parts.part(alloc, number)? else {
            unreachable!()
        };
        self.read_chunk(alloc, &part, cells)?;
        Ok(())
    }

    // Reads the parts of a subset.
    fn read_parts(
        &self,
        alloc: Global,
        parts: &ShardParts,
        cells: &mut SubsetCells,
    ) -> Result<(), ArrayError>
        requires parts { ArePartsOf self.now.format parts.now.subset parts.now }
        requires around { cells.old.shape ≡ parts.now.subset.shape }
        ensures same_size { cells.new.element_size ≡ cells.old.element_size }
        ensures same_shape { cells.new.shape ≡ cells.old.shape }
        ensures read { let f = self.now.format in let subset = parts.now.subset in let whole = whole_chunks f.shape.now f.chunk.now in
            OnOk result (IsTrue (S.state self.now.store).transparent → (touched : List ℕ) → AreTouched whole f.chunk.now subset touched → length touched ≡ parts.now.count
            → AreReadTo (λ q. element_at (S.state self.now.store).contents f (C.meaning self.now.codec.now (chunk_spec f)).cells (point_in subset q)) (chunk_at whole f.chunk.now subset)
            (count_of subset.shape) touched parts.now.count (piece cells.old.element_size cells.new.bytes)) }
        ensures refused { IfErr result (IsRefusalIn self.now.format parts.now.subset) }
    {
        for number in 0..parts.len() {
            self.read_numbered(alloc, parts, number, cells)?;
        }
        Ok(())
    }

    /// The elements of a subset: each the element of the chunk in which it lies, as the codec says of the chunk's object, and the fill
    /// value where the store has no object of the chunk's key. Refused, in this order, as `ShardGrid::new`, as `ShardGrid::parts` and as
    /// `SubsetCells::new` refuse; and then, with its key, for the first chunk, in the order of the grid, whose handle or codec refuses, or
    /// whose elements are not of the size of the fill value.
    pub fn read(&self, alloc: Global, subset: &ArraySubset) -> Result<SubsetCells, ArrayError>
        ensures shape { IfOk result (λ cells. cells.shape ≡ subset.now.shape) }
        ensures size { IfOk result (λ cells. cells.element_size ≡ length self.now.format.fill_value.now) }
        ensures inside { OnOk result (LiesIn subset.now self.now.format.shape.now) }
        ensures elements { let f = self.now.format in
            IfOk result (λ cells. IsTrue (S.state self.now.store).transparent
            → AreElementsAt (element_at (S.state self.now.store).contents f (C.meaning self.now.codec.now (chunk_spec f)).cells) subset.now cells) }
        ensures refused { IfErr result (IsReadRefusal self.now.format subset.now) }
    {
        let _axes = self.format.chunk.as_slice();
        let grid = ShardGrid::new(alloc, self.format.shape, self.format.chunk)?;
        let parts = grid.parts(alloc, subset)?;
        let mut cells = SubsetCells::new(alloc, subset, self.format.fill_value)?;
        self.read_parts(alloc, &parts, &mut cells)?;
        Ok(cells)
    }

    /// As `read`, into cells that are there: they become those of the subset, in their memory as far as it reaches. Where it is refused
    /// they may be any cells.
    pub fn read_into(
        &self,
        alloc: Global,
        subset: &ArraySubset,
        cells: &mut SubsetCells,
    ) -> Result<(), ArrayError>
        ensures shape { OnOk result (cells.new.shape ≡ subset.now.shape) }
        ensures size { OnOk result (cells.new.element_size ≡ length self.now.format.fill_value.now) }
        ensures inside { OnOk result (LiesIn subset.now self.now.format.shape.now) }
        ensures elements { let f = self.now.format in
            OnOk result (IsTrue (S.state self.now.store).transparent
            → AreElementsAt (element_at (S.state self.now.store).contents f (C.meaning self.now.codec.now (chunk_spec f)).cells) subset.now cells.new) }
        ensures refused { IfErr result (IsReadRefusal self.now.format subset.now) }
    {
        let _axes = self.format.chunk.as_slice();
        let grid = ShardGrid::new(alloc, self.format.shape, self.format.chunk)?;
        let parts = grid.parts(alloc, subset)?;
        cells.resize(alloc, subset, self.format.fill_value)?;
        self.read_parts(alloc, &parts, cells)?;
        Ok(())
    }
}
