// The cells that an indexer asks of a shard, read through a handle, by the shard's index.
ghost use Rattle.std.specs.Prelude.{◌≡◌, ◌*◌, ◌^◌, ◌<◌, Some, IsTrue, IfOk, IfErr, map, length};
ghost use Rattle.parts_errors.specs.Order.{RefusedBy};
ghost use Rattle.parts_subsets.specs.Selections.{IsSelectionOf};
ghost use Rattle.parts_arrays.specs.Types.{size_of, FitsKind};
ghost use Rattle.parts_arrays.specs.declared.data_type.DataTypeSize.TheVariants.{Fixed};
ghost use Rattle.storage_handles.specs.Handles.{IsRead, IsCounted};
ghost use Rattle.storage_handles.specs.Objects.{interval_part, HasInterval, ObjectRefusals};
ghost use Rattle.sharding_format.specs.Cells.{indexed_cell};
ghost use Rattle.sharding_format.specs.ReadRefusals.{numbers_of};
ghost use Rattle.sharding_format.specs.steps.Reading.{ReadByRefusals};
ghost use Rattle.sharding_subchunks.specs.steps.Inner.{inner_meaning};
ghost use Rattle.sharding_subchunks.specs.Reads.{HasElementsOf};

use crate::stored_shard::StoredShard;
use crate::subchunks::Subchunks;
use codec_traits::ArrayToBytesCodecTraits;
use parts_arrays::{ArrayBytes, DataTypeSize};
use parts_errors::CodecError;
use parts_subsets::{ArraySubset, Indexer, point_numbers};
use std::alloc::Global;
use storage_handles::BytesPartialDecoderTraits;

impl<I: ArrayToBytesCodecTraits> Subchunks<'_, I> {
    /// Whether the type has a fixed size and `count` elements of it take fewer than 2^64 bytes.
    pub fn has_room(&self, count: u64) -> bool
        requires fill { FitsKind (size_of self.now.data_type.now) self.now.fill_value.now }
        ensures fixed { IsTrue result → size_of self.now.data_type.now ≡ Fixed (length self.now.fill_value.now) }
        ensures fits { IsTrue result → count * length self.now.fill_value.now < 2 ^ 64 }
    {
        match self.data_type.size() {
            DataTypeSize::Fixed(size) => count.checked_mul(size as u64).is_some(),
            DataTypeSize::Variable => false,
        }
    }
}

impl<I: ArrayToBytesCodecTraits> StoredShard<'_, I> {
    /// The cells that an indexer requests, in its order; the count is theirs. Elements of one size are read by the subchunks
    /// that are touched, each written where it stands, others group by group. Refused, in this order, as the lowest subchunk in
    /// which cells are asked is (`BadIndexEntry` with its number, `Damaged`, `TooLarge`), and as `TooLarge` where the lengths
    /// of the cells pass `usize::MAX`; or as `Fault`, where the handle failed, or `OutOfMemory`.
    pub fn read_requested<H: BytesPartialDecoderTraits, N: Indexer>(
        &self,
        alloc: Global,
        handle: &mut H,
        indexer: &N,
        count: u64,
    ) -> Result<ArrayBytes<'static>, CodecError>
        requires inside { IsTrue (H.state handle.old).transparent → HasInterval self.now.interval (H.state handle.old).contents }
        requires serves { (inner_meaning I.meaning self.now.subchunks).serves }
        requires selection { IsSelectionOf self.now.shape.now (N.selection indexer.now) }
        requires count { count ≡ length (N.selection indexer.now).points }
        ensures read { IsRead (H.state handle.old) (H.state handle.new) }
        ensures elements { IfOk result (HasElementsOf (size_of self.now.subchunks.data_type.now) count) }
        ensures cells { let s = self.now.subchunks in let inner = inner_meaning I.meaning s in let bytes = interval_part self.now.interval (H.state handle.old).contents in
            IfOk result (λ array. IsTrue (H.state handle.old).transparent
            → map (indexed_cell inner.cells self.now.shape.now s.shape.now s.fill_value.now bytes self.now.index.now.numbers.items)
            (numbers_of self.now.shape.now (N.selection indexer.now).points) ≡ map Some array.elements) }
        ensures fault { IfErr result (IsCounted (H.state handle.old) (H.state handle.new)) }
        ensures refused { let s = self.now.subchunks in let inner = inner_meaning I.meaning s in let bytes = interval_part self.now.interval (H.state handle.old).contents in
            IfErr result (RefusedBy (ObjectRefusals (H.state handle.old) (H.state handle.new) (
            ReadByRefusals inner self.now.shape.now s.shape.now s.fill_value.now bytes self.now.index.now.numbers.items
            (numbers_of self.now.shape.now (N.selection indexer.now).points)))) }
    {
        let in_room = self.subchunks.has_room(count);
        if let Some(subset) = indexer.as_array_subset() {
            if in_room {
                return self.read_subset(alloc, handle, subset, count);
            }
        }
        let numbers = point_numbers(alloc, indexer, count, self.shape)?;
        if in_room {
            return self.read_listed(alloc, handle, &numbers);
        }
        self.read_cells(alloc, handle, &numbers)
    }
}
