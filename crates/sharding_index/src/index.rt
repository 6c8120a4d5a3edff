// The index of a shard, by its index codec.
ghost use Rattle.std.specs.Prelude.{◌≡◌, ◌≤◌, ◌<◌, ◌+◌, ◌^◌, ◌*◌, ℕ, IsTrue, Some, IfOk, IfErr, OnOk, All, map, length, slice_index_or};
ghost use Rattle.parts_errors.specs.Order.{done, RefusedBy};
ghost use Rattle.parts_row_major.specs.Numbering.{count_of};
ghost use Rattle.storage_handles.specs.Handles.{IsRead, IsCounted};
ghost use Rattle.storage_handles.specs.Objects.{interval_part, HasInterval, ObjectRefusals};
ghost use Rattle.codec_traits.specs.Encodings.{IsPlain};
ghost use Rattle.sharding_format.specs.Index.{data_start, index_spec, numbers_in_index, numbers_of_cells, element_of_number};
ghost use Rattle.sharding_format.specs.Serves.{IndexServes, IndexCodecRefusals};
ghost use Rattle.sharding_format.specs.DecodeRefusals.{RefusesStored, IndexRefusals};
ghost use Rattle.sharding_format.specs.EncodeRefusals.{RefusesIndex};
ghost use Rattle.sharding_format.specs.Laying.{EndsBelow, IsIndexOf};
ghost use Rattle.sharding_format.specs.declared.slot.Slot.TheVariants.{Bad};
ghost use Rattle.sharding_index.specs.Indexes.{index_meaning, IsIndexPlan};

use crate::numbers::{array_of_numbers, bytes_of_numbers, numbers_of_array, numbers_of_slots};
use crate::offsets::{index_bytes, start_of_data, start_of_index};
use crate::pieces::{PIECE, read_numbers};
use codec_traits::{ArrayToBytesCodecTraits, BytesRepresentation};
use parts_arrays::{DataType, FillValue};
use parts_errors::{CodecError, CodecOptions};
use parts_subsets::ChunkShape;
use sharding_format::{ShardIndex, ShardingIndexLocation, Slot, of_stored, sharding_index_shape};
use std::alloc::Global;
use storage_handles::{ByteRange, BytesPartialDecoderTraits, Interval, read_range};

/// What is known of the index of a shard before its bytes are looked at: the grid of subchunks, how many bytes the index
/// has, and the shape and the fill value of which the index codec is asked to serve it.
#[derive(Drop)]
pub struct IndexPlan {
    pub grid: ChunkShape,
    pub size: u64,
    pub shape: ChunkShape,
    pub fill: FillValue,
}

/// The index codec of shards, and where it puts the index.
#[derive(Clone, Copy)]
pub struct IndexCodec<'a, X> {
    pub codec: &'a X,
    pub location: ShardingIndexLocation,
}

impl<X: ArrayToBytesCodecTraits> IndexCodec<'_, X> {
    /// Tests the index codec on the index of a grid.
    pub fn plan(&self, alloc: Global, grid: ChunkShape) -> Result<IndexPlan, CodecError>
        ensures serves { OnOk result (IndexServes (index_meaning X.meaning self.now.codec.now grid)) }
        ensures plan { IfOk result (IsIndexPlan (index_meaning X.meaning self.now.codec.now)) }
        ensures grid { IfOk result (λ plan. plan.grid ≡ grid) }
        ensures refused { IfErr result (RefusedBy (IndexCodecRefusals (index_meaning X.meaning self.now.codec.now grid) done)) }
    {
        let shape = sharding_index_shape(alloc, &grid)?;
        let fill = FillValue::new(vec![in alloc; 255u8; 8]?);
        let data_type = DataType::UInt64;
        let told = self
            .codec
            .encoded_representation(alloc, &shape, &data_type, &fill)?;
        let BytesRepresentation::FixedSize(size) = told else {
            return Err(CodecError::VariableIndexSize);
        };
        Ok(IndexPlan {
            grid,
            size,
            shape,
            fill,
        })
    }

    // The numbers that the bytes of an index stand for.
    fn decode_part(
        &self,
        alloc: Global,
        part: &[u8],
        plan: &IndexPlan,
        options: &CodecOptions,
    ) -> Result<Vec<u64>, CodecError>
        requires { IsIndexPlan (index_meaning X.meaning self.now.codec.now) plan.now }
        ensures numbers { let index = index_meaning X.meaning self.now.codec.now plan.now.grid in
            IfOk result (λ numbers. numbers_of_cells (index.cells part.now) ≡ Some numbers.items) }
        ensures counted { IfOk result (λ numbers. length numbers.items ≡ 2 * count_of plan.now.grid) }
        ensures refused { let index = index_meaning X.meaning self.now.codec.now plan.now.grid in
            IfErr result (RefusedBy (RefusesStored (index.decode_refusals part.now) (index.cells part.now))) }
    {
        let data_type = DataType::UInt64;
        let index = match self
            .codec
            .decode(alloc, part, &plan.shape, &data_type, &plan.fill, options)
        {
            Ok(index) => index,
            Err(error) => return Err(of_stored(error)),
        };
        let numbers = numbers_of_array(alloc, &index)?;
        Ok(numbers)
    }

    /// The index of a shard's bytes. Refused, in this order, as `ShardTooShort` and as `Damaged` where the index does not
    /// decode; or as `OutOfMemory`.
    pub fn decode(
        &self,
        alloc: Global,
        bytes: &[u8],
        plan: &IndexPlan,
        options: &CodecOptions,
    ) -> Result<ShardIndex, CodecError>
        requires { IsIndexPlan (index_meaning X.meaning self.now.codec.now) plan.now }
        ensures len { IfOk result (λ index. index.len ≡ length bytes.now) }
        ensures numbers { let index = index_meaning X.meaning self.now.codec.now plan.now.grid in
            IfOk result (λ found. numbers_in_index index.cells self.now.location plan.now.size bytes.now ≡ Some found.numbers.items) }
        ensures counted { IfOk result (λ index. length index.numbers.items ≡ 2 * count_of plan.now.grid) }
        ensures refused { let index = index_meaning X.meaning self.now.codec.now plan.now.grid in
            IfErr result (RefusedBy (IndexRefusals index.decode_refusals index.cells self.now.location plan.now.size bytes.now done)) }
    {
        let len = bytes.len() as u64;
        if len < plan.size {
            return Err(CodecError::ShardTooShort);
        }
        let part = index_bytes(bytes, self.location, plan.size as usize);
        let numbers = self.decode_part(alloc, part, plan, options)?;
        Ok(ShardIndex { len, numbers })
    }

    // Whether the index codec stores the numbers of the index as they are, one after the other.
    fn is_plain(&self, plan: &IndexPlan) -> bool
        requires { IsIndexPlan (index_meaning X.meaning self.now.codec.now) plan.now }
        ensures { IsTrue result → IsPlain (index_spec plan.now.grid) (index_meaning X.meaning self.now.codec.now plan.now.grid) plan.now.size }
    {
        let data_type = DataType::UInt64;
        match self.codec.plain_size(&plan.shape, &data_type, &plan.fill) {
            Some(size) => size == plan.size,
            None => false,
        }
    }

    // The numbers of the index that is an interval of an object, whose bytes are read at once and decoded.
    fn read_at_once<H: BytesPartialDecoderTraits>(
        &self,
        alloc: Global,
        handle: &mut H,
        interval: Interval,
        plan: &IndexPlan,
        options: &CodecOptions,
    ) -> Result<Vec<u64>, CodecError>
        requires plan { IsIndexPlan (index_meaning X.meaning self.now.codec.now) plan.now }
        requires inside { IsTrue (H.state handle.old).transparent → HasInterval interval (H.state handle.old).contents }
        ensures read { IsRead (H.state handle.old) (H.state handle.new) }
        ensures counted { IfOk result (λ numbers. length numbers.items ≡ 2 * count_of plan.now.grid) }
        ensures numbers { let index = index_meaning X.meaning self.now.codec.now plan.now.grid in
            IfOk result (λ numbers. IsTrue (H.state handle.old).transparent
            → numbers_of_cells (index.cells (interval_part interval (H.state handle.old).contents)) ≡ Some numbers.items) }
        ensures fault { IfErr result (IsCounted (H.state handle.old) (H.state handle.new)) }
        ensures refused { let index = index_meaning X.meaning self.now.codec.now plan.now.grid in
            let part = interval_part interval (H.state handle.old).contents in
            IfErr result (RefusedBy (ObjectRefusals (H.state handle.old) (H.state handle.new) (
            RefusesStored (index.decode_refusals part) (index.cells part)))) }
    {
        let range = ByteRange::FromStart(interval.offset, Some(interval.size));
        let mut room = Vec::new(alloc);
        let Some(part) = read_range(handle, &mut room, alloc, range)? else {
            return Err(CodecError::OutOfBounds);
        };
        let numbers = self.decode_part(alloc, part, plan, options)?;
        Ok(numbers)
    }

    // The numbers of the index that is an interval of an object. A long index of numbers that are stored as they are is read in
    // pieces, so that its bytes are not in memory beside its numbers.
    fn read_interval<H: BytesPartialDecoderTraits>(
        &self,
        alloc: Global,
        handle: &mut H,
        interval: Interval,
        plan: &IndexPlan,
        options: &CodecOptions,
    ) -> Result<Vec<u64>, CodecError>
        requires plan { IsIndexPlan (index_meaning X.meaning self.now.codec.now) plan.now }
        requires size { interval.size ≡ plan.now.size }
        requires room { interval.offset + interval.size < 2 ^ 64 }
        requires inside { IsTrue (H.state handle.old).transparent → HasInterval interval (H.state handle.old).contents }
        ensures read { IsRead (H.state handle.old) (H.state handle.new) }
        ensures counted { IfOk result (λ numbers. length numbers.items ≡ 2 * count_of plan.now.grid) }
        ensures numbers { let index = index_meaning X.meaning self.now.codec.now plan.now.grid in
            IfOk result (λ numbers. IsTrue (H.state handle.old).transparent
            → numbers_of_cells (index.cells (interval_part interval (H.state handle.old).contents)) ≡ Some numbers.items) }
        ensures fault { IfErr result (IsCounted (H.state handle.old) (H.state handle.new)) }
        ensures refused { let index = index_meaning X.meaning self.now.codec.now plan.now.grid in
            let part = interval_part interval (H.state handle.old).contents in
            IfErr result (RefusedBy (ObjectRefusals (H.state handle.old) (H.state handle.new) (
            RefusesStored (index.decode_refusals part) (index.cells part)))) }
    {
        if interval.size > 8 * PIECE && self.is_plain(plan) {
            let numbers = read_numbers(alloc, handle, interval)?;
            return Ok(numbers);
        }
        let numbers = self.read_at_once(alloc, handle, interval, plan, options)?;
        Ok(numbers)
    }

    /// The index of a shard that stands in an interval of an object. Refused, in this order, as `ShardTooShort` and as
    /// `Damaged` where the index does not decode; or as `Fault`, where the handle failed, or `OutOfMemory`.
    pub fn read<H: BytesPartialDecoderTraits>(
        &self,
        alloc: Global,
        handle: &mut H,
        outer: Interval,
        plan: &IndexPlan,
        options: &CodecOptions,
    ) -> Result<ShardIndex, CodecError>
        requires plan { IsIndexPlan (index_meaning X.meaning self.now.codec.now) plan.now }
        requires room { outer.offset + outer.size < 2 ^ 64 }
        requires inside { IsTrue (H.state handle.old).transparent → HasInterval outer (H.state handle.old).contents }
        ensures read { IsRead (H.state handle.old) (H.state handle.new) }
        ensures len { IfOk result (λ index. index.len ≡ outer.size) }
        ensures enough { OnOk result (plan.now.size ≤ outer.size) }
        ensures counted { IfOk result (λ index. length index.numbers.items ≡ 2 * count_of plan.now.grid) }
        ensures numbers { let index = index_meaning X.meaning self.now.codec.now plan.now.grid in
            IfOk result (λ found. IsTrue (H.state handle.old).transparent
            → numbers_in_index index.cells self.now.location plan.now.size (interval_part outer (H.state handle.old).contents) ≡ Some found.numbers.items) }
        ensures fault { IfErr result (IsCounted (H.state handle.old) (H.state handle.new)) }
        ensures refused { let index = index_meaning X.meaning self.now.codec.now plan.now.grid in
            IfErr result (RefusedBy (ObjectRefusals (H.state handle.old) (H.state handle.new) (
            IndexRefusals index.decode_refusals index.cells self.now.location plan.now.size (interval_part outer (H.state handle.old).contents) done))) }
    {
        if outer.size < plan.size {
            return Err(CodecError::ShardTooShort);
        }
        let interval = Interval {
            offset: outer.offset + start_of_index(self.location, plan.size, outer.size),
            size: plan.size,
        };
        let numbers = self.read_interval(alloc, handle, interval, plan, options)?;
        Ok(ShardIndex {
            len: outer.size,
            numbers,
        })
    }

    /// The bytes of the index of these slots of the data part. Refused as the index codec refuses, or as `OutOfMemory`.
    pub fn encode(
        &self,
        alloc: Global,
        slots: &[Slot],
        plan: &IndexPlan,
        options: &CodecOptions,
    ) -> Result<Vec<u8>, CodecError>
        requires plan { IsIndexPlan (index_meaning X.meaning self.now.codec.now) plan.now }
        requires counted { length slots.now ≡ count_of plan.now.grid }
        requires room { (k : ℕ) → k < length slots.now → EndsBelow (data_start self.now.location plan.now.size) (slice_index_or slots.now k Bad) }
        ensures index { let index = index_meaning X.meaning self.now.codec.now plan.now.grid in
            IfOk result (λ bytes. IsIndexOf index.written (data_start self.now.location plan.now.size) slots.now bytes.items) }
        ensures refused { let index = index_meaning X.meaning self.now.codec.now plan.now.grid in
            IfErr result (RefusedBy (RefusesIndex index (count_of plan.now.grid))) }
    {
        let start = start_of_data(self.location, plan.size);
        let numbers = numbers_of_slots(alloc, slots, start)?;
        let index = self.encode_numbers(alloc, &numbers, plan, options)?;
        Ok(index)
    }

    /// The bytes of the index of these numbers. Refused as the index codec refuses, or as `OutOfMemory`.
    pub fn encode_numbers(
        &self,
        alloc: Global,
        numbers: &[u64],
        plan: &IndexPlan,
        options: &CodecOptions,
    ) -> Result<Vec<u8>, CodecError>
        requires plan { IsIndexPlan (index_meaning X.meaning self.now.codec.now) plan.now }
        requires counted { length numbers.now ≡ 2 * count_of plan.now.grid }
        requires below { All (λ n. n < 2 ^ 64) numbers.now }
        ensures written { let index = index_meaning X.meaning self.now.codec.now plan.now.grid in
            IfOk result (λ bytes. index.written (map element_of_number numbers.now) bytes.items) }
        ensures size { IfOk result (λ bytes. length bytes.items ≡ plan.now.size) }
        ensures refused { let index = index_meaning X.meaning self.now.codec.now plan.now.grid in
            IfErr result (RefusedBy (RefusesIndex index (count_of plan.now.grid))) }
    {
        let bytes = bytes_of_numbers(alloc, numbers)?;
        if self.is_plain(plan) {
            return Ok(bytes);
        }
        let array = array_of_numbers(&bytes, numbers);
        let data_type = DataType::UInt64;
        let index = self.codec.encode(alloc, &array, &plan.shape, &data_type, &plan.fill, options)?;
        Ok(index)
    }
}
