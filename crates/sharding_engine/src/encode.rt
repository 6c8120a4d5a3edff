// From the elements of an array to the bytes of a shard.
ghost use Rattle.std.specs.Prelude.{◌≡◌, ◌≤◌, ◌+◌, ◌++◌, IfErr, OnOk, OnErr, length, take, drop, replicate};
ghost use Rattle.parts_errors.specs.Order.{RefusedBy};
ghost use Rattle.parts_arrays.specs.ArraySpec.{IsArrayOf};
ghost use Rattle.parts_arrays.specs.Types.{size_of};
ghost use Rattle.parts_errors.specs.declared.error.CodecError.TheVariants.{OutOfMemory};
ghost use Rattle.codec_traits.specs.Encodings.{IsEncodedOnto};
ghost use Rattle.sharding_format.specs.Index.{data_start};
ghost use Rattle.sharding_format.specs.Laying.{whole_shard};
ghost use Rattle.sharding_index.specs.Indexes.{index_meaning};
ghost use Rattle.sharding_engine.specs.Meanings.{meaning_of};
ghost use Rattle.sharding_index.specs.steps.Plans.{spec_of, IsPlan};

use crate::plan::{Planned, subchunks};
use crate::sharding::Sharding;
use codec_traits::ArrayToBytesCodecTraits;
use parts_arrays::ArrayBytes;
use parts_errors::CodecError;
use sharding_format::ShardingIndexLocation;
use sharding_layout::{CutArray, SubchunkSequence, elements_in_row, zeros_after};
use std::alloc::{AllocError, Global};

// Puts zeros after bytes that are there where the index of a shard, of this size, stands in front of the data part. A refusal
// leaves the bytes. Refused only as out of memory.
fn make_room(
    bytes: &mut Vec<u8>,
    location: ShardingIndexLocation,
    size: u64,
) -> Result<(), CodecError>
    ensures appended { OnOk result (bytes.new.items ≡ bytes.old.items ++ replicate (data_start location size) 0) }
    ensures kept { OnErr result (bytes.new.items ≡ bytes.old.items) }
    ensures refused { IfErr result (λ e. e ≡ OutOfMemory) }
{
    if location == ShardingIndexLocation::End {
        return Ok(());
    }
    zeros_after(bytes, size as usize)
}

// Puts the index of a shard, which begins at `start`, into its room in front of the data part, or behind this.
fn put_index(
    bytes: &mut Vec<u8>,
    start: usize,
    location: ShardingIndexLocation,
    index: &[u8],
) -> Result<(), AllocError>
    requires room { start + data_start location (length index.now) ≤ length bytes.old.items }
    ensures stay { take start bytes.new.items ≡ take start bytes.old.items }
    ensures whole { let slices = drop (start + data_start location (length index.now)) bytes.old.items in
        OnOk result (drop start bytes.new.items ≡ whole_shard location index.now slices) }
{
    match location {
        ShardingIndexLocation::Start => {
            bytes[start..start + index.len()].copy_from_slice(index);
            Ok(())
        }
        ShardingIndexLocation::End => {
            bytes.reserve_exact(index.len())?;
            bytes.extend_from_slice(index)
        }
    }
}

impl<I: ArrayToBytesCodecTraits, X: ArrayToBytesCodecTraits> Sharding<'_, I, X> {
    /// Puts the shard of an array that is served behind bytes that are there, which stay; where it is refused, a part of it may
    /// stand there. Refused, in this order, as `WrongElementKind`, `InvalidNumberOfElements`, as the inner codec refuses the lowest
    /// refused subchunk, as `TooLarge` where the shard would reach `usize::MAX` bytes, and as the index codec refuses; or as
    /// `OutOfMemory`.
    pub(crate) fn encode_planned(
        &self,
        alloc: Global,
        array: &ArrayBytes,
        planned: &Planned,
        shard: &mut Vec<u8>,
    ) -> Result<(), CodecError>
        requires serves { (meaning_of I.meaning X.meaning self.now (spec_of planned.now.spec)).serves }
        requires plan { IsPlan (index_meaning X.meaning self.now.index_codec.codec.now) planned.now.spec.shape.now self.now.subchunk_shape.now planned.now.plan.now }
        ensures array { let g = spec_of planned.now.spec in
            OnOk result ((array.now.kind ≡ size_of planned.now.spec.data_type.now) × IsArrayOf g array.now.elements) }
        ensures stay { take (length shard.old.items) shard.new.items ≡ shard.old.items }
        ensures written { let g = spec_of planned.now.spec in
            OnOk result ((meaning_of I.meaning X.meaning self.now g).written array.now.elements (drop (length shard.old.items) shard.new.items)) }
        ensures refused { let g = spec_of planned.now.spec in
            IfErr result (RefusedBy ((meaning_of I.meaning X.meaning self.now g).encode_refusals array.now)) }
    {
        let (spec, plan, options) = (&planned.spec, planned.plan, planned.options);
        if array.kind() != spec.data_type.size() {
            return Err(CodecError::WrongElementKind);
        }
        if array.len() as u64 != plan.cells {
            return Err(CodecError::InvalidNumberOfElements);
        }
        let subchunks = subchunks!(self, planned);
        let sequence = SubchunkSequence::new(alloc, self.order, &plan.index.grid, plan.subchunks)?;
        let start = shard.len();
        make_room(shard, self.index_codec.location, plan.index.size)?;
        let from = shard.len();
        let cut = CutArray {
            array,
            shape: spec.shape,
            grid: &plan.index.grid,
            in_row: elements_in_row(spec.shape, self.subchunk_shape),
        };
        let slots = subchunks.store_all_after(alloc, &cut, &sequence, shard)?;
        let len = (shard.len() - from) as u64;
        if plan.index.size >= u64::MAX - len {
            return Err(CodecError::TooLarge);
        }
        let index = self
            .index_codec
            .encode(alloc, &slots, &plan.index, options)?;
        put_index(shard, start, self.index_codec.location, &index)?;
        Ok(())
    }
    /// As `encode_planned`; where it is refused, what was put there is cut off.
    pub(crate) fn encode_or_cut(
        &self,
        alloc: Global,
        array: &ArrayBytes,
        planned: &Planned,
        shard: &mut Vec<u8>,
    ) -> Result<(), CodecError>
        requires serves { (meaning_of I.meaning X.meaning self.now (spec_of planned.now.spec)).serves }
        requires plan { IsPlan (index_meaning X.meaning self.now.index_codec.codec.now) planned.now.spec.shape.now self.now.subchunk_shape.now planned.now.plan.now }
        ensures array { let g = spec_of planned.now.spec in
            OnOk result ((array.now.kind ≡ size_of planned.now.spec.data_type.now) × IsArrayOf g array.now.elements) }
        ensures written { let m = meaning_of I.meaning X.meaning self.now (spec_of planned.now.spec) in
            OnOk result (IsEncodedOnto m.written array.now.elements shard.old.items shard.new.items) }
        ensures kept { OnErr result (shard.new.items ≡ shard.old.items) }
        ensures refused { let m = meaning_of I.meaning X.meaning self.now (spec_of planned.now.spec) in
            IfErr result (RefusedBy (m.encode_refusals array.now)) }
    {
        let len = shard.len();
        let answer = self.encode_planned(alloc, array, planned, shard);
        if answer.is_err() {
            shard.truncate(len);
        }
        answer
    }
}
