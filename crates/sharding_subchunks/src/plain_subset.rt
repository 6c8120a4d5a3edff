// The cells of a subset of a shard whose inner codec stores elements as they are in memory, copied from each slice to where they lie in
// a target.
ghost use Rattle.std.specs.Prelude.{◌≡◌, ◌*◌, ◌^◌, ◌<◌, ℕ, Some, IsTrue, IfOk, IfErr, IfSome, OnErr, map, length};
ghost use Rattle.std.specs.List.{All};
ghost use Rattle.parts_errors.specs.Order.{done, RefusedBy};
ghost use Rattle.parts_row_major.specs.Numbering.{count_of};
ghost use Rattle.parts_row_major.specs.Pieces.{pieces};
ghost use Rattle.parts_row_major.specs.Subsets.{Subset, LiesIn, numbers_in};
ghost use Rattle.parts_strided_copy.specs.Paired.{elements_in_rows, from_at, AreRowsWithin, AreRowsOf};
ghost use Rattle.parts_subsets.specs.Grid.{grid_of};
ghost use Rattle.parts_subsets.specs.Selections.{IsSelectionOf};
ghost use Rattle.parts_subsets.specs.Touched.{AreTouched};
ghost use Rattle.sharding_gather.specs.steps.OverlapRows.{IsInShard};
ghost use Rattle.parts_arrays.specs.Types.{size_of};
ghost use Rattle.parts_arrays.specs.declared.data_type.DataTypeSize.TheVariants.{Fixed};
ghost use Rattle.parts_arrays.specs.Targets.{target_element_size, target_shape, target_subset};
ghost use Rattle.storage_handles.specs.Handles.{IsRead, IsCounted};
ghost use Rattle.storage_handles.specs.Objects.{interval_part, HasInterval, ObjectRefusals};
ghost use Rattle.codec_traits.specs.Encodings.{IsPlain};
ghost use Rattle.codec_traits.specs.Reads.{IsDecodedInto, IsOverwritten};
ghost use Rattle.sharding_format.specs.Cells.{indexed_cell};
ghost use Rattle.sharding_format.specs.steps.Decoding.{FitsSlot};
ghost use Rattle.sharding_format.specs.ReadRefusals.{numbers_of};
ghost use Rattle.sharding_subchunks.specs.steps.Inner.{spec_of_subchunks, inner_meaning};
ghost use Rattle.sharding_subchunks.specs.steps.Writes.{IsPartPut};

use crate::plain_target::same_axes;
use crate::stored_shard::StoredShard;
use codec_traits::ArrayToBytesCodecTraits;
use parts_arrays::FixedTarget;
use parts_errors::CodecError;
use parts_strided_copy::PairedRows;
use parts_subsets::{ArraySubset, Indexer};
use sharding_format::Slot;
use sharding_gather::{SubsetInGrid, whole_subset};
use std::alloc::Global;
use storage_handles::{ByteRange, BytesPartialDecoderTraits, read_range};

impl<I: ArrayToBytesCodecTraits> StoredShard<'_, I> {
    // Copies rows of the subchunk that a slot names to a target's array: from its slice, or fill values where it is absent. `false`, with
    // the target as it was, where the entry is bad, the slice has another size than the elements of a subchunk have together, or there is
    // no object. Refused as `Fault`, where the handle failed, or `OutOfMemory`; that leaves the target.
    fn put_rows<H: BytesPartialDecoderTraits>(
        &self,
        alloc: Global,
        handle: &mut H,
        slot: Slot,
        size: u64,
        rows: &PairedRows,
        target: &mut FixedTarget,
    ) -> Result<bool, CodecError>
        requires inside { IsTrue (H.state handle.old).transparent → HasInterval self.now.interval (H.state handle.old).contents }
        requires plain { IsPlain (spec_of_subchunks self.now.subchunks) (inner_meaning I.meaning self.now.subchunks) size }
        requires fits { FitsSlot self.now.interval.size slot }
        requires from { (count_of self.now.subchunks.shape.now < 2 ^ 64)
            × ((k : ℕ) → k < elements_in_rows rows.now → from_at rows.now k < count_of self.now.subchunks.shape.now) }
        requires element { target_element_size target.old ≡ length self.now.subchunks.fill_value.now }
        requires rows { AreRowsWithin rows.now (count_of (target_shape target.old)) }
        ensures read { IsRead (H.state handle.old) (H.state handle.new) }
        ensures put { let bytes = interval_part self.now.interval (H.state handle.old).contents in
            IfOk result (λ put. IsTrue put → (position : Subset) → AreRowsOf rows.now position (target_shape target.old)
            → IsPartPut (IsTrue (H.state handle.old).transparent) (inner_meaning I.meaning self.now.subchunks).cells self.now.subchunks.fill_value.now bytes slot
            (elements_in_rows rows.now) (from_at rows.now) position target.old target.new) }
        ensures kept { IfOk result (λ put. (¬ (IsTrue put)) → target.new ≡ target.old) }
        ensures left { OnErr result (target.new ≡ target.old) }
        ensures fault { IfErr result (IsCounted (H.state handle.old) (H.state handle.new)) }
        ensures refused { IfErr result (RefusedBy (ObjectRefusals (H.state handle.old) (H.state handle.new) done)) }
    {
        match slot {
            Slot::Absent => {
                target.fill_rows(rows, self.subchunks.fill_value.as_ne_bytes());
                Ok(true)
            }
            Slot::InRange {
                offset,
                size: stored,
            } if stored == size => {
                let mut room = Vec::new(alloc);
                let range = ByteRange::FromStart(self.interval.offset + offset, Some(size));
                let Some(elements) = read_range(handle, &mut room, alloc, range)? else {
                    return Ok(false);
                };
                target.copy_rows(rows, elements);
                Ok(true)
            }
            _ => Ok(false),
        }
    }

    // Copies the cells of a subset to a target, whose subset has the subset's shape, from these subchunks, which are those that it touches.
    // False where `put_rows` puts nothing. Whatever it answers, some elements of the target's subset may have changed, and no other.
    // Refused as `Fault`, where the handle failed, or `OutOfMemory`.
    fn put_touched<H: BytesPartialDecoderTraits>(
        &self,
        alloc: Global,
        handle: &mut H,
        size: u64,
        met: &SubsetInGrid,
        touched: &[u64],
        target: &mut FixedTarget,
    ) -> Result<bool, CodecError>
        requires inside { IsTrue (H.state handle.old).transparent → HasInterval self.now.interval (H.state handle.old).contents }
        requires plain { IsPlain (spec_of_subchunks self.now.subchunks) (inner_meaning I.meaning self.now.subchunks) size }
        requires met { IsInShard self.now.shape.now self.now.subchunks.shape.now met.now }
        requires touched { AreTouched self.now.shape.now self.now.subchunks.shape.now met.now.subset.now touched.now }
        requires below { All (λ k. k < count_of (grid_of self.now.shape.now self.now.subchunks.shape.now)) touched.now }
        requires kind { size_of self.now.subchunks.data_type.now ≡ Fixed (target_element_size target.old) }
        requires same { (target_subset target.old).shape ≡ met.now.subset.now.shape }
        ensures read { IsRead (H.state handle.old) (H.state handle.new) }
        ensures written { IsOverwritten target.old target.new }
        ensures put { let s = self.now.subchunks in let inner = inner_meaning I.meaning s in let bytes = interval_part self.now.interval (H.state handle.old).contents in
            IfOk result (λ put. IsTrue put → IsTrue (H.state handle.old).transparent → IsDecodedInto target.old target.new
            (map (indexed_cell inner.cells self.now.shape.now s.shape.now s.fill_value.now bytes self.now.index.now.numbers.items) (numbers_in met.now.subset.now self.now.shape.now))) }
        ensures fault { IfErr result (IsCounted (H.state handle.old) (H.state handle.new)) }
        ensures refused { IfErr result (RefusedBy (ObjectRefusals (H.state handle.old) (H.state handle.new) done)) }
    {
        let _lengths = target.subset().shape();
        let mut rows = PairedRows::new(alloc);
        for j in 0..touched.len() {
            let number = touched[j];
            met.overlap_rows(number, target, &mut rows)?;
            let slot = self.index.slot(number as usize);
            if !self.put_rows(alloc, handle, slot, size, &rows, target)? {
                return Ok(false);
            }
        }
        Ok(true)
    }

    // Copies the cells of a subset to a target, as `put_touched` does of the subchunks that it touches. False also where the inner codec
    // does not store elements as they are in memory.
    fn put_subset<H: BytesPartialDecoderTraits>(
        &self,
        alloc: Global,
        handle: &mut H,
        subset: &ArraySubset,
        target: &mut FixedTarget,
    ) -> Result<bool, CodecError>
        requires inside { IsTrue (H.state handle.old).transparent → HasInterval self.now.interval (H.state handle.old).contents }
        requires lies { LiesIn subset.now self.now.shape.now }
        requires kind { size_of self.now.subchunks.data_type.now ≡ Fixed (target_element_size target.old) }
        requires same { (target_subset target.old).shape ≡ subset.now.shape }
        ensures read { IsRead (H.state handle.old) (H.state handle.new) }
        ensures written { IsOverwritten target.old target.new }
        ensures put { let s = self.now.subchunks in let inner = inner_meaning I.meaning s in let bytes = interval_part self.now.interval (H.state handle.old).contents in
            IfOk result (λ put. IsTrue put → IsTrue (H.state handle.old).transparent → IsDecodedInto target.old target.new
            (map (indexed_cell inner.cells self.now.shape.now s.shape.now s.fill_value.now bytes self.now.index.now.numbers.items) (numbers_in subset.now self.now.shape.now))) }
        ensures fault { IfErr result (IsCounted (H.state handle.old) (H.state handle.new)) }
        ensures refused { IfErr result (RefusedBy (ObjectRefusals (H.state handle.old) (H.state handle.new) done)) }
    {
        let inner = &self.subchunks;
        let (shape, sub) = (self.shape, inner.shape);
        let Some(size) = inner
            .codec
            .plain_size(sub, inner.data_type, inner.fill_value)
        else {
            return Ok(false);
        };
        let met = SubsetInGrid {
            subset,
            shape,
            sub,
            grid: self.grid,
        };
        if let Some(number) = subset.only_subchunk(shape, sub, self.grid) {
            return self.put_touched(alloc, handle, size, &met, &[number], target);
        }
        let touched = subset.touched_subchunks(alloc, shape, sub)?;
        self.put_touched(alloc, handle, size, &met, &touched, target)
    }

    // The same over the bytes of as many elements, which may have changed whatever it answers.
    fn put_all<H: BytesPartialDecoderTraits>(
        &self,
        alloc: Global,
        handle: &mut H,
        subset: &ArraySubset,
        bytes: &mut [u8],
    ) -> Result<bool, CodecError>
        requires inside { IsTrue (H.state handle.old).transparent → HasInterval self.now.interval (H.state handle.old).contents }
        requires lies { LiesIn subset.now self.now.shape.now }
        requires fixed { size_of self.now.subchunks.data_type.now ≡ Fixed (length self.now.subchunks.fill_value.now) }
        requires count { count_of subset.now.shape < 2 ^ 64 }
        requires whole { length bytes.old ≡ count_of subset.now.shape * length self.now.subchunks.fill_value.now }
        ensures read { IsRead (H.state handle.old) (H.state handle.new) }
        ensures cells { let s = self.now.subchunks in let inner = inner_meaning I.meaning s in let object = interval_part self.now.interval (H.state handle.old).contents in
            IfOk result (λ put. IsTrue put → IsTrue (H.state handle.old).transparent
            → map (indexed_cell inner.cells self.now.shape.now s.shape.now s.fill_value.now object self.now.index.now.numbers.items) (numbers_in subset.now self.now.shape.now)
            ≡ map Some (pieces (length s.fill_value.now) (count_of subset.now.shape) bytes.new)) }
        ensures fault { IfErr result (IsCounted (H.state handle.old) (H.state handle.new)) }
        ensures refused { IfErr result (RefusedBy (ObjectRefusals (H.state handle.old) (H.state handle.new) done)) }
    {
        let element = self.subchunks.fill_value.as_ne_bytes();
        let axes = subset.shape();
        let whole = whole_subset(alloc, axes)?;
        let mut target = FixedTarget::over(bytes, element.len(), axes, &whole);
        let put = self.put_subset(alloc, handle, subset, &mut target)?;
        Ok(put)
    }

    // The bytes of the cells of a subset, of which the count is told. `None` where `put_subset` is false. Refused as `Fault`, where the
    // handle failed, or `OutOfMemory`.
    pub(crate) fn plain_subset<H: BytesPartialDecoderTraits>(
        &self,
        alloc: Global,
        handle: &mut H,
        subset: &ArraySubset,
        count: u64,
    ) -> Result<Option<Vec<u8>>, CodecError>
        requires inside { IsTrue (H.state handle.old).transparent → HasInterval self.now.interval (H.state handle.old).contents }
        requires lies { LiesIn subset.now self.now.shape.now }
        requires fixed { size_of self.now.subchunks.data_type.now ≡ Fixed (length self.now.subchunks.fill_value.now) }
        requires count { count ≡ count_of subset.now.shape }
        requires whole { count * length self.now.subchunks.fill_value.now < 2 ^ 64 }
        ensures read { IsRead (H.state handle.old) (H.state handle.new) }
        ensures counted { IfOk result (λ found. IfSome found (λ bytes. length bytes.items ≡ count * length self.now.subchunks.fill_value.now)) }
        ensures cells { let s = self.now.subchunks in let inner = inner_meaning I.meaning s in let bytes = interval_part self.now.interval (H.state handle.old).contents in
            IfOk result (λ found. IfSome found (λ read. IsTrue (H.state handle.old).transparent
            → map (indexed_cell inner.cells self.now.shape.now s.shape.now s.fill_value.now bytes self.now.index.now.numbers.items) (numbers_in subset.now self.now.shape.now)
            ≡ map Some (pieces (length s.fill_value.now) count read.items))) }
        ensures fault { IfErr result (IsCounted (H.state handle.old) (H.state handle.new)) }
        ensures refused { IfErr result (RefusedBy (ObjectRefusals (H.state handle.old) (H.state handle.new) done)) }
    {
        let inner = &self.subchunks;
        let size = inner
            .codec
            .plain_size(inner.shape, inner.data_type, inner.fill_value);
        if size.is_none() {
            return Ok(None);
        }
        let element = inner.fill_value.as_ne_bytes();
        let mut bytes = Vec::from_elem(alloc, 0, count as usize * element.len())?;
        if !self.put_all(alloc, handle, subset, &mut bytes)? {
            return Ok(None);
        }
        Ok(Some(bytes))
    }

    /// Reads the cells that an indexer requests into a target: where they are a subset of the shape of the target's subset, and the
    /// inner codec stores the elements of each touched subchunk that is present as they are in memory, they are copied from its
    /// slice. False where it is not so. Whatever it answers, some elements of the target's subset may have changed, and no other.
    /// Refused as `Fault`, where the handle failed, or `OutOfMemory`.
    pub fn put_plain_requested<H: BytesPartialDecoderTraits, N: Indexer>(
        &self,
        alloc: Global,
        handle: &mut H,
        indexer: &N,
        target: &mut FixedTarget,
    ) -> Result<bool, CodecError>
        requires inside { IsTrue (H.state handle.old).transparent → HasInterval self.now.interval (H.state handle.old).contents }
        requires selection { IsSelectionOf self.now.shape.now (N.selection indexer.now) }
        requires kind { size_of self.now.subchunks.data_type.now ≡ Fixed (target_element_size target.old) }
        ensures read { IsRead (H.state handle.old) (H.state handle.new) }
        ensures written { IsOverwritten target.old target.new }
        ensures put { let s = self.now.subchunks in let inner = inner_meaning I.meaning s in let bytes = interval_part self.now.interval (H.state handle.old).contents in
            IfOk result (λ put. IsTrue put → IsTrue (H.state handle.old).transparent → IsDecodedInto target.old target.new
            (map (indexed_cell inner.cells self.now.shape.now s.shape.now s.fill_value.now bytes self.now.index.now.numbers.items)
            (numbers_of self.now.shape.now (N.selection indexer.now).points))) }
        ensures fault { IfErr result (IsCounted (H.state handle.old) (H.state handle.new)) }
        ensures refused { IfErr result (RefusedBy (ObjectRefusals (H.state handle.old) (H.state handle.new) done)) }
    {
        let Some(subset) = indexer.as_array_subset() else {
            return Ok(false);
        };
        if !same_axes(target.subset().shape(), subset.shape()) {
            return Ok(false);
        }
        self.put_subset(alloc, handle, subset, target)
    }
}
