// The listed cells of a shard in memory, each read alone where the inner codec stores the elements as they are in memory.
ghost use Rattle.std.specs.Prelude.{◌≡◌, ◌+◌, ◌*◌, ◌^◌, ◌<◌, ◌≤◌, Some, IsTrue, IfOk, IfErr, IfSome, map, length};
ghost use Rattle.std.specs.List.{All};
ghost use Rattle.parts_errors.specs.Order.{done, RefusedBy};
ghost use Rattle.parts_row_major.specs.Numbering.{count_of};
ghost use Rattle.parts_row_major.specs.Pieces.{pieces};
ghost use Rattle.parts_row_major.specs.Subsets.{numbers_in};
ghost use Rattle.storage_handles.specs.Handles.{IsRead, IsCounted};
ghost use Rattle.storage_handles.specs.Objects.{interval_part, HasInterval, ObjectRefusals};
ghost use Rattle.codec_traits.specs.Encodings.{IsPlain};
ghost use Rattle.sharding_format.specs.Cells.{cell_in, indexed_cell};
ghost use Rattle.sharding_format.specs.steps.Decoding.{FitsSlot};
ghost use Rattle.sharding_format.specs.steps.Reading.{ReadByRefusals};
ghost use Rattle.sharding_subchunks.specs.steps.Inner.{spec_of_subchunks, inner_meaning};
ghost use Rattle.sharding_subchunks.specs.Reads.{IsAppended};

use crate::stored_shard::StoredShard;
use codec_traits::ArrayToBytesCodecTraits;
use parts_errors::CodecError;
use parts_row_major::ravel_indices;
use parts_subsets::{ArraySubset, Located};
use sharding_format::Slot;
use sharding_gather::located;
use std::alloc::Global;
use storage_handles::{ByteRange, BytesPartialDecoderTraits, read_range};

impl<I: ArrayToBytesCodecTraits> StoredShard<'_, I> {
    // Puts the stored element at a place of the subchunk that a slot names behind bytes that are there: the fill value where it is
    // absent. `false`, with the bytes left, where the entry is bad, the slice has another size than the elements of a subchunk have
    // together, or there is no object. Refused as `Fault`, where the handle failed, or `OutOfMemory`.
    fn append_element<H: BytesPartialDecoderTraits>(
        &self,
        alloc: Global,
        handle: &mut H,
        slot: Slot,
        position: u64,
        size: u64,
        read: &mut Vec<u8>,
    ) -> Result<bool, CodecError>
        requires inside { IsTrue (H.state handle.old).transparent → HasInterval self.now.interval (H.state handle.old).contents }
        requires plain { IsPlain (spec_of_subchunks self.now.subchunks) (inner_meaning I.meaning self.now.subchunks) size }
        requires fits { FitsSlot self.now.interval.size slot }
        requires position { position < count_of self.now.subchunks.shape.now }
        requires within { position * length self.now.subchunks.fill_value.now + length self.now.subchunks.fill_value.now ≤ size }
        ensures read { IsRead (H.state handle.old) (H.state handle.new) }
        ensures element { let bytes = interval_part self.now.interval (H.state handle.old).contents in
            IfOk result (λ put. IsTrue put → IsAppended (length self.now.subchunks.fill_value.now) (H.state handle.old)
            (cell_in (inner_meaning I.meaning self.now.subchunks).cells self.now.subchunks.fill_value.now bytes slot position) read.old.items read.new.items) }
        ensures fault { IfErr result (IsCounted (H.state handle.old) (H.state handle.new)) }
        ensures refused { IfErr result (RefusedBy (ObjectRefusals (H.state handle.old) (H.state handle.new) done)) }
    {
        let fill = self.subchunks.fill_value.as_ne_bytes();
        match slot {
            Slot::Absent => {
                read.extend_from_slice(fill)?;
                Ok(true)
            }
            Slot::InRange {
                offset,
                size: stored,
            } if stored == size => {
                let len = fill.len() as u64;
                let from = self.interval.offset + (offset + position * len);
                let mut room = Vec::new(alloc);
                let range = ByteRange::FromStart(from, Some(len));
                let Some(element) = read_range(handle, &mut room, alloc, range)? else {
                    return Ok(false);
                };
                read.extend_from_slice(element)?;
                Ok(true)
            }
            _ => Ok(false),
        }
    }

    // The bytes of the cells with these row-major numbers, one after the other; the elements of each subchunk are stored in so many
    // bytes. `None` where `append_element` puts nothing. Refused as `Fault`, where the handle failed, or `OutOfMemory`.
    fn plain_cells<H: BytesPartialDecoderTraits>(
        &self,
        alloc: Global,
        handle: &mut H,
        numbers: &[u64],
        size: u64,
    ) -> Result<Option<Vec<u8>>, CodecError>
        requires inside { IsTrue (H.state handle.old).transparent → HasInterval self.now.interval (H.state handle.old).contents }
        requires plain { IsPlain (spec_of_subchunks self.now.subchunks) (inner_meaning I.meaning self.now.subchunks) size }
        requires numbers { All (λ number. number < count_of self.now.shape.now) numbers.now }
        requires whole { length numbers.now * length self.now.subchunks.fill_value.now < 2 ^ 64 }
        ensures read { IsRead (H.state handle.old) (H.state handle.new) }
        ensures counted { IfOk result (λ found. IfSome found (λ read.
            length read.items ≡ length numbers.now * length self.now.subchunks.fill_value.now)) }
        ensures cells { let s = self.now.subchunks in let inner = inner_meaning I.meaning s in let bytes = interval_part self.now.interval (H.state handle.old).contents in
            IfOk result (λ found. IfSome found (λ read. IsTrue (H.state handle.old).transparent
            → map (indexed_cell inner.cells self.now.shape.now s.shape.now s.fill_value.now bytes self.now.index.now.numbers.items) numbers.now
            ≡ map Some (pieces (length s.fill_value.now) (length numbers.now) read.items))) }
        ensures fault { IfErr result (IsCounted (H.state handle.old) (H.state handle.new)) }
        ensures refused { IfErr result (RefusedBy (ObjectRefusals (H.state handle.old) (H.state handle.new) done)) }
    {
        let count = numbers.len() * self.subchunks.fill_value.as_ne_bytes().len();
        let cells = self.shape.as_slice();
        let sub = self.subchunks.shape.as_slice();
        let mut read = Vec::with_capacity(alloc, count)?;
        for i in 0..numbers.len() {
            let Located { subchunk, position } = located(numbers[i], cells, sub);
            let slot = self.index.slot(subchunk as usize);
            if !self.append_element(alloc, handle, slot, position, size, &mut read)? {
                return Ok(None);
            }
        }
        Ok(Some(read))
    }

    // The bytes of the cells with these row-major numbers, one after the other, where the handle holds the shard in memory and the
    // inner codec stores the elements as they are in memory. `None` where this is not so, or where a subchunk is stored in other
    // bytes than its elements have. Asks for those elements alone. Refused as `Fault`, where the handle failed, or `OutOfMemory`.
    pub(crate) fn read_plain<H: BytesPartialDecoderTraits>(
        &self,
        alloc: Global,
        handle: &mut H,
        numbers: &[u64],
    ) -> Result<Option<Vec<u8>>, CodecError>
        requires inside { IsTrue (H.state handle.old).transparent → HasInterval self.now.interval (H.state handle.old).contents }
        requires numbers { All (λ number. number < count_of self.now.shape.now) numbers.now }
        requires whole { length numbers.now * length self.now.subchunks.fill_value.now < 2 ^ 64 }
        ensures read { IsRead (H.state handle.old) (H.state handle.new) }
        ensures counted { IfOk result (λ found. IfSome found (λ read.
            length read.items ≡ length numbers.now * length self.now.subchunks.fill_value.now)) }
        ensures cells { let s = self.now.subchunks in let inner = inner_meaning I.meaning s in let bytes = interval_part self.now.interval (H.state handle.old).contents in
            IfOk result (λ found. IfSome found (λ read. IsTrue (H.state handle.old).transparent
            → map (indexed_cell inner.cells self.now.shape.now s.shape.now s.fill_value.now bytes self.now.index.now.numbers.items) numbers.now
            ≡ map Some (pieces (length s.fill_value.now) (length numbers.now) read.items))) }
        ensures fault { IfErr result (IsCounted (H.state handle.old) (H.state handle.new)) }
        ensures refused { let s = self.now.subchunks in let inner = inner_meaning I.meaning s in let bytes = interval_part self.now.interval (H.state handle.old).contents in
            IfErr result (RefusedBy (ObjectRefusals (H.state handle.old) (H.state handle.new) (
            ReadByRefusals inner self.now.shape.now s.shape.now s.fill_value.now bytes self.now.index.now.numbers.items numbers.now))) }
    {
        let inner = &self.subchunks;
        let Some(size) = inner
            .codec
            .plain_size(inner.shape, inner.data_type, inner.fill_value)
        else {
            return Ok(None);
        };
        if (handle.size_held() as u64) < self.interval.size {
            return Ok(None);
        }
        self.plain_cells(alloc, handle, numbers, size)
    }

    // The bytes of the cell of a subset that has one, as `read_plain`. `None` where that is none, or the cell is outside the shard.
    pub(crate) fn plain_cell<H: BytesPartialDecoderTraits>(
        &self,
        alloc: Global,
        handle: &mut H,
        subset: &ArraySubset,
    ) -> Result<Option<Vec<u8>>, CodecError>
        requires inside { IsTrue (H.state handle.old).transparent → HasInterval self.now.interval (H.state handle.old).contents }
        requires one { count_of subset.now.shape ≡ 1 }
        requires whole { length self.now.subchunks.fill_value.now < 2 ^ 64 }
        ensures read { IsRead (H.state handle.old) (H.state handle.new) }
        ensures counted { IfOk result (λ found. IfSome found (λ read. length read.items ≡ length self.now.subchunks.fill_value.now)) }
        ensures cells { let s = self.now.subchunks in let inner = inner_meaning I.meaning s in let bytes = interval_part self.now.interval (H.state handle.old).contents in
            IfOk result (λ found. IfSome found (λ read. IsTrue (H.state handle.old).transparent
            → map (indexed_cell inner.cells self.now.shape.now s.shape.now s.fill_value.now bytes self.now.index.now.numbers.items) (numbers_in subset.now self.now.shape.now)
            ≡ map Some (pieces (length s.fill_value.now) 1 read.items))) }
        ensures fault { IfErr result (IsCounted (H.state handle.old) (H.state handle.new)) }
        ensures refused { let s = self.now.subchunks in let inner = inner_meaning I.meaning s in let bytes = interval_part self.now.interval (H.state handle.old).contents in
            IfErr result (RefusedBy (ObjectRefusals (H.state handle.old) (H.state handle.new) (
            ReadByRefusals inner self.now.shape.now s.shape.now s.fill_value.now bytes self.now.index.now.numbers.items (numbers_in subset.now self.now.shape.now)))) }
    {
        let Some(number) = ravel_indices(subset.start(), self.shape.as_slice()) else {
            return Ok(None);
        };
        let read = self.read_plain(alloc, handle, &[number])?;
        Ok(read)
    }
}
