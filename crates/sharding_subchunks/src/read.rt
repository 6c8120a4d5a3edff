// Cells of subchunks, read in part through a handle.
ghost use Rattle.std.specs.Prelude.{◌≡◌, ◌≢◌, ◌+◌, ◌*◌, ◌<◌, ℕ, List, [], Some, None, IsTrue, IfOk, IfErr, length, slice_index, slice_index_or};
ghost use Rattle.std.specs.List.{All};
ghost use Rattle.parts_errors.specs.Order.{done, RefusedBy};
ghost use Rattle.parts_row_major.specs.Numbering.{count_of, IsInside};
ghost use Rattle.parts_subsets.specs.Selections.{IsSelectionOf};
ghost use Rattle.parts_subsets.specs.Grid.{grid_of};
ghost use Rattle.parts_arrays.specs.Types.{size_of};
ghost use Rattle.storage_handles.specs.Handles.{IsRead, IsCounted};
ghost use Rattle.storage_handles.specs.Objects.{interval_part, HasInterval, ObjectRefusals};
ghost use Rattle.sharding_format.specs.Index.{slot_at};
ghost use Rattle.sharding_format.specs.steps.Decoding.{FitsSlot, IsPartOf};
ghost use Rattle.sharding_format.specs.ReadRefusals.{numbers_of, AnswerRefusals, RefusesPositions, PositionsRefusals};
ghost use Rattle.sharding_format.specs.steps.Reading.{IsReadAt};
ghost use Rattle.sharding_gather.specs.steps.Grouping.{lists_of, AreGrouped};
ghost use Rattle.sharding_subchunks.specs.steps.Inner.{inner_meaning};

use crate::stored_shard::StoredShard;
use codec_traits::ArrayToBytesCodecTraits;
use parts_arrays::ArrayBytes;
use parts_errors::CodecError;
use parts_subsets::Indexer;
use sharding_format::{Slot, of_stored};
use sharding_gather::{Grouping, Positions};
use std::alloc::Global;
use storage_handles::{BytesPartialDecoderTraits, Interval};

impl<I: ArrayToBytesCodecTraits> StoredShard<'_, I> {
    // The cells that an indexer asks of the subchunk that a slot names, or nothing where it is absent.
    pub(crate) fn read_in_slot<H: BytesPartialDecoderTraits, N: Indexer>(
        &self,
        alloc: Global,
        handle: &mut H,
        number: u64,
        slot: Slot,
        requested: &N,
    ) -> Result<Option<ArrayBytes<'static>>, CodecError>
        requires fits { FitsSlot self.now.interval.size slot }
        requires inside { IsTrue (H.state handle.old).transparent → HasInterval self.now.interval (H.state handle.old).contents }
        requires serves { (inner_meaning I.meaning self.now.subchunks).serves }
        requires selection { IsSelectionOf self.now.subchunks.shape.now (N.selection requested.now) }
        requires points { All (λ point. IsInside point self.now.subchunks.shape.now) (N.selection requested.now).points }
        requires some { (N.selection requested.now).points ≢ [] }
        ensures read { IsRead (H.state handle.old) (H.state handle.new) }
        ensures part { IfOk result (IsPartOf (size_of self.now.subchunks.data_type.now) (length (N.selection requested.now).points)) }
        ensures cells { let s = self.now.subchunks in let inner = inner_meaning I.meaning s in
            IfOk result (λ found. IsTrue (H.state handle.old).transparent
            → IsReadAt inner.cells (interval_part self.now.interval (H.state handle.old).contents) slot (numbers_of s.shape.now (N.selection requested.now).points) found) }
        ensures fault { IfErr result (IsCounted (H.state handle.old) (H.state handle.new)) }
        ensures refused { let s = self.now.subchunks in let inner = inner_meaning I.meaning s in
            IfErr result (RefusedBy (ObjectRefusals (H.state handle.old) (H.state handle.new) (
            RefusesPositions (AnswerRefusals inner.answerable inner.read_refusals) inner.cells s.shape.now
            (interval_part self.now.interval (H.state handle.old).contents) slot (numbers_of s.shape.now (N.selection requested.now).points) number))) }
    {
        match slot {
            Slot::Absent => Ok(None),
            Slot::InRange { offset, size } => {
                let interval = Interval {
                    offset: self.interval.offset + offset,
                    size,
                };
                match self.subchunks.codec.partial_decode(
                    alloc,
                    handle,
                    interval,
                    self.subchunks.shape,
                    self.subchunks.data_type,
                    self.subchunks.fill_value,
                    requested,
                    self.subchunks.options,
                ) {
                    Ok(array) => Ok(Some(array)),
                    Err(error) => Err(of_stored(error)),
                }
            }
            Slot::Bad => Err(CodecError::BadIndexEntry { number }),
        }
    }

    // The cells at some places of the subchunk that a slot names, or nothing where it is absent.
    pub(crate) fn read_slot<H: BytesPartialDecoderTraits>(
        &self,
        alloc: Global,
        handle: &mut H,
        number: u64,
        slot: Slot,
        positions: &[u64],
    ) -> Result<Option<ArrayBytes<'static>>, CodecError>
        requires fits { FitsSlot self.now.interval.size slot }
        requires inside { IsTrue (H.state handle.old).transparent → HasInterval self.now.interval (H.state handle.old).contents }
        requires serves { (inner_meaning I.meaning self.now.subchunks).serves }
        requires some { positions.now ≢ [] }
        requires below { All (λ position. position < count_of self.now.subchunks.shape.now) positions.now }
        ensures read { IsRead (H.state handle.old) (H.state handle.new) }
        ensures part { IfOk result (IsPartOf (size_of self.now.subchunks.data_type.now) (length positions.now)) }
        ensures cells { let s = self.now.subchunks in let inner = inner_meaning I.meaning s in
            IfOk result (λ found. IsTrue (H.state handle.old).transparent
            → IsReadAt inner.cells (interval_part self.now.interval (H.state handle.old).contents) slot positions.now found) }
        ensures fault { IfErr result (IsCounted (H.state handle.old) (H.state handle.new)) }
        ensures refused { let s = self.now.subchunks in let inner = inner_meaning I.meaning s in
            IfErr result (RefusedBy (ObjectRefusals (H.state handle.old) (H.state handle.new) (
            RefusesPositions (AnswerRefusals inner.answerable inner.read_refusals) inner.cells s.shape.now
            (interval_part self.now.interval (H.state handle.old).contents) slot positions.now number))) }
    {
        let requested = Positions::new(self.subchunks.shape, positions);
        self.read_in_slot(alloc, handle, number, slot, &requested)
    }

    /// The cells of each group, in ascending order of their subchunks; nothing of a subchunk that is absent. The lowest
    /// subchunk that is refused gives the refusal: `BadIndexEntry` with its number, `Damaged`, `TooLarge`; or `Fault`, where
    /// the handle failed, or `OutOfMemory`.
    pub fn read_groups<H: BytesPartialDecoderTraits>(
        &self,
        alloc: Global,
        handle: &mut H,
        groups: &Grouping,
    ) -> Result<Vec<Option<ArrayBytes<'static>>>, CodecError>
        requires inside { IsTrue (H.state handle.old).transparent → HasInterval self.now.interval (H.state handle.old).contents }
        requires serves { (inner_meaning I.meaning self.now.subchunks).serves }
        requires below { All (λ k. 2 * k + 1 < length self.now.index.now.numbers.items) groups.now.subchunks.items }
        requires lists { length groups.now.positions.items ≡ length groups.now.subchunks.items }
        requires some { All (λ positions. positions ≢ []) (lists_of groups.now) }
        requires positions_below { All (All (λ position. position < count_of self.now.subchunks.shape.now)) (lists_of groups.now) }
        ensures read { IsRead (H.state handle.old) (H.state handle.new) }
        ensures counted { IfOk result (λ parts. length parts.items ≡ length groups.now.subchunks.items) }
        ensures parts { IfOk result (λ parts. (j : ℕ) → j < length parts.items
            → IsPartOf (size_of self.now.subchunks.data_type.now) (length (slice_index_or (lists_of groups.now) j [])) (slice_index_or parts.items j None)) }
        ensures cells { let s = self.now.subchunks in let inner = inner_meaning I.meaning s in
            IfOk result (λ parts. IsTrue (H.state handle.old).transparent → (j : ℕ) → j < length parts.items
            → IsReadAt inner.cells (interval_part self.now.interval (H.state handle.old).contents)
            (slot_at self.now.interval.size self.now.index.now.numbers.items (slice_index groups.now.subchunks.items j))
            (slice_index_or (lists_of groups.now) j []) (slice_index_or parts.items j None)) }
        ensures fault { IfErr result (IsCounted (H.state handle.old) (H.state handle.new)) }
        ensures refused { let s = self.now.subchunks in let inner = inner_meaning I.meaning s in
            IfErr result (λ e. (shape numbers : List ℕ) → AreGrouped shape s.shape.now numbers groups.now
            → All (λ k. k < count_of (grid_of shape s.shape.now)) groups.now.subchunks.items
            → RefusedBy (ObjectRefusals (H.state handle.old) (H.state handle.new) (
            PositionsRefusals (AnswerRefusals inner.answerable inner.read_refusals) inner.cells shape s.shape.now
            (interval_part self.now.interval (H.state handle.old).contents) (Some self.now.index.now.numbers.items) numbers done)) e) }
    {
        let mut parts = Vec::new(alloc);
        for j in 0..groups.subchunks.len() {
            let number = groups.subchunks[j];
            let slot = self.index.slot(number as usize);
            let positions = groups.positions[j].as_slice();
            let part = self.read_slot(alloc, handle, number, slot, positions)?;
            parts.push(part)?;
        }
        Ok(parts)
    }
}
