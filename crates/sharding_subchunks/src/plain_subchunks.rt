// Subchunks that the inner codec stores as their elements, copied to or from where these lie in the whole shard.
ghost use Rattle.std.specs.Prelude.{◌≡◌, ◌*◌, ◌^◌, ◌<◌, IsTrue, false, IfOk, IfErr, IfSome, OnErr, length};
ghost use Rattle.parts_row_major.specs.Numbering.{count_of};
ghost use Rattle.parts_row_major.specs.Pieces.{piece};
ghost use Rattle.parts_subsets.specs.Grid.{Divides, grid_of, cell_number, subset_of_subchunk, subchunk};
ghost use Rattle.parts_errors.specs.declared.error.CodecError.TheVariants.{OutOfMemory};
ghost use Rattle.sharding_format.specs.Laying.{IsStoredAfter};
ghost use Rattle.sharding_format.specs.steps.Decoding.{FitsSlot};
ghost use Rattle.sharding_layout.specs.steps.Cutting.{CanBeCut};
ghost use Rattle.sharding_subchunks.specs.steps.Inner.{spec_of_subchunks, inner_meaning};
ghost use Rattle.sharding_subchunks.specs.steps.PlainSubchunks.{ArePlainSubchunks, IsPlainCut};
ghost use Rattle.sharding_subchunks.specs.steps.Writes.{IsSlotWritten};

use crate::held_shard::HeldShard;
use crate::subchunks::Subchunks;
use codec_traits::ArrayToBytesCodecTraits;
use parts_errors::CodecError;
use parts_subsets::{ArraySubset, ChunkShape};
use sharding_format::Slot;
use sharding_gather::SubchunkRows;
use sharding_layout::{CutArray, slot_after, zeros_after};

/// Subchunks that the inner codec stores as their elements: how many bytes each has, and where its elements lie in the whole shard.
#[derive(Drop)]
pub(crate) struct PlainSubchunks<'a> {
    pub size: u64,
    pub rows: SubchunkRows<'a>,
}

/// An array that is cut into such subchunks, and the bytes of its elements.
#[derive(Drop)]
pub(crate) struct PlainCut<'a> {
    pub bytes: &'a [u8],
    pub subchunks: PlainSubchunks<'a>,
}

impl<I: ArrayToBytesCodecTraits> Subchunks<'_, I> {
    /// How the subchunks of a shard lie, by the first of them, where the inner codec stores elements as they are in memory.
    pub(crate) fn plain_in<'a>(
        &'a self,
        shape: &'a ChunkShape,
        grid: &'a ChunkShape,
        first: &'a ArraySubset,
    ) -> Option<PlainSubchunks<'a>>
        requires divides { Divides self.now.shape.now shape.now }
        requires fits { count_of shape.now < 2 ^ 64 }
        requires grid { grid.now ≡ grid_of shape.now self.now.shape.now }
        requires first { first.now ≡ subset_of_subchunk shape.now self.now.shape.now 0 }
        ensures { IfSome result (ArePlainSubchunks (spec_of_subchunks self.now) (inner_meaning I.meaning self.now) shape.now) }
    {
        let size = self
            .codec
            .plain_size(self.shape, self.data_type, self.fill_value)?;
        let many = grid.num_elements()?;
        let rows = SubchunkRows::new(shape, self.shape, grid, many, first);
        Some(PlainSubchunks { size, rows })
    }

    /// The same of an array that is cut, where its elements have one size.
    pub(crate) fn plain_cut<'a>(
        &'a self,
        cut: &'a CutArray,
        first: &'a ArraySubset,
    ) -> Option<PlainCut<'a>>
        requires cut { CanBeCut (spec_of_subchunks self.now) cut.now }
        requires first { first.now ≡ subset_of_subchunk cut.now.shape.now self.now.shape.now 0 }
        ensures { IfSome result (IsPlainCut (spec_of_subchunks self.now) (inner_meaning I.meaning self.now) cut.now) }
    {
        let bytes = cut.array.fixed_bytes()?;
        let subchunks = self.plain_in(cut.shape, cut.grid, first)?;
        Some(PlainCut { bytes, subchunks })
    }

    /// Puts the elements of the subchunk with a number behind bytes that are there, where it isn't all fill, and tells where they stand.
    /// Refused only as out of memory, which leaves the bytes.
    pub(crate) fn store_gathered(
        &self,
        _cut: &CutArray,
        plain: &PlainCut,
        number: u64,
        slices: &mut Vec<u8>,
    ) -> Result<Slot, CodecError>
        requires cut { CanBeCut (spec_of_subchunks self.now) _cut.now }
        requires plain { IsPlainCut (spec_of_subchunks self.now) (inner_meaning I.meaning self.now) _cut.now plain.now }
        requires below { number < count_of _cut.now.grid.now }
        ensures stored { let inner = inner_meaning I.meaning self.now in
            IfOk result (IsStoredAfter inner.written self.now.fill_value.now
            (subchunk _cut.now.shape.now self.now.shape.now _cut.now.array.now.elements number) slices.old.items slices.new.items) }
        ensures kept { OnErr result (slices.new.items ≡ slices.old.items) }
        ensures refused { IfErr result (λ e. e ≡ OutOfMemory) }
    {
        let PlainSubchunks { size, rows } = &plain.subchunks;
        let fill = self.fill_value;
        let element = fill.as_ne_bytes().len();
        let from = slices.len();
        zeros_after(slices, *size as usize)?;
        rows.gather_at(slices, from, plain.bytes, element, number);
        Ok(slot_after(slices, from, fill))
    }
}

impl<I: ArrayToBytesCodecTraits> HeldShard<'_, '_, I> {
    /// Copies the subchunk that a slot names to where its elements lie among those of the shard, which have these bytes. `false`, with
    /// the bytes left, where the slot has no slice of as many bytes.
    pub(crate) fn put_plain_slice(
        &self,
        number: u64,
        slot: Slot,
        plain: &PlainSubchunks,
        output: &mut [u8],
    ) -> bool
        requires slot { FitsSlot (length self.now.bytes.now) slot }
        requires whole { length output.old ≡ count_of self.now.shape.now * length self.now.subchunks.now.fill_value.now }
        requires below { number < count_of (grid_of self.now.shape.now self.now.subchunks.now.shape.now) }
        requires plain { ArePlainSubchunks (spec_of_subchunks self.now.subchunks.now) (inner_meaning I.meaning self.now.subchunks.now) self.now.shape.now plain.now }
        ensures written { let s = self.now.subchunks.now in let inner = inner_meaning I.meaning s in let size = length s.fill_value.now in
            IsTrue result → IsSlotWritten inner.cells s.fill_value.now self.now.bytes.now slot (count_of s.shape.now) (cell_number self.now.shape.now s.shape.now number)
            (piece size output.old) (piece size output.new) }
        ensures kept { result ≡ false → output.new ≡ output.old }
    {
        let Slot::InRange { offset, size } = slot else {
            return false;
        };
        if plain.size != size {
            return false;
        }
        let rest = &self.bytes[offset as usize..];
        let element = self.subchunks.fill_value.as_ne_bytes().len();
        plain
            .rows
            .scatter(output, element, number, &rest[..size as usize]);
        true
    }
}
