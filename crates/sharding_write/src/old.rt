// The old cells of a subchunk, read through a handle.
ghost use Rattle.std.specs.Prelude.{◌≡◌, ◌<◌, IsTrue, IfOk, IfErr, OnOk, Some, map};
ghost use Rattle.parts_errors.specs.Order.{RefusedBy};
ghost use Rattle.parts_row_major.specs.Numbering.{count_of};
ghost use Rattle.parts_arrays.specs.Types.{size_of, HasElements, FitsKind};
ghost use Rattle.parts_arrays.specs.ArraySpec.{IsArrayOf};
ghost use Rattle.storage_handles.specs.Handles.{IsRead, IsCounted};
ghost use Rattle.storage_handles.specs.Objects.{ObjectRefusals};
ghost use Rattle.storage_handles.specs.Writes.{bytes_of};
ghost use Rattle.sharding_format.specs.DecodeRefusals.{RefusesStored, HasArray};
ghost use Rattle.sharding_subchunks.specs.steps.Inner.{spec_of_subchunks, inner_meaning};
ghost use Rattle.sharding_write.specs.OldCells.{HasSlice, AreCellsOf, RefusesOld};

use codec_traits::ArrayToBytesCodecTraits;
use parts_arrays::ArrayBytes;
use parts_errors::CodecError;
use sharding_format::{Slot, of_stored};
use sharding_gather::filled;
use sharding_subchunks::Subchunks;
use std::alloc::Global;
use storage_handles::{ByteRange, BytesPartialDecoderTraits, read_range};

// The array that the stored bytes of a subchunk stand for, with bytes of its own.
fn decoded<I: ArrayToBytesCodecTraits>(
    subchunks: &Subchunks<'_, I>,
    alloc: Global,
    part: &[u8],
) -> Result<ArrayBytes<'static>, CodecError>
    requires serves { (inner_meaning I.meaning subchunks.now).serves }
    ensures kind { IfOk result (λ array. array.kind ≡ size_of subchunks.now.data_type.now) }
    ensures array { IfOk result (λ array. IsArrayOf (spec_of_subchunks subchunks.now) array.elements) }
    ensures cells { let inner = inner_meaning I.meaning subchunks.now in
        IfOk result (λ array. inner.cells part.now ≡ map Some array.elements) }
    ensures refused { let inner = inner_meaning I.meaning subchunks.now in
        IfErr result (RefusedBy (RefusesStored (inner.decode_refusals part.now) (inner.cells part.now))) }
{
    match subchunks.codec.decode(
        alloc,
        part,
        subchunks.shape,
        subchunks.data_type,
        subchunks.fill_value,
        subchunks.options,
    ) {
        Ok(array) => Ok(array.into_owned(alloc)?),
        Err(error) => Err(of_stored(error)),
    }
}

// The old cells of the subchunk that a slot names: fill values where it is absent, and else those of its slice.
pub fn old_cells<I: ArrayToBytesCodecTraits, H: BytesPartialDecoderTraits>(
    subchunks: &Subchunks<'_, I>,
    alloc: Global,
    handle: &mut H,
    positions: u64,
    number: u64,
    slot: Slot,
) -> Result<ArrayBytes<'static>, CodecError>
    requires serves { (inner_meaning I.meaning subchunks.now).serves }
    requires supported { HasElements subchunks.now.data_type.now }
    requires fill { FitsKind (size_of subchunks.now.data_type.now) subchunks.now.fill_value.now }
    requires positions { positions ≡ count_of subchunks.now.shape.now }
    requires there { IsTrue (H.state handle.old).transparent → HasSlice (H.state handle.old).contents slot }
    ensures read { IsRead (H.state handle.old) (H.state handle.new) }
    ensures kind { IfOk result (λ array. array.kind ≡ size_of subchunks.now.data_type.now) }
    ensures array { IfOk result (λ array. IsArrayOf (spec_of_subchunks subchunks.now) array.elements) }
    ensures cells { let inner = inner_meaning I.meaning subchunks.now in let bytes = bytes_of (H.state handle.old).contents in
        IfOk result (λ array. IsTrue (H.state handle.old).transparent
        → AreCellsOf inner.cells subchunks.now.fill_value.now bytes slot (count_of subchunks.now.shape.now) array.elements) }
    ensures passed { let inner = inner_meaning I.meaning subchunks.now in let bytes = bytes_of (H.state handle.old).contents in
        OnOk result (IsTrue (H.state handle.old).transparent → HasArray inner.cells bytes slot) }
    ensures fault { IfErr result (IsCounted (H.state handle.old) (H.state handle.new)) }
    ensures refused { let inner = inner_meaning I.meaning subchunks.now in let bytes = bytes_of (H.state handle.old).contents in
        IfErr result (RefusedBy (ObjectRefusals (H.state handle.old) (H.state handle.new) (
        RefusesOld inner (count_of subchunks.now.shape.now) subchunks.now.fill_value.now bytes slot number))) }
{
    match slot {
        Slot::Absent => filled(alloc, subchunks.data_type, positions, subchunks.fill_value),
        Slot::InRange { offset, size } => {
            let range = ByteRange::FromStart(offset, Some(size));
            let mut room = Vec::new(alloc);
            let Some(part) = read_range(handle, &mut room, alloc, range)? else {
                return Err(CodecError::OutOfBounds);
            };
            let array = decoded(subchunks, alloc, part)?;
            Ok(array)
        }
        Slot::Bad => Err(CodecError::BadIndexEntry { number }),
    }
}
