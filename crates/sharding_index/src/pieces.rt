// The numbers of an index, read from an object in pieces.
ghost use Rattle.std.specs.Prelude.{◌≡◌, ◌<◌, ◌+◌, ◌/◌, ◌%◌, ◌^◌, ◌++◌, IsTrue, IfOk, IfErr, OnOk, map, length};
ghost use Rattle.parts_errors.specs.Order.{done, RefusedBy};
ghost use Rattle.parts_row_major.specs.Pieces.{pieces};
ghost use Rattle.storage_handles.specs.Handles.{IsRead, IsCounted};
ghost use Rattle.storage_handles.specs.Objects.{interval_part, HasInterval, ObjectRefusals};
ghost use Rattle.sharding_format.specs.Index.{number_of_element};

use crate::numbers::append_numbers;
use parts_errors::CodecError;
use std::alloc::Global;
use storage_handles::{ByteRange, BytesPartialDecoderTraits, Interval, read_range};

// How many numbers of an index are read at once.
pub(crate) const PIECE: u64 = 8192;

// Puts the numbers that the bytes of an interval are, eight bytes each, behind others. The bytes are read at once.
fn read_piece<H: BytesPartialDecoderTraits>(
    alloc: Global,
    handle: &mut H,
    interval: Interval,
    numbers: &mut Vec<u64>,
) -> Result<(), CodecError>
    requires whole { interval.size % 8 ≡ 0 }
    requires inside { IsTrue (H.state handle.old).transparent → HasInterval interval (H.state handle.old).contents }
    ensures read { IsRead (H.state handle.old) (H.state handle.new) }
    ensures numbers { OnOk result (IsTrue (H.state handle.old).transparent → numbers.new.items ≡ numbers.old.items
        ++ map number_of_element (pieces 8 (interval.size / 8) (interval_part interval (H.state handle.old).contents))) }
    ensures counted { OnOk result (length numbers.new.items ≡ length numbers.old.items + interval.size / 8) }
    ensures fault { IfErr result (IsCounted (H.state handle.old) (H.state handle.new)) }
    ensures refused { IfErr result (RefusedBy (ObjectRefusals (H.state handle.old) (H.state handle.new) done)) }
{
    let range = ByteRange::FromStart(interval.offset, Some(interval.size));
    let mut room = Vec::new(alloc);
    let Some(bytes) = read_range(handle, &mut room, alloc, range)? else {
        return Err(CodecError::OutOfBounds);
    };
    append_numbers(numbers, bytes)?;
    Ok(())
}

// The numbers that the bytes of an interval are, eight bytes each. They are read in pieces, so that of the bytes no more than a
// piece is in memory.
pub(crate) fn read_numbers<H: BytesPartialDecoderTraits>(
    alloc: Global,
    handle: &mut H,
    interval: Interval,
) -> Result<Vec<u64>, CodecError>
    requires whole { interval.size % 8 ≡ 0 }
    requires room { interval.offset + interval.size < 2 ^ 64 }
    requires inside { IsTrue (H.state handle.old).transparent → HasInterval interval (H.state handle.old).contents }
    ensures read { IsRead (H.state handle.old) (H.state handle.new) }
    ensures numbers { IfOk result (λ numbers. IsTrue (H.state handle.old).transparent
        → numbers.items ≡ map number_of_element (pieces 8 (interval.size / 8) (interval_part interval (H.state handle.old).contents))) }
    ensures counted { IfOk result (λ numbers. length numbers.items ≡ interval.size / 8) }
    ensures fault { IfErr result (IsCounted (H.state handle.old) (H.state handle.new)) }
    ensures refused { IfErr result (RefusedBy (ObjectRefusals (H.state handle.old) (H.state handle.new) done)) }
{
    let count = interval.size / 8;
    let mut numbers = Vec::with_capacity(alloc, count as usize)?;
    for piece in 0..count.div_ceil(PIECE) {
        let first = piece * PIECE;
        let many = (count - first).min(PIECE);
        let part = Interval {
            offset: interval.offset + first * 8,
            size: many * 8,
        };
        read_piece(alloc, handle, part, &mut numbers)?;
    }
    Ok(numbers)
}
