// Subchunks of plain numbers, whose bytes the codec `bytes` stores in one of two orders.
ghost use Rattle.std.specs.Prelude.{◌≡◌, ◌<◌, true, false, IfErr, OnOk, OnErr, length, slice_index};
ghost use Rattle.sharding_c.specs.Plain.{AreReversed, PlainTests, mirrored};

use crate::status::Refusal;
use parts_errors::CodecError;

// The byte that comes to a place where each number of a size is reversed.
fn mirrored_byte(bytes: &[u8], size: usize, i: usize) -> u8
    requires { 0 < size }
    ensures { result ≡ slice_index bytes.now (mirrored size i) }
{
    let within = i % size;
    let place = (i - within).saturating_add(size - 1 - within);
    bytes.get(place).copied().unwrap_or(0)
}

/// Writes numbers of a size, each with its bytes in reverse.
pub(crate) fn reverse_numbers(numbers: &[u8], size: usize, room: &mut [u8])
    requires some { 0 < size }
    requires same { length room.old ≡ length numbers.now }
    ensures { AreReversed size numbers.now room.new }
{
    for i in 0..numbers.len() {
        room[i] = mirrored_byte(numbers, size, i);
    }
}

/// Writes the elements that plain numbers of a size are. Refused, in this order, as `WrongElementKind` where a number has no bytes, `Damaged`
/// where the bytes are no whole numbers, and `InvalidNumberOfElements` where the elements have another length; nothing is written then.
pub(crate) fn decode_plain(
    encoded: &[u8],
    number_size: u64,
    is_big: bool,
    elements: &mut [u8],
) -> Result<(), Refusal>
    ensures little { OnOk result (is_big ≡ false → elements.new ≡ encoded.now) }
    ensures big { OnOk result (is_big ≡ true → AreReversed number_size encoded.now elements.new) }
    ensures length { length elements.new ≡ length elements.old }
    ensures kept { OnErr result (elements.new ≡ elements.old) }
    ensures refused { IfErr result (PlainTests number_size (length encoded.now) (length elements.old)) }
{
    if number_size == 0 {
        return Err(Refusal::Codec(CodecError::WrongElementKind));
    }
    if encoded.len() as u64 % number_size != 0 {
        return Err(Refusal::Codec(CodecError::Damaged));
    }
    if elements.len() != encoded.len() {
        return Err(Refusal::Codec(CodecError::InvalidNumberOfElements));
    }
    if is_big {
        reverse_numbers(encoded, number_size as usize, elements);
    } else {
        elements.copy_from_slice(encoded);
    }
    Ok(())
}
