// The index of a shard: where it stands, and its numbers.
ghost use Rattle.std.specs.Prelude.{◌≡◌, ◌↔◌, ◌<◌, ◌≤◌, ◌+◌, ◌*◌, ◌++◌, ℕ, IsTrue, IfOk, IfErr, OnOk, OnErr, length, slice_index, drop, flat_map};
ghost use Rattle.std.specs.Int.{to_le_bytes, w32};
ghost use Rattle.parts_errors.specs.declared.error.CodecError.TheVariants.{OutOfMemory};
ghost use Rattle.codec_checksums.specs.Castagnoli.{checksum};
ghost use Rattle.sharding_c.specs.Layouts.{index_size, subchunks_of, IsLaidOut, IsIndexRange, IsIndex, AreIndexNumbers, number_as, number_at, number_bytes, index_bytes};
ghost use Rattle.sharding_c.specs.Exports.{IndexRangeTests, IndexReadTests, IndexWriteTests};

use crate::layout::{AT_START, BIG_ENDIAN, CRC32C, Layout, Range, has, shard_of};
use crate::status::Refusal;
use codec_checksums::crc32c;
use parts_errors::CodecError;
use std::alloc::{AllocError, Global};

/// The range of the index in an object of `len` bytes. Refused, in this order, as the layout is, and as `ShardTooShort` where the object
/// is shorter than its index.
pub(crate) fn index_range(alloc: Global, layout: &Layout, len: u64) -> Result<Range, Refusal>
    ensures range { IfOk result (IsIndexRange layout.now len) }
    ensures laid { OnOk result (IsLaidOut layout.now) }
    ensures refused { IfErr result (IndexRangeTests layout.now len) }
{
    let size = shard_of(alloc, layout)?.index_size;
    if len < size {
        return Err(Refusal::Codec(CodecError::ShardTooShort));
    }
    let offset = if has(layout.index, AT_START) {
        0
    } else {
        len - size
    };
    Ok(Range { offset, size })
}

// Number i of an index.
fn number_in(is_big: bool, bytes: &[u8], i: usize) -> u64
    requires within { 8 * i + 8 ≤ length bytes.now }
    ensures { result ≡ number_as is_big bytes.now i }
{
    let Some(number) = bytes[8 * i..].first_chunk::<8>() else {
        unreachable!()
    };
    if is_big {
        u64::from_be_bytes(*number)
    } else {
        u64::from_le_bytes(*number)
    }
}

// Reads the numbers of an index.
fn read_numbers(flags: u32, bytes: &[u8], numbers: &mut [u64])
    requires whole { 8 * length numbers.old ≤ length bytes.now }
    ensures length { length numbers.new ≡ length numbers.old }
    ensures read { (i : ℕ) → i < length numbers.old → slice_index numbers.new i ≡ number_at flags bytes.now i }
{
    let is_big = has(flags, BIG_ENDIAN);
    for i in 0..numbers.len() {
        numbers[i] = number_in(is_big, bytes, i);
    }
}

// Whether the checksum that follows the numbers of an index is theirs.
fn is_checked(bytes: &[u8], trailer: &[u8]) -> bool
    ensures { IsTrue result ↔ (trailer.now ≡ to_le_bytes w32 (checksum bytes.now)) }
{
    let checksum = crc32c(bytes).to_le_bytes();
    trailer == checksum.as_slice()
}

// Whether bytes are an index with an entry of each subchunk.
fn is_index(flags: u32, subchunks: u64, size: u64, bytes: &[u8]) -> bool
    requires { size ≡ index_size flags subchunks }
    ensures { IsTrue result ↔ IsIndex flags subchunks bytes.now }
{
    if bytes.len() as u64 != size {
        return false;
    }
    if !has(flags, CRC32C) {
        return true;
    }
    let (numbers, trailer) = bytes.split_at(bytes.len() - 4);
    is_checked(numbers, trailer)
}

/// Writes the numbers of an index, two for each subchunk, to the front of a room, and returns how many they are. Refused, in this order, as
/// the layout is, `RoomTooSmall`, and `Damaged` where the bytes are no index; nothing is written then.
pub(crate) fn read_index(
    alloc: Global,
    layout: &Layout,
    bytes: &[u8],
    room: &mut [u64],
) -> Result<u64, Refusal>
    ensures many { IfOk result (λ many. many ≡ 2 * subchunks_of layout.now) }
    ensures numbers { OnOk result (AreIndexNumbers layout.now.index (2 * subchunks_of layout.now) bytes.now room.old room.new) }
    ensures laid { OnOk result (IsLaidOut layout.now) }
    ensures index { OnOk result (IsIndex layout.now.index (subchunks_of layout.now) bytes.now) }
    ensures length { length room.new ≡ length room.old }
    ensures kept { OnErr result (room.new ≡ room.old) }
    ensures refused { IfErr result (IndexReadTests layout.now bytes.now (length room.old)) }
{
    let shard = shard_of(alloc, layout)?;
    let many = 2 * shard.subchunks;
    if many > room.len() as u64 {
        return Err(Refusal::RoomTooSmall { room: many });
    }
    if !is_index(layout.index, shard.subchunks, shard.index_size, bytes) {
        return Err(Refusal::Codec(CodecError::Damaged));
    }
    read_numbers(layout.index, bytes, &mut room[..many as usize]);
    Ok(many)
}

// The bytes of these numbers, one after the other.
fn bytes_of_numbers(alloc: Global, is_big: bool, numbers: &[u64]) -> Result<Vec<u8>, AllocError>
    ensures { IfOk result (λ bytes. bytes.items ≡ flat_map (number_bytes is_big) numbers.now) }
{
    let mut bytes = Vec::new(alloc);
    for number in numbers {
        let number = *number;
        let part = if is_big {
            number.to_be_bytes()
        } else {
            number.to_le_bytes()
        };
        bytes.extend_from_slice(part.as_slice())?;
    }
    Ok(bytes)
}

/// The bytes of an index of these numbers. Refused only as out of memory.
pub(crate) fn index_of_numbers(
    alloc: Global,
    flags: u32,
    numbers: &[u64],
) -> Result<Vec<u8>, CodecError>
    ensures bytes { IfOk result (λ bytes. bytes.items ≡ index_bytes flags numbers.now) }
    ensures refused { IfErr result (λ e. e ≡ OutOfMemory) }
{
    let mut bytes = bytes_of_numbers(alloc, has(flags, BIG_ENDIAN), numbers)?;
    if has(flags, CRC32C) {
        let checksum = crc32c(&bytes).to_le_bytes();
        bytes.extend_from_slice(checksum.as_slice())?;
    }
    Ok(bytes)
}

/// Writes the bytes of an index of these numbers to the front of a room, and returns how many they are. Refused, in this order, as the layout
/// is, `InvalidNumberOfElements` where there are other than two numbers for each subchunk, and as `RoomTooSmall`; nothing is written then.
pub(crate) fn write_index(
    alloc: Global,
    layout: &Layout,
    numbers: &[u64],
    room: &mut [u8],
) -> Result<u64, Refusal>
    ensures size { IfOk result (λ size. size ≡ length (index_bytes layout.now.index numbers.now)) }
    ensures counted { OnOk result (length numbers.now ≡ 2 * subchunks_of layout.now) }
    ensures written { OnOk result (room.new ≡ index_bytes layout.now.index numbers.now ++ drop (length (index_bytes layout.now.index numbers.now)) room.old) }
    ensures length { length room.new ≡ length room.old }
    ensures kept { OnErr result (room.new ≡ room.old) }
    ensures refused { IfErr result (IndexWriteTests layout.now numbers.now (length room.old)) }
{
    let shard = shard_of(alloc, layout)?;
    if numbers.len() as u64 != 2 * shard.subchunks {
        return Err(Refusal::Codec(CodecError::InvalidNumberOfElements));
    }
    let bytes = index_of_numbers(alloc, layout.index, numbers)?;
    let size = bytes.len();
    if size > room.len() {
        return Err(Refusal::RoomTooSmall { room: size as u64 });
    }
    room[..size].copy_from_slice(&bytes);
    Ok(size as u64)
}
