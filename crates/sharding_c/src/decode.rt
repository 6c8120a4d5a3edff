// Subchunks of plain numbers, and those that gzip or zstd compressed, decoded into a room.
ghost use Rattle.std.specs.Prelude.{◌≡◌, ◌≢◌, ◌≤◌, ◌++◌, length, drop};
ghost use Rattle.codec_gzip.specs.Gzip.{gunzipped};
ghost use Rattle.codec_zstd.specs.Frames.{decompressed};
ghost use Rattle.sharding_c.specs.Plain.{AreReversed, PlainTests};
ghost use Rattle.sharding_c.specs.Statuses.{IsRefused};
ghost use Rattle.sharding_c.specs.Decodings.{IsDecoded, IsDecodingRefused, status_of_decoding};

use crate::layout::Told;
use crate::plain::decode_plain;
use codec_compression::DecompressError;
use codec_gzip::gunzip;
use codec_zstd::unzstd;
use std::alloc::Global;

// The status of a refusal.
fn status_of(error: DecompressError) -> u32
    ensures { result ≡ status_of_decoding error }
{
    match error {
        DecompressError::OutOfMemory => 1,
        DecompressError::Damaged => 15,
        DecompressError::TooLong => 64,
    }
}

// Writes content to the front of a room, and tells its length.
fn put_content(found: &[u8], content: &mut [u8], told: &mut Told)
    requires { length found.now ≤ length content.old }
    ensures content { content.new ≡ found.now ++ drop (length found.now) content.old }
    ensures told { told.new ≡ record { room = length found.now; subchunk = told.old.subchunk } }
{
    content[..found.len()].copy_from_slice(found);
    told.room = found.len() as u64;
}

/// Writes the content of a gzip file (RFC 1952) to the front of `content`; `told.room` is its length. Refused as `Damaged` where the bytes
/// are no gzip file, as `RoomTooSmall` where their content is longer than the room, and either where they are damaged after as much
/// content; or as `OutOfMemory`.
#[unsafe(no_mangle)]
pub extern "C" fn zs_gzip_decode(
    alloc: Global,
    encoded: &[u8],
    content: &mut [u8],
    told: &mut Told,
) -> u32
    ensures decoded { result ≡ 0 → IsDecoded (gunzipped encoded.now) content.old content.new told.old told.new }
    ensures kept { result ≢ 0 → content.new ≡ content.old }
    ensures told_kept { result ≢ 0 → told.new ≡ told.old }
    ensures refused { result ≢ 0 → IsDecodingRefused (gunzipped encoded.now) (length content.old) result }
{
    match gunzip(alloc, encoded, content.len()) {
        Ok(found) => {
            put_content(&found, content, told);
            0
        }
        Err(error) => status_of(error),
    }
}

/// Writes the content of a zstd file (RFC 8878) to the front of `content`; `told.room` is its length. Refused as `zs_gzip_decode` refuses
/// what is no gzip file.
#[unsafe(no_mangle)]
pub extern "C" fn zs_zstd_decode(
    alloc: Global,
    encoded: &[u8],
    content: &mut [u8],
    told: &mut Told,
) -> u32
    ensures decoded { result ≡ 0 → IsDecoded (decompressed encoded.now) content.old content.new told.old told.new }
    ensures kept { result ≢ 0 → content.new ≡ content.old }
    ensures told_kept { result ≢ 0 → told.new ≡ told.old }
    ensures refused { result ≢ 0 → IsDecodingRefused (decompressed encoded.now) (length content.old) result }
{
    match unzstd(alloc, encoded, content.len()) {
        Ok(found) => {
            put_content(&found, content, told);
            0
        }
        Err(error) => status_of(error),
    }
}

/// The elements of a subchunk that the codec `bytes` stored (Zarr V3 codec `bytes`, "endian"): numbers of `number_size` bytes each, stored least
/// significant byte first, or most significant first where `is_big_endian` is not 0. The same call encodes them. Refused, in this order, as
/// `WrongElementKind` where a number has no bytes, `Damaged` where the bytes are no whole numbers, and `InvalidNumberOfElements` where the
/// elements have another length.
#[unsafe(no_mangle)]
pub extern "C" fn zs_decode_plain(
    encoded: &[u8],
    number_size: u64,
    is_big_endian: u32,
    elements: &mut [u8],
) -> u32
    ensures little { result ≡ 0 → is_big_endian ≡ 0 → elements.new ≡ encoded.now }
    ensures big { result ≡ 0 → is_big_endian ≢ 0 → AreReversed number_size encoded.now elements.new }
    ensures length { length elements.new ≡ length elements.old }
    ensures kept { result ≢ 0 → elements.new ≡ elements.old }
    ensures refused { result ≢ 0 → IsRefused (PlainTests number_size (length encoded.now) (length elements.old)) result }
{
    match decode_plain(encoded, number_size, is_big_endian != 0, elements) {
        Ok(()) => 0,
        Err(refusal) => refusal.status(),
    }
}
