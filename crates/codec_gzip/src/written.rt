// Gzip files that are written: one member, with a plain header (RFC 1952, 2.3).
ghost use Rattle.std.specs.Prelude.{◌≡◌, ◌≤◌, length, IfOk, Some};
ghost use Rattle.codec_gzip.specs.Gzip.{gunzipped};
ghost use Rattle.codec_gzip.specs.Written.{plain_file, gzip_bound};

use crate::checksum::crc32;
use codec_deflate::deflate;
use std::alloc::{AllocError, Global};

// XFL: 4 for the fastest level, 2 for the one that compresses most (RFC 1952, 2.3.1).
fn extra_flags(level: u8) -> u8 {
    match level {
        1 => 4,
        0..=8 => 0,
        _ => 2,
    }
}

// A file of a stream and its content: a header with no flags, no time and an unknown system, and the trailer.
fn framed(alloc: Global, xfl: u8, stream: &[u8], content: &[u8]) -> Result<Vec<u8>, AllocError>
    ensures { IfOk result (λ file. file.items ≡ plain_file xfl stream.now content.now) }
{
    let checksum = crc32(content).to_le_bytes();
    let size = ((content.len() % (1 << 32)) as u32).to_le_bytes();
    let mut file = [31, 139, 8, 0, 0, 0, 0, 0, xfl, 255].to_vec(alloc)?;
    file.extend_from_slice(stream)?;
    file.extend_from_slice(&checksum)?;
    file.extend_from_slice(&size)?;
    Ok(file)
}

/// A gzip file (RFC 1952) of one member whose content is `bytes`: no name, and no time, so the same bytes and level give the
/// same file. At level 0 without compression; from 1 to 9, and at 9 above, matches are searched for longer. No longer than
/// without compression: five bytes more for each 65,535 bytes, and 23. Refused if memory runs out.
pub fn gzip(alloc: Global, bytes: &[u8], level: u8) -> Result<Vec<u8>, AllocError>
    ensures back { IfOk result (λ file. gunzipped file.items ≡ Some bytes.now) }
    ensures bound { IfOk result (λ file. length file.items ≤ gzip_bound (length bytes.now)) }
{
    let stream = deflate(alloc, bytes, level)?;
    let file = framed(alloc, extra_flags(level), &stream, bytes)?;
    Ok(file)
}
