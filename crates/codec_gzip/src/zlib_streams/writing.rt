// zlib streams that are written (RFC 1950, 2.2).
ghost use Rattle.std.specs.Prelude.{◌≡◌, ◌≤◌, ◌<◌, ◌+◌, ◌/◌, ◌%◌, length, IfOk, Some};
ghost use Rattle.codec_gzip.specs.Zlib.{zlib_content};
ghost use Rattle.codec_gzip.specs.ZlibWritten.{plain_stream, zlib_bound};

use crate::zlib_streams::adler::adler32;
use codec_deflate::deflate;
use std::alloc::{AllocError, Global};

// FLG after a CMF of 0x78: FLEVEL is 0 for the fastest levels, 1 for fast ones, 2 for the default and 3 for the slowest, as zlib has it.
fn flags(level: u8) -> u8
    ensures check { (0x7800 + result) % 31 ≡ 0 }
    ensures no_dictionary { result / 32 % 2 ≡ 0 }
{
    match level {
        0 | 1 => 0x01,
        2..=5 => 0x5E,
        6 => 0x9C,
        _ => 0xDA,
    }
}

// A stream of compressed data and its content.
fn framed(alloc: Global, flg: u8, compressed: &[u8], content: &[u8]) -> Result<Vec<u8>, AllocError>
    ensures { IfOk result (λ stream. stream.items ≡ plain_stream flg compressed.now content.now) }
{
    let checksum = adler32(content).to_be_bytes();
    let mut stream = [0x78, flg].to_vec(alloc)?;
    stream.extend_from_slice(compressed)?;
    stream.extend_from_slice(&checksum)?;
    Ok(stream)
}

/// A zlib stream (RFC 1950) whose content is `bytes`: the same bytes and level give the same stream. At level 0 without compression; from
/// 1 to 9, and at 9 above, matches are searched for longer. No longer than without compression: five bytes more for each
/// 65,535 bytes, and 11. Refused if memory runs out.
pub fn zlib(alloc: Global, bytes: &[u8], level: u8) -> Result<Vec<u8>, AllocError>
    ensures back { IfOk result (λ stream. zlib_content stream.items ≡ Some bytes.now) }
    ensures bound { IfOk result (λ stream. length stream.items ≤ zlib_bound (length bytes.now)) }
{
    let compressed = deflate(alloc, bytes, level)?;
    let stream = framed(alloc, flags(level), &compressed, bytes)?;
    Ok(stream)
}
