// zlib streams that are read (RFC 1950, 2.2).
ghost use Rattle.std.specs.Prelude.{◌≡◌, ◌≤◌, Some, length, IfOk, IfErr};
ghost use Rattle.codec_compression.specs.Reading.{Gives};
ghost use Rattle.codec_compression.specs.Refusals.{Refuses};
ghost use Rattle.codec_gzip.specs.Zlib.{after_flags, zlib_content};

use crate::header::after;
use crate::zlib_streams::adler::adler32;
use codec_compression::DecompressError;
use codec_deflate::{Inflated, inflate};
use std::alloc::Global;

// CMF and FLG: the bytes after them.
#[tactic(auto, unfolding(crate::specs::Zlib::after_flags))]
fn after_flags(stream: &[u8]) -> Result<&[u8], DecompressError>
    ensures { Gives (λ compressed. compressed.now) result (after_flags stream.now) }
{
    let compressed = after(stream, 2)?;
    let cmf = stream[0];
    let flg = stream[1];
    if cmf % 16 != 8 || cmf / 16 > 7 {
        return Err(DecompressError::Damaged);
    }
    if (cmf as u32 * 256 + flg as u32) % 31 != 0 {
        return Err(DecompressError::Damaged);
    }
    if flg / 32 % 2 != 0 {
        return Err(DecompressError::Damaged);
    }
    Ok(compressed)
}

/// Decompresses a zlib stream (RFC 1950), whose content may have at most `limit` bytes. Memory is asked for `limit` bytes and a
/// little more, and for tables of a fixed size.
///
/// Refused as `Damaged` if `bytes` are not such a stream: also where bytes follow it, where the check of its first two bytes or the
/// checksum of its content differs, and where it needs a preset dictionary. Refused as `TooLong` if the content is longer than
/// `limit`; where a stream is damaged after more than `limit` bytes, either may be given.
#[tactic(auto, unfolding(crate::specs::Zlib::zlib_content))]
pub fn unzlib(alloc: Global, bytes: &[u8], limit: usize) -> Result<Vec<u8>, DecompressError>
    ensures read { IfOk result (λ content. zlib_content bytes.now ≡ Some content.items) }
    ensures within { IfOk result (λ content. length content.items ≤ limit) }
    ensures refused { IfErr result (Refuses limit (zlib_content bytes.now)) }
{
    let compressed = after_flags(bytes)?;
    let Inflated { content, length } = inflate(alloc, compressed, limit)?;
    let checksum = adler32(&content).to_be_bytes();
    if &compressed[length..] != checksum.as_slice() {
        return Err(DecompressError::Damaged);
    }
    Ok(content)
}
