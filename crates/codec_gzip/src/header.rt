// The header and the trailer of a member (RFC 1952, 2.3): each function returns the bytes after a part.
ghost use Rattle.std.specs.Prelude.{◌≡◌, ◌+◌, ◌*◌, ◌-◌, ◌/◌, ◌^◌, ◌<◌, ◌≤◌, ◌++◌, ℕ, length, IfOk};
ghost use Rattle.codec_compression.specs.Reading.{Gives};
ghost use Rattle.codec_gzip.specs.Gzip.{after, after_zero, after_extra, after_crc16, if_set, after_header, after_trailer};

use crate::checksum::crc32;
use codec_compression::DecompressError;

// `count` bytes.
#[tactic(auto, unfolding(crate::specs::Gzip::after))]
pub(crate) fn after(bytes: &[u8], count: usize) -> Result<&[u8], DecompressError>
    ensures read { Gives (λ rest. rest.now) result (after count bytes.now) }
    ensures shorter { IfOk result (λ rest. length rest.now + count ≡ length bytes.now) }
{
    if bytes.len() < count {
        return Err(DecompressError::Damaged);
    }
    Ok(&bytes[count..])
}

// A zero-terminated name or comment.
fn after_zero(bytes: &[u8]) -> Result<&[u8], DecompressError>
    ensures read { Gives (λ rest. rest.now) result (after_zero bytes.now) }
    ensures shorter { IfOk result (λ rest. length rest.now ≤ length bytes.now) }
{
    for (place, byte) in bytes.iter().enumerate() {
        if *byte == 0 {
            return Ok(&bytes[place + 1..]);
        }
    }
    Err(DecompressError::Damaged)
}

// An extra field: XLEN, and XLEN bytes.
#[tactic(auto, unfolding(crate::specs::Gzip::after_extra))]
fn after_extra(bytes: &[u8]) -> Result<&[u8], DecompressError>
    ensures read { Gives (λ rest. rest.now) result (after_extra bytes.now) }
    ensures shorter { IfOk result (λ rest. length rest.now ≤ length bytes.now) }
{
    let Some((xlen, rest)) = bytes.split_first_chunk::<2>() else {
        return Err(DecompressError::Damaged);
    };
    after(rest, u16::from_le_bytes(*xlen) as usize)
}

// The CRC16 of the header before it.
#[tactic(auto, unfolding(crate::specs::Gzip::after_crc16))]
fn after_crc16<'a>(header: &'a [u8], bytes: &'a [u8]) -> Result<&'a [u8], DecompressError>
    requires { length bytes.now ≤ length header.now }
    ensures { Gives (λ rest. rest.now) result (after_crc16 header.now bytes.now) }
{
    if bytes.len() < 2 {
        return Err(DecompressError::Damaged);
    }
    let (stored, rest) = bytes.split_at(2);
    let before = &header[..header.len() - bytes.len()];
    let crc16 = (crc32(before) % 65536) as u16;
    if stored != crc16.to_le_bytes().as_slice() {
        return Err(DecompressError::Damaged);
    }
    Ok(rest)
}

// An extra field, if the flag is set.
fn after_any_extra(flag: u8, bytes: &[u8]) -> Result<&[u8], DecompressError>
    ensures read { Gives (λ rest. rest.now) result (if_set flag (after_extra bytes.now) bytes.now) }
    ensures shorter { IfOk result (λ rest. length rest.now ≤ length bytes.now) }
{
    if flag % 2 == 1 {
        after_extra(bytes)
    } else {
        Ok(bytes)
    }
}

// A name or a comment, if the flag is set.
fn after_any_zero(flag: u8, bytes: &[u8]) -> Result<&[u8], DecompressError>
    ensures read { Gives (λ rest. rest.now) result (if_set flag (after_zero bytes.now) bytes.now) }
    ensures shorter { IfOk result (λ rest. length rest.now ≤ length bytes.now) }
{
    if flag % 2 == 1 {
        after_zero(bytes)
    } else {
        Ok(bytes)
    }
}

// The CRC16 of the header, if the flag is set.
fn after_any_crc16<'a>(
    flag: u8,
    header: &'a [u8],
    bytes: &'a [u8],
) -> Result<&'a [u8], DecompressError>
    requires { length bytes.now ≤ length header.now }
    ensures { Gives (λ rest. rest.now) result (if_set flag (after_crc16 header.now bytes.now) bytes.now) }
{
    if flag % 2 == 1 {
        after_crc16(header, bytes)
    } else {
        Ok(bytes)
    }
}

// The header. FTEXT says nothing; a reserved flag is refused.
#[tactic(auto, unfolding(crate::specs::Gzip::after_header))]
pub(crate) fn after_header(header: &[u8]) -> Result<&[u8], DecompressError>
    ensures { Gives (λ rest. rest.now) result (after_header header.now) }
{
    let fields = after(header, 10)?;
    if &header[..3] != [31, 139, 8].as_slice() {
        return Err(DecompressError::Damaged);
    }
    let flags = header[3];
    if flags >= 32 {
        return Err(DecompressError::Damaged);
    }
    let extra = after_any_extra(flags / 4, fields)?;
    let name = after_any_zero(flags / 8, extra)?;
    let comment = after_any_zero(flags / 16, name)?;
    after_any_crc16(flags / 2, header, comment)
}

// The trailer: CRC32 and ISIZE of the content.
#[tactic(auto, unfolding(crate::specs::Gzip::after_trailer))]
pub(crate) fn after_trailer<'a>(
    content: &[u8],
    bytes: &'a [u8],
) -> Result<&'a [u8], DecompressError>
    ensures { Gives (λ rest. rest.now) result (after_trailer content.now bytes.now) }
{
    let rest = after(bytes, 8)?;
    let checksum = crc32(content).to_le_bytes();
    let size = ((content.len() % (1 << 32)) as u32).to_le_bytes();
    if &bytes[..4] != checksum.as_slice() || &bytes[4..8] != size.as_slice() {
        return Err(DecompressError::Damaged);
    }
    Ok(rest)
}
