// The checksum CRC-32 (RFC 1952, 8).
ghost use Rattle.std.specs.Prelude.{◌≡◌};
ghost use Rattle.codec_gzip.specs.Checksum.{crc32};

use crate::table::GzipPolynomial;
use codec_checksums::checksum;

/// The CRC-32 of bytes, as gzip has it (RFC 1952, 8).
pub fn crc32(bytes: &[u8]) -> u32
    ensures { result ≡ crc32 bytes.now }
{
    checksum::<GzipPolynomial>(bytes)
}
