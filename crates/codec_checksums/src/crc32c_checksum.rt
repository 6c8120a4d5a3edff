// The checksum CRC-32C.
ghost use Rattle.std.specs.Prelude.{◌≡◌};
ghost use Rattle.codec_checksums.specs.Castagnoli.{checksum};

use crate::castagnoli_table::Castagnoli;
use crate::register::checksum;

/// The checksum CRC-32C of bytes: the remainder of a division by the polynomial of Castagnoli, the least significant bit of
/// each byte first, where all bits of the register are set at first and inverted at the end.
pub fn crc32c(bytes: &[u8]) -> u32
    ensures { result ≡ checksum bytes.now }
{
    checksum::<Castagnoli>(bytes)
}
