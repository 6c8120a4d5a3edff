// Checksums: cyclic redundancy checks of 32 bits by any polynomial, eight bytes at a time; XXH64; and the codec `crc32c`, which
// puts a checksum behind bytes.
#![tactic(auto)]

mod castagnoli_table;
mod crc32c_checksum;
mod crc32c_codec;
mod register;
mod xx_hash;

pub use crc32c_checksum::crc32c;
pub use crc32c_codec::Crc32cCodec;
pub use register::{Polynomial, checksum};
pub use xx_hash::{is_content_checksum, xxh64};
