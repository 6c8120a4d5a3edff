// Gzip (RFC 1952) and zlib (RFC 1950): files and streams are read and written.
#![tactic(auto)]

mod checksum;
mod codec;
mod frame;
mod header;
mod members;
mod table;
mod written;
mod zlib_streams;

pub use checksum::crc32;
pub use codec::GzipCodec;
pub use members::gunzip;
pub use written::gzip;
pub use zlib_streams::{ZlibCodec, adler32, unzlib, zlib};
