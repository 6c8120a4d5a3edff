// zlib streams (RFC 1950).

mod adler;
mod codec;
mod reading;
mod writing;

pub use adler::adler32;
pub use codec::ZlibCodec;
pub use reading::unzlib;
pub use writing::zlib;
