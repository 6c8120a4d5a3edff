// The small codecs that keep the laws of codecs.
#![tactic(auto)]

mod byte_order;
mod bytes_codec;

pub use bytes_codec::{BytesCodec, Endianness};
