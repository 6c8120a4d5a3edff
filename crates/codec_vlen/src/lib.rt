// The codec for elements that have lengths of their own, and the codec that an array has where none is asked for.
#![tactic(auto)]

mod default_codec;
mod default_metadata;
mod text;
mod vlen_codec;
mod vlen_metadata;

pub use default_codec::{DefaultArrayToBytesCodec, default_array_to_bytes_codec};
pub use vlen_codec::VlenCodec;
