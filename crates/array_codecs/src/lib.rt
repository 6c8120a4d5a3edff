// Codecs of arrays on disk: one that is not looked into, one with `transpose` before it, and the codecs from bytes to bytes that are
// served; the codecs of elements that metadata names, and those that are not served; bytes of elements turned.
#![tactic(auto)]

mod axis_order;
mod byte_codec;
mod byte_codecs;
mod byte_codecs_metadata;
mod byte_parts;
mod codec_list;
mod element_codec;
mod moved_points;
mod moved_rows;
mod opaque_codec;
mod transpose_codec;
mod transposes;
mod unread;

pub use axis_order::AxisOrder;
pub use byte_codec::ByteCodec;
pub use byte_codecs::ByteCodecs;
pub use byte_parts::reversed_parts;
pub use codec_list::{ArrangedCodec, CodecList, arranged_codec, unserved};
pub use element_codec::ElementCodec;
pub use opaque_codec::OpaqueCodec;
pub use transpose_codec::TransposeCodec;
pub use transposes::{CodecValues, codec_values, transpose_order};
pub use unread::{first_unserved, innermost, names_shards, sole_shards, test_names, unread_codec};
