// The metadata of an array on disk: what its `zarr.json` says.
#![tactic(auto)]

mod array_codec;
mod byte_order;
mod chunk_codecs;
mod chunk_cuts;
mod codecs;
mod inner_codec;
mod metadata;
mod obstacles;

pub use array_codec::ArrayCodec;
pub use byte_order::reversed_size;
pub use codecs::{IndexCodec, ShardsCodec};
pub use inner_codec::InnerCodec;
pub use metadata::ArrayMetadata;
pub use obstacles::Obstacles;
