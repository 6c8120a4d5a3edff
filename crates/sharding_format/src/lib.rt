// The format of a shard: the grid of its subchunks, where its index stands, and what an entry of the index says; and what is
// asked of a codec of the format: the arrays that it is to serve, its own options, and what it can do with parts.
#![tactic(auto)]

mod capabilities;
mod elements;
mod grid;
mod index;
mod location;
mod options;
mod order;
mod slot;
mod spec;
mod stored;

pub use capabilities::{PartialDecoderCapability, PartialEncoderCapability};
pub use elements::element_size;
pub use grid::{
    calculate_chunks_per_shard, count_subchunks, sharding_index_shape, subchunk_subset,
};
pub use index::ShardIndex;
pub use location::ShardingIndexLocation;
pub use options::ShardingCodecOptions;
pub use order::SubchunkWriteOrder;
pub use slot::{Slot, slot_of};
pub use spec::ArraySpecRef;
pub use stored::of_stored;
