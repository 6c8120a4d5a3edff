// What an array on disk holds: its shards; where in its file each subchunk of a shard lies, and its bytes; what else stands in its folder;
// maps of which shards are there, and which subchunks; and the arrays below a group.
#![tactic(auto)]

mod codec_lines;
mod extraction;
mod index_info;
mod info;
mod info_pieces;
mod json;
mod list;
mod map;
mod shard_info;

pub use extraction::extract;
pub use info::info_of_array;
pub use list::list_nodes;
pub use map::{map_array, map_shard};
pub use shard_info::info_of_shard;
