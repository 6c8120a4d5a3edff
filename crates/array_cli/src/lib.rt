// What the commands over an array on disk share: an array that is open, its shards, what stands in its folder, why a shard is refused, how far
// a command is, and why it stops.
#![tactic(auto)]

mod arrays;
mod chunk_encoding;
mod compaction_plans;
mod folder;
mod grid_shards;
mod open_shard;
mod output;
mod padded;
mod progress;
mod refusal;
mod shard_codec;
mod shard_indexes;
mod stop;
mod subchunks;
mod whole_chunks;
mod workers;

pub use arrays::{Array, Shard, described, metadata_of, turned};
pub use chunk_encoding::{encode_chunk, encode_padded};
pub use compaction_plans::Planned;
pub use folder::{shard_of, write_folder, write_folder_lines};
pub use grid_shards::{
    GridShard, chunk_of_fill_values, elements_of, shard_of_grid, shards_of, whole_of,
};
pub use open_shard::OpenShard;
pub use output::Output;
pub use padded::padded_chunk;
pub use progress::Progress;
pub use refusal::{Place, Refusal, put_refusal};
pub use shard_codec::{ShardCodec, ShardFile};
pub use shard_indexes::IndexDecoder;
pub use stop::{Ending, Stop, written};
pub use subchunks::check_subchunk;
pub use workers::Workers;
