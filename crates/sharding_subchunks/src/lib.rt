// The subchunks of a shard, by its inner codec: decoded, read in part, encoded.
#![tactic(auto)]

mod decoded;
mod encoded;
mod held_shard;
mod listed;
mod plain;
mod plain_decoded;
mod plain_rows;
mod plain_subchunks;
mod plain_subset;
mod plain_target;
mod read;
mod requested;
mod stored_shard;
mod subchunks;
mod subsets;
mod whole;

pub use encoded::Stored;
pub use held_shard::HeldShard;
pub use stored_shard::StoredShard;
pub use subchunks::Subchunks;
