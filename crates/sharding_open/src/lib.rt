// A shard that is open through a handle: what is held of its object, what is read of it, and what a session holds and writes.
#![tactic(auto)]

mod cached;
mod fresh;
mod reads;
mod requested;
mod session;
mod session_reads;
mod shard;
mod subchunks;
mod writes;

pub use fresh::read_indexer_into_fresh;
pub use requested::{read_indexer, read_indexer_into};
pub use session::OpenSession;
pub use shard::OpenShard;
pub use subchunks::byte_range;
