// The index of a shard: what the index codec is asked to serve, from bytes to numbers and from slots to bytes; and what is known of a
// shard before its bytes are looked at.
#![tactic(auto)]

mod entries;
mod index;
mod numbers;
mod offsets;
mod pieces;
mod plan;
mod stored_index;
mod told;

pub use entries::{check_entries, without_entries};
pub use index::{IndexCodec, IndexPlan};
pub use numbers::entry_of;
pub use offsets::start_of_data;
pub use plan::Plan;
pub use stored_index::read_index;
pub use told::{recommended_workers, shard_bound, told_of_subchunks};
