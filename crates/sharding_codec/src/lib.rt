// The sharding codec: an array cut into subchunks that an inner codec encodes, with an index of where they stand.
#![tactic(auto)]

mod capabilities;
mod codec;
mod compaction;
mod functional;
mod index;
mod locked;
mod metadata;
mod options;
mod partial_decoder;
mod state;
mod stored_index;
mod workers;

pub use codec::ShardingCodec;
pub use locked::ShardingPartialEncoder;
pub use partial_decoder::ShardingPartialDecoder;
pub use state::ShardState;
