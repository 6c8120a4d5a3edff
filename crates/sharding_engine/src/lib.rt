// The steps of the sharding codec: from what it is asked to plans, and from arrays to shards and back.
#![tactic(auto)]

mod decode;
mod encode;
mod plain;
mod plan;
mod read;
mod read_into;
mod sharding;
mod whole;

pub use plan::Planned;
pub use sharding::Sharding;
pub use whole::decode_shard;
