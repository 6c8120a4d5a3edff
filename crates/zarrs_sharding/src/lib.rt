// The codec `sharding_indexed` of Zarr V3: what users of the crates below it name.
#![tactic(auto)]

mod builder;
mod configuration_laws;
mod encode_anew;
mod laws;
mod reshard_laws;

pub use builder::ShardingCodecBuilder;
pub use configuration_laws::new_after_configuration;
pub use encode_anew::reshard;
pub use laws::{
    compact_again, compact_encoded, decode_served, decode_sound, encode_functional,
    read_after_write,
};
pub use reshard_laws::{decode_after_reshard, reshard_functional};
pub use sharding_codec::{
    ShardState, ShardingCodec, ShardingPartialDecoder, ShardingPartialEncoder,
};
pub use sharding_configuration::{ShardingCodecConfiguration, ShardingCodecConfigurationV1};
pub use sharding_format::{
    ArraySpecRef, PartialDecoderCapability, PartialEncoderCapability, ShardIndex,
    ShardingCodecOptions, ShardingIndexLocation, SubchunkWriteOrder, calculate_chunks_per_shard,
    sharding_index_shape,
};
pub use sharding_layout::CompactionPlan;
pub use sharding_workers::{Gate, NoGate};
