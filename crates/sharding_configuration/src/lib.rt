// The configuration of the codec `sharding_indexed` in JSON, read and written.
#![tactic(auto)]

mod codec_list;
mod configuration;
mod configuration_fields;
mod configuration_members;

pub use codec_list::sole_codec;
pub use configuration::{ShardingCodecConfiguration, ShardingCodecConfigurationV1};
pub use configuration_members::{codec_list_of, written_members};
