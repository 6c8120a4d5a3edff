// The configuration of the codec `sharding_indexed`.
ghost use Rattle.std.specs.Prelude.{◌≡◌, Ok, IfOk, IfErr};
ghost use Rattle.serde_json.specs.View.{view};
ghost use Rattle.codec_metadata.specs.CreateErrors.{RefusedAs};
ghost use Rattle.sharding_configuration.specs.Configuration.{configuration_in};
ghost use Rattle.sharding_configuration.specs.Configurations.{configuration_of};

use crate::configuration_fields::{list_under, location_under, shape_under};
use codec_metadata::{MemberTest, PluginCreateError, test_members};
use parts_subsets::ChunkShape;
use serde_json::Value;
use sharding_format::ShardingIndexLocation;
use std::alloc::Global;

/// The configuration of the codec `sharding_indexed` (Zarr V3, "Configuration parameters"), by its version.
#[derive(Drop)]
pub enum ShardingCodecConfiguration {
    /// The first version.
    V1(ShardingCodecConfigurationV1),
}

/// The first version of the configuration of the codec `sharding_indexed`.
#[derive(Drop)]
pub struct ShardingCodecConfigurationV1 {
    /// The shape of each subchunk.
    pub chunk_shape: ChunkShape,
    /// The metadata of the codecs that encode each subchunk.
    pub codecs: Vec<Value>,
    /// The metadata of the codecs that encode the index.
    pub index_codecs: Vec<Value>,
    /// Where the index stands.
    pub index_location: ShardingIndexLocation,
}

// The members of a configuration of the codec `sharding_indexed`.
struct ConfigurationMembers;

impl MemberTest for ConfigurationMembers {
    ghost use Rattle.sharding_configuration.specs.Configuration.{is_configuration_member};

    ghost passes = { is_configuration_member };

    fn may_have(key: &str, _value: &Value) -> bool {
        matches!(
            key,
            "chunk_shape" | "codecs" | "index_codecs" | "index_location"
        )
    }
}

impl ShardingCodecConfiguration {
    /// The configuration that a JSON value is. What the members of its lists are is not looked at. Refused, in this order, as
    /// `BadField("configuration")` where the value is no object, as `BadField` with the first other key, in the order of keys,
    /// and for "chunk_shape" (a list of whole numbers from 1 to 2^64 - 1), "codecs", "index_codecs" (lists) and "index_location"
    /// (`start` or `end`, and `end` where it is not given) in turn, as `MissingField` with the key where it must be there and
    /// is not, and as `BadField` with the key where its value has another form; or as `OutOfMemory`.
    pub fn from_value(alloc: Global, value: &Value) -> Result<Self, PluginCreateError>
        ensures read { IfOk result (λ configuration. configuration_in (view value.now) ≡ Ok (configuration_of configuration)) }
        ensures refused { IfErr result (RefusedAs (configuration_in (view value.now))) }
    {
        if !value.is_object() {
            return Err(PluginCreateError::bad_field(alloc, "configuration"));
        }
        test_members::<ConfigurationMembers>(alloc, value)?;
        let chunk_shape = shape_under(alloc, value, "chunk_shape")?;
        let codecs = list_under(alloc, value, "codecs")?;
        let index_codecs = list_under(alloc, value, "index_codecs")?;
        let index_location = location_under(alloc, value, "index_location")?;
        Ok(ShardingCodecConfiguration::V1(ShardingCodecConfigurationV1 {
            chunk_shape,
            codecs,
            index_codecs,
            index_location,
        }))
    }
}
