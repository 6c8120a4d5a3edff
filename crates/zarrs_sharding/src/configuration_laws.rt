// What the sharding codec's configuration tells of it, as the contract of a call.
ghost use Rattle.std.specs.Prelude.{◌≡◌, IfOk, IfErr};
ghost use Rattle.serde_json.specs.Data.{object};
ghost use Rattle.serde_json.specs.View.{view};
ghost use Rattle.codec_metadata.specs.Metadata.{metadata_of};
ghost use Rattle.codec_metadata.specs.declared.error.PluginCreateError.TheVariants.{OutOfMemory};
ghost use Rattle.sharding_codec.specs.ShardMetadata.{shard_written, shard_told};

use codec_metadata::{CodecTraitsV3, PluginCreateError};
use serde_json::Value;
use sharding_codec::ShardingCodec;
use sharding_configuration::ShardingCodecConfiguration;
use std::alloc::Global;

/// The codec of the configuration that `configuration` gave of a codec: the same codec, but for what the metadata of its codecs
/// does not tell and the order in which it writes; and its configuration is an equal value. Refused only as `OutOfMemory`.
pub fn new_after_configuration<I: CodecTraitsV3 + Drop, X: CodecTraitsV3 + Drop>(
    alloc: Global,
    _codec: &ShardingCodec<I, X>,
    value: &Value,
) -> Result<ShardingCodec<I, X>, PluginCreateError>
    requires valid { ⟦<ShardingCodec<I, X> as CodecTraitsV3>⟧.valid _codec.now }
    requires written { view value.now ≡ object (shard_written (metadata_of (I.own_name _codec.now.inner) (I.written _codec.now.inner))
        (metadata_of (X.own_name _codec.now.index_codec) (X.written _codec.now.index_codec)) _codec.now) }
    ensures same { IfOk result (λ made. made ≡ shard_told (I.told _codec.now.inner) (X.told _codec.now.index_codec) _codec.now) }
    ensures again { IfOk result (λ made. view value.now ≡ object (shard_written (metadata_of (I.own_name made.inner) (I.written made.inner))
        (metadata_of (X.own_name made.index_codec) (X.written made.index_codec)) made)) }
    ensures refused { IfErr result (λ e. e ≡ OutOfMemory) }
{
    let configuration = ShardingCodecConfiguration::from_value(alloc, value)?;
    ShardingCodec::new_with_configuration(alloc, &configuration)
}
