// What codecs answer to a JSON text.
use serde_json::Value;
use std::alloc::Global;
use std::process::Abort;
use std::test::Fail;
use zarr_codecs::{BytesCodec, CodecTraitsV3, PluginCreateError};
use zarr_parts::ChunkShape;
use zarrs_sharding::{ShardingCodec, ShardingCodecConfiguration};

pub type Shards = ShardingCodec<BytesCodec, BytesCodec>;

pub type ShardsOfShards = ShardingCodec<Shards, BytesCodec>;

pub fn shape_of<R: Abort>(rt: &R, alloc: Global, axes: &[u64]) -> ChunkShape {
    ChunkShape::new(alloc, axes)
        .expect(rt, "refused")
        .expect(rt, "does not fit")
}

pub fn codec_of(alloc: Global, value: &Value) -> Result<Shards, PluginCreateError> {
    let configuration = ShardingCodecConfiguration::from_value(alloc, value)?;
    ShardingCodec::new_with_configuration(alloc, &configuration)
}

fn refusal_text(alloc: Global, error: PluginCreateError) -> Result<String, Fail> {
    Ok(format!(in alloc; "{error}")?)
}

// The configuration of the codec that a configuration makes, or why it is refused.
pub fn configured(alloc: Global, text: &str) -> Result<String, Fail> {
    let value = Value::from_str(alloc, text)?;
    match codec_of(alloc, &value) {
        Ok(codec) => Ok(codec.configuration(alloc)?.to_string(alloc)?),
        Err(error) => refusal_text(alloc, error),
    }
}

fn metadata_text<C: CodecTraitsV3>(alloc: Global, codec: &C) -> Result<String, Fail> {
    Ok(codec.metadata(alloc)?.to_string(alloc)?)
}

fn answer<C: CodecTraitsV3 + Drop>(alloc: Global, value: &Value) -> Result<String, Fail> {
    match C::create(alloc, value) {
        Ok(codec) => metadata_text(alloc, &codec),
        Err(error) => refusal_text(alloc, error),
    }
}

// The metadata of the codec that metadata names, or why it is refused.
pub fn created<C: CodecTraitsV3 + Drop>(alloc: Global, text: &str) -> Result<String, Fail> {
    let value = Value::from_str(alloc, text)?;
    answer::<C>(alloc, &value)
}
