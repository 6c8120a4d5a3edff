// The configuration of a codec, read from a JSON value and written again.
use crate::shard::Plain;
use serde_json::Value;
use std::alloc::{AllocError, Global};
use zarr_codecs::PluginCreateError;
use zarrs_sharding::ShardingCodecConfiguration;

const TEXT: &str =
    r#"{"chunk_shape":[2,2],"codecs":[{"configuration":{"endian":"little"},"name":"bytes"}],"index_codecs":[{"configuration":{"endian":"little"},"name":"bytes"}],"index_location":"start"}"#;

// A configuration, made once more where it found no memory.
fn configuration_of(
    alloc: Global,
    value: &Value,
) -> Result<ShardingCodecConfiguration, PluginCreateError> {
    match ShardingCodecConfiguration::from_value(alloc, value) {
        Err(PluginCreateError::OutOfMemory) => ShardingCodecConfiguration::from_value(alloc, value),
        answer => answer,
    }
}

fn codec_of(
    alloc: Global,
    configuration: &ShardingCodecConfiguration,
) -> Result<Plain, PluginCreateError> {
    match Plain::new_with_configuration(alloc, configuration) {
        Err(PluginCreateError::OutOfMemory) => Plain::new_with_configuration(alloc, configuration),
        answer => answer,
    }
}

fn is_written_once(alloc: Global, codec: &Plain) -> Result<bool, AllocError> {
    let value = codec.configuration(alloc)?;
    let text = value.to_string(alloc)?;
    Ok(text.as_str() == TEXT)
}

fn is_written(alloc: Global, codec: &Plain) -> bool {
    match is_written_once(alloc, codec) {
        Ok(answer) => answer,
        Err(_) => is_written_once(alloc, codec) == Ok(true),
    }
}

fn is_read(alloc: Global, value: &Value) -> Result<bool, PluginCreateError> {
    let configuration = configuration_of(alloc, value)?;
    let codec = codec_of(alloc, &configuration)?;
    Ok(is_written(alloc, &codec))
}

fn value_of(alloc: Global) -> Option<Value> {
    match Value::from_str(alloc, TEXT) {
        Ok(value) => Some(value),
        Err(_) => Value::from_str(alloc, TEXT).ok(),
    }
}

// Whether a configuration is read, and written as it was.
pub(crate) fn is_configured(alloc: Global) -> bool {
    match value_of(alloc) {
        Some(value) => matches!(is_read(alloc, &value), Ok(true)),
        None => false,
    }
}
