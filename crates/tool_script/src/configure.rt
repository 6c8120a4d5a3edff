// Codecs that a text of JSON configures.
ghost use Rattle.std.specs.Prelude.{◌≡◌, ◌⊎◌, Some, None, Ok, IfOk, IfErr, codes};
ghost use Rattle.serde_json.specs.Read.{read as read_text};
ghost use Rattle.serde_json.specs.View.{view};
ghost use Rattle.codec_metadata.specs.CreateErrors.{RefusedAs, refusal_of, bad_field};
ghost use Rattle.codec_metadata.specs.declared.error.PluginCreateError.TheVariants.{OutOfMemory};
ghost use Rattle.tool_script.specs.Configured.{configured_by};

use crate::codec::Codec;
use serde_json::Value;
use std::alloc::Global;
use zarr_codecs::PluginCreateError;
use zarr_parts::CodecError;
use zarrs_sharding::{ShardingCodec, ShardingCodecConfiguration, SubchunkWriteOrder};

/// Why a configuration is refused.
#[derive(Drop)]
pub enum ConfigureError {
    /// As metadata: the text is no JSON, or configures no such codec.
    Create(PluginCreateError),
    /// By the codec: it doesn't serve the arrays.
    Codec(CodecError),
}

impl From<PluginCreateError> for ConfigureError {
    ghost use Rattle.std.specs.Prelude.{◌≡◌};
    ghost use Rattle.tool_script.specs.declared.configure.ConfigureError.TheVariants.{Create};

    ghost from_gives = { λ error refusal. refusal ≡ Create error };

    fn from(error: PluginCreateError) -> ConfigureError {
        ConfigureError::Create(error)
    }
}

impl From<CodecError> for ConfigureError {
    ghost use Rattle.std.specs.Prelude.{◌≡◌};
    ghost use Rattle.tool_script.specs.declared.configure.ConfigureError.TheVariants.{Codec};

    ghost from_gives = { λ error refusal. refusal ≡ Codec error };

    fn from(error: CodecError) -> ConfigureError {
        ConfigureError::Codec(error)
    }
}

// The value that a text is. Refused as `BadField` where it is no JSON; or as `OutOfMemory`.
fn value_in(alloc: Global, text: &str) -> Result<Value, PluginCreateError>
    ensures read { IfOk result (λ value. read_text text.now ≡ Some (view value)) }
    ensures refused { IfErr result (λ e. (e ≡ OutOfMemory) ⊎ ((read_text text.now ≡ None) × (refusal_of e ≡ bad_field (codes "configuration")))) }
{
    match Value::from_str(alloc, text) {
        Ok(value) => Ok(value),
        Err(error) if error.is_memory() => Err(PluginCreateError::OutOfMemory),
        Err(_) => Err(PluginCreateError::bad_field(alloc, "configuration")),
    }
}

/// The codec that a text of JSON configures, with an order in which it writes subchunks. Refused as `BadField` where the text is no
/// JSON, and then as `ShardingCodecConfiguration::from_value` and `new_with_configuration` refuse; or as `OutOfMemory`.
pub fn codec_in(
    alloc: Global,
    text: &str,
    order: SubchunkWriteOrder,
) -> Result<Codec, PluginCreateError>
    ensures made { IfOk result (λ codec. configured_by order text.now ≡ Ok codec) }
    ensures refused { IfErr result (RefusedAs (configured_by order text.now)) }
{
    let value = value_in(alloc, text)?;
    let configuration = ShardingCodecConfiguration::from_value(alloc, &value)?;
    let codec: Codec = ShardingCodec::new_with_configuration(alloc, &configuration)?;
    Ok(codec.with_subchunk_write_order(order))
}
