// Laws of codecs that have metadata.
ghost use Rattle.std.specs.Prelude.{◌≡◌, IfOk, IfErr};
ghost use Rattle.serde_json.specs.View.{view};
ghost use Rattle.codec_metadata.specs.Metadata.{metadata_of};
ghost use Rattle.codec_metadata.specs.declared.error.PluginCreateError.TheVariants.{OutOfMemory};

use crate::error::PluginCreateError;
use crate::named_codec::CodecTraitsV3;
use serde_json::Value;
use std::alloc::Global;

/// The codec that the metadata was written of, but for what metadata does not tell. Refused only as `OutOfMemory`.
pub fn create_after_metadata<C: CodecTraitsV3>(
    alloc: Global,
    _codec: &C,
    metadata: &Value,
) -> Result<C, PluginCreateError>
    requires valid { C.valid _codec.now }
    requires written { view metadata.now ≡ metadata_of (C.own_name _codec.now) (C.written _codec.now) }
    ensures same { IfOk result (λ created. created ≡ C.told _codec.now) }
    ensures refused { IfErr result (λ e. e ≡ OutOfMemory) }
{
    C::create(alloc, metadata)
}
