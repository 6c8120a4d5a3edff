// A list of codecs of which one member is taken.
ghost use Rattle.std.specs.Prelude.{◌≡◌, ◌⊎◌, Some, None, Ok, IfOk, IfErr, OnOk};
ghost use Rattle.serde_json.specs.View.{items_view};
ghost use Rattle.codec_metadata.specs.CreateErrors.{RefusedAs, refusal_of};
ghost use Rattle.codec_metadata.specs.declared.error.PluginCreateError.TheVariants.{OutOfMemory};
ghost use Rattle.sharding_configuration.specs.CodecLists.{first_unnamed, codec_in_list};

use codec_metadata::{CodecTraitsV3, PluginCreateError, metadata_name};
use serde_json::Value;
use std::alloc::Global;

// Tests that each member names the wanted codec.
fn test_names<C: CodecTraitsV3>(
    alloc: Global,
    codecs: &[Value],
    key: &str,
) -> Result<(), PluginCreateError>
    ensures tested { OnOk result (first_unnamed key.now C.named (items_view codecs.now) ≡ None) }
    ensures refused { IfErr result (λ e. (e ≡ OutOfMemory) ⊎ (first_unnamed key.now C.named (items_view codecs.now) ≡ Some (refusal_of e))) }
{
    for codec in codecs {
        let Some(name) = metadata_name(codec) else {
            return Err(PluginCreateError::bad_field(alloc, key));
        };
        if !C::has_name(name) {
            return Err(PluginCreateError::unsupported_codec(alloc, name));
        }
    }
    Ok(())
}

/// The codec that is the one member of a list, which stands under a key. Refused, in this order, for the first member that is
/// neither a string nor an object with a string under "name", as `BadField` with the key, or that has another name than the
/// codec's, as `UnsupportedCodec` with that name; as `UnsupportedChain` where the list has other than one member; and as the
/// codec's `create` refuses the member; or as `OutOfMemory`.
pub fn sole_codec<C: CodecTraitsV3>(
    alloc: Global,
    codecs: &[Value],
    key: &str,
) -> Result<C, PluginCreateError>
    ensures made { IfOk result (λ codec. codec_in_list key.now C.named C.configured (items_view codecs.now) ≡ Ok codec) }
    ensures refused { IfErr result (RefusedAs (codec_in_list key.now C.named C.configured (items_view codecs.now))) }
{
    test_names::<C>(alloc, codecs, key)?;
    if codecs.len() != 1 {
        return Err(PluginCreateError::UnsupportedChain);
    }
    C::create(alloc, &codecs[0])
}
