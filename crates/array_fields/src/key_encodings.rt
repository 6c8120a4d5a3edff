// The keys of chunks that the metadata names.
ghost use Rattle.std.specs.Prelude.{◌≡◌, Some, IfOk, option_and_then, option_map, unwrap_or, codes};
ghost use Rattle.serde_json.specs.Find.{as_str};
ghost use Rattle.serde_json.specs.View.{view};
ghost use Rattle.codec_metadata.specs.Metadata.{name_in};
ghost use Rattle.array_fields.specs.MetadataFields.{configured_in};
ghost use Rattle.array_fields.specs.ChunkKeys.{separator_of};
ghost use Rattle.array_fields.specs.KeyEncodings.{encoding_name, default_separator};

use crate::error::MetadataError;
use crate::escape::escaped;
use crate::fields::Placed;
use crate::keys::{ChunkKeys, KeyEncoding};
use std::alloc::Global;

/// The keys that the metadata of a chunk key encoding names, `default` or `v2`, by the separator that it gives (Zarr V3 core, "Chunk key
/// encoding"). Refused as `BadField`; or as `OutOfMemory`.
pub fn keys_in(alloc: Global, named: &Placed) -> Result<ChunkKeys, MetadataError>
    ensures encoding { IfOk result (λ keys. name_in (view named.now.value.now) ≡ Some (encoding_name keys.encoding)) }
    ensures separator { IfOk result (λ keys.
        unwrap_or (option_and_then as_str (configured_in (codes "separator") (view named.now.value.now))) (default_separator keys.encoding)
        ≡ separator_of keys.slashes) }
{
    let name = named.extension_name(alloc)?;
    let encoding = match name {
        "default" => KeyEncoding::Default,
        "v2" => KeyEncoding::V2,
        _ => {
            let name = escaped(alloc, name)?;
            let sentence = format!(in alloc;
                "the chunk key encoding {name} is not served, only default and v2"
            )?;
            return Err(named.bad(alloc, sentence.as_str()));
        }
    };
    let slashes = match separator_in(alloc, named)? {
        Some(slashes) => slashes,
        None => encoding == KeyEncoding::Default,
    };
    Ok(ChunkKeys { encoding, slashes })
}

// Whether the separator that a configuration gives is `/`; `None` where it gives none. Refused as `BadField`.
fn separator_in(alloc: Global, named: &Placed) -> Result<Option<bool>, MetadataError>
    ensures { IfOk result (λ slashes. option_and_then as_str (configured_in (codes "separator") (view named.now.value.now)) ≡ option_map separator_of slashes) }
{
    let Some(configuration) = named.member(alloc, "configuration")? else {
        return Ok(None);
    };
    configuration.only_members(alloc, &["separator"])?;
    let Some(separator) = configuration.member(alloc, "separator")? else {
        return Ok(None);
    };
    match separator.value.as_str() {
        Some("/") => Ok(Some(true)),
        Some(".") => Ok(Some(false)),
        _ => Err(separator.bad(alloc, "only the separators / and . are served")),
    }
}
