// Codecs of elements that are not served, by their names.
ghost use Rattle.std.specs.Prelude.{◌≡◌, true, Some, OnOk, IfOk, IfSome, codes, option_map, string_bytes};
ghost use Rattle.serde_json.specs.Find.{as_array};
ghost use Rattle.serde_json.specs.View.{view, items_view};
ghost use Rattle.codec_metadata.specs.Metadata.{name_in};
ghost use Rattle.array_codecs.specs.Transposes.{transpose_before, untransposed};
ghost use Rattle.array_codecs.specs.UnreadCodecs.{sole_shards, shards_of, configured_codecs, innermost, is_element_codec, unserved_in, has_name, have_names, unread_codec_in};

use crate::transposes::{CodecValues, codec_values};
use array_fields::{MetadataError, Placed};
use codec_metadata::metadata_name;
use serde_json::Value;
use std::alloc::{AllocError, Global};

/// The metadata of the only codec of a list, where it is the sharding codec.
#[tactic(auto, using(crate::proofs::Lengths::not_sole_items))]
pub fn sole_shards(values: &[Value]) -> Option<&Value>
    ensures sole { option_map (λ metadata. view metadata.now) result ≡ sole_shards (items_view values.now) }
    ensures named { IfSome result (λ metadata. name_in (view metadata.now) ≡ Some (codes "sharding_indexed")) }
{
    if values.len() != 1 {
        return None;
    }
    let metadata = &values[0];
    if metadata_name(metadata) == Some("sharding_indexed") {
        Some(metadata)
    } else {
        None
    }
}

/// Whether one of the values names shards.
pub fn names_shards(values: &[Value]) -> bool {
    values
        .iter()
        .any(|value| metadata_name(value) == Some("sharding_indexed"))
}

// The codecs in the configuration of one, or none.
fn configured_codecs(metadata: &Value) -> &[Value]
    ensures { items_view result.now ≡ configured_codecs (view metadata.now) }
{
    let configuration = metadata.get("configuration");
    let codecs = configuration.and_then(|value| value.get("codecs"));
    match codecs.and_then(Value::as_array) {
        Some(codecs) => codecs,
        None => &[],
    }
}

/// The codecs that elements go through: where the values name shards alone, those in its configuration.
pub fn innermost(values: &[Value]) -> &[Value]
    ensures { items_view result.now ≡ innermost (items_view values.now) }
{
    match sole_shards(values) {
        Some(metadata) => configured_codecs(metadata),
        None => values,
    }
}

// Whether elements are served with the codec of a name, behind `transpose` or without it.
fn is_element_codec(name: &str) -> bool
    ensures { result ≡ is_element_codec name.now }
{
    matches!(
        name,
        "bytes" | "vlen-utf8" | "vlen-bytes" | "crc32c" | "gzip" | "numcodecs.zlib" | "zstd"
    )
}

/// The name of the first codec that elements are not served with.
pub fn first_unserved(values: &[Value]) -> Option<&str>
    ensures { option_map (λ name. name.now) result ≡ unserved_in (items_view values.now) }
{
    for value in values {
        match metadata_name(value) {
            Some(name) if !is_element_codec(name) => return Some(name),
            _ => {}
        }
    }
    None
}

// Tests the name that a codec of a list has. Refused as `BadField`.
fn test_name(alloc: Global, value: &Value, list: &str, index: usize) -> Result<(), MetadataError>
    ensures { OnOk result (has_name (view value.now) ≡ true) }
{
    let place = format!(in alloc; "{list}[{index}]")?;
    let key = "codecs";
    let _ = Placed { value, key, place }.extension_name(alloc)?;
    Ok(())
}

/// Tests that each codec of a list has a name. Refused as the first that has none.
pub fn test_names(alloc: Global, values: &[Value], list: &str) -> Result<(), MetadataError>
    ensures { OnOk result (have_names (items_view values.now) ≡ true) }
{
    for (index, value) in values.iter().enumerate() {
        test_name(alloc, value, list, index)?;
    }
    Ok(())
}

// The name of the codec for which no subchunk is looked into, where chunks are shards.
fn unread_name(values: &[Value]) -> Option<&str>
    ensures { option_map (λ name. name.now) result ≡ unread_codec_in (Some (items_view values.now)) }
{
    let CodecValues { transpose, codecs } = codec_values(values, "sharding_indexed");
    let metadata = sole_shards(codecs)?;
    if transpose.is_some() {
        return Some("transpose");
    }
    let elements = innermost(configured_codecs(metadata));
    first_unserved(codec_values(elements, "bytes").codecs)
}

/// The name of the codec for which no subchunk is looked into: `transpose` where it stands before shards, else the first codec that the
/// elements of an array's subchunks go through and are not served with.
pub fn unread_codec(alloc: Global, codecs: &Placed) -> Result<Option<String>, AllocError>
    ensures { IfOk result (λ name. option_map string_bytes name ≡ unread_codec_in (as_array (view codecs.now.value.now))) }
{
    let Some(values) = codecs.value.as_array() else {
        return Ok(None);
    };
    match unread_name(values) {
        Some(name) => Ok(Some(String::from_str(alloc, name)?)),
        None => Ok(None),
    }
}
