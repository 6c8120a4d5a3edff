// The members of an array's metadata: which are known, and how many axes there are.
ghost use Rattle.std.specs.Prelude.{◌≡◌, ◌≤◌, Some, None, IfOk, OnOk, IsTrue, codes, option_and_then, option_map, unwrap_or, vec_len};
ghost use Rattle.serde_json.specs.Data.{no_items};
ghost use Rattle.serde_json.specs.Find.{as_str, as_array, get};
ghost use Rattle.serde_json.specs.View.{view, members_view};
ghost use Rattle.codec_metadata.specs.Metadata.{first_refused, members_in};
ghost use Rattle.array_fields.specs.MetadataFields.{whole_number_in, whole_numbers_in, is_understood};

use crate::error::MetadataError;
use crate::fields::Placed;
use codec_metadata::PluginCreateError;
use serde_json::{Map, Value};
use std::alloc::Global;

// Whether a member of the metadata is known, or left with nothing in it, or says that it need not be understood.
fn is_understood(key: &str, value: &Value) -> bool
    ensures { result ≡ is_understood key.now (view value.now) }
{
    match key {
        "zarr_format" | "node_type" | "shape" | "data_type" | "chunk_grid" => true,
        "chunk_key_encoding" | "fill_value" | "codecs" | "attributes" => true,
        "dimension_names" | "storage_transformers" => true,
        "consolidated_metadata" if value.is_null() => true,
        _ => value.get("must_understand").and_then(Value::as_bool) == Some(false),
    }
}

// The key of the first member, in the order of keys, that is not understood.
fn first_unknown(members: &Map<String, Value>) -> Option<&str>
    ensures { option_map (λ key. key.now) result ≡ first_refused is_understood (members_view members.now.entries) }
{
    for (key, value) in members.iter() {
        if !is_understood(key.as_str(), value) {
            return Some(key.as_str());
        }
    }
    None
}

// What a value is that is no object.
const NO_OBJECT: &str = "the text is JSON, but no object";

/// Tests that a value is the metadata of an array of Zarr V3 (Zarr V3 core, "Array metadata"). Refused, in this order, where it is no
/// object, of another `zarr_format` than 3, or of another `node_type` than `array`.
pub fn test_array(alloc: Global, whole: &Placed) -> Result<(), MetadataError>
    ensures format { OnOk result (option_and_then whole_number_in (get (codes "zarr_format") (view whole.now.value.now)) ≡ Some 3) }
    ensures node_type { OnOk result (option_and_then as_str (get (codes "node_type") (view whole.now.value.now)) ≡ Some (codes "array")) }
{
    if !whole.value.is_object() {
        return Err(whole.bad(alloc, NO_OBJECT));
    }
    let format = whole.required(alloc, "zarr_format")?;
    if format.value.as_u64() != Some(3) {
        return Err(format.bad(alloc, "only arrays of Zarr V3 are read"));
    }
    let node_type = whole.required(alloc, "node_type")?;
    match node_type.value.as_str() {
        Some("array") => Ok(()),
        Some("group") => Err(node_type.bad(
            alloc,
            "this is a group, not an array: `list` names the arrays below it",
        )),
        _ => Err(node_type.bad(alloc, "this is not an array")),
    }
}

/// Tests that all members of an array's metadata are understood (Zarr V3 core, "Array metadata"). Refused, in this order, where it is no
/// object, has an unknown member that must be understood, or `storage_transformers`.
pub fn test_understood(alloc: Global, whole: &Placed) -> Result<(), MetadataError>
    ensures understood { OnOk result (first_refused is_understood (members_in (view whole.now.value.now)) ≡ None) }
    ensures transformers { OnOk result (unwrap_or (option_map as_array (get (codes "storage_transformers") (view whole.now.value.now))) (Some no_items) ≡ Some no_items) }
{
    let Some(members) = whole.value.as_object() else {
        return Err(whole.bad(alloc, NO_OBJECT));
    };
    if let Some(key) = first_unknown(members) {
        let error = PluginCreateError::bad_field(alloc, key);
        let sentence = "the key is not known, and must be understood";
        return Err(MetadataError::refused(alloc, error, key, sentence));
    }
    match whole.member(alloc, "storage_transformers")? {
        Some(transformers) if !is_empty_list(transformers.value) => {
            Err(transformers.bad(alloc, "storage transformers are not served"))
        }
        _ => Ok(()),
    }
}

// Whether a value is a list of nothing.
fn is_empty_list(value: &Value) -> bool
    ensures { IsTrue result → as_array (view value.now) ≡ Some no_items }
{
    value.as_array().is_some_and(|list| list.is_empty())
}

/// How many axes an array may have whose metadata is read. The codecs know no such bound.
pub const MOST_AXES: usize = 64;

/// How many cells an array has along each axis, by the value of `shape`. Refused as `BadField` where these are no whole numbers, or more than `MOST_AXES`.
pub fn axes_in(alloc: Global, shape: &Placed) -> Result<Vec<u64>, MetadataError>
    ensures read { IfOk result (λ axes. whole_numbers_in (view shape.now.value.now) ≡ Some axes.items) }
    ensures few { IfOk result (λ axes. vec_len axes ≤ 64) }
{
    let axes = shape.numbers(alloc)?;
    let many = axes.len();
    if many > MOST_AXES {
        let sentence = format!(in alloc;
            "arrays of more than {MOST_AXES} axes are not read, and this has {many}"
        )?;
        return Err(shape.bad(alloc, sentence.as_str()));
    }
    Ok(axes)
}
