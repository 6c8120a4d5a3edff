// What stands under the keys of a configuration.
ghost use Rattle.std.specs.Prelude.{◌≡◌, ◌⊎◌, Some, None, Ok, IfOk, IfErr, IfSome, option_map};
ghost use Rattle.serde_json.specs.Find.{get, as_array};
ghost use Rattle.serde_json.specs.View.{view, items_view};
ghost use Rattle.parts_row_major.specs.Numbering.{AllPositive};
ghost use Rattle.sharding_format.specs.declared.location.ShardingIndexLocation.TheVariants.{End};
ghost use Rattle.codec_metadata.specs.CreateErrors.{RefusedAs, refusal_of, missing_field};
ghost use Rattle.codec_metadata.specs.declared.error.PluginCreateError.TheVariants.{OutOfMemory};
ghost use Rattle.sharding_configuration.specs.Configuration.{field, field_or, axes_in, shape_in, location_in, axis_in};

use codec_metadata::PluginCreateError;
use parts_subsets::{Axes, ChunkShape};
use serde_json::Value;
use sharding_format::ShardingIndexLocation;
use std::alloc::Global;

// What stands under a key that must be there.
fn required<'a>(alloc: Global, object: &'a Value, key: &str) -> Result<&'a Value, PluginCreateError>
    ensures found { IfOk result (λ value. get key.now (view object.now) ≡ Some (view value.now)) }
    ensures refused { IfErr result (λ e. (e ≡ OutOfMemory) ⊎ ((get key.now (view object.now) ≡ None) × (refusal_of e ≡ missing_field key.now))) }
{
    match object.get(key) {
        Some(value) => Ok(value),
        None => Err(PluginCreateError::missing_field(alloc, key)),
    }
}

// A whole number from 1 on.
fn axis(value: &Value) -> Option<u64>
    ensures { result ≡ axis_in (view value.now) }
{
    match value.as_u64() {
        Some(axis) if axis > 0 => Some(axis),
        _ => None,
    }
}

// The axes that a list of values has, or `None` where some value is no axis.
fn axes(alloc: Global, values: &[Value]) -> Result<Option<Vec<u64>>, PluginCreateError>
    ensures read { IfOk result (λ axes. option_map (λ v. v.items) axes ≡ axes_in (items_view values.now)) }
    ensures positive { IfOk result (λ axes. IfSome axes (λ v. AllPositive v.items)) }
    ensures refused { IfErr result (λ e. e ≡ OutOfMemory) }
{
    let mut axes = Vec::new(alloc);
    for value in values {
        let Some(axis) = axis(value) else {
            return Ok(None);
        };
        axes.push(axis)?;
    }
    Ok(Some(axes))
}

// The shape under a key.
pub fn shape_under(
    alloc: Global,
    object: &Value,
    key: &str,
) -> Result<ChunkShape, PluginCreateError>
    ensures read { IfOk result (λ shape. field key.now shape_in (view object.now) ≡ Ok shape) }
    ensures refused { IfErr result (RefusedAs (field key.now shape_in (view object.now))) }
{
    let value = required(alloc, object, key)?;
    let Some(list) = value.as_array() else {
        return Err(PluginCreateError::bad_field(alloc, key));
    };
    match axes(alloc, list)? {
        Some(axes) => Ok(ChunkShape::from_positive(Axes::from_vec(axes))),
        None => Err(PluginCreateError::bad_field(alloc, key)),
    }
}

// The list under a key.
pub fn list_under(alloc: Global, object: &Value, key: &str) -> Result<Vec<Value>, PluginCreateError>
    ensures read { IfOk result (λ list. field key.now as_array (view object.now) ≡ Ok (items_view list.items)) }
    ensures refused { IfErr result (RefusedAs (field key.now as_array (view object.now))) }
{
    let value = required(alloc, object, key)?;
    match value.as_array() {
        Some(list) => Ok(list.clone()?),
        None => Err(PluginCreateError::bad_field(alloc, key)),
    }
}

// Where the index stands, by a word.
fn location_named(value: &Value) -> Option<ShardingIndexLocation>
    ensures { result ≡ location_in (view value.now) }
{
    match value.as_str() {
        Some("start") => Some(ShardingIndexLocation::Start),
        Some("end") => Some(ShardingIndexLocation::End),
        _ => None,
    }
}

// Where the index stands, under a key that may be absent.
pub fn location_under(
    alloc: Global,
    object: &Value,
    key: &str,
) -> Result<ShardingIndexLocation, PluginCreateError>
    ensures read { IfOk result (λ location. field_or End key.now location_in (view object.now) ≡ Ok location) }
    ensures refused { IfErr result (RefusedAs (field_or End key.now location_in (view object.now))) }
{
    let Some(value) = object.get(key) else {
        return Ok(ShardingIndexLocation::End);
    };
    match location_named(value) {
        Some(location) => Ok(location),
        None => Err(PluginCreateError::bad_field(alloc, key)),
    }
}
