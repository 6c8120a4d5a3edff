// The codec `transpose` in the metadata of an array.
ghost use Rattle.std.specs.Prelude.{◌≡◌, Ok, Some, IfOk, IfSome, codes, length, option_map};
ghost use Rattle.serde_json.specs.View.{view, items_view};
ghost use Rattle.codec_metadata.specs.Metadata.{name_in};
ghost use Rattle.array_fields.specs.MetadataFields.{is_named};
ghost use Rattle.array_fields.specs.MetadataFields.{Names};
ghost use Rattle.array_codecs.specs.Transposes.{is_transposed, transpose_in, transpose_before, untransposed};

use crate::axis_order::AxisOrder;
use array_fields::{MetadataError, Placed};
use codec_metadata::metadata_name;
use serde_json::Value;
use std::alloc::Global;

/// A list of the metadata of codecs: that of `transpose` where it begins the list, and that of the codecs behind it.
#[derive(Clone, Copy)]
pub struct CodecValues<'a> {
    pub transpose: Option<&'a Value>,
    pub codecs: &'a [Value],
}

// Whether metadata has a name.
fn is_named(metadata: &Value, name: &str) -> bool
    ensures { result ≡ is_named name.now (view metadata.now) }
{
    metadata_name(metadata) == Some(name)
}

// Whether a list begins with `transpose`, and the codec of a name stands behind it.
#[tactic(auto, using(crate::proofs::TransposedLists::short_list, crate::proofs::TransposedLists::long_list))]
fn is_transposed(values: &[Value], name: &str) -> bool
    ensures { result ≡ is_transposed name.now (items_view values.now) }
{
    if values.len() < 2 {
        return false;
    }
    is_named(&values[0], "transpose") && is_named(&values[1], name)
}

/// The codecs of a list, and `transpose` before them where the codec of a name stands behind it.
#[tactic(auto, using(crate::proofs::TransposedLists::transposed_long, crate::proofs::TransposedLists::transposed_named, crate::proofs::TransposedLists::first_list, crate::proofs::TransposedLists::behind_list))]
pub fn codec_values<'a>(values: &'a [Value], name: &str) -> CodecValues<'a>
    ensures transpose { option_map (λ metadata. view metadata.now) result.transpose ≡ transpose_before name.now (items_view values.now) }
    ensures codecs { items_view result.codecs.now ≡ untransposed name.now (items_view values.now) }
    ensures named { IfSome result.transpose (λ metadata. name_in (view metadata.now) ≡ Some (codes "transpose")) }
{
    if !is_transposed(values, name) {
        return CodecValues {
            transpose: None,
            codecs: values,
        };
    }
    CodecValues {
        transpose: Some(&values[0]),
        codecs: &values[1..],
    }
}

// The order of axes in the metadata of `transpose`. Refused as `MissingField`, or as `BadField` where it is no permutation of them.
fn order_in(alloc: Global, metadata: &Placed, axes: usize) -> Result<AxisOrder, MetadataError>
    requires named { Names (view metadata.now.value.now) (codes "transpose") }
    ensures axes { IfOk result (λ order. length order ≡ axes) }
    ensures read { IfOk result (λ order. transpose_in axes (view metadata.now.value.now) ≡ Ok order) }
{
    let configuration = metadata.required(alloc, "configuration")?;
    configuration.only_members(alloc, &["order"])?;
    let placed = configuration.required(alloc, "order")?;
    let numbers = placed.numbers(alloc)?;
    if numbers.len() != axes {
        return Err(placed.bad(alloc, "an order has other than one number for each axis"));
    }
    match AxisOrder::new(alloc, numbers)? {
        Some(order) => Ok(order),
        None => Err(placed.bad(alloc, "an order names each axis once, from 0 on")),
    }
}

/// The order of this number of axes that `transpose` names, which stands first in a list at a place (Zarr V3, codec `transpose`). Refused
/// as `MissingField` or `BadField` where its configuration has no permutation of the axes.
pub fn transpose_order(
    alloc: Global,
    value: &Value,
    list: &str,
    axes: usize,
) -> Result<AxisOrder, MetadataError>
    requires named { name_in (view value.now) ≡ Some (codes "transpose") }
    ensures axes { IfOk result (λ order. length order ≡ axes) }
    ensures read { IfOk result (λ order. transpose_in axes (view value.now) ≡ Ok order) }
{
    let (key, place) = ("codecs", format!(in alloc; "{list}[0]")?);
    let metadata = Placed { value, key, place };
    let _name = metadata.extension_name(alloc)?;
    order_in(alloc, &metadata, axes)
}
