// What metadata keeps of its text: the text as it stands, and some members for a terminal.
ghost use Rattle.std.specs.Prelude.{◌≡◌, IfOk, string_bytes};

use crate::element_types::ElementType;
use crate::error::MetadataError;
use crate::escape::escaped_whole;
use crate::fields::Placed;
use std::alloc::Global;

/// The values of `data_type` and `fill_value` of an array, as they stand in the text, for a terminal.
#[derive(Drop)]
pub struct TypeText {
    pub data_type: String,
    pub fill_value: String,
}

// What stands under a key, for a terminal.
fn shown(alloc: Global, whole: &Placed, key: &'static str) -> Result<String, MetadataError> {
    let value = whole.required(alloc, key)?.value;
    let text = match value.as_str() {
        Some(text) if key == "data_type" => String::from_str(alloc, text)?,
        _ => value.to_string(alloc)?,
    };
    Ok(escaped_whole(alloc, text.as_str())?)
}

// The data type and the fill value of an array, where elements of the type are no whole numbers and no `bool`.
fn type_text_in(
    alloc: Global,
    whole: &Placed,
    element_type: ElementType,
) -> Result<Option<TypeText>, MetadataError> {
    if matches!(element_type, ElementType::Number(_)) {
        return Ok(None);
    }
    Ok(Some(TypeText {
        data_type: shown(alloc, whole, "data_type")?,
        fill_value: shown(alloc, whole, "fill_value")?,
    }))
}

// The value of `dimension_names` in an array's metadata, as it stands there, for a terminal; `None` where there are no names. Refused only as
// `OutOfMemory`.
fn dimension_names_in(alloc: Global, whole: &Placed) -> Result<Option<String>, MetadataError> {
    match whole.member(alloc, "dimension_names")? {
        Some(names) if !names.value.is_null() => {
            let text = names.value.to_string(alloc)?;
            Ok(Some(escaped_whole(alloc, text.as_str())?))
        }
        _ => Ok(None),
    }
}

/// What metadata keeps of its text: the text, and of its members what stands there, for a terminal.
#[derive(Drop)]
pub struct KeptText {
    /// Of elements that are no whole numbers and no `bool`.
    pub type_text: Option<TypeText>,
    /// The value of `dimension_names`; `None` where there are no names.
    pub dimension_names: Option<String>,
    pub text: String,
}

/// What metadata of elements of this type keeps of its text. Refused as `MissingField` where there is no `data_type` or `fill_value`.
pub fn kept_text(
    alloc: Global,
    whole: &Placed,
    element_type: ElementType,
    text: &str,
) -> Result<KeptText, MetadataError>
    ensures { IfOk result (λ kept. string_bytes kept.text ≡ text.now) }
{
    let type_text = type_text_in(alloc, whole, element_type)?;
    let dimension_names = dimension_names_in(alloc, whole)?;
    let text = String::from_str(alloc, text)?;
    Ok(KeptText {
        type_text,
        dimension_names,
        text,
    })
}
