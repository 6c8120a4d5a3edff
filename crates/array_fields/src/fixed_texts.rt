// Fill values of texts that have a number of bytes.
ghost use Rattle.std.specs.Prelude.{◌≡◌, IfOk, IfSome, List, ℕ, length};
ghost use Rattle.std.specs.Str.{chars};
ghost use Rattle.serde_json.specs.Find.{as_str};
ghost use Rattle.serde_json.specs.View.{view};
ghost use Rattle.array_fields.specs.RawBits.{IsRawIn};
ghost use Rattle.array_fields.specs.FillValues.{utf32, IsFilledUp, IsUtf32Of};

use crate::error::MetadataError;
use crate::fields::Placed;
use crate::raw_bits::said_bytes;
use serde_json::Value;
use std::alloc::{AllocError, Global};

// The characters of a text.
fn characters_of(alloc: Global, text: &str) -> Result<Vec<char>, AllocError>
    ensures { IfOk result (λ characters. characters.items ≡ chars text.now) }
{
    text.chars().collect(alloc)
}

// Characters in UTF-32, least significant byte first.
fn utf32(alloc: Global, characters: &[char]) -> Result<Vec<u8>, AllocError>
    ensures { IfOk result (λ bytes. bytes.items ≡ utf32 characters.now) }
{
    let mut bytes = Vec::new(alloc);
    for character in characters {
        bytes.extend_from_slice(&(*character as u32).to_le_bytes())?;
    }
    Ok(bytes)
}

// Bytes, and zeros behind them up to a size; nothing where there are more.
fn filled_up(bytes: Vec<u8>, size: usize) -> Result<Option<Vec<u8>>, AllocError>
    ensures size { IfOk result (λ found. IfSome found (λ element. length element.items ≡ size)) }
    ensures filled { IfOk result (λ found. IfSome found (λ element. IsFilledUp bytes.items element.items)) }
{
    if bytes.len() > size {
        return Ok(None);
    }
    let mut element = bytes;
    element.resize(size, 0)?;
    Ok(Some(element))
}

/// The bytes of a text in UTF-32 that a value is, of a size; nothing where it is no text, or has more.
pub(crate) fn utf32_bytes(
    alloc: Global,
    value: &Value,
    size: usize,
) -> Result<Option<Vec<u8>>, AllocError>
    ensures size { IfOk result (λ found. IfSome found (λ element. length element.items ≡ size)) }
    ensures read { IfOk result (λ found. IfSome found (λ element. IsUtf32Of (as_str (view value.now)) element.items)) }
{
    let Some(text) = value.as_str() else {
        return Ok(None);
    };
    let characters = characters_of(alloc, text)?;
    filled_up(utf32(alloc, &characters)?, size)
}

/// The bytes that a value is, of a size, with zeros behind them; nothing where these are no bytes, or more.
pub(crate) fn null_terminated_bytes(
    alloc: Global,
    fill: &Placed,
    size: usize,
) -> Result<Option<Vec<u8>>, MetadataError>
    ensures size { IfOk result (λ found. IfSome found (λ element. length element.items ≡ size)) }
    ensures read { IfOk result (λ found. IfSome found (λ element. (bytes : List ℕ) × IsRawIn (view fill.now.value.now) bytes × IsFilledUp bytes element.items)) }
{
    match said_bytes(alloc, fill)? {
        Some(bytes) => Ok(filled_up(bytes, size)?),
        None => Ok(None),
    }
}
