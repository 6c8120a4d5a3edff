// The fill value.
ghost use Rattle.std.specs.Prelude.{◌≡◌, ◌≤◌, ◌<◌, ◌*◌, ◌≤ℤ◌, ℤ, pos, Some, IfOk, IfSome, length, take, option_and_then};
ghost use Rattle.std.specs.Int.{w64, to_le_bytes};
ghost use Rattle.serde_json.specs.Find.{as_array, as_number, as_integer, as_str};
ghost use Rattle.serde_json.specs.View.{view};
ghost use Rattle.parts_arrays.specs.Types.{size_of, byte_size, FitsKind};
ghost use Rattle.parts_arrays.specs.declared.data_type.DataTypeSize.TheVariants.{Fixed};
ghost use Rattle.parts_arrays.specs.declared.data_type.DataType.TheVariants.{Int64};
ghost use Rattle.array_fields.specs.ElementTypes.{carrier, float_size};
ghost use Rattle.array_fields.specs.Floats.{sign_of};
ghost use Rattle.array_fields.specs.FillValues.{number_in, number_of, time_in, IsFloatIn, IsElementIn, IsComplexIn, IsValueIn, IsFillIn};

use crate::element_types::ElementType;
use crate::error::MetadataError;
use crate::fields::Placed;
use crate::fixed_texts::{null_terminated_bytes, utf32_bytes};
use crate::floats::FloatFormat;
use crate::raw_bits::{raw_bytes, said_bytes};
use parts_arrays::{DataType, DataTypeSize, FillValue};
use serde_json::Value;
use std::alloc::{AllocError, Global};

// The number of a value that fits an unsigned element of which the largest is `most`.
fn unsigned(value: &Value, most: u64) -> Option<u64>
    ensures read { IfSome result (λ number. option_and_then as_integer (as_number (view value.now)) ≡ Some (pos number)) }
    ensures fits { IfSome result (λ number. number ≤ most) }
{
    match value.as_u64() {
        Some(number) if number <= most => Some(number),
        _ => None,
    }
}

// The number of a value that fits a signed element from `least` to `most`.
fn signed(value: &Value, least: i64, most: i64) -> Option<i64>
    ensures read { IfSome result (λ number. option_and_then as_integer (as_number (view value.now)) ≡ Some number) }
    ensures low { IfSome result (λ number. least ≤ℤ number) }
    ensures high { IfSome result (λ number. number ≤ℤ most) }
{
    match value.as_i64() {
        Some(number) if least <= number && number <= most => Some(number),
        _ => None,
    }
}

// The bits of a bool or a whole number that a value is, as of an element of 64 bits. `None` where it is no element of the type.
#[tactic(auto, using(crate::proofs::Elements::read_elements))]
fn number_bits(value: &Value, data_type: DataType) -> Option<u64>
    ensures { IfSome result (λ bits. number_in data_type (view value.now) ≡ Some (number_of data_type (take (byte_size (size_of data_type)) (to_le_bytes w64 bits)))) }
{
    match data_type {
        DataType::Bool => value.as_bool().map(u64::from),
        DataType::Int8 => signed(value, -0x80, 0x7f).map(i64::cast_unsigned),
        DataType::Int16 => signed(value, -0x8000, 0x7fff).map(i64::cast_unsigned),
        DataType::Int32 => signed(value, -0x8000_0000, 0x7fff_ffff).map(i64::cast_unsigned),
        DataType::Int64 => signed(value, i64::MIN, i64::MAX).map(i64::cast_unsigned),
        DataType::UInt8 => unsigned(value, 0xff),
        DataType::UInt16 => unsigned(value, 0xffff),
        DataType::UInt32 => unsigned(value, 0xffff_ffff),
        DataType::UInt64 => unsigned(value, u64::MAX),
        DataType::Raw(_) | DataType::Bytes | DataType::Optional => None,
    }
}

// The bits of a time that a value is.
#[tactic(auto, using(crate::proofs::Elements::read_elements, crate::proofs::SaidFloats::time_text, crate::proofs::SaidFloats::time_number))]
fn time_bits(value: &Value) -> Option<u64>
    ensures { IfSome result (λ bits. time_in (view value.now) ≡ Some (number_of Int64 (take 8 (to_le_bytes w64 bits)))) }
{
    match value.as_str() {
        Some("NaT") => Some(0x8000_0000_0000_0000),
        Some(_) => None,
        None => signed(value, i64::MIN, i64::MAX).map(i64::cast_unsigned),
    }
}

// The bits of a float that a value is: by a text, or by a number.
#[tactic(auto, using(crate::proofs::SaidFloats::text_said, crate::proofs::SaidFloats::number_said))]
fn said_bits(value: &Value, format: FloatFormat) -> Option<u64>
    ensures { IfSome result (IsFloatIn format (view value.now)) }
{
    match value.as_str() {
        Some(text) => format.text_bits(text),
        None => format.number_bits(value.as_f64()?),
    }
}

// The same, where it has as many bits as the format.
fn float_bits(value: &Value, format: FloatFormat) -> Option<u64>
    ensures said { IfSome result (IsFloatIn format (view value.now)) }
    ensures fits { IfSome result (λ bits. bits < 2 * sign_of format) }
{
    match said_bits(value, format) {
        Some(bits) if bits / 2 < format.sign() => Some(bits),
        _ => None,
    }
}

// The bits of an element that a value is, as of an element of 64 bits. `None` where it is no element of the type.
#[tactic(auto, using(crate::proofs::SaidFloats::float_element))]
fn element_bits(value: &Value, element_type: ElementType) -> Option<u64>
    ensures { IfSome result (λ bits. IsElementIn element_type (view value.now) (number_of (carrier element_type) (take (byte_size (size_of (carrier element_type))) (to_le_bytes w64 bits)))) }
{
    match element_type {
        ElementType::Number(data_type) => number_bits(value, data_type),
        ElementType::Float(format) => float_bits(value, format),
        ElementType::DateTime64 | ElementType::TimeDelta64 => time_bits(value),
        ElementType::Complex(_) | ElementType::RawBits(_) | ElementType::Unread(_) => None,
        ElementType::Utf8 | ElementType::Binary => None,
        ElementType::Utf32(_) | ElementType::NullTerminated(_) => None,
    }
}

// The bytes of an element that a value is, of a type whose elements are numbers.
fn number_bytes(
    alloc: Global,
    value: &Value,
    element_type: ElementType,
) -> Result<Option<Vec<u8>>, AllocError>
    ensures size { IfOk result (λ found. IfSome found (λ bytes. size_of (carrier element_type) ≡ Fixed (length bytes.items))) }
    ensures read { IfOk result (λ found. IfSome found (λ bytes. IsElementIn element_type (view value.now) (number_of (carrier element_type) bytes.items))) }
{
    let Some(bits) = element_bits(value, element_type) else {
        return Ok(None);
    };
    let bytes = bits.to_le_bytes();
    match element_type.carrier().size() {
        DataTypeSize::Fixed(size) if size <= bytes.len() => {
            Ok(Some(bytes[..size].to_vec(alloc)?))
        }
        _ => Ok(None),
    }
}

// The bytes of a complex number that a value is: a list of both parts.
fn complex_bytes(
    alloc: Global,
    value: &Value,
    format: FloatFormat,
) -> Result<Option<Vec<u8>>, AllocError>
    ensures size { IfOk result (λ found. IfSome found (λ bytes. length bytes.items ≡ 2 * float_size format)) }
    ensures read { IfOk result (λ found. IfSome found (λ bytes. IsComplexIn format (as_array (view value.now)) bytes.items)) }
{
    let Some(parts) = value.as_array() else {
        return Ok(None);
    };
    let [real, imaginary] = parts.as_slice() else {
        return Ok(None);
    };
    let part = ElementType::Float(format);
    let Some(mut bytes) = number_bytes(alloc, real, part)? else {
        return Ok(None);
    };
    let Some(behind) = number_bytes(alloc, imaginary, part)? else {
        return Ok(None);
    };
    bytes.extend_from_slice(&behind)?;
    Ok(Some(bytes))
}

// The bytes of a text that a value is.
fn text_bytes(alloc: Global, value: &Value) -> Result<Option<Vec<u8>>, AllocError>
    ensures { IfOk result (λ found. IfSome found (λ bytes. as_str (view value.now) ≡ Some bytes.items)) }
{
    match value.as_str() {
        Some(text) => Ok(Some(Vec::from_slice(alloc, text.as_bytes())?)),
        None => Ok(None),
    }
}

// The bytes of an element that a value is; zeros of a type whose elements are not read.
#[tactic(auto, using(crate::proofs::SaidBytes::number_said, crate::proofs::SaidBytes::size_fits))]
fn element_bytes(
    alloc: Global,
    fill: &Placed,
    element_type: ElementType,
) -> Result<Option<Vec<u8>>, MetadataError>
    ensures size { IfOk result (λ found. IfSome found (λ bytes. FitsKind (size_of (carrier element_type)) bytes.items)) }
    ensures read { IfOk result (λ found. IfSome found (λ bytes. IsValueIn element_type (view fill.now.value.now) bytes.items)) }
{
    match element_type {
        ElementType::Complex(format) => Ok(complex_bytes(alloc, fill.value, format)?),
        ElementType::RawBits(size) => raw_bytes(alloc, fill, size),
        ElementType::Utf8 => Ok(text_bytes(alloc, fill.value)?),
        ElementType::Binary => said_bytes(alloc, fill),
        ElementType::Utf32(size) => Ok(utf32_bytes(alloc, fill.value, size)?),
        ElementType::NullTerminated(size) => null_terminated_bytes(alloc, fill, size),
        ElementType::Unread(size) => Ok(Some(Vec::from_elem(alloc, 0u8, size)?)),
        _ => Ok(number_bytes(alloc, fill.value, element_type)?),
    }
}

// Why a value is no fill value.
fn sentence_of(
    alloc: Global,
    value: &Value,
    element_type: ElementType,
) -> Result<String, AllocError> {
    let name = element_type.name();
    match element_type {
        ElementType::Float(_) if value.is_number() => {
            format!(in alloc; "this number is past the range of {name}")
        }
        ElementType::RawBits(size) => {
            format!(in alloc; "this is no list of {size} bytes, and no base64 of as many")
        }
        ElementType::Binary => format!(in alloc; "this is no list of bytes, and no base64"),
        ElementType::Utf32(size) => {
            format!(in alloc; "this is no text of at most {} characters", size / 4)
        }
        ElementType::NullTerminated(size) => {
            format!(in alloc; "this is no list of at most {size} bytes, and no base64 of one")
        }
        _ => format!(in alloc; "this is no element of {name}"),
    }
}

/// The fill value of elements of a type that a value is (Zarr V3 core, "Fill value"); zeros of a type whose elements are not read. Refused
/// as `BadField`.
pub fn fill_value_in(
    alloc: Global,
    fill: &Placed,
    element_type: ElementType,
) -> Result<FillValue, MetadataError>
    ensures size { IfOk result (λ fill_value. FitsKind (size_of (carrier element_type)) fill_value) }
    ensures read { IfOk result (IsFillIn element_type (Some (view fill.now.value.now))) }
{
    match element_bytes(alloc, fill, element_type)? {
        Some(bytes) => Ok(FillValue::new(bytes)),
        None => {
            let sentence = sentence_of(alloc, fill.value, element_type)?;
            Err(fill.bad(alloc, sentence.as_str()))
        }
    }
}
