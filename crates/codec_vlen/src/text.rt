// The text of elements that have lengths of their own: written, and read without trust.
ghost use Rattle.std.specs.Prelude.{◌≡◌, ◌++◌, ◌<◌, ◌^◌, ◌↔◌, IfOk, IfErr, OnOk, Some, IsSome, IfSome, IsTrue, All, length, take, drop, ◌≤◌, option_map};
ghost use Rattle.parts_errors.specs.Order.{◌or◌then◌, done, RefusedBy};
ghost use Rattle.parts_errors.specs.declared.error.CodecError.TheVariants.{CannotEncode, TooLarge};
ghost use Rattle.parts_arrays.specs.declared.data_type.DataTypeSize.TheVariants.{Variable};
ghost use Rattle.codec_traits.specs.WholeArrays.{WholeRefusals};
ghost use Rattle.codec_vlen.specs.Text.{number_bytes, element_text, vlen_text, HasText, first_number, first_element, elements_in, vlen_elements};

use parts_arrays::{ArrayBytes, VariableParts, push_part};
use parts_errors::CodecError;
use std::alloc::{AllocError, Global};
use std::borrow::CowSlice;

// Whether the length of each element is a number of four bytes.
fn lengths_fit(array: &ArrayBytes) -> bool
    ensures { IsTrue result ↔ All (λ element. length element < 2 ^ 32) array.now.elements }
{
    if array.byte_len() <= u32::MAX as usize {
        return true;
    }
    for i in 0..array.len() {
        if array.element(i).len() > u32::MAX as usize {
            return false;
        }
    }
    true
}

// How long the encoding of elements is. Refused, in this order, as `CannotEncode` where the count or a length is no number of four
// bytes, and as `TooLarge`.
#[tactic(auto, using(crate::proofs::TextSteps::vlen_text_len))]
pub(crate) fn text_len(array: &ArrayBytes) -> Result<usize, CodecError>
    ensures len { IfOk result (λ len. len ≡ length (vlen_text array.now.elements)) }
    ensures encodable { OnOk result (HasText array.now.elements) }
    ensures refused { IfErr result (
        HasText array.now.elements or CannotEncode then
        length (vlen_text array.now.elements) < 2 ^ 64 or TooLarge then
        done) }
{
    if array.len() > u32::MAX as usize || !lengths_fit(array) {
        return Err(CodecError::CannotEncode);
    }
    let numbers = 4 + 4 * array.len();
    let Some(len) = array.byte_len().checked_add(numbers) else {
        return Err(CodecError::TooLarge);
    };
    Ok(len)
}

// Adds a number of four bytes.
#[tactic(auto, unfolding(crate::specs::Text::number_bytes))]
fn push_number(text: &mut Vec<u8>, number: u32) -> Result<(), AllocError>
    ensures { OnOk result (text.new.items ≡ text.old.items ++ number_bytes number) }
{
    text.extend_from_slice(&number.to_le_bytes())
}

// Adds an element behind its length.
fn push_text(text: &mut Vec<u8>, element: &[u8]) -> Result<(), AllocError>
    requires { length element.now < 2 ^ 32 }
    ensures { OnOk result (text.new.items ≡ text.old.items ++ element_text element.now) }
{
    push_number(text, element.len() as u32)?;
    text.extend_from_slice(element)
}

// The text of elements, which is so long.
pub(crate) fn text_of(alloc: Global, array: &ArrayBytes, len: usize) -> Result<Vec<u8>, AllocError>
    requires { HasText array.now.elements }
    ensures { IfOk result (λ text. text.items ≡ vlen_text array.now.elements) }
{
    let mut text = Vec::with_capacity(alloc, len)?;
    push_number(&mut text, array.len() as u32)?;
    for i in 0..array.len() {
        push_text(&mut text, array.element(i))?;
    }
    Ok(text)
}

// The number that the first four bytes are, and the bytes after them. `None` where there are fewer.
fn split_number(text: &[u8]) -> Option<(usize, &[u8])>
    ensures { option_map (λ found. (found.0, found.1.now)) result ≡ first_number text.now }
{
    let Some((number, rest)) = text.split_first_chunk::<4>() else {
        return None;
    };
    Some((u32::from_le_bytes(*number) as usize, rest))
}

// How long the first element is, which stands after its length, and the bytes from its first on. `None` where there are fewer.
fn split_len(text: &[u8]) -> Option<(usize, &[u8])>
    ensures within { IfSome result (λ found. found.0 ≤ length found.1.now) }
    ensures read { option_map (λ found. (take found.0 found.1.now, drop found.0 found.1.now)) result ≡ first_element text.now }
{
    let (len, rest) = split_number(text)?;
    if len > rest.len() {
        return None;
    }
    Some((len, rest))
}

// So many elements, each behind its length. Refused as `Damaged` where the encoding is anything else; or as `OutOfMemory`. Bytes and
// offsets stand in variables of their own, which a loop keeps in registers where it could not keep a builder's.
fn read_elements(
    alloc: Global,
    text: &[u8],
    count: usize,
) -> Result<ArrayBytes<'static>, CodecError>
    ensures kind { IfOk result (λ array. array.kind ≡ Variable) }
    ensures elements { IfOk result (λ array. elements_in count text.now ≡ Some array.elements) }
    ensures refused { IfErr result (RefusedBy (WholeRefusals (elements_in count text.now))) }
{
    // (so the room is in proportion to the encoding, whatever it tells)
    if count > text.len() / 4 {
        return Err(CodecError::Damaged);
    }
    let mut bytes = Vec::with_capacity(alloc, text.len() - 4 * count)?;
    let mut offsets = Vec::with_capacity(alloc, count + 1)?;
    offsets.push_reserved(0);
    let mut rest = text;
    for i in 0..count {
        let Some((len, found)) = split_len(rest) else {
            return Err(CodecError::Damaged);
        };
        push_part(&mut bytes, &mut offsets, found, len)?;
        rest = &found[len..];
    }
    if !rest.is_empty() {
        return Err(CodecError::Damaged);
    }
    let bytes = CowSlice::Owned(bytes);
    Ok(ArrayBytes::from_variable(VariableParts { bytes, offsets }))
}

// The array of so many elements that an encoding is of. No count grows anything that the encoding is too short for. Refused as
// `Damaged` where the encoding is of no such array; or as `OutOfMemory`.
#[tactic(auto, unfolding(crate::specs::Text::vlen_elements))]
pub(crate) fn read_text(
    alloc: Global,
    text: &[u8],
    count: u64,
) -> Result<ArrayBytes<'static>, CodecError>
    ensures kind { IfOk result (λ array. array.kind ≡ Variable) }
    ensures elements { IfOk result (λ array. vlen_elements count text.now ≡ Some array.elements) }
    ensures refused { IfErr result (RefusedBy (WholeRefusals (vlen_elements count text.now))) }
{
    let Some((told, rest)) = split_number(text) else {
        return Err(CodecError::Damaged);
    };
    if told as u64 != count {
        return Err(CodecError::Damaged);
    }
    read_elements(alloc, rest, told)
}
