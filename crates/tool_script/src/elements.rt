// The elements that numbers and bytes stand for, and back.
ghost use Rattle.std.specs.Prelude.{◌≡◌, ◌≤◌, [], Err, map, length, codes, IfOk};
ghost use Rattle.std.specs.List.{All};
ghost use Rattle.parts_arrays.specs.declared.data_type.DataTypeSize.TheVariants.{Fixed, Variable};
ghost use Rattle.tool_script.specs.Elements.{width_of, element_of_number};
ghost use Rattle.tool_script.specs.Hex.{hex_word, IsHexWord};
ghost use Rattle.tool_script.specs.Text.{members_of};
ghost use Rattle.tool_script.specs.declared.reason.Reason.{Reason};
ghost use Rattle.tool_script.specs.declared.stop.Stop.TheVariants.{Malformed};

use crate::element_type::NumberType;
use crate::parse::parse_bytes;
use crate::pieces::Pieces;
use crate::stop::Stop;
use std::alloc::{AllocError, Global};
use zarr_parts::{ArrayBuilder, ArrayBytes, DataTypeSize, FillValue};

/// The array of these numbers, as elements of a type. Refused only as out of memory.
pub fn array_of(
    alloc: Global,
    numbers: &[u64],
    number_type: NumberType,
) -> Result<ArrayBytes<'static>, AllocError>
    ensures kind { IfOk result (λ array. array.kind ≡ Fixed (width_of number_type)) }
    ensures elements { IfOk result (λ array. array.elements ≡ map (element_of_number number_type) numbers.now) }
{
    let width = number_type.width();
    let mut array = ArrayBuilder::new(alloc, DataTypeSize::Fixed(width))?;
    for number in numbers {
        let bytes = number.to_le_bytes();
        array.push(&bytes[..width])?;
    }
    Ok(array.finish())
}

// The array of the elements between the commas of a text. `Malformed` for any other text.
fn bytes_members<'a>(alloc: Global, text: &'a [u8]) -> Result<ArrayBytes<'static>, Stop<'a>>
    ensures kind { IfOk result (λ array. array.kind ≡ Variable) }
    ensures elements { IfOk result (λ array. map hex_word array.elements ≡ members_of text.now) }
    ensures malformed { (reason : Reason) → result ≡ Err (Malformed reason) → ¬ All IsHexWord (members_of text.now) }
{
    let mut array = ArrayBuilder::new(alloc, DataTypeSize::Variable)?;
    for member in Pieces::new(text, b',') {
        let element = parse_bytes(alloc, member)?;
        array.push(&element)?;
    }
    Ok(array.finish())
}

/// The array of the elements that a list writes, each as `x` and its bytes: none for `-`, else those between the commas.
/// `Malformed` for any other word.
pub fn bytes_array_of<'a>(alloc: Global, word: &'a [u8]) -> Result<ArrayBytes<'static>, Stop<'a>>
    ensures kind { IfOk result (λ array. array.kind ≡ Variable) }
    ensures empty { word.now ≡ codes "-" → IfOk result (λ array. array.elements ≡ []) }
    ensures elements { ¬ (word.now ≡ codes "-") → IfOk result (λ array. map hex_word array.elements ≡ members_of word.now) }
    ensures malformed { (reason : Reason) → result ≡ Err (Malformed reason) → (¬ (word.now ≡ codes "-")) × (¬ All IsHexWord (members_of word.now)) }
{
    match word {
        b"-" => Ok(ArrayBuilder::new(alloc, DataTypeSize::Variable)?.finish()),
        _ => bytes_members(alloc, word),
    }
}

/// The fill value of this number, as an element of a type. Refused only as out of memory.
pub fn fill_value_of(
    alloc: Global,
    number: u64,
    number_type: NumberType,
) -> Result<FillValue, AllocError>
    ensures { IfOk result (λ fill. fill ≡ element_of_number number_type number) }
{
    let bytes = number.to_le_bytes();
    let element = bytes[..number_type.width()].to_vec(alloc)?;
    Ok(FillValue::new(element))
}

/// The number that an element is, its least significant byte first.
pub fn number_of(element: &[u8]) -> u64
    requires { length element.now ≤ 8 }
{
    let mut bytes = [0; 8];
    bytes[..element.len()].copy_from_slice(element);
    u64::from_le_bytes(bytes)
}
