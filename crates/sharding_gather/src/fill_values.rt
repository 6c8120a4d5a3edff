// Fill values, where nothing is stored.
ghost use Rattle.std.specs.Prelude.{◌≡◌, ◌*◌, ◌^◌, ◌≤◌, IfOk, IfErr, length, replicate};
ghost use Rattle.parts_errors.specs.Order.{RefusedBy};
ghost use Rattle.parts_arrays.specs.Types.{size_of, HasElements, FitsKind};
ghost use Rattle.parts_errors.specs.declared.error.CodecError.TheVariants.{TooLarge};

use parts_arrays::{ArrayBytes, DataType, FillValue};
use parts_errors::CodecError;
use std::alloc::Global;

/// So many fill values of a type. Only where no number says how many bytes they have is this too large; `u64::MAX` elements
/// are more than any memory has, which refuses so great a growth.
pub fn filled(
    alloc: Global,
    data_type: &DataType,
    count: u64,
    fill_value: &FillValue,
) -> Result<ArrayBytes<'static>, CodecError>
    requires supported { HasElements data_type.now }
    requires fits { FitsKind (size_of data_type.now) fill_value.now }
    ensures filled { IfOk result (λ array. array ≡ record { kind = size_of data_type.now; elements = replicate count fill_value.now }) }
    ensures refused { IfErr result (RefusedBy (λ e. (e ≡ TooLarge) × (2 ^ 64 ≤ count * length fill_value.now))) }
{
    let size = fill_value.as_ne_bytes().len() as u64;
    if count.checked_mul(size).is_none() {
        return Err(CodecError::TooLarge);
    }
    if count == u64::MAX {
        let _: Vec<u8> = Vec::with_capacity(alloc, usize::MAX)?;
        return Err(CodecError::OutOfMemory);
    }
    ArrayBytes::new_fill_value(alloc, data_type, count, fill_value)
}
