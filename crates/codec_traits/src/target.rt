// Targets that arrays are decoded into: room is tested before, so that nothing is refused once the array is there.
ghost use Rattle.std.specs.Prelude.{◌≡◌, ◌<◌, ◌^◌, ℕ, SomeIff, IfErr, OnOk, length};
ghost use Rattle.parts_errors.specs.Order.{done};
ghost use Rattle.parts_row_major.specs.Numbering.{count_of};
ghost use Rattle.parts_arrays.specs.Types.{size_of};
ghost use Rattle.parts_arrays.specs.Arrays.{element_of};
ghost use Rattle.parts_arrays.specs.Targets.{target_element_size, target_subset, IsWritten, TargetRefusals};
ghost use Rattle.parts_arrays.specs.declared.data_type.DataTypeSize.TheVariants.{Fixed};

use parts_arrays::{ArrayBytes, DataType, DataTypeSize, FixedTarget};
use parts_errors::CodecError;

/// Tests that a target has room for as many elements of a type, which is `None` past `u64::MAX`. Refused, in this order, as
/// `WrongElementKind` (a type of another element size or of none) and as `InvalidNumberOfElements`.
pub fn check_target(
    target: &FixedTarget,
    count: Option<u64>,
    data_type: &DataType,
) -> Result<(), CodecError>
    ensures kind { OnOk result (size_of data_type.now ≡ Fixed (target_element_size target.now)) }
    ensures counted { (n : ℕ) → SomeIff count (n < 2 ^ 64) n → OnOk result (count_of (target_subset target.now).shape ≡ n) }
    ensures refused { (n : ℕ) → SomeIff count (n < 2 ^ 64) n → IfErr result (TargetRefusals (size_of data_type.now) n target.now done) }
{
    if data_type.size() != DataTypeSize::Fixed(target.element_size()) {
        return Err(CodecError::WrongElementKind);
    }
    if count != Some(target.num_elements()) {
        return Err(CodecError::InvalidNumberOfElements);
    }
    Ok(())
}

/// Writes the elements of an array at the points of a target's subset, in row-major order, where `check_target` found room for
/// them. Takes no memory.
pub(crate) fn put_decoded(array: &ArrayBytes, target: &mut FixedTarget)
    requires kind { array.now.kind ≡ Fixed (target_element_size target.old) }
    requires counted { length array.now.elements ≡ count_of (target_subset target.old).shape }
    ensures { IsWritten target.old target.new (element_of array.now) }
{
    match target.copy_from(array) {
        Ok(()) => {}
        Err(_) => unreachable!(),
    }
}
