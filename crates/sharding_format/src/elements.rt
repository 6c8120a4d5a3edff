// The elements that are asked of a codec.
ghost use Rattle.std.specs.Prelude.{◌≡◌, IfOk, IfErr, OnOk};
ghost use Rattle.parts_errors.specs.Order.{◌or◌then◌, done};
ghost use Rattle.parts_arrays.specs.Types.{size_of, HasElements, FitsKind, byte_size};
ghost use Rattle.parts_errors.specs.declared.error.CodecError.TheVariants.{UnsupportedDataType, BadFillValue};

use parts_arrays::{DataType, DataTypeSize, FillValue};
use parts_errors::CodecError;

/// The bytes of one element of a type that the fill value fits, 0 where that varies. Refused, in this order, as
/// `UnsupportedDataType` (a type without elements) and as `BadFillValue` (a fill value of another length than the fixed type).
pub fn element_size(data_type: &DataType, fill_value: &FillValue) -> Result<u64, CodecError>
    ensures size { IfOk result (λ size. size ≡ byte_size (size_of data_type.now)) }
    ensures supported { OnOk result (HasElements data_type.now) }
    ensures fits { OnOk result (FitsKind (size_of data_type.now) fill_value.now) }
    ensures refused { IfErr result (
        HasElements data_type.now or UnsupportedDataType then
        FitsKind (size_of data_type.now) fill_value.now or BadFillValue then
        done) }
{
    match data_type.size() {
        DataTypeSize::Fixed(size) => {
            if size == 0 {
                return Err(CodecError::UnsupportedDataType);
            }
            if fill_value.as_ne_bytes().len() != size {
                return Err(CodecError::BadFillValue);
            }
            Ok(size as u64)
        }
        DataTypeSize::Variable => Ok(0),
    }
}
