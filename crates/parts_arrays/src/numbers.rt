// Elements as whole numbers, and whole numbers as elements.
ghost use Rattle.std.specs.Prelude.{◌≡◌, ◌<◌, ◌++◌, ℕ, List, IfOk, IfErr, OnOk, length, map};
ghost use Rattle.parts_errors.specs.Order.{◌or◌then◌, done, RefusedBy};
ghost use Rattle.parts_errors.specs.declared.error.CodecError.TheVariants.{WrongElementKind};
ghost use Rattle.parts_arrays.specs.Types.{size_of};
ghost use Rattle.parts_arrays.specs.declared.data_type.DataTypeSize.TheVariants.{Fixed};

use crate::array_bytes::ArrayBytes;
use crate::data_type::{DataType, DataTypeSize};
use crate::fill_value::FillValue;
use parts_errors::CodecError;
use std::alloc::{AllocError, Global};
use std::borrow::CowSlice;

/// Whole numbers without sign that elements can be: `u8`, `u16`, `u32`, `u64`. In memory their bytes stand least significant
/// first.
pub trait Number: Copy {
    // the bytes of a number, least significant first
    ghost bytes_of: { Self → List ℕ };

    // the number that an element is
    ghost number_of: { List ℕ → Self };

    // how many bytes these are
    ghost width: { ℕ };

    /// The type of such elements.
    fn data_type() -> DataType
        ensures { size_of result ≡ Fixed width };

    /// How many bytes an element has, 1 to 8.
    fn element_size() -> usize
        ensures size { result ≡ width }
        ensures some { 0 < width };

    /// Adds the bytes of the number behind others. Refused only as out of memory.
    fn append_to(self, bytes: &mut Vec<u8>) -> Result<(), AllocError>
        ensures { OnOk result (bytes.new.items ≡ bytes.old.items ++ bytes_of self) };

    /// The number that an element is.
    fn from_element(element: &[u8]) -> Self
        requires { length element.now ≡ width }
        ensures { result ≡ number_of element.now };

    // as many bytes of each number
    ghost sized: { (number : Self) → length (bytes_of number) ≡ width };
}

impl Number for u8 {
    ghost use Rattle.std.specs.Prelude.{refl};
    ghost use Rattle.std.specs.Int.{to_le_bytes, from_le_bytes, w8};

    ghost bytes_of = { to_le_bytes w8 };

    ghost number_of = { from_le_bytes w8 };

    ghost width = { 1 };

    ghost sized = { λ number. refl };

    fn data_type() -> DataType {
        DataType::UInt8
    }

    fn element_size() -> usize {
        1
    }

    fn append_to(self, bytes: &mut Vec<u8>) -> Result<(), AllocError> {
        Ok(bytes.extend_from_slice(&self.to_le_bytes())?)
    }

    fn from_element(element: &[u8]) -> Self {
        u8::from_le_bytes([element[0]])
    }
}

impl Number for u16 {
    ghost use Rattle.std.specs.Prelude.{refl};
    ghost use Rattle.std.specs.Int.{to_le_bytes, from_le_bytes, w16};

    ghost bytes_of = { to_le_bytes w16 };

    ghost number_of = { from_le_bytes w16 };

    ghost width = { 2 };

    ghost sized = { λ number. refl };

    fn data_type() -> DataType {
        DataType::UInt16
    }

    fn element_size() -> usize {
        2
    }

    fn append_to(self, bytes: &mut Vec<u8>) -> Result<(), AllocError> {
        Ok(bytes.extend_from_slice(&self.to_le_bytes())?)
    }

    fn from_element(element: &[u8]) -> Self {
        u16::from_le_bytes([element[0], element[1]])
    }
}

impl Number for u32 {
    ghost use Rattle.std.specs.Prelude.{refl};
    ghost use Rattle.std.specs.Int.{to_le_bytes, from_le_bytes, w32};

    ghost bytes_of = { to_le_bytes w32 };

    ghost number_of = { from_le_bytes w32 };

    ghost width = { 4 };

    ghost sized = { λ number. refl };

    fn data_type() -> DataType {
        DataType::UInt32
    }

    fn element_size() -> usize {
        4
    }

    fn append_to(self, bytes: &mut Vec<u8>) -> Result<(), AllocError> {
        Ok(bytes.extend_from_slice(&self.to_le_bytes())?)
    }

    fn from_element(element: &[u8]) -> Self {
        u32::from_le_bytes([element[0], element[1], element[2], element[3]])
    }
}

impl Number for u64 {
    ghost use Rattle.std.specs.Prelude.{refl};
    ghost use Rattle.std.specs.Int.{to_le_bytes, from_le_bytes, w64};

    ghost bytes_of = { to_le_bytes w64 };

    ghost number_of = { from_le_bytes w64 };

    ghost width = { 8 };

    ghost sized = { λ number. refl };

    fn data_type() -> DataType {
        DataType::UInt64
    }

    fn element_size() -> usize {
        8
    }

    fn append_to(self, bytes: &mut Vec<u8>) -> Result<(), AllocError> {
        Ok(bytes.extend_from_slice(&self.to_le_bytes())?)
    }

    fn from_element(element: &[u8]) -> Self {
        u64::from_le_bytes([
            element[0], element[1], element[2], element[3], element[4], element[5], element[6],
            element[7],
        ])
    }
}

impl FillValue {
    /// The fill value of a number. Refused only as out of memory.
    pub fn from_number<T: Number>(alloc: Global, number: T) -> Result<Self, AllocError>
        ensures { IfOk result (λ fill. fill ≡ T.bytes_of number) }
    {
        let mut bytes = Vec::new(alloc);
        number.append_to(&mut bytes)?;
        Ok(FillValue::new(bytes))
    }
}

impl ArrayBytes<'_> {
    /// The array of these numbers, in row-major order, of `T::data_type()`. Refused only as out of memory.
    pub fn from_numbers<T: Number>(
        alloc: Global,
        numbers: &[T],
    ) -> Result<ArrayBytes<'static>, AllocError>
        ensures { IfOk result (λ array. array ≡ record { kind = Fixed T.width; elements = map T.bytes_of numbers.now }) }
    {
        let size = T::element_size();
        let mut bytes = Vec::with_capacity(alloc, numbers.len().saturating_mul(size))?;
        for number in numbers {
            number.append_to(&mut bytes)?;
        }
        match ArrayBytes::new_flen(CowSlice::Owned(bytes), size) {
            Some(array) => Ok(array),
            None => unreachable!(),
        }
    }

    /// The numbers that the elements are, in row-major order. Refused as `WrongElementKind` where elements have another size,
    /// or as `OutOfMemory`.
    pub fn to_numbers<T: Number>(&self, alloc: Global) -> Result<Vec<T>, CodecError>
        ensures kind { OnOk result (self.now.kind ≡ Fixed T.width) }
        ensures numbers { IfOk result (λ numbers. numbers.items ≡ map T.number_of self.now.elements) }
        ensures refused { IfErr result (RefusedBy (self.now.kind ≡ Fixed T.width or WrongElementKind then done)) }
    {
        if self.kind() != DataTypeSize::Fixed(T::element_size()) {
            return Err(CodecError::WrongElementKind);
        }
        let mut numbers = Vec::with_capacity(alloc, self.len())?;
        for i in 0..self.len() {
            let number = T::from_element(self.element(i));
            numbers.push(number)?;
        }
        Ok(numbers)
    }
}
