// Arrays of elements, each a string of bytes.
ghost use Rattle.std.specs.Prelude.{◌≡◌, ◌≢◌, ◌+◌, ◌*◌, ◌/◌, ◌%◌, ◌<◌, ◌≤◌, map, SomeIff, IfErr, OnOk, IfSome, IfNone, IsTrue, All, ◌↔◌, [], length, Option};
ghost use Rattle.std.specs.List.{concat, sum_by, range_with_len};
ghost use Rattle.parts_row_major.specs.Pieces.{piece};
ghost use Rattle.std.specs.Cow.{cow_slice_items};
ghost use Rattle.parts_errors.specs.Order.{done};
ghost use Rattle.parts_arrays.specs.Arrays.{Array, element_of, fixed_array, variable_array, IsWhole, AreOffsets, part};
ghost use Rattle.parts_arrays.specs.Refusals.{ValidRefusals, IsValid};
ghost use Rattle.parts_arrays.specs.declared.data_type.DataTypeSize.TheVariants.{Fixed, Variable};
ghost use Rattle.parts_arrays.specs.Types.{FitsKind};

mod builder;
mod compare;
mod extract;
mod fill;
mod numbered;
mod owned;
mod update;

use crate::data_type::{DataType, DataTypeSize};
use crate::fill_value::FillValue;
pub use builder::{ArrayBuilder, push_part};
pub use fill::repeated;
pub use owned::VariableParts;
use parts_errors::CodecError;
use parts_strided_copy::{piece_at, run_at};
use std::alloc::{AllocError, Global};
use std::borrow::CowSlice;
use std::marker::Model;
pub use update::update_array_bytes;

// How the elements lie among the bytes: of one size, or between offsets.
#[derive(Debug, Drop)]
enum Held {
    Fixed(usize),
    Variable(Vec<usize>),
}

/// The elements of an array in row-major order, each a string of bytes: all of one size, or each of a
/// length of its own; borrowed or owned.
#[derive(Debug)]
pub struct ArrayBytes<'a> {
    bytes: CowSlice<'a, u8>,
    held: Held,
}

impl Drop for ArrayBytes<'_> {
    fn drop(self) {
        let ArrayBytes { bytes: _, held: _ } = self;
    }
}

impl<'a> Model for ArrayBytes<'a> {
    ghost use Rattle.std.specs.Cow.{cow_slice_items};
    ghost use Rattle.parts_arrays.specs.Arrays.{Array, array_of, IsHeld};

    ghost Value = { Array };

    ghost view = { λ array. array_of array.held (cow_slice_items array.bytes) };

    ghost invariant = { λ array. IsHeld array.held (cow_slice_items array.bytes) };
}

// The part between two neighbouring offsets.
fn part_at<'a>(bytes: &'a [u8], offsets: &[usize], i: usize) -> &'a [u8]
    requires offsets { AreOffsets offsets.now (length bytes.now) }
    requires below { i + 1 < length offsets.now }
    ensures { result.now ≡ part bytes.now offsets.now i }
{
    &bytes[offsets[i]..offsets[i + 1]]
}

// So many elements of one size from one on.
fn range_of(bytes: &[u8], size: usize, first: usize, count: usize) -> ArrayBytes<'_>
    requires whole { IsWhole size bytes.now }
    requires within { first + count ≤ length bytes.now / size }
    ensures { result ≡ record { kind = Fixed size; elements = map (piece size bytes.now) (range_with_len first count) } }
{
    ArrayBytes {
        bytes: CowSlice::Borrowed(run_at(bytes, size, first, count)),
        held: Held::Fixed(size),
    }
}

// Whether offsets begin at 0, never fall and end at the length.
fn are_offsets(offsets: &[usize], len: usize) -> bool
    ensures { IsTrue result ↔ AreOffsets offsets.now len }
{
    if offsets.len() == 0 {
        return false;
    }
    if offsets[0] != 0 || offsets[offsets.len() - 1] != len {
        return false;
    }
    for i in 1..offsets.len() {
        if offsets[i] < offsets[i - 1] {
            return false;
        }
    }
    true
}

impl<'a> ArrayBytes<'a> {
    /// Elements of one size, one after the other. `None` where the size is 0 or the last element is a part.
    pub fn new_flen(bytes: CowSlice<'a, u8>, element_size: usize) -> Option<Self>
        ensures { SomeIff result (IsWhole element_size (cow_slice_items bytes.entry)) (fixed_array element_size (cow_slice_items bytes.entry)) }
    {
        if element_size == 0 || bytes.len() % element_size != 0 {
            return None;
        }
        Some(ArrayBytes {
            bytes,
            held: Held::Fixed(element_size),
        })
    }

    /// Elements that lie between neighbouring offsets. `None` unless the offsets begin at 0, never fall
    /// and end at the number of bytes.
    pub fn new_vlen(bytes: CowSlice<'a, u8>, offsets: Vec<usize>) -> Option<Self>
        ensures { SomeIff result (AreOffsets offsets.items (length (cow_slice_items bytes.entry))) (variable_array offsets.items (cow_slice_items bytes.entry)) }
    {
        if !are_offsets(&offsets, bytes.len()) {
            return None;
        }
        Some(ArrayBytes {
            bytes,
            held: Held::Variable(offsets),
        })
    }

    /// How many bytes an element has: never 0, and each element fits it.
    pub fn kind(&self) -> DataTypeSize
        ensures value { result ≡ self.now.kind }
        ensures sized { self.now.kind ≢ Fixed 0 }
        ensures fitting { All (FitsKind self.now.kind) self.now.elements }
    {
        match &self.held {
            Held::Fixed(size) => DataTypeSize::Fixed(*size),
            Held::Variable(_) => DataTypeSize::Variable,
        }
    }

    /// How many elements there are.
    pub fn len(&self) -> usize
        ensures { result ≡ length self.now.elements }
    {
        match &self.held {
            Held::Fixed(size) => self.bytes.len() / *size,
            Held::Variable(offsets) => offsets.len() - 1,
        }
    }

    /// Whether there is no element.
    pub fn is_empty(&self) -> bool
        ensures { IsTrue result ↔ (self.now.elements ≡ []) }
    {
        self.len() == 0
    }

    /// The element at a place, which is below `len`.
    pub fn element(&self, i: usize) -> &[u8]
        requires { i < length self.now.elements }
        ensures { result.now ≡ element_of self.now i }
    {
        match &self.held {
            Held::Fixed(size) => piece_at(&self.bytes, *size, i),
            Held::Variable(offsets) => part_at(&self.bytes, offsets, i),
        }
    }

    /// How many bytes the elements have together.
    pub fn byte_len(&self) -> usize
        ensures { result ≡ sum_by length self.now.elements }
    {
        self.bytes.len()
    }

    /// The elements one after the other.
    pub fn bytes(&self) -> &[u8]
        ensures { result.now ≡ concat self.now.elements }
    {
        &self.bytes
    }

    /// So many elements from one on, lent, where elements have one size. `None` where each has its own. Takes no memory.
    pub fn borrowed_range(&self, first: usize, count: usize) -> Option<ArrayBytes<'_>>
        requires { first + count ≤ length self.now.elements }
        ensures some { IfSome result (λ part. part ≡ record { kind = self.now.kind; elements = map (element_of self.now) (range_with_len first count) }) }
        ensures none { IfNone result (self.now.kind ≡ Variable) }
    {
        match &self.held {
            Held::Fixed(size) => Some(range_of(&self.bytes, *size, first, count)),
            Held::Variable(_) => None,
        }
    }

    /// The elements one after the other, where they have one size. `None` where each has its own.
    pub fn fixed_bytes(&self) -> Option<&[u8]>
        ensures some { IfSome result (λ bytes. bytes.now ≡ concat self.now.elements) }
        ensures fixed { IfSome result (λ bytes. self.now.kind ≢ Variable) }
        ensures none { IfNone result (self.now.kind ≡ Variable) }
    {
        match &self.held {
            Held::Fixed(_) => Some(&self.bytes),
            Held::Variable(_) => None,
        }
    }

    /// Tests that these are so many elements of a type. Refused, in this order, as `UnsupportedDataType`
    /// (`Optional`, `Raw(0)`), `WrongElementKind`, `InvalidNumberOfElements`.
    pub fn validate(&self, count: u64, data_type: &DataType) -> Result<(), CodecError>
        ensures valid { OnOk result (IsValid self.now count data_type.now) }
        ensures refused { IfErr result (ValidRefusals self.now count data_type.now done) }
    {
        let kind = data_type.size();
        if kind == DataTypeSize::Fixed(0) {
            return Err(CodecError::UnsupportedDataType);
        }
        if self.kind() != kind {
            return Err(CodecError::WrongElementKind);
        }
        if self.len() as u64 != count {
            return Err(CodecError::InvalidNumberOfElements);
        }
        Ok(())
    }
}
