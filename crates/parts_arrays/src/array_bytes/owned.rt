// Arrays that own their bytes, made of arrays that may only lend them, and the bytes of arrays.
ghost use Rattle.std.specs.Prelude.{◌≡◌, ◌≢◌, IfOk, IfErr, OnOk, length};
ghost use Rattle.std.specs.Cow.{cow_slice_items};
ghost use Rattle.std.specs.List.{concat};
ghost use Rattle.parts_errors.specs.declared.error.CodecError.TheVariants.{WrongElementKind};
ghost use Rattle.parts_arrays.specs.Arrays.{AreOffsets, variable_array};
ghost use Rattle.parts_arrays.specs.declared.data_type.DataTypeSize.TheVariants.{Variable};

use super::{ArrayBytes, Held};
use parts_errors::CodecError;
use std::alloc::{AllocError, Global};
use std::borrow::CowSlice;

/// The bytes of elements that have lengths of their own, and the offsets between them: from 0 to the number of bytes.
#[derive(Debug, Drop)]
pub struct VariableParts<'a> {
    pub bytes: CowSlice<'a, u8>,
    pub offsets: Vec<usize>,
}

impl<'a> ArrayBytes<'a> {
    /// The bytes of the elements, one after the other, where these have one size. Refused as `WrongElementKind` where each has
    /// its own; the array is then dropped.
    pub fn into_fixed(self) -> Result<CowSlice<'a, u8>, CodecError>
        ensures bytes { IfOk result (λ bytes. cow_slice_items bytes ≡ concat self.entry.elements) }
        ensures fixed { OnOk result (self.entry.kind ≢ Variable) }
        ensures refused { IfErr result (λ e. (e ≡ WrongElementKind) × (self.entry.kind ≡ Variable)) }
    {
        let ArrayBytes { bytes, held } = self;
        match held {
            Held::Fixed(_) => Ok(bytes),
            Held::Variable(_) => Err(CodecError::WrongElementKind),
        }
    }

    /// Elements that lie between neighbouring offsets, which begin at 0, never fall and end at the number of bytes.
    pub fn from_variable(parts: VariableParts<'a>) -> Self
        requires { AreOffsets parts.offsets.items (length (cow_slice_items parts.bytes)) }
        ensures { result ≡ variable_array parts.entry.offsets.items (cow_slice_items parts.entry.bytes) }
    {
        let VariableParts { bytes, offsets } = parts;
        ArrayBytes {
            bytes,
            held: Held::Variable(offsets),
        }
    }

    /// The bytes of the elements and the offsets between them, where each has a length of its own. Refused as
    /// `WrongElementKind` where they have one size; the array is then dropped.
    pub fn into_variable(self) -> Result<VariableParts<'a>, CodecError>
        ensures parts { IfOk result (λ parts. variable_array parts.offsets.items (cow_slice_items parts.bytes) ≡ self.entry) }
        ensures refused { IfErr result (λ e. (e ≡ WrongElementKind) × (self.entry.kind ≢ Variable)) }
    {
        let ArrayBytes { bytes, held } = self;
        match held {
            Held::Fixed(_) => Err(CodecError::WrongElementKind),
            Held::Variable(offsets) => Ok(VariableParts { bytes, offsets }),
        }
    }
}

impl ArrayBytes<'_> {
    /// An equal array that owns its bytes. Refused only as out of memory.
    pub fn try_clone(&self, alloc: Global) -> Result<ArrayBytes<'static>, AllocError>
        ensures { IfOk result (λ copy. copy ≡ self.now) }
    {
        let held = match &self.held {
            Held::Fixed(size) => Held::Fixed(*size),
            Held::Variable(offsets) => Held::Variable(Vec::from_slice(alloc, offsets)?),
        };
        Ok(ArrayBytes {
            bytes: CowSlice::Owned(Vec::from_slice(alloc, &self.bytes)?),
            held,
        })
    }

    /// This array with bytes of its own: they are copied where they are lent. Refused only as out of memory.
    pub fn into_owned(self, alloc: Global) -> Result<ArrayBytes<'static>, AllocError>
        ensures { IfOk result (λ owned. owned ≡ self.entry) }
    {
        let ArrayBytes { bytes, held } = self;
        let owned = match bytes {
            CowSlice::Borrowed(borrowed) => Vec::from_slice(alloc, borrowed)?,
            CowSlice::Owned(owned) => owned,
        };
        Ok(ArrayBytes {
            bytes: CowSlice::Owned(owned),
            held,
        })
    }
}
