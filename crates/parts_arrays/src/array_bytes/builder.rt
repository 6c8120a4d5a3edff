// Arrays that are made one element after the other.
ghost use Rattle.std.specs.Prelude.{◌≡◌, ◌≢◌, ◌<◌, ◌≤◌, ◌^◌, ◌+◌, ◌++◌, ◌∷◌, ◌-◌, [], All, EachIndex, IfOk, OnOk, OnErr, length, map, slice_index, slice_range, take};
ghost use Rattle.std.specs.List.{range_with_len};
ghost use Rattle.std.specs.Vec.{vec_len, vec_capacity};
ghost use Rattle.parts_arrays.specs.Types.{FitsKind};
ghost use Rattle.parts_arrays.specs.Arrays.{AreOffsets, element_of, part, parts};
ghost use Rattle.parts_arrays.specs.declared.data_type.DataTypeSize.TheVariants.{Fixed, Variable};

use super::{ArrayBytes, Held};
use crate::data_type::DataTypeSize;
use parts_strided_copy::push_front;
use std::alloc::{AllocError, Global};
use std::borrow::CowSlice;
use std::marker::Model;

/// Elements that are gathered one after the other into an array.
#[derive(Debug)]
pub struct ArrayBuilder {
    bytes: Vec<u8>,
    held: Held,
}

impl Drop for ArrayBuilder {
    fn drop(self) {
        let ArrayBuilder { bytes: _, held: _ } = self;
    }
}

impl Model for ArrayBuilder {
    ghost use Rattle.parts_arrays.specs.Arrays.{Array, array_of, IsHeld};

    ghost Value = { Array };

    ghost view = { λ builder. array_of builder.held builder.bytes.items };

    ghost invariant = { λ builder. IsHeld builder.held builder.bytes.items };
}

/// Adds a part, which is the first `len` of some bytes, behind the others, and the offset where it ends, for which there is room.
/// It is quickest where more bytes stand after the part, and `bytes` has room. Refused only as out of memory; the parts are then
/// as they were.
#[inline(always)]
pub fn push_part(
    bytes: &mut Vec<u8>,
    offsets: &mut Vec<usize>,
    from: &[u8],
    len: usize,
) -> Result<(), AllocError>
    requires offsets { AreOffsets offsets.old.items (length bytes.old.items) }
    requires room { vec_len offsets.old < vec_capacity offsets.old }
    requires within { len ≤ length from.now }
    ensures offsets { AreOffsets offsets.new.items (length bytes.new.items) }
    ensures len { OnOk result (vec_len offsets.new ≡ vec_len offsets.old + 1) }
    ensures capacity { vec_capacity offsets.new ≡ vec_capacity offsets.old }
    ensures ok { OnOk result (parts offsets.new.items bytes.new.items ≡ parts offsets.old.items bytes.old.items ++ take len from.now ∷ []) }
    ensures err { OnErr result (parts offsets.new.items bytes.new.items ≡ parts offsets.old.items bytes.old.items) }
{
    push_front(bytes, from, len)?;
    offsets.push_reserved(bytes.len());
    Ok(())
}

// The bytes of neighbouring parts.
fn parts_at<'a>(from: &'a [u8], ends: &[usize], first: usize, count: usize) -> &'a [u8]
    requires ends { AreOffsets ends.now (length from.now) }
    requires within { first + count < length ends.now }
    ensures { result.now ≡ slice_range from.now (slice_index ends.now first) (slice_index ends.now (first + count)) }
{
    &from[ends[first]..ends[first + count]]
}

// Moves offsets that count from one number to count from another.
fn move_offsets(offsets: &mut [usize], from: usize, to: usize)
    requires { All (λ end. (from ≤ end) × (to + (end - from) < 2 ^ 64)) offsets.old }
    ensures { EachIndex offsets.new (λ k. slice_index offsets.new k ≡ to + (slice_index offsets.old k - from)) }
{
    for end in offsets.iter_mut() {
        *end = to + (*end - from);
    }
}

// Adds neighbouring parts of a list behind the others, by one copy of their bytes and one of the offsets where they end. Where
// that is refused the parts are as they were.
pub(super) fn push_parts(
    bytes: &mut Vec<u8>,
    offsets: &mut Vec<usize>,
    from: &[u8],
    ends: &[usize],
    first: usize,
    count: usize,
) -> Result<(), AllocError>
    requires offsets { AreOffsets offsets.old.items (length bytes.old.items) }
    requires ends { AreOffsets ends.now (length from.now) }
    requires within { first + count < length ends.now }
    ensures offsets { AreOffsets offsets.new.items (length bytes.new.items) }
    ensures ok { OnOk result (parts offsets.new.items bytes.new.items
        ≡ parts offsets.old.items bytes.old.items ++ map (part from.now ends.now) (range_with_len first count)) }
    ensures err { OnErr result (parts offsets.new.items bytes.new.items ≡ parts offsets.old.items bytes.old.items) }
{
    let (start, held) = (bytes.len(), offsets.len());
    offsets.reserve(count)?;
    bytes.extend_from_slice(parts_at(from, ends, first, count))?;
    let Ok(()) = offsets.extend_from_slice(&ends[first + 1..first + count + 1]) else {
        unreachable!()
    };
    move_offsets(offsets.slice_mut(held..), ends[first], start);
    Ok(())
}

impl ArrayBuilder {
    /// An array of no elements, of which each is to have this many bytes. Refused only as out of memory.
    pub fn new(alloc: Global, kind: DataTypeSize) -> Result<Self, AllocError>
        requires { kind ≢ Fixed 0 }
        ensures { IfOk result (λ builder. builder ≡ record { kind = kind; elements = [] }) }
    {
        let held = match kind {
            DataTypeSize::Fixed(size) => Held::Fixed(size),
            DataTypeSize::Variable => Held::Variable(vec![in alloc; 0]?),
        };
        Ok(ArrayBuilder {
            bytes: Vec::new(alloc),
            held,
        })
    }

    /// Takes room for so many elements more, which have so many bytes together. Refused only as out of memory. The elements are as
    /// they were, either way.
    pub fn reserve(&mut self, elements: usize, bytes: usize) -> Result<(), AllocError>
        ensures { self.new ≡ self.old }
    {
        self.bytes.reserve(bytes)?;
        match &mut self.held {
            Held::Fixed(_) => Ok(()),
            Held::Variable(offsets) => offsets.reserve(elements),
        }
    }

    /// Adds an element behind the others. Refused only as out of memory; the elements are then as they were.
    pub fn push(&mut self, element: &[u8]) -> Result<(), AllocError>
        requires { FitsKind self.old.kind element.now }
        ensures kind { self.new.kind ≡ self.old.kind }
        ensures ok { OnOk result (self.new.elements ≡ self.old.elements ++ element.now ∷ []) }
        ensures err { OnErr result (self.new.elements ≡ self.old.elements) }
    {
        self.push_first(element, element.len())
    }

    /// Adds an element, which is the first `len` of these bytes, behind the others. It is quickest where more bytes stand behind
    /// it. Refused only as out of memory; the elements are then as they were.
    pub fn push_first(&mut self, from: &[u8], len: usize) -> Result<(), AllocError>
        requires within { len ≤ length from.now }
        requires fits { FitsKind self.old.kind (take len from.now) }
        ensures kind { self.new.kind ≡ self.old.kind }
        ensures ok { OnOk result (self.new.elements ≡ self.old.elements ++ take len from.now ∷ []) }
        ensures err { OnErr result (self.new.elements ≡ self.old.elements) }
    {
        match &mut self.held {
            Held::Fixed(_) => Ok(push_front(&mut self.bytes, from, len)?),
            Held::Variable(offsets) => {
                offsets.reserve(1)?;
                push_part(&mut self.bytes, offsets, from, len)
            }
        }
    }

    // Adds neighbouring elements of an array behind the others, one after the other.
    fn push_each(&mut self, from: &ArrayBytes, first: usize, count: usize) -> Result<(), AllocError>
        requires kind { self.old.kind ≡ Variable }
        requires within { first + count ≤ length from.now.elements }
        requires fits { first + count < 2 ^ 64 }
        ensures kind { self.new.kind ≡ Variable }
        ensures ok { OnOk result (self.new.elements ≡ self.old.elements ++ map (element_of from.now) (range_with_len first count)) }
    {
        for i in 0..count {
            self.push(from.element(first + i))?;
        }
        Ok(())
    }

    /// Adds neighbouring elements of an array behind the others, where these have lengths of their own: by one copy of their bytes,
    /// where the array's have, too. Refused only as out of memory.
    pub fn push_range(
        &mut self,
        from: &ArrayBytes,
        first: usize,
        count: usize,
    ) -> Result<(), AllocError>
        requires kind { self.old.kind ≡ Variable }
        requires within { first + count ≤ length from.now.elements }
        requires fits { first + count < 2 ^ 64 }
        ensures kind { self.new.kind ≡ Variable }
        ensures ok { OnOk result (self.new.elements ≡ self.old.elements ++ map (element_of from.now) (range_with_len first count)) }
    {
        let Held::Variable(ends) = &from.held else {
            return self.push_each(from, first, count);
        };
        let Held::Variable(offsets) = &mut self.held else {
            unreachable!()
        };
        push_parts(&mut self.bytes, offsets, &from.bytes, ends, first, count)
    }

    /// The array of the elements.
    pub fn finish(self) -> ArrayBytes<'static>
        ensures { result ≡ self }
    {
        let ArrayBuilder { bytes, held } = self;
        ArrayBytes {
            bytes: CowSlice::Owned(bytes),
            held,
        }
    }
}
