// The cells of a subset of an array, put together of its parts.
ghost use Rattle.std.specs.Prelude.{◌≡◌, ◌*◌, ◌^◌, ◌<◌, ◌∷◌, [], ℕ, IsTrue, IfOk, IfErr, OnOk, OnErr, length};
ghost use Rattle.parts_errors.specs.Order.{◌or◌then◌, ◌or_as◌then◌, done, RefusedBy};
ghost use Rattle.parts_errors.specs.declared.error.CodecError.TheVariants.{InvalidNumberOfElements, WrongElementKind};
ghost use Rattle.parts_row_major.specs.Numbering.{count_of};
ghost use Rattle.parts_row_major.specs.Subsets.{IsServed, number_in};
ghost use Rattle.parts_row_major.specs.Pieces.{piece, IsUpdated};
ghost use Rattle.parts_subsets.specs.Selections.{subset_selection};
ghost use Rattle.parts_arrays.specs.Arrays.{element_of, fixed_array};
ghost use Rattle.parts_arrays.specs.Types.{size_of};
ghost use Rattle.parts_arrays.specs.declared.data_type.DataTypeSize.TheVariants.{Fixed};
ghost use Rattle.storage_handles.specs.Handles.{IsRead};
ghost use Rattle.storage_handles.specs.Objects.{interval_part, HasInterval, ObjectRefusals, IntervalRefusals};
ghost use Rattle.codec_traits.specs.Reads.{stored_spec, RequestRefusals};
ghost use Rattle.codec_traits.specs.Refusals.{RefusesUnserved};
ghost use Rattle.array_grid.specs.Cells.{AreWhole, AreFilled, FillRefusals, IsPartDecoded, PartRefusals, PutRefusals};

use codec_traits::{ArrayToBytesCodecTraits, StoredArray};
use parts_arrays::{ArrayBytes, FillValue, FixedTarget};
use parts_errors::{CodecError, CodecOptions};
use parts_subsets::{ArraySubset, check_subset};
use sharding_gather::room_for;
use std::alloc::{AllocError, Global};
use std::borrow::CowSlice;
use std::marker::Model;
use storage_handles::BytesPartialDecoderTraits;

/// The cells of a subset of an array, in row-major order of the subset; their elements have one size.
pub struct SubsetCells {
    bytes: Vec<u8>,
    element_size: usize,
    shape: Vec<u64>,
}

impl Drop for SubsetCells {
    fn drop(self) {
        let SubsetCells {
            bytes: _,
            element_size: _,
            shape: _,
        } = self;
    }
}

impl Model for SubsetCells {
    ghost use Rattle.array_grid.specs.Cells.{CellsOfSubset, AreWhole};

    // their bytes, how many of these a cell has, and the subset's shape
    ghost Value = { CellsOfSubset };

    ghost view = { λ cells. record { bytes = cells.bytes.items; element_size = cells.element_size; shape = cells.shape.items } };

    ghost invariant = { λ cells. AreWhole cells.bytes.items cells.element_size cells.shape.items };
}

// Where a part lies in a subset of a shape, whose cells have a size.
#[derive(Clone, Copy)]
struct PartPlace<'p> {
    element_size: usize,
    shape: &'p [u64],
    in_subset: &'p ArraySubset,
}

// Writes the cells of a part where it lies in a subset whose cells have these bytes.
fn put_into(bytes: &mut [u8], place: &PartPlace, part: &ArrayBytes) -> Result<(), CodecError>
    requires whole { AreWhole bytes.old place.now.element_size place.now.shape.now }
    ensures length { length bytes.new ≡ length bytes.old }
    ensures written { OnOk result (IsUpdated (count_of place.now.in_subset.now.shape) (number_in place.now.in_subset.now place.now.shape.now)
        (piece place.now.element_size bytes.old) (element_of part.now) (piece place.now.element_size bytes.new)) }
    ensures served { OnOk result (IsServed place.now.in_subset.now place.now.shape.now) }
    ensures kind { OnOk result (part.now.kind ≡ Fixed place.now.element_size) }
    ensures counted { OnOk result (count_of place.now.in_subset.now.shape ≡ length part.now.elements) }
    ensures kept { OnErr result (bytes.new ≡ bytes.old) }
    ensures refused { IfErr result (PutRefusals place.now.element_size place.now.shape.now place.now.in_subset.now part.now) }
{
    let _axes = place.in_subset.start();
    check_subset(place.in_subset, place.shape)?;
    let mut target = FixedTarget::over(bytes, place.element_size, place.shape, place.in_subset);
    target.copy_from(part)
}

// Writes an element at each point of a part where it lies in a subset whose cells have these bytes.
fn fill_in(bytes: &mut [u8], place: &PartPlace, fill_value: &FillValue) -> Result<(), CodecError>
    requires whole { AreWhole bytes.old place.now.element_size place.now.shape.now }
    ensures length { length bytes.new ≡ length bytes.old }
    ensures written { OnOk result (IsUpdated (count_of place.now.in_subset.now.shape) (number_in place.now.in_subset.now place.now.shape.now)
        (piece place.now.element_size bytes.old) (λ k. fill_value.now) (piece place.now.element_size bytes.new)) }
    ensures served { OnOk result (IsServed place.now.in_subset.now place.now.shape.now) }
    ensures size { OnOk result (length fill_value.now ≡ place.now.element_size) }
    ensures kept { OnErr result (bytes.new ≡ bytes.old) }
    ensures refused { IfErr result (PartRefusals place.now.shape.now place.now.in_subset.now (length fill_value.now ≡ place.now.element_size or WrongElementKind then done)) }
{
    let _axes = place.in_subset.start();
    check_subset(place.in_subset, place.shape)?;
    let mut target = FixedTarget::over(bytes, place.element_size, place.shape, place.in_subset);
    target.fill(fill_value)
}

// Reads the cells of a part of an array that stands in an interval of an object to their place in a subset whose cells have these bytes.
fn read_to<C: ArrayToBytesCodecTraits, H: BytesPartialDecoderTraits>(
    alloc: Global,
    codec: &C,
    handle: &mut H,
    stored: &StoredArray,
    in_stored: &ArraySubset,
    bytes: &mut [u8],
    place: &PartPlace,
) -> Result<(), CodecError>
    requires whole { AreWhole bytes.old place.now.element_size place.now.shape.now }
    ensures length { length bytes.new ≡ length bytes.old }
    ensures read { IsRead (H.state handle.old) (H.state handle.new) }
    ensures served { OnOk result (IsServed place.now.in_subset.now place.now.shape.now) }
    ensures counted { OnOk result (count_of place.now.in_subset.now.shape ≡ count_of in_stored.now.shape) }
    ensures cells { let m = C.meaning codec.now (stored_spec stored.now) in
        OnOk result (IsTrue (H.state handle.old).transparent
        → HasInterval stored.now.interval (H.state handle.old).contents
        × IsPartDecoded (m.cells (interval_part stored.now.interval (H.state handle.old).contents)) stored.now.shape.now in_stored.now place.now.in_subset.now
        place.now.element_size place.now.shape.now bytes.old bytes.new) }
    ensures refused { let m = C.meaning codec.now (stored_spec stored.now) in let selection = subset_selection in_stored.now in
        IfErr result (PartRefusals place.now.shape.now place.now.in_subset.now (RefusedBy (
        m.serves or_as RefusesUnserved m then
        size_of stored.now.data_type.now ≡ Fixed place.now.element_size or WrongElementKind then
        count_of place.now.in_subset.now.shape ≡ length selection.points or InvalidNumberOfElements then
        RequestRefusals (stored_spec stored.now) selection m.answerable (
        ObjectRefusals (H.state handle.old) (H.state handle.new) (
        IntervalRefusals stored.now.interval (H.state handle.old).contents (λ b. m.read_refusals b selection.points)))))) }
{
    let _axes = place.in_subset.start();
    check_subset(place.in_subset, place.shape)?;
    let mut target = FixedTarget::over(bytes, place.element_size, place.shape, place.in_subset);
    let options = CodecOptions::default();
    codec.partial_decode_into_fresh(alloc, handle, stored, in_stored, &mut target, &options)
}

// How many cells a subset has, whose bytes a number can say, where each is a fill value.
fn count_cells(subset: &ArraySubset, fill: &[u8]) -> Result<u64, CodecError>
    ensures counted { IfOk result (λ count. count ≡ count_of subset.now.shape) }
    ensures served { OnOk result ((0 < length fill.now) × (count_of subset.now.shape < 2 ^ 64) × (count_of subset.now.shape * length fill.now < 2 ^ 64)) }
    ensures refused { IfErr result (RefusedBy (FillRefusals subset.now.shape fill.now)) }
{
    if fill.is_empty() {
        return Err(CodecError::BadFillValue);
    }
    let Some(count) = subset.num_elements() else {
        return Err(CodecError::TooLarge);
    };
    if count.checked_mul(fill.len() as u64).is_none() {
        return Err(CodecError::TooLarge);
    }
    Ok(count)
}

impl SubsetCells {
    /// No cells: those of a subset that has none.
    pub fn none(alloc: Global) -> Result<Self, AllocError>
        ensures { IfOk result (λ cells. cells ≡ record { bytes = []; element_size = 1; shape = 0 ∷ [] }) }
    {
        Ok(SubsetCells {
            bytes: Vec::new(alloc),
            element_size: 1,
            shape: Vec::from_slice(alloc, &[0])?,
        })
    }

    /// The cells of a subset, each of them the fill value. Refused, in this order, as `BadFillValue` where it has no byte, and as
    /// `TooLarge` where the cells or their bytes are more than `u64::MAX`; or as `OutOfMemory`.
    pub fn new(
        alloc: Global,
        subset: &ArraySubset,
        fill_value: &FillValue,
    ) -> Result<Self, CodecError>
        ensures filled { IfOk result (AreFilled subset.now.shape fill_value.now) }
        ensures served { OnOk result ((0 < length fill_value.now) × (count_of subset.now.shape < 2 ^ 64) × (count_of subset.now.shape * length fill_value.now < 2 ^ 64)) }
        ensures refused { IfErr result (RefusedBy (FillRefusals subset.now.shape fill_value.now)) }
    {
        let fill = fill_value.as_ne_bytes();
        let count = count_cells(subset, fill)?;
        let bytes = room_for(alloc, true, count as usize, fill)?;
        let shape = Vec::from_slice(alloc, subset.shape())?;
        Ok(SubsetCells {
            bytes,
            element_size: fill.len(),
            shape,
        })
    }

    /// Makes them as many cells as a subset has, of the size of the fill value, in the memory that is there as far as it reaches. What they
    /// are is not said. Refused as `new` refuses, which leaves all as it was.
    pub fn resize(
        &mut self,
        alloc: Global,
        subset: &ArraySubset,
        fill_value: &FillValue,
    ) -> Result<(), CodecError>
        ensures shape { OnOk result (self.new.shape ≡ subset.now.shape) }
        ensures size { OnOk result (self.new.element_size ≡ length fill_value.now) }
        ensures served { OnOk result ((0 < length fill_value.now) × (count_of subset.now.shape < 2 ^ 64) × (count_of subset.now.shape * length fill_value.now < 2 ^ 64)) }
        ensures kept { OnErr result (self.new ≡ self.old) }
        ensures refused { IfErr result (RefusedBy (FillRefusals subset.now.shape fill_value.now)) }
    {
        let fill = fill_value.as_ne_bytes();
        let count = count_cells(subset, fill)? as usize;
        let shape = Vec::from_slice(alloc, subset.shape())?;
        self.bytes.resize(count * fill.len(), 0)?;
        self.element_size = fill.len();
        self.shape = shape;
        Ok(())
    }

    /// Writes the cells of a part, in row-major order of it, where it lies in the subset. Refused, in this order, as
    /// `IncompatibleDimensionality` and `OutOfBounds` where it does not lie in the subset, and as `WrongElementKind` and
    /// `InvalidNumberOfElements` where the array is not of as many cells of the same size; all cells are then as they were.
    /// Takes no memory.
    pub fn put(&mut self, in_subset: &ArraySubset, part: &ArrayBytes) -> Result<(), CodecError>
        ensures same_size { self.new.element_size ≡ self.old.element_size }
        ensures same_shape { self.new.shape ≡ self.old.shape }
        ensures whole { AreWhole self.new.bytes self.new.element_size self.new.shape }
        ensures written { OnOk result (IsUpdated (count_of in_subset.now.shape) (number_in in_subset.now self.old.shape)
            (piece self.old.element_size self.old.bytes) (element_of part.now) (piece self.old.element_size self.new.bytes)) }
        ensures served { OnOk result (IsServed in_subset.now self.old.shape) }
        ensures kind { OnOk result (part.now.kind ≡ Fixed self.old.element_size) }
        ensures counted { OnOk result (count_of in_subset.now.shape ≡ length part.now.elements) }
        ensures kept { OnErr result (self.new ≡ self.old) }
        ensures refused { IfErr result (PutRefusals self.old.element_size self.old.shape in_subset.now part.now) }
    {
        let place = PartPlace {
            element_size: self.element_size,
            shape: &self.shape,
            in_subset,
        };
        put_into(self.bytes.as_mut_slice(), &place, part)
    }

    /// Writes the fill value at each point of a part, where it lies in the subset. Refused, in this order, as `IncompatibleDimensionality`
    /// and `OutOfBounds` where it does not lie in the subset, and as `WrongElementKind` where the fill value is of another size; all cells
    /// are then as they were. Takes no memory.
    pub fn fill_part(
        &mut self,
        in_subset: &ArraySubset,
        fill_value: &FillValue,
    ) -> Result<(), CodecError>
        ensures same_size { self.new.element_size ≡ self.old.element_size }
        ensures same_shape { self.new.shape ≡ self.old.shape }
        ensures whole { AreWhole self.new.bytes self.new.element_size self.new.shape }
        ensures written { OnOk result (IsUpdated (count_of in_subset.now.shape) (number_in in_subset.now self.old.shape)
            (piece self.old.element_size self.old.bytes) (λ k. fill_value.now) (piece self.old.element_size self.new.bytes)) }
        ensures served { OnOk result (IsServed in_subset.now self.old.shape) }
        ensures size { OnOk result (length fill_value.now ≡ self.old.element_size) }
        ensures kept { OnErr result (self.new ≡ self.old) }
        ensures refused { IfErr result (PartRefusals self.old.shape in_subset.now (length fill_value.now ≡ self.old.element_size or WrongElementKind then done)) }
    {
        let place = PartPlace {
            element_size: self.element_size,
            shape: &self.shape,
            in_subset,
        };
        fill_in(self.bytes.as_mut_slice(), &place, fill_value)
    }

    /// Reads the cells of a part of an array that stands in an interval of an object, and writes them, in row-major order of the part, where
    /// it lies in the subset; all other cells stay. Refused, in this order, as `IncompatibleDimensionality` and `OutOfBounds` where it does
    /// not lie in the subset, and as `partial_decode_into_fresh` of the codec refuses; the part's cells are then any.
    pub fn read_part<C: ArrayToBytesCodecTraits, H: BytesPartialDecoderTraits>(
        &mut self,
        alloc: Global,
        codec: &C,
        handle: &mut H,
        stored: &StoredArray,
        in_stored: &ArraySubset,
        in_subset: &ArraySubset,
    ) -> Result<(), CodecError>
        ensures same_size { self.new.element_size ≡ self.old.element_size }
        ensures same_shape { self.new.shape ≡ self.old.shape }
        ensures whole { AreWhole self.new.bytes self.new.element_size self.new.shape }
        ensures read { IsRead (H.state handle.old) (H.state handle.new) }
        ensures served { OnOk result (IsServed in_subset.now self.old.shape) }
        ensures counted { OnOk result (count_of in_subset.now.shape ≡ count_of in_stored.now.shape) }
        ensures cells { let m = C.meaning codec.now (stored_spec stored.now) in
            OnOk result (IsTrue (H.state handle.old).transparent
            → HasInterval stored.now.interval (H.state handle.old).contents
            × IsPartDecoded (m.cells (interval_part stored.now.interval (H.state handle.old).contents)) stored.now.shape.now in_stored.now in_subset.now
            self.old.element_size self.old.shape self.old.bytes self.new.bytes) }
        ensures refused { let m = C.meaning codec.now (stored_spec stored.now) in let selection = subset_selection in_stored.now in
            IfErr result (PartRefusals self.old.shape in_subset.now (RefusedBy (
            m.serves or_as RefusesUnserved m then
            size_of stored.now.data_type.now ≡ Fixed self.old.element_size or WrongElementKind then
            count_of in_subset.now.shape ≡ length selection.points or InvalidNumberOfElements then
            RequestRefusals (stored_spec stored.now) selection m.answerable (
            ObjectRefusals (H.state handle.old) (H.state handle.new) (
            IntervalRefusals stored.now.interval (H.state handle.old).contents (λ b. m.read_refusals b selection.points)))))) }
    {
        let place = PartPlace {
            element_size: self.element_size,
            shape: &self.shape,
            in_subset,
        };
        let bytes = self.bytes.as_mut_slice();
        read_to(alloc, codec, handle, stored, in_stored, bytes, &place)
    }

    /// The bytes of the cells.
    pub fn bytes(&self) -> &[u8]
        ensures { result.now ≡ self.now.bytes }
    {
        &self.bytes
    }

    /// The cells as an array of elements of one size.
    pub fn array(&self) -> ArrayBytes<'_>
        ensures { result ≡ fixed_array self.now.element_size self.now.bytes }
    {
        let Some(array) = ArrayBytes::new_flen(CowSlice::Borrowed(&self.bytes), self.element_size)
        else {
            unreachable!()
        };
        array
    }
}
