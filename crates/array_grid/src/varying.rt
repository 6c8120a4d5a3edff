// The elements of a subset of an array, put together of its parts, which have one size or lengths of their own.
use crate::cells::SubsetCells;
use parts_arrays::{ArrayBytes, DataType, DataTypeSize, FillValue};
use parts_errors::CodecError;
use parts_subsets::{ArraySubset, check_subset};
use std::alloc::Global;

// Where an element's bytes stand among those of others.
#[derive(Clone, Copy)]
struct Extent {
    start: usize,
    len: usize,
}

// Puts the bytes of the element with a number behind those that are there.
fn put_element(
    bytes: &mut Vec<u8>,
    extents: &mut [Extent],
    number: u64,
    element: &[u8],
) -> Result<(), CodecError> {
    let extent = Extent {
        start: bytes.len(),
        len: element.len(),
    };
    bytes.extend_from_slice(element)?;
    match extents.get_mut(number as usize) {
        Some(place) => {
            *place = extent;
            Ok(())
        }
        None => Err(CodecError::OutOfBounds),
    }
}

// Puts the elements of a part where it lies in a subset of a shape.
fn put_part(
    bytes: &mut Vec<u8>,
    extents: &mut [Extent],
    shape: &[u64],
    in_subset: &ArraySubset,
    part: &ArrayBytes,
) -> Result<(), CodecError> {
    let _count = check_subset(in_subset, shape)?;
    if in_subset.num_elements() != Some(part.len() as u64) {
        return Err(CodecError::InvalidNumberOfElements);
    }
    for place in 0..part.len() {
        let number = in_subset.number_at(place as u64, shape);
        put_element(bytes, extents, number, part.element(place))?;
    }
    Ok(())
}

/// The elements of a subset of an array, in row-major order of the subset, which have lengths of their own.
#[derive(Drop)]
pub struct VaryingCells {
    bytes: Vec<u8>,
    extents: Vec<Extent>,
    shape: Vec<u64>,
}

impl VaryingCells {
    // The elements of a subset, each of them the fill value. Refused as `TooLarge` where they have no numbers; or as `OutOfMemory`.
    fn new(
        alloc: Global,
        subset: &ArraySubset,
        fill_value: &FillValue,
    ) -> Result<Self, CodecError> {
        let Some(count) = subset.num_elements() else {
            return Err(CodecError::TooLarge);
        };
        let bytes = Vec::from_slice(alloc, fill_value.as_ne_bytes())?;
        let fill = Extent {
            start: 0,
            len: bytes.len(),
        };
        let extents = Vec::from_elem(alloc, fill, count as usize)?;
        let shape = Vec::from_slice(alloc, subset.shape())?;
        Ok(VaryingCells {
            bytes,
            extents,
            shape,
        })
    }

    // Puts the elements of a part where it lies in the subset. Refused where it lies elsewhere, or has other than as many elements.
    fn put(&mut self, in_subset: &ArraySubset, part: &ArrayBytes) -> Result<(), CodecError> {
        put_part(
            &mut self.bytes,
            &mut self.extents,
            &self.shape,
            in_subset,
            part,
        )
    }

    /// How many elements there are.
    pub fn len(&self) -> usize {
        self.extents.len()
    }

    /// The bytes of the element with a number; none past the last one.
    pub fn element(&self, number: usize) -> &[u8] {
        let Some(extent) = self.extents.get(number) else {
            return &[];
        };
        let end = extent.start.saturating_add(extent.len);
        self.bytes.get(extent.start..end).unwrap_or(&[])
    }
}

/// The elements of a subset of an array, in row-major order of the subset.
#[derive(Drop)]
pub enum SubsetElements {
    /// They have one size.
    Sized(SubsetCells),
    /// They have lengths of their own.
    Varying(VaryingCells),
}

impl SubsetElements {
    /// The elements of a subset of an array of a type, each of them the fill value. Refused as `SubsetCells::new` refuses.
    pub fn new(
        alloc: Global,
        subset: &ArraySubset,
        data_type: &DataType,
        fill_value: &FillValue,
    ) -> Result<Self, CodecError> {
        match data_type.size() {
            DataTypeSize::Fixed(_) => {
                let cells = SubsetCells::new(alloc, subset, fill_value)?;
                Ok(SubsetElements::Sized(cells))
            }
            DataTypeSize::Variable => {
                let cells = VaryingCells::new(alloc, subset, fill_value)?;
                Ok(SubsetElements::Varying(cells))
            }
        }
    }

    /// Puts the elements of a part where it lies in the subset. Refused, in this order, as `IncompatibleDimensionality` and `OutOfBounds`
    /// where it does not lie in the subset, and as `WrongElementKind` and `InvalidNumberOfElements` where the array is not of as many
    /// elements of the kind; or as `OutOfMemory`.
    pub fn put(&mut self, in_subset: &ArraySubset, part: &ArrayBytes) -> Result<(), CodecError> {
        match self {
            SubsetElements::Sized(cells) => cells.put(in_subset, part),
            SubsetElements::Varying(cells) => cells.put(in_subset, part),
        }
    }
}
