// The chunks of a new array whose elements have lengths of their own; behind the array's end they have fill values.
use array_cli::{encode_chunk, whole_of};
use array_grid::VaryingCells;
use array_metadata::ArrayMetadata;
use parts_arrays::ArrayBytes;
use parts_errors::CodecError;
use parts_subsets::check_subset;
use std::alloc::{AllocError, Global};
use std::borrow::CowSlice;

// Which element stands at each place of a chunk at whose start `count` of them stand that have a shape; `None` where none does.
fn places_in(
    alloc: Global,
    shape: &[u64],
    count: usize,
    chunk: &[u64],
) -> Result<Vec<Option<usize>>, CodecError> {
    let part = whole_of(alloc, shape)?;
    let total = check_subset(&part, chunk)?;
    if part.num_elements() != Some(count as u64) {
        return Err(CodecError::InvalidNumberOfElements);
    }
    let mut places = Vec::from_elem(alloc, None, total as usize)?;
    for number in 0..count {
        let place = part.number_at(number as u64, chunk);
        if let Some(found) = places.get_mut(place as usize) {
            *found = Some(number);
        }
    }
    Ok(places)
}

// The elements at the places of a chunk, one behind the other, and where each begins and the last one ends: fill values where none is.
fn laid_out(
    alloc: Global,
    elements: &VaryingCells,
    places: &[Option<usize>],
    fill: &[u8],
) -> Result<(Vec<u8>, Vec<usize>), AllocError> {
    let mut bytes = Vec::new(alloc);
    let mut offsets = Vec::with_capacity(alloc, places.len().saturating_add(1))?;
    offsets.push(0)?;
    for place in places {
        let element = match place {
            Some(number) => elements.element(*number),
            None => fill,
        };
        bytes.extend_from_slice(element)?;
        offsets.push(bytes.len())?;
    }
    Ok((bytes, offsets))
}

/// The bytes of a chunk of a new array, at whose start elements with lengths of their own stand that have a shape; `None` where it has no
/// file.
pub fn encoded_varying(
    rt: &HostRuntime,
    shape: &[u64],
    elements: &VaryingCells,
    new: &ArrayMetadata,
) -> Result<Option<Vec<u8>>, CodecError> {
    let places = places_in(rt.alloc(), shape, elements.len(), new.shard.as_slice())?;
    let fill = new.fill_value.as_ne_bytes();
    let (bytes, offsets) = laid_out(rt.alloc(), elements, &places, fill)?;
    match ArrayBytes::new_vlen(CowSlice::Owned(bytes), offsets) {
        Some(elements) => encode_chunk(rt.alloc(), &new.codec, &elements, new),
        None => Err(CodecError::WrongElementKind),
    }
}
