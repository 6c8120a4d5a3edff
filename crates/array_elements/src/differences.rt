// Two arrays, compared element by element.
use array_cli::{Array, Ending, Output, Progress, Stop, elements_of, whole_of, written};
use array_fields::ElementType;
use array_grid::{SubsetCells, SubsetElements, VaryingCells, write_cell_line, write_numbers};
use array_metadata::ArrayMetadata;
use array_reading::{chunks_of, read_silently};
use parts_errors::CodecError;
use parts_row_major::unravel_index;
use parts_subsets::ArraySubset;
use std::alloc::Global;
use std::io;
use std::io::Write;

// What was found of two arrays.
#[derive(Drop)]
struct Differences {
    count: u64,
    // of the first element that differs: its coordinates, and as what it stands in either array
    first: Option<(Vec<u64>, Vec<u8>, Vec<u8>)>,
}

// The coordinates of the element of a subset with a number.
fn coordinates_of(alloc: Global, subset: &ArraySubset, number: u64) -> Result<Vec<u64>, Stop> {
    let mut coordinates = Vec::new(alloc);
    if let Some(steps) = unravel_index(alloc, number, subset.shape())? {
        for (start, step) in subset.start().iter().zip(&steps) {
            coordinates.push(start.saturating_add(*step))?;
        }
    }
    Ok(coordinates)
}

impl Differences {
    // Adds an element that differs.
    fn add(
        &mut self,
        alloc: Global,
        subset: &ArraySubset,
        number: u64,
        elements: (&[u8], &[u8]),
    ) -> Result<(), Stop> {
        if self.first.is_none() {
            let coordinates = coordinates_of(alloc, subset, number)?;
            let one = Vec::from_slice(alloc, elements.0)?;
            let other = Vec::from_slice(alloc, elements.1)?;
            self.first = Some((coordinates, one, other));
        }
        self.count = self.count.saturating_add(1);
        Ok(())
    }

    // Adds the elements of a subset that differ, each of a size.
    fn add_all(
        &mut self,
        alloc: Global,
        subset: &ArraySubset,
        size: usize,
        cells: (&[u8], &[u8]),
    ) -> Result<(), Stop> {
        if cells.0 == cells.1 {
            return Ok(());
        }
        let size = size.max(1);
        let pairs = cells.0.chunks(size).zip(cells.1.chunks(size));
        for (number, (one, other)) in pairs.enumerate() {
            if one != other {
                self.add(alloc, subset, number as u64, (one, other))?;
            }
        }
        Ok(())
    }

    // Adds the elements of a subset that differ, which have lengths of their own.
    fn add_varying(
        &mut self,
        alloc: Global,
        subset: &ArraySubset,
        first: &VaryingCells,
        second: &VaryingCells,
    ) -> Result<(), Stop> {
        for number in 0..first.len() {
            let elements = (first.element(number), second.element(number));
            if elements.0 != elements.1 {
                self.add(alloc, subset, number as u64, elements)?;
            }
        }
        Ok(())
    }
}

// Adds the elements of a subset of two arrays that differ, where they have these.
fn add_cells(
    one: &Array<'_>,
    other: &Array<'_>,
    subset: &ArraySubset,
    cells: (&SubsetCells, &SubsetCells),
    found: &mut Differences,
) -> Result<(), Stop> {
    let first = one.least_first(cells.0.bytes())?;
    let second = other.least_first(cells.1.bytes())?;
    let size = one.metadata.fill_value.as_ne_bytes().len();
    found.add_all(one.alloc(), subset, size, (&first, &second))
}

// Adds the elements of a subset of two arrays that differ.
fn add_subset<'a>(
    one: &Array<'a>,
    other: &Array<'a>,
    subset: &ArraySubset,
    found: &mut Differences,
) -> Result<(), Stop> {
    match (read_silently(one, subset)?, read_silently(other, subset)?) {
        (SubsetElements::Sized(first), SubsetElements::Sized(second)) => {
            add_cells(one, other, subset, (&first, &second), found)
        }
        (SubsetElements::Varying(first), SubsetElements::Varying(second)) => {
            found.add_varying(one.alloc(), subset, &first, &second)
        }
        _ => Err(CodecError::WrongElementKind.into()),
    }
}

// Adds what differs in the chunk at these coordinates of the first array's grid.
fn add_chunk<'a>(
    one: &Array<'a>,
    other: &Array<'a>,
    coordinates: &[u64],
    found: &mut Differences,
) -> Result<(), Stop> {
    let (chunk, shape) = (&one.metadata.shard, &one.metadata.shape);
    match elements_of(one.alloc(), coordinates, chunk, shape)? {
        Some(subset) => add_subset(one, other, &subset, found),
        None => Ok(()),
    }
}

// The chunks of the first array's grid in which elements may differ: those that either has elements of, or all where they have other
// fill values.
fn chunks_of_both(one: &Array<'_>, other: &Array<'_>) -> Result<Vec<Vec<u64>>, Stop> {
    let chunk = &one.metadata.shard;
    if one.metadata.fill_value != other.metadata.fill_value {
        return all_chunks(one.alloc(), one.grid.counts());
    }
    let whole = whole_of(one.alloc(), &one.metadata.shape)?;
    let mut chunks = chunks_of(one, &whole, chunk)?;
    for coordinates in chunks_of(other, &whole, chunk)? {
        chunks.push(coordinates)?;
    }
    chunks.sort_unstable();
    chunks.dedup();
    Ok(chunks)
}

// The coordinates of all places of a grid.
fn all_chunks(alloc: Global, counts: &[u64]) -> Result<Vec<Vec<u64>>, Stop> {
    let mut many = 1u64;
    for count in counts {
        many = many.saturating_mul(*count);
    }
    let mut chunks: Vec<Vec<u64>> = Vec::new(alloc);
    for number in 0..many {
        if let Some(coordinates) = unravel_index(alloc, number, counts)? {
            chunks.push(coordinates)?;
        }
    }
    Ok(chunks)
}

// The differences of two arrays of a shape and a type.
fn found_in<'a>(
    one: &Array<'a>,
    other: &Array<'a>,
    progress: &mut Progress,
) -> Result<Differences, Stop> {
    let chunks = chunks_of_both(one, other)?;
    let mut found = Differences {
        count: 0,
        first: None,
    };
    for (number, coordinates) in chunks.iter().enumerate() {
        progress.step(number as u64, chunks.len() as u64);
        add_chunk(one, other, coordinates, &mut found)?;
    }
    Ok(found)
}

// Writes how many elements differ, and the first of them.
fn write_differences(
    out: &mut Output,
    element_type: ElementType,
    found: &Differences,
) -> io::Result<()> {
    let Some((coordinates, one, other)) = &found.first else {
        return writeln!(out, "no element differs");
    };
    match found.count {
        1 => out.write_all(b"1 element differs,")?,
        count => write!(out, "{count} elements differ, the first one")?,
    }
    write_numbers(out, " at", coordinates)?;
    write_cell_line(out, element_type, one)?;
    write_cell_line(out, element_type, other)
}

// Writes how many elements differ, and says how the command ends.
fn tell(out: &mut Output, element_type: ElementType, found: &Differences) -> Result<Ending, Stop> {
    let ending = match found.count {
        0 => Ending::Done,
        _ => Ending::Different,
    };
    written(write_differences(out, element_type, found), ending)?;
    Ok(ending)
}

// What is said of two arrays that have no elements to compare.
fn differing_metadata(one: &ArrayMetadata, other: &ArrayMetadata) -> Option<&'static [u8]> {
    if one.shape != other.shape {
        Some(b"the shapes differ\n")
    } else if one.element_type != other.element_type {
        Some(b"the data types differ\n")
    } else {
        None
    }
}

/// Compares two arrays element by element, and writes how many elements differ, and of the first one its coordinates and what it is in
/// either array. Where shapes or data types differ, it says so instead. Only the chunks that one of the arrays has are read, unless their
/// fill values differ.
pub fn compare<'a>(
    one: &Array<'a>,
    other: &Array<'a>,
    out: &mut Output,
    progress: &mut Progress,
) -> Result<Ending, Stop> {
    one.test_read()?;
    other.test_read()?;
    if let Some(words) = differing_metadata(one.metadata, other.metadata) {
        written(out.write_all(words), Ending::Different)?;
        return Ok(Ending::Different);
    }
    let found = found_in(one, other, progress)?;
    progress.clear();
    tell(out, one.metadata.element_type, &found)
}
