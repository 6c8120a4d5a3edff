// The chunks of a grid that have elements in the files of an array.
use array_cli::{Array, Stop};
use array_folder::ChunkFile;
use array_metadata::ArrayMetadata;
use parts_row_major::unravel_index;
use parts_subsets::{ArraySubset, ChunkShape};
use std::alloc::{AllocError, Global};

// Some coordinates along an axis, one after the other: the first one, and how many there are.
#[derive(Clone, Copy)]
struct Span {
    first: u64,
    count: u64,
}

// The chunks of a size along an axis, counted from the first coordinate of a span on, that have elements of the span and of a chunk of
// another size, whose place is counted from the array's origin.
fn touched_axis(chunk: u64, size: u64, other: u64, span: Span) -> Span {
    let start = chunk.saturating_mul(size);
    let end = start.saturating_add(size);
    let start = start.saturating_sub(span.first);
    let end = end.saturating_sub(span.first).min(span.count);
    if start >= end {
        return Span { first: 0, count: 0 };
    }
    let first = start.checked_div(other).unwrap_or(0);
    let last = end.saturating_sub(1).checked_div(other).unwrap_or(0);
    Span {
        first,
        count: last.saturating_sub(first).saturating_add(1),
    }
}

// The chunks of a subset, which have a shape, that have elements of a file's chunk: the first one along each axis, and how many there are.
fn touched(
    alloc: Global,
    file: &ChunkFile,
    array: &ArrayMetadata,
    subset: &ArraySubset,
    chunk: &ChunkShape,
) -> Result<(Vec<u64>, Vec<u64>), AllocError> {
    let (mut firsts, mut counts) = (Vec::new(alloc), Vec::new(alloc));
    let spans = subset.start().iter().zip(subset.shape());
    let sizes = array.shard.as_slice().iter().zip(chunk.as_slice());
    for ((place, (first, count)), (size, other)) in file.coordinates.iter().zip(spans).zip(sizes) {
        let span = Span {
            first: *first,
            count: *count,
        };
        let found = touched_axis(*place, *size, *other, span);
        firsts.push(found.first)?;
        counts.push(found.count)?;
    }
    Ok((firsts, counts))
}

// The sums of two lists, number by number.
fn sums(alloc: Global, firsts: &[u64], steps: &[u64]) -> Result<Vec<u64>, AllocError> {
    let mut sums = Vec::with_capacity(alloc, firsts.len())?;
    for (first, step) in firsts.iter().zip(steps) {
        sums.push(first.saturating_add(*step))?;
    }
    Ok(sums)
}

// Adds the coordinates of the chunks of a subset, which have a shape, that have elements of a file's chunk.
fn add_touched(
    alloc: Global,
    file: &ChunkFile,
    array: &ArrayMetadata,
    subset: &ArraySubset,
    chunk: &ChunkShape,
    found: &mut Vec<Vec<u64>>,
) -> Result<(), AllocError> {
    let (firsts, counts) = touched(alloc, file, array, subset, chunk)?;
    let mut many = 1u64;
    for count in counts.iter() {
        many = many.saturating_mul(*count);
    }
    for number in 0..many {
        if let Some(steps) = unravel_index(alloc, number, &counts)? {
            found.push(sums(alloc, &firsts, &steps)?)?;
        }
    }
    Ok(())
}

/// The coordinates of the chunks, of a shape, of a subset of an array that have elements of the array's files, counted from where the subset
/// starts: each once, in the order of their grid.
pub fn chunks_of(
    array: &Array<'_>,
    subset: &ArraySubset,
    chunk: &ChunkShape,
) -> Result<Vec<Vec<u64>>, Stop> {
    let alloc = array.alloc();
    let files = array.files()?;
    let mut found: Vec<Vec<u64>> = Vec::new(alloc);
    for file in files.chunks.iter() {
        add_touched(alloc, file, array.metadata, subset, chunk, &mut found)?;
    }
    found.sort_unstable();
    found.dedup();
    Ok(found)
}
