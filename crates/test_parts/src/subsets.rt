// Subsets of coordinates, and their law.
use crate::compared::same;
use crate::examples::{is_subset, subset};
use std::alloc::{AllocError, Global};
use std::ops::Range;
use std::process::Abort;
use zarr_parts::{ArraySubset, CodecError, subset_law};

// Whether a subset has this start, this shape and this end.
fn lies_at(
    alloc: Global,
    found: &ArraySubset,
    start: &[u64],
    shape: &[u64],
    end: &[u64],
) -> Result<bool, AllocError> {
    let past = found.end_exc(alloc)?;
    Ok(found.start() == start && found.shape() == shape && past.as_slice() == end)
}

// Whether the column of the first axis lies where it should.
fn is_column<R: Abort>(rt: &R, alloc: Global) -> bool {
    let column = subset(alloc, &[1..3, 0..1]).expect(rt, "refused");
    lies_at(alloc, &column, &[1, 0], &[2, 1], &[3, 1]).expect(rt, "refused")
}

// A range starts at its first number and ends before its last.
#[test]
fn a_subset_is_made_of_ranges(rt: HostRuntime) {
    assert!(rt; is_column(&rt, rt.alloc()));
}

fn of_ranges<R: Abort>(rt: &R, alloc: Global, ranges: &[Range<u64>]) -> bool {
    ArraySubset::new_with_ranges(alloc, ranges)
        .expect(rt, "refused")
        .is_some()
}

// No range ends before its start.
#[test]
fn no_range_falls(rt: HostRuntime) {
    assert!(rt; of_ranges(&rt, rt.alloc(), &[1..3, 1..0]) == false);
}

fn of<R: Abort>(rt: &R, alloc: Global, start: &[u64], shape: &[u64]) -> bool {
    let made = ArraySubset::new_with_start_shape(
        start.to_vec(alloc).expect(rt, "refused"),
        shape.to_vec(alloc).expect(rt, "refused"),
    );
    made.is_some()
}

// A start and a shape are as long, and no end passes 64 bits.
#[test]
fn an_end_fits_64_bits(rt: HostRuntime) {
    let rows: [(&[u64], &[u64], bool); 3] = [
        (&[0, 1], &[4, u64::MAX - 1], true),
        (&[0, 2], &[4, u64::MAX - 1], false),
        (&[0], &[4, 4], false),
    ];
    for (start, shape, made) in rows {
        same(&rt, of(&rt, rt.alloc(), start, shape), made);
    }
}

// How many points a subset of this shape has, which must start at the origin.
fn points<R: Abort>(
    rt: &R,
    alloc: Global,
    shape: &[u64],
    origin: &[u64],
) -> Result<Option<u64>, CodecError> {
    let whole = ArraySubset::new_with_shape(alloc, shape.to_vec(alloc).expect(rt, "refused"))?;
    if whole.start() != origin {
        return Err(CodecError::Fault);
    }
    Ok(whole.num_elements())
}

// A subset with an empty axis has no point, whatever the others are.
#[test]
fn an_empty_axis_leaves_no_point(rt: HostRuntime) {
    let rows: [(&[u64], &[u64], Option<u64>); 2] = [
        (&[1 << 32, 1 << 32, 0], &[0, 0, 0], Some(0)),
        (&[1 << 32, 1 << 32], &[0, 0], None),
    ];
    for (shape, origin, count) in rows {
        same(&rt, points(&rt, rt.alloc(), shape, origin), Ok(count));
    }
}

// Whether a copy of the column is equal to it.
fn is_copied<R: Abort>(rt: &R, alloc: Global) -> bool {
    let copy = subset(alloc, &[1..3, 0..1])
        .expect(rt, "refused")
        .try_clone(alloc)
        .expect(rt, "refused");
    is_subset(alloc, &copy, &[1..3, 0..1]).expect(rt, "refused")
}

// Whether the column is the subset of these ranges.
fn column_is<R: Abort>(rt: &R, alloc: Global, ranges: &[Range<u64>]) -> bool {
    is_subset(
        alloc,
        &subset(alloc, &[1..3, 0..1]).expect(rt, "refused"),
        ranges,
    )
    .expect(rt, "refused")
}

// A copy is equal, and a subset with another start is not.
#[test]
fn a_copy_is_equal(rt: HostRuntime) {
    same(&rt, is_copied(&rt, rt.alloc()), true);
    same(&rt, column_is(&rt, rt.alloc(), &[0..2, 0..1]), false);
}

// The law of subsets can be called.
#[test]
fn the_law_of_subsets_can_be_called(rt: HostRuntime) {
    let whole = ArraySubset::new_with_shape(
        rt.alloc(),
        [4, 4].to_vec(rt.alloc()).expect(&rt, "refused"),
    ).expect(&rt, "refused");
    subset_law(&whole, &[4, 4]);
}
