// Where two subsets meet, subsets seen from another origin, and the law of overlaps.
use crate::compared::{same, same_at};
use crate::examples::{is_subset, subset};
use std::alloc::Global;
use std::ops::Range;
use zarr_parts::{ArraySubset, CodecError, overlap_law};

// Where the subset of the coordinates 0 to 2 and 2 to 4 meets another.
fn met(alloc: Global, other: &ArraySubset) -> Result<ArraySubset, CodecError> {
    subset(alloc, &[0..2, 2..4])?.overlap(alloc, other)
}

// Whether the two meet in a third.
fn overlaps_in(
    alloc: Global,
    other: &ArraySubset,
    both: &[Range<u64>],
) -> Result<bool, CodecError> {
    is_subset(alloc, &met(alloc, other)?, both)
}

fn is_met(alloc: Global, other: &[Range<u64>], both: &[Range<u64>]) -> Result<bool, CodecError> {
    overlaps_in(alloc, &subset(alloc, other)?, both)
}

// Two subsets of as many axes meet in a subset, which may be empty.
#[test]
fn two_subsets_overlap(rt: HostRuntime) {
    let unequal = Err(CodecError::IncompatibleDimensionality);
    let rows: [(&[Range<u64>], &[Range<u64>], Result<bool, CodecError>, &str); 3] = [
        (&[1..3, 0..3], &[1..2, 2..3], Ok(true), "in a corner"),
        (
            &[5..6, 2..4],
            &[5..5, 2..4],
            Ok(true),
            "nowhere on the first axis",
        ),
        (&[0..2], &[], unequal, "not with one axis"),
    ];
    for (other, both, want, what) in rows {
        same_at(&rt, what, is_met(rt.alloc(), other, both), want);
    }
}

// A column, counted from an origin.
fn relative(alloc: Global, origin: &[u64]) -> Result<ArraySubset, CodecError> {
    subset(alloc, &[1..3, 0..1])?.relative_to(alloc, origin)
}

// Whether it is the subset of these ranges.
fn is_relative(alloc: Global, origin: &[u64], ranges: &[Range<u64>]) -> Result<bool, CodecError> {
    is_subset(alloc, &relative(alloc, origin)?, ranges)
}

// A subset is counted from an origin of as many axes, none of them past its start.
#[test]
fn a_subset_is_counted_from_an_origin(rt: HostRuntime) {
    let rows: [(&[u64], Result<bool, CodecError>); 3] = [
        (&[1, 0], Ok(true)),
        (&[1, 1], Err(CodecError::OutOfBounds)),
        (&[2], Err(CodecError::IncompatibleDimensionality)),
    ];
    for (origin, want) in rows {
        same(&rt, is_relative(rt.alloc(), origin, &[0..2, 0..1]), want);
    }
}

// The law of overlaps can be called.
#[test]
fn the_law_of_overlaps_can_be_called(rt: HostRuntime) {
    let whole = subset(rt.alloc(), &[0..4, 0..4]).expect(&rt, "refused");
    overlap_law(&whole, &whole);
}
