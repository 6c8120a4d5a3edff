// Runs of neighbouring elements in subsets.
use crate::compared::same;
use crate::examples::subset;
use std::alloc::Global;
use std::ops::Range;
use zarr_parts::{ArraySubset, CodecError};

// The runs of a subset, each as its first number and its length.
fn runs_in(
    alloc: Global,
    cells: &ArraySubset,
    shape: &[u64],
) -> Result<Vec<(u64, u64)>, CodecError> {
    let mut found = Vec::new(alloc);
    for run in cells.contiguous_runs(shape)? {
        found.push(run)?;
    }
    Ok(found)
}

fn runs_of(
    alloc: Global,
    ranges: &[Range<u64>],
    shape: &[u64],
) -> Result<Vec<(u64, u64)>, CodecError> {
    runs_in(alloc, &subset(alloc, ranges)?, shape)
}

// A run goes on as long as the subset spans the later axes; an empty subset has no run.
#[test]
fn runs_are_as_long_as_they_can_be(rt: HostRuntime) {
    let rows: [(&[Range<u64>], &[u64], &[(u64, u64)]); 5] = [
        (&[1..3, 0..4], &[4, 4], &[(4, 8)]),
        (&[1..3, 0..1], &[4, 4], &[(4, 1), (8, 1)]),
        (&[1..2, 0..2, 0..3], &[2, 4, 4], &[(16, 3), (20, 3)]),
        (&[], &[], &[(0, 1)]),
        (&[2..2, 0..4], &[4, 4], &[]),
    ];
    for (ranges, shape, wanted) in rows {
        let found = runs_of(rt.alloc(), ranges, shape).expect(&rt, "refused");
        same(&rt, found.as_slice(), wanted);
    }
}

// A subset of other axes, one that ends outside the shape and a shape whose count passes 64 bits are refused, in this order.
#[test]
fn subsets_without_runs_are_refused(rt: HostRuntime) {
    let rows: [(&[Range<u64>], &[u64], CodecError); 3] = [
        (
            &[0..5],
            &[4, u64::MAX],
            CodecError::IncompatibleDimensionality,
        ),
        (&[0..5, 0..1], &[4, u64::MAX], CodecError::OutOfBounds),
        (&[0..4, 0..1], &[4, u64::MAX], CodecError::TooLarge),
    ];
    for (ranges, shape, refusal) in rows {
        assert!(rt; runs_of(rt.alloc(), ranges, shape).err() == Some(refusal));
    }
}
