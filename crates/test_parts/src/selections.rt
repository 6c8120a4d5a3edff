// What is asked of an array, tested against its shape and numbered in it.
use crate::compared::same;
use crate::examples::{listed, shape, subset};
use std::alloc::Global;
use std::ops::Range;
use std::process::Abort;
use zarr_parts::{ChunkShape, CodecError, Indexer, check_selection, point_numbers};

// Whether the coordinates that are asked of a shape have these numbers in it.
fn are_numbers_in<N: Indexer, R: Abort>(
    rt: &R,
    alloc: Global,
    indexer: &N,
    shape: &ChunkShape,
    want: &[u64],
) -> bool {
    let _cells = shape.num_elements().expect(rt, "does not fit");
    let count = check_selection(indexer, shape).expect(rt, "refused");
    point_numbers(alloc, indexer, count, shape)
        .expect(rt, "refused")
        .as_slice()
        == want
}

fn are_numbers<N: Indexer, R: Abort>(
    rt: &R,
    alloc: Global,
    indexer: &N,
    axes: &[u64],
    want: &[u64],
) -> bool {
    are_numbers_in(
        rt,
        alloc,
        indexer,
        &shape(alloc, axes).expect(rt, "refused"),
        want,
    )
}

fn is_numbered<R: Abort>(rt: &R, alloc: Global) -> bool {
    let column = subset(alloc, &[1..3, 0..1]).expect(rt, "refused");
    are_numbers(rt, alloc, &column, &[4, 4], &[4, 8])
}

// The points of a subset are numbered in row-major order.
#[test]
fn a_subset_is_numbered(rt: HostRuntime) {
    assert!(rt; is_numbered(&rt, rt.alloc()));
}

fn are_listed<R: Abort>(
    rt: &R,
    alloc: Global,
    axes: &[u64],
    count: u64,
    flat: &[u64],
    want: &[u64],
) -> bool {
    let list = listed(rt, alloc, axes.len(), count, flat).expect(rt, "refused");
    are_numbers(rt, alloc, &list, axes, want)
}

// Listed coordinates are numbered in their own order, one of them twice.
#[test]
fn coordinates_are_numbered(rt: HostRuntime) {
    let rows: [(&[u64], u64, &[u64], &[u64]); 2] = [
        (&[4, 4], 3, &[3, 3, 0, 0, 3, 3], &[15, 0, 15]),
        (&[], 2, &[], &[0, 0]),
    ];
    for (axes, count, flat, want) in rows {
        same(
            &rt,
            are_listed(&rt, rt.alloc(), axes, count, flat, want),
            true,
        );
    }
}

fn list_count<R: Abort>(
    rt: &R,
    alloc: Global,
    axes: &[u64],
    dimensionality: usize,
    count: u64,
    flat: &[u64],
) -> Result<u64, CodecError> {
    let list = listed(rt, alloc, dimensionality, count, flat)?;
    check_selection(&list, &shape(alloc, axes)?)
}

// Listed coordinates are counted where each is inside the shape.
#[test]
fn coordinates_are_counted_where_they_are_inside(rt: HostRuntime) {
    let unequal = Err(CodecError::IncompatibleDimensionality);
    let rows: [(&[u64], usize, u64, &[u64], Result<u64, CodecError>); 4] = [
        (&[4, 4], 2, 3, &[3, 3, 0, 0, 3, 3], Ok(3)),
        (&[4, 4], 2, 2, &[0, 0, 3, 4], Err(CodecError::OutOfBounds)),
        (&[4, 4], 1, 1, &[4], unequal),
        (&[], 0, u64::MAX, &[], Ok(u64::MAX)),
    ];
    for (axes, dimensionality, count, flat, want) in rows {
        let found = list_count(&rt, rt.alloc(), axes, dimensionality, count, flat);
        same(&rt, found, want);
    }
}

fn subset_count(alloc: Global, axes: &[u64], ranges: &[Range<u64>]) -> Result<u64, CodecError> {
    check_selection(&subset(alloc, ranges)?, &shape(alloc, axes)?)
}

// The points of a subset are counted where it ends inside the shape and the count fits 64 bits.
#[test]
fn a_subset_is_counted_where_it_ends_inside(rt: HostRuntime) {
    let large = [0..1 << 32, 0..1 << 32];
    let rows: [(&[u64], &[Range<u64>], Result<u64, CodecError>); 4] = [
        (&[4, 4], &[1..3, 0..1], Ok(2)),
        (&[4], &[5..5], Err(CodecError::OutOfBounds)),
        (&[4], &[4..4], Ok(0)),
        (&[1 << 32, 1 << 32], &large, Err(CodecError::TooLarge)),
    ];
    for (axes, ranges, want) in rows {
        same(&rt, subset_count(rt.alloc(), axes, ranges), want);
    }
}
