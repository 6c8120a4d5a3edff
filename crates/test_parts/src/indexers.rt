// Coordinates that are asked, given one number at a time.
use crate::compared::same;
use crate::examples::{listed, subset};
use std::alloc::Global;
use std::process::Abort;
use zarr_parts::{CodecError, Indexer};

// What is told of coordinates: how many numbers each has, how many they are, and whether they are given as a subset.
type Told = (usize, Option<u64>, bool);

fn told<N: Indexer>(indexer: &N) -> Told {
    (
        indexer.dimensionality(),
        indexer.len(),
        indexer.as_array_subset().is_some(),
    )
}

// The number along an axis of a coordinate, where there is one.
fn index_of<N: Indexer>(indexer: &N, i: u64, axis: usize) -> Option<u64> {
    let count = indexer.len()?;
    if i >= count || axis >= indexer.dimensionality() {
        return None;
    }
    Some(indexer.index_at(i, axis))
}

// Stops the test where coordinates tell something else, or where one of their numbers is another.
fn check<N: Indexer>(rt: &impl Abort, indexer: &N, want: Told, numbers: &[(u64, usize, u64)]) {
    same(&rt, told(indexer), want);
    for (i, axis, number) in numbers {
        same(&rt, index_of(indexer, *i, *axis), Some(*number));
    }
}

// A subset gives its points in row-major order.
#[test]
fn a_subset_gives_its_points(rt: HostRuntime) {
    let column = subset(rt.alloc(), &[1..3, 0..1]).expect(&rt, "refused");
    check(&rt, &column, (2, Some(2), true), &[(1, 0, 2), (1, 1, 0)]);
}

// A list gives its coordinates in its own order, one of them twice.
#[test]
fn coordinates_are_given_in_their_order(rt: HostRuntime) {
    let list = listed(&rt, rt.alloc(), 2, 3, &[3, 4, 0, 1, 3, 4]).expect(&rt, "refused");
    let numbers = [(0, 1, 4), (1, 0, 0), (2, 0, 3)];
    check(&rt, &list, (2, Some(3), false), &numbers);
}

// How many coordinates a list of so many numbers each has; a fault where it is none.
fn count<R: Abort>(
    rt: &R,
    alloc: Global,
    dimensionality: usize,
    many: u64,
    flat: &[u64],
) -> Result<Option<u64>, CodecError> {
    Ok(listed(rt, alloc, dimensionality, many, flat)?.len())
}

// A list has as many numbers as its coordinates have together.
#[test]
fn each_coordinate_has_as_many_numbers(rt: HostRuntime) {
    let rows: [(usize, u64, &[u64], Result<Option<u64>, CodecError>); 3] = [
        (2, 3, &[0, 1, 2, 3, 4], Err(CodecError::Fault)),
        (0, u64::MAX, &[1], Err(CodecError::Fault)),
        (0, u64::MAX, &[], Ok(Some(u64::MAX))),
    ];
    for (dimensionality, many, flat, want) in rows {
        same(
            &rt,
            count(&rt, rt.alloc(), dimensionality, many, flat),
            want,
        );
    }
}

// Whether a copy of a list of so many coordinates is equal to it.
fn is_copied<R: Abort>(rt: &R, alloc: Global) -> bool {
    let pair = listed(rt, alloc, 1, 2, &[1, 2]).expect(rt, "refused");
    pair.try_clone(alloc).expect(rt, "refused") == pair
}

// A copy is equal.
#[test]
fn a_copy_is_equal(rt: HostRuntime) {
    assert!(rt; is_copied(&rt, rt.alloc()));
}

// Whether the same numbers are equal as so many coordinates of so many numbers each and as others.
fn are_equal<R: Abort>(
    rt: &R,
    alloc: Global,
    one: (usize, u64),
    other: (usize, u64),
    flat: &[u64],
) -> bool {
    let list = listed(rt, alloc, one.0, one.1, flat).expect(rt, "refused");
    list == listed(rt, alloc, other.0, other.1, flat).expect(rt, "refused")
}

// Lists of the same numbers differ by how many coordinates these are, also where there are none.
#[test]
fn lists_differ_by_their_count(rt: HostRuntime) {
    let rows: [((usize, u64), (usize, u64), &[u64]); 2] = [
        ((2, 1), (1, 2), &[1, 2]),
        ((0, 1), (0, 2), &[]),
    ];
    for (one, other, flat) in rows {
        same(&rt, are_equal(&rt, rt.alloc(), one, other, flat), false);
    }
}
