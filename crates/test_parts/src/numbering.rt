// Coordinates and their row-major numbers, and the laws of both.
use crate::compared::{same, same_at};
use std::alloc::Global;
use std::process::Abort;
use zarr_parts::{number_along, numbering_law, ravel_indices, unravel_index};

// Whether a number has this coordinate in a shape, or none.
fn is_at<R: Abort>(
    rt: &R,
    alloc: Global,
    number: u64,
    shape: &[u64],
    want: Option<&[u64]>,
) -> bool {
    match unravel_index(alloc, number, shape).expect(rt, "refused") {
        Some(point) => want == Some(point.as_slice()),
        None => want.is_none(),
    }
}

// A number below the count has one coordinate, and no other number has any.
#[test]
fn a_number_has_one_coordinate(rt: HostRuntime) {
    let rows: [(u64, &[u64], Option<&[u64]>); 4] = [
        (6, &[4, 4], Some(&[1, 2])),
        (16, &[4, 4], None),
        (0, &[4, 0], None),
        (0, &[1 << 32, 1 << 32], None),
    ];
    for (number, shape, want) in rows {
        let found = is_at(&rt, rt.alloc(), number, shape, want);
        same_at(&rt, (number, shape), found, true);
    }
}

// The coordinate is told along one axis alone, too.
#[test]
fn a_number_is_told_along_an_axis(rt: HostRuntime) {
    let along = (number_along(6, &[4, 4], 0), number_along(6, &[4, 4], 1));
    same(&rt, along, (1, 2));
}

// A coordinate inside the shape has one number, where the count fits 64 bits.
#[test]
fn a_coordinate_has_one_number(rt: HostRuntime) {
    let rows: [(&[u64], &[u64], Option<u64>, &str); 7] = [
        (&[1, 2], &[4, 4], Some(6), "a square"),
        (&[1, 2, 3], &[2, 3, 4], Some(23), "three axes"),
        (&[], &[], Some(0), "no axes"),
        (&[1], &[4, 4], None, "unequal lengths"),
        (&[1, 4], &[4, 4], None, "an index at its axis"),
        (&[0, 0], &[1 << 32, 1 << 32], None, "a count past the limit"),
        (&[1, 0], &[u64::MAX, 1], Some(1), "a count at the limit"),
    ];
    for (indices, shape, number, what) in rows {
        same_at(&rt, what, ravel_indices(indices, shape), number);
    }
}

// The law of numbers can be called.
#[test]
fn the_law_of_numbers_can_be_called(_rt: HostRuntime) {
    numbering_law(&[4, 4]);
}
