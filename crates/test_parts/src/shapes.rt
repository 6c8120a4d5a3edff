// Shapes whose axes are at least 1.
use crate::compared::same;
use crate::examples::shape;
use std::alloc::Global;
use std::process::Abort;
use zarr_parts::{ArraySubset, Axes, ChunkShape, CodecError};

// How many cells a shape of these axes has, where the count fits 64 bits; a fault where it is none.
fn cells(alloc: Global, axes: &[u64]) -> Result<Option<u64>, CodecError> {
    Ok(shape(alloc, axes)?.num_elements())
}

// No axis is zero, and the others are multiplied.
#[test]
fn the_axes_are_multiplied(rt: HostRuntime) {
    let rows: [(&[u64], Result<Option<u64>, CodecError>); 6] = [
        (&[4, 0], Err(CodecError::Fault)),
        (&[2, 3, 4, 5, 6], Ok(Some(720))),
        (&[], Ok(Some(1))),
        (&[2, 3], Ok(Some(6))),
        (&[4, 4], Ok(Some(16))),
        (&[1 << 32, 1 << 32], Ok(None)),
    ];
    for (axes, want) in rows {
        same(&rt, cells(rt.alloc(), axes), want);
    }
}

// Whether a shape is equal to the one of these axes.
fn is_shape<R: Abort>(rt: &R, alloc: Global, found: &ChunkShape, axes: &[u64]) -> bool {
    let made = shape(alloc, axes).expect(rt, "refused");
    *found == made && made.as_slice() == axes
}

// Whether the shape of the axes 2 and 3 has them, and is equal to the one that is made of them unchecked.
fn is_made<R: Abort>(rt: &R, alloc: Global) -> bool {
    let unchecked = ChunkShape::from_positive(Axes::from_slice(alloc, &[2, 3]).expect(
        rt, "refused",
    ));
    is_shape(rt, alloc, &unchecked, &[2, 3])
}

// A shape has the axes that it is made of.
#[test]
fn a_shape_has_its_axes(rt: HostRuntime) {
    same(&rt, is_made(&rt, rt.alloc()), true);
}

// Whether a copy of the shape of the axes 2 and 3 is equal to the shape of these axes.
fn is_copied<R: Abort>(rt: &R, alloc: Global, axes: &[u64]) -> bool {
    let copy = shape(alloc, &[2, 3])
        .expect(rt, "refused")
        .try_clone(alloc)
        .expect(rt, "refused");
    is_shape(rt, alloc, &copy, axes)
}

// A copy is equal, and a shape of the same axes in another order is not.
#[test]
fn a_copy_is_equal(rt: HostRuntime) {
    same(&rt, is_copied(&rt, rt.alloc(), &[2, 3]), true);
    same(&rt, is_copied(&rt, rt.alloc(), &[3, 2]), false);
}

// Whether axes that are added one by one are those.
fn are_added<R: Abort>(rt: &R, alloc: Global, axes: &[u64]) -> bool {
    let mut added = Axes::new(alloc);
    for axis in axes {
        added.push(*axis).expect(rt, "refused");
    }
    added.len() == axes.len() && added.as_slice() == axes
}

// Few axes and many are held in their order.
#[test]
fn axes_are_added(rt: HostRuntime) {
    let rows: [&[u64]; 4] = [&[], &[9, 8, 7, 6], &[9, 8, 7, 6, 5], &[9, 8, 7, 6, 5, 4]];
    for axes in rows {
        same(&rt, are_added(&rt, rt.alloc(), axes), true);
    }
}

// Whether a subset has this shape and begins at zero on each axis.
fn is_whole<R: Abort>(rt: &R, alloc: Global, found: &ArraySubset, axes: &[u64]) -> bool {
    let zeros = Axes::from_elem(alloc, 0, axes.len()).expect(rt, "refused");
    found.start() == zeros.as_slice() && found.shape() == axes
}

// Whether the subset of all coordinates of a shape does.
fn begins_at_zero<R: Abort>(rt: &R, alloc: Global, axes: &[u64]) -> bool {
    let all = ArraySubset::new_with_shape(
        alloc,
        Vec::from_slice(alloc, axes).expect(rt, "refused"),
    ).expect(rt, "refused");
    is_whole(rt, alloc, &all, axes)
}

// A subset has as many axes as its shape, few or many.
#[test]
fn a_whole_subset_begins_at_zero(rt: HostRuntime) {
    let rows: [&[u64]; 2] = [&[2, 3], &[2, 3, 4, 5, 6]];
    for axes in rows {
        same(&rt, begins_at_zero(&rt, rt.alloc(), axes), true);
    }
}
