// Elements written into subsets of borrowed bytes, worked by hand.
use crate::compared::{same, same_at};
use crate::examples::{fill, fixed, subset};
use std::alloc::Global;
use std::ops::Range;
use std::process::Abort;
use zarr_parts::{ArraySubset, CodecError, FixedTarget};

// A target over a subset of 3 rows of 3 elements.
fn target_of<'a>(
    bytes: &'a mut [u8],
    element_size: usize,
    cells: &'a ArraySubset,
) -> Result<FixedTarget<'a>, CodecError> {
    FixedTarget::new(bytes, element_size, &[3, 3], cells).ok_or(CodecError::Fault)
}

// What a copy of two single bytes into a subset answers.
fn copy_into<R: Abort>(
    rt: &R,
    bytes: &mut [u8],
    element_size: usize,
    cells: &ArraySubset,
) -> Result<(), CodecError> {
    let update = fixed(rt, 1, &[4, 8]);
    target_of(bytes, element_size, cells)?.copy_from(&update)
}

// What such a copy answers; damage where the bytes, which were 77, are not these then.
fn copied_over<R: Abort>(
    rt: &R,
    alloc: Global,
    element_size: usize,
    cells: &ArraySubset,
    want: &[u8],
) -> Result<(), CodecError> {
    let mut bytes = Vec::from_elem(alloc, 77, want.len())?;
    let answer = copy_into(rt, &mut bytes, element_size, cells);
    if bytes.as_slice() == want {
        answer
    } else {
        Err(CodecError::Damaged)
    }
}

fn copied<R: Abort>(
    rt: &R,
    alloc: Global,
    element_size: usize,
    ranges: &[Range<u64>],
    want: &[u8],
) -> Result<(), CodecError> {
    copied_over(rt, alloc, element_size, &subset(alloc, ranges)?, want)
}

// As many elements of the target's size are copied into the subset; others are refused and change nothing.
#[test]
fn elements_are_copied_into_a_subset(rt: HostRuntime) {
    let few = Err(CodecError::InvalidNumberOfElements);
    let wrong = Err(CodecError::WrongElementKind);
    let rows: [(usize, &[Range<u64>], Result<(), CodecError>, &[u8]); 3] = [
        (
            1,
            &[1..3, 1..2],
            Ok(()),
            &[77, 77, 77, 77, 4, 77, 77, 8, 77],
        ),
        (1, &[1..2, 1..2], few, &[77; 9]),
        (2, &[1..3, 1..2], wrong, &[77; 18]),
    ];
    for (element_size, ranges, answer, want) in rows {
        same(
            &rt,
            copied(&rt, rt.alloc(), element_size, ranges, want),
            answer,
        );
    }
}

// What filling a subset of single bytes answers.
fn fill_into<R: Abort>(
    rt: &R,
    alloc: Global,
    bytes: &mut [u8],
    cells: &ArraySubset,
    value: &[u8],
) -> Result<(), CodecError> {
    let value = fill(rt, alloc, value);
    target_of(bytes, 1, cells)?.fill(&value)
}

// What filling a column answers; damage where the bytes, which were 77, are not these then.
fn filled<R: Abort>(rt: &R, alloc: Global, value: &[u8], want: &[u8; 9]) -> Result<(), CodecError> {
    let column = subset(alloc, &[1..3, 1..2])?;
    let mut bytes = [77; 9];
    let answer = fill_into(rt, alloc, &mut bytes, &column, value);
    if bytes == *want {
        answer
    } else {
        Err(CodecError::Damaged)
    }
}

// A value of the target's size fills the subset; another is refused and changes nothing.
#[test]
fn a_subset_is_filled(rt: HostRuntime) {
    let rows: [(&[u8], Result<(), CodecError>, &[u8; 9]); 2] = [
        (&[5, 5], Err(CodecError::WrongElementKind), &[77; 9]),
        (&[5], Ok(()), &[77, 77, 77, 77, 5, 77, 77, 5, 77]),
    ];
    for (value, answer, want) in rows {
        same(&rt, filled(&rt, rt.alloc(), value, want), answer);
    }
}

// Whether a target over a subset of single bytes has so many elements, each of one byte, and tells the subset.
fn tells<R: Abort>(rt: &R, bytes: &mut [u8], cells: &ArraySubset, count: u64) -> bool {
    let target = target_of(bytes, 1, cells).expect(rt, "refused");
    let counted = target.num_elements() == count && target.element_size() == 1;
    counted && target.subset() == cells
}

fn tells_its_column<R: Abort>(rt: &R, alloc: Global) -> bool {
    tells(
        rt,
        &mut [77; 9],
        &subset(alloc, &[1..3, 1..2]).expect(rt, "refused"),
        2,
    )
}

// A target tells its elements and its subset.
#[test]
fn a_target_tells_its_subset(rt: HostRuntime) {
    same(&rt, tells_its_column(&rt, rt.alloc()), true);
}

// Whether nine bytes fit a subset; a fault unless they are a target over it just then.
fn nine_fit(element_size: usize, cells: &ArraySubset) -> Result<bool, CodecError> {
    let mut bytes = [77; 9];
    let fits = FixedTarget::fits(bytes.len(), element_size, &[3, 3], cells);
    if target_of(&mut bytes, element_size, cells).is_ok() == fits {
        Ok(fits)
    } else {
        Err(CodecError::Fault)
    }
}

fn fits<R: Abort>(rt: &R, alloc: Global, element_size: usize, ranges: &[Range<u64>]) -> bool {
    nine_fit(element_size, &subset(alloc, ranges).expect(rt, "refused")).expect(rt, "refused")
}

// Bytes are a target over a subset where they fit it.
#[test]
fn bytes_that_do_not_fit_are_no_target(rt: HostRuntime) {
    let rows: [(usize, &[Range<u64>], bool, &str); 4] = [
        (1, &[1..3, 1..2], true, "a column"),
        (0, &[1..3, 1..2], false, "size 0"),
        (2, &[1..3, 1..2], false, "another length"),
        (1, &[1..4, 1..2], false, "a box outside"),
    ];
    for (element_size, ranges, want, what) in rows {
        same_at(&rt, what, fits(&rt, rt.alloc(), element_size, ranges), want);
    }
}
