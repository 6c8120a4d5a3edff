// Elements as whole numbers, fill values of numbers, and names of types.
use crate::compared::same;
use std::alloc::Global;
use std::borrow::CowSlice;
use std::process::Abort;
use zarr_parts::{ArrayBytes, ArraySubset, CodecError, DataType, DataTypeSize, FillValue, Number};

// The bytes and the size of the elements that these numbers are.
fn elements<T: Number>(
    alloc: Global,
    numbers: &[T],
) -> Result<(Vec<u8>, DataTypeSize), CodecError> {
    let array = ArrayBytes::from_numbers(alloc, numbers)?;
    let kind = array.kind();
    Ok((array.into_fixed()?.into_owned(alloc)?, kind))
}

// Numbers become elements, least significant byte first.
#[test]
fn numbers_become_elements(rt: HostRuntime) {
    let alloc = rt.alloc();
    let table: [(Result<(Vec<u8>, DataTypeSize), CodecError>, &[u8], usize); 5] = [
        (elements(alloc, &[1u8, 255]), &[1, 255], 1),
        (elements(alloc, &[258u16, 65535]), &[2, 1, 255, 255], 2),
        (elements(alloc, &[0x0102_0304u32]), &[4, 3, 2, 1], 4),
        (elements(alloc, &[u64::MAX]), &[255; 8], 8),
        (elements::<u16>(alloc, &[]), &[], 2),
    ];
    for (made, bytes, size) in table {
        let (made, kind) = made.expect(&rt, "refused");
        same(
            &rt,
            (made.as_slice(), kind),
            (bytes, DataTypeSize::Fixed(size)),
        );
    }
}

fn there_and_back<R: Abort>(rt: &R, alloc: Global, numbers: &[u32]) -> Vec<u32> {
    ArrayBytes::from_numbers(alloc, numbers)
        .expect(rt, "refused")
        .to_numbers(alloc)
        .expect(rt, "refused")
}

// Elements give the numbers back.
#[test]
fn elements_become_numbers(rt: HostRuntime) {
    let numbers = [0, 7, 258, 0x0102_0304, u32::MAX];
    same(
        &rt,
        there_and_back(&rt, rt.alloc(), &numbers).as_slice(),
        numbers.as_slice(),
    );
}

// Elements of one size as numbers of another.
fn as_words(alloc: Global) -> Result<Vec<u16>, CodecError> {
    ArrayBytes::from_numbers(alloc, &[1u32])?.to_numbers(alloc)
}

#[test]
fn numbers_of_another_size_are_refused(rt: HostRuntime) {
    assert!(rt; matches!(as_words(rt.alloc()), Err(CodecError::WrongElementKind)));
}

// A fill value of a number has the bytes of an element.
#[test]
fn fill_values_of_numbers(rt: HostRuntime) {
    let fill = FillValue::from_number(rt.alloc(), 0xff00u16).expect(&rt, "refused");
    same(&rt, fill.as_ne_bytes(), [0, 255].as_slice());
}

// Names of types, there and back.
#[test]
fn types_have_names(rt: HostRuntime) {
    let table = [
        ("bool", DataType::Bool),
        ("int8", DataType::Int8),
        ("int16", DataType::Int16),
        ("int32", DataType::Int32),
        ("int64", DataType::Int64),
        ("uint8", DataType::UInt8),
        ("uint16", DataType::UInt16),
        ("uint32", DataType::UInt32),
        ("uint64", DataType::UInt64),
        ("bytes", DataType::Bytes),
    ];
    for (name, data_type) in table {
        same(
            &rt,
            (DataType::from_name(name), data_type.name()),
            (Some(data_type), Some(name)),
        );
    }
}

#[test]
fn other_names_are_no_types(rt: HostRuntime) {
    for name in ["", "uint", "UInt8", "uint128", "r16", "float32", "uint8 "] {
        same(&rt, DataType::from_name(name), None);
    }
}

// Whether a subset of these ranges is the subset at (1, 0) of 2 by 1.
fn is_subset<R: Abort>(rt: &R, alloc: Global) -> bool {
    let subset = ArraySubset::from_ranges(alloc, &[1..3, 0..1]).expect(rt, "refused");
    subset.start() == [1, 0].as_slice() && subset.shape() == [2, 1].as_slice()
}

#[test]
fn subsets_from_ranges(rt: HostRuntime) {
    assert!(rt; is_subset(&rt, rt.alloc()));
    let backwards = ArraySubset::from_ranges(rt.alloc(), &[0..1, 3..1]);
    assert!(rt; matches!(backwards, Err(CodecError::OutOfBounds)));
}

// An array of elements between offsets, the bytes after them lent.
fn between<'a, R: Abort>(
    rt: &R,
    alloc: Global,
    offsets: &[usize],
    bytes: &'a [u8],
) -> ArrayBytes<'a> {
    let offsets = offsets.to_vec(alloc).expect(rt, "refused");
    ArrayBytes::new_vlen(CowSlice::Borrowed(bytes), offsets).expect(rt, "does not fit")
}

// Whether an array of elements between offsets gives the offsets back, and says rightly whether it is empty.
fn comes_apart<R: Abort>(rt: &R, alloc: Global, offsets: &[usize], bytes: &[u8]) -> bool {
    let array = between(rt, alloc, offsets, bytes);
    let empty = array.is_empty();
    let parts = array.into_variable().expect(rt, "refused");
    parts.offsets.as_slice() == offsets && empty == (offsets.len() == 1)
}

#[test]
fn elements_of_any_length_come_apart(rt: HostRuntime) {
    assert!(rt; comes_apart(&rt, rt.alloc(), &[0, 2, 2, 3], b"abc"));
    assert!(rt; comes_apart(&rt, rt.alloc(), &[0], b""));
}

// Neither kind comes apart as the other.
fn as_the_other<R: Abort>(rt: &R, alloc: Global) -> Result<[bool; 2], CodecError> {
    let variable = between(rt, alloc, &[0, 1], b"a").into_fixed();
    let fixed = ArrayBytes::from_numbers(alloc, &[1u8])?.into_variable();
    Ok([
        matches!(variable, Err(CodecError::WrongElementKind)),
        matches!(fixed, Err(CodecError::WrongElementKind)),
    ])
}

#[test]
fn the_other_kind_is_refused(rt: HostRuntime) {
    assert!(rt; as_the_other(&rt, rt.alloc()) == Ok([true, true]));
}
