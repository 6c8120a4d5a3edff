// Arrays made, read and changed, on small arrays worked by hand.
use crate::compared::{same, same_at};
use crate::examples::Elements::{Fixed, Variable};
use crate::examples::{Elements, array_of, fill, has, subset};
use parts_arrays::push_part;
use std::alloc::Global;
use std::borrow::CowSlice;
use std::ops::Range;
use std::process::Abort;
use zarr_parts::{
    ArrayBuilder, ArrayBytes, DataType, DataTypeSize, VariableParts, update_array_bytes,
};

const SQUARE: [u8; 16] = [0, 1, 2, 3, 4, 5, 6, 7, 8, 9, 10, 11, 12, 13, 14, 15];

// Elements of any length, added one after the other.
fn built<R: Abort>(rt: &R, alloc: Global) -> ArrayBytes<'static> {
    let mut builder = ArrayBuilder::new(alloc, DataTypeSize::Variable).expect(rt, "refused");
    builder.push(b"ab").expect(rt, "refused");
    builder.push(b"").expect(rt, "refused");
    builder.push(b"c").expect(rt, "refused");
    builder.finish()
}

// Whether they are the elements between these offsets.
fn is_built<R: Abort>(rt: &R, alloc: Global) -> bool {
    has(
        rt,
        alloc,
        &built(rt, alloc),
        Variable(&[0, 2, 2, 3], b"abc"),
    )
}

// An array has the elements that were pushed.
#[test]
fn elements_are_pushed_and_read(rt: HostRuntime) {
    assert!(rt; is_built(&rt, rt.alloc()));
}

const TEXT: &[u8; 42] = b"0123456789abcdefghijklmnopqrstuvwxyzABCDEF";

// Whether the first bytes of a text, so many, are pushed behind another element, where there is so much room.
fn is_first_pushed<R: Abort>(rt: &R, alloc: Global, len: usize, room: usize) -> bool {
    let Some(first) = TEXT.get(..len) else {
        return false;
    };
    let mut builder = ArrayBuilder::new(alloc, DataTypeSize::Variable).expect(rt, "refused");
    builder.reserve(2, room).expect(rt, "refused");
    builder.push(b"ab").expect(rt, "refused");
    builder.push_first(TEXT, len).expect(rt, "refused");
    let array = builder.finish();
    array.len() == 2 && array.element(0) == b"ab".as_slice() && array.element(1) == first
}

// An element is pushed as the first bytes of a text, whether they are few or many, with or without room.
#[test]
fn first_bytes_are_pushed(rt: HostRuntime) {
    for len in [0, 1, 15, 16, 17, 32, 33, 42] {
        for room in [0, 18, 60] {
            same_at(
                &rt,
                (len, room),
                is_first_pushed(&rt, rt.alloc(), len, room),
                true,
            );
        }
    }
}

// Parts that are put one after another, with the offsets between them, become an array's elements.
fn is_put_together<R: Abort>(rt: &R, alloc: Global) -> bool {
    let mut bytes = Vec::new(alloc);
    let mut offsets = Vec::with_capacity(alloc, 3).expect(rt, "refused");
    offsets.push_reserved(0);
    push_part(&mut bytes, &mut offsets, b"abx", 2).expect(rt, "refused");
    push_part(&mut bytes, &mut offsets, b"c", 1).expect(rt, "refused");
    let bytes = CowSlice::Owned(bytes);
    let array = ArrayBytes::from_variable(VariableParts { bytes, offsets });
    has(rt, alloc, &array, Variable(&[0, 2, 3], b"abc"))
}

#[test]
fn parts_are_put_together(rt: HostRuntime) {
    assert!(rt; is_put_together(&rt, rt.alloc()));
}

// What an array tells: its kind, how many elements it has, the first, and its bytes where the elements have one size.
type Told<'a> = (DataTypeSize, usize, Option<&'a [u8]>, Option<&'a [u8]>);

fn told<'a>(array: &'a ArrayBytes) -> Told<'a> {
    let first = if array.len() > 0 {
        Some(array.element(0))
    } else {
        None
    };
    (array.kind(), array.len(), first, array.fixed_bytes())
}

// Elements of any length are read one by one.
#[test]
fn elements_between_offsets_are_read(rt: HostRuntime) {
    let array = array_of(&rt, rt.alloc(), Variable(&[0, 2, 2, 3], b"abc"));
    let want = (DataTypeSize::Variable, 3, Some(b"ab".as_slice()), None);
    same(&rt, told(&array), want);
}

fn byte_len<R: Abort>(rt: &R, alloc: Global, elements: Elements) -> u64 {
    array_of(rt, alloc, elements).byte_len() as u64
}

// The bytes of all elements are counted.
#[test]
fn bytes_are_counted(rt: HostRuntime) {
    for (elements, len) in [
        (Fixed(2, &[1, 0, 2, 0]), 4),
        (Variable(&[0, 2, 2, 3], b"abc"), 3),
        (Variable(&[0, 0], b""), 0),
    ] {
        same(&rt, byte_len(&rt, rt.alloc(), elements), len);
    }
}

// Whether a fill value, repeated, makes these elements.
fn is_repeated<R: Abort>(
    rt: &R,
    alloc: Global,
    data_type: &DataType,
    count: u64,
    value: &[u8],
    want: Elements,
) -> bool {
    let value = fill(rt, alloc, value);
    let array = ArrayBytes::new_fill_value(alloc, data_type, count, &value).expect(rt, "refused");
    has(rt, alloc, &array, want)
}

// An array of a fill value has it in each element.
#[test]
fn fill_values_are_repeated(rt: HostRuntime) {
    let rows: [(DataType, u64, &[u8], Elements); 3] = [
        (DataType::UInt16, 2, &[1, 0], Fixed(2, &[1, 0, 1, 0])),
        (
            DataType::Bytes,
            3,
            b"ab",
            Variable(&[0, 2, 4, 6], b"ababab"),
        ),
        (DataType::Bytes, 2, b"", Variable(&[0, 0, 0], b"")),
    ];
    for (data_type, count, value, want) in rows {
        let found = is_repeated(&rt, rt.alloc(), &data_type, count, value, want);
        assert!(rt; found, "{count} of {data_type:?}");
    }
}

// Whether an array tells that all its elements are the fill value.
fn is_fill<R: Abort>(rt: &R, alloc: Global, elements: Elements, value: &[u8]) -> bool {
    let value = fill(rt, alloc, value);
    array_of(rt, alloc, elements).is_fill_value(&value)
}

// An array is told from one of the fill value by any element.
#[test]
fn fill_values_are_told(rt: HostRuntime) {
    let rows: [(Elements, &[u8], bool); 5] = [
        (Fixed(2, &[1, 0, 1, 0]), &[1, 0], true),
        (Fixed(2, &[1, 0, 0, 1]), &[1, 0], false),
        (Fixed(2, &[0, 0, 1, 0]), &[1, 0], false),
        (Variable(&[0, 2, 4], b"abab"), b"ab", true),
        (Variable(&[0, 2, 4], b"abab"), b"a", false),
    ];
    for (elements, value, told) in rows {
        same(&rt, is_fill(&rt, rt.alloc(), elements, value), told);
    }
}

// An array, its shape, its type and a subset in it.
type Place<'a> = (Elements<'a>, &'a [u64], DataType, &'a [Range<u64>]);

fn extracted<R: Abort>(rt: &R, alloc: Global, place: Place) -> ArrayBytes<'static> {
    let (elements, shape, data_type, ranges) = place;
    let cells = subset(alloc, ranges).expect(rt, "refused");
    array_of(rt, alloc, elements)
        .extract_array_subset(alloc, &cells, shape, &data_type)
        .expect(rt, "refused")
}

// Whether a subset of an array has these elements.
fn is_extracted<R: Abort>(rt: &R, alloc: Global, place: Place, want: Elements) -> bool {
    has(rt, alloc, &extracted(rt, alloc, place), want)
}

// The elements of a subset are taken in row-major order.
#[test]
fn elements_of_a_subset_are_extracted(rt: HostRuntime) {
    let square: Place = (Fixed(1, &SQUARE), &[4, 4], DataType::UInt8, &[1..3, 0..1]);
    assert!(rt; is_extracted(&rt, rt.alloc(), square, Fixed(1, &[4, 8])));
    let words = Variable(&[0, 1, 1, 3, 4], b"abcd");
    let texts: Place = (words, &[2, 2], DataType::Bytes, &[0..2, 1..2]);
    assert!(rt; is_extracted(&rt, rt.alloc(), texts, Variable(&[0, 0, 1], b"d")));
}

fn updated<R: Abort>(
    rt: &R,
    alloc: Global,
    place: Place,
    update: &ArrayBytes,
) -> ArrayBytes<'static> {
    let (elements, shape, data_type, ranges) = place;
    let cells = subset(alloc, ranges).expect(rt, "refused");
    let array = array_of(rt, alloc, elements);
    update_array_bytes(alloc, &array, shape, &cells, update, &data_type).expect(rt, "refused")
}

// Whether an array has these elements once those of a subset are replaced.
fn is_updated<R: Abort>(
    rt: &R,
    alloc: Global,
    place: Place,
    update: Elements,
    want: Elements,
) -> bool {
    let update = array_of(rt, alloc, update);
    has(rt, alloc, &updated(rt, alloc, place, &update), want)
}

// Only the elements of the subset are replaced.
#[test]
fn elements_of_a_subset_are_updated(rt: HostRuntime) {
    let square: Place = (Fixed(1, &SQUARE), &[4, 4], DataType::UInt8, &[1..3, 0..1]);
    let wanted = [0, 1, 2, 3, 50, 5, 6, 7, 60, 9, 10, 11, 12, 13, 14, 15].as_slice();
    let found = is_updated(
        &rt,
        rt.alloc(),
        square,
        Fixed(1, &[50, 60]),
        Fixed(1, wanted),
    );
    assert!(rt; found);
}

// An element may be replaced by one of another length.
#[test]
fn elements_of_any_length_are_updated(rt: HostRuntime) {
    let words = Variable(&[0, 1, 1, 3, 4], b"abcd");
    let texts: Place = (words, &[2, 2], DataType::Bytes, &[0..2, 1..2]);
    let update = Variable(&[0, 2, 3], b"xyz");
    let want = Variable(&[0, 1, 3, 5, 6], b"axybcz");
    assert!(rt; is_updated(&rt, rt.alloc(), texts, update, want));
}

// Whether the numbers 2, 0 and 2 take 12, 10 and 12 of three elements.
fn is_numbered<R: Abort>(rt: &R, alloc: Global) -> bool {
    let array = array_of(rt, alloc, Fixed(1, &[10, 11, 12]));
    if array.len() != 3 {
        return false;
    }
    let part = array
        .extract_numbers(alloc, &[2, 0, 2])
        .expect(rt, "refused");
    has(rt, alloc, &part, Fixed(1, &[12, 10, 12]))
}

// Elements are taken by their numbers in the order of these.
#[test]
fn elements_with_given_numbers_are_extracted(rt: HostRuntime) {
    assert!(rt; is_numbered(&rt, rt.alloc()));
}

// Whether a copy of an array is equal to it.
fn is_copied<R: Abort>(rt: &R, alloc: Global, elements: Elements) -> bool {
    let array = array_of(rt, alloc, elements);
    array.try_clone(alloc).expect(rt, "refused") == array
}

// Whether an array is the same once it owns its bytes.
fn is_owned<R: Abort>(rt: &R, alloc: Global, elements: Elements) -> bool {
    let owned = array_of(rt, alloc, elements)
        .into_owned(alloc)
        .expect(rt, "refused");
    has(rt, alloc, &owned, elements)
}

// A copy has the same elements, and so has what is owned.
#[test]
fn copies_are_equal(rt: HostRuntime) {
    for elements in [Fixed(2, &[1, 2]), Variable(&[0, 1, 2], &[1, 2])] {
        same(&rt, is_copied(&rt, rt.alloc(), elements), true);
        same(&rt, is_owned(&rt, rt.alloc(), elements), true);
    }
}
