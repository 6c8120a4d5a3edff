// The codec for elements that have lengths of their own.
use crate::compared::{same, same_at};
use crate::examples::{
    ArraySpec, decoded, encoded, fixed, plain_size, read_range_of, said, spec_of, told, variable,
};
use std::alloc::Global;
use std::process::Abort;
use zarr_codecs::{BytesRepresentation, FunctionalCodec, Interval, VlenCodec};
use zarr_parts::{ArrayBytes, CodecError, DataType};

// The text of the elements "a" and "".
const TEXT: [u8; 13] = [2, 0, 0, 0, 1, 0, 0, 0, 97, 0, 0, 0, 0];

// Arrays of two elements.
fn pair_of<R: Abort>(rt: &R, alloc: Global, data_type: DataType) -> ArraySpec {
    spec_of(rt, alloc, &[2], data_type, &[])
}

// The count stands before the elements, and each after its length.
#[test]
fn elements_stand_after_their_lengths(rt: HostRuntime) {
    let alloc = rt.alloc();
    let pair = pair_of(&rt, alloc, DataType::Bytes);
    const ROWS: &[(&[u8], [usize; 3], &[u8])] = &[
        (b"a", [0, 1, 1], &TEXT),
        (
            b"bc",
            [0, 0, 2],
            &[2, 0, 0, 0, 0, 0, 0, 0, 2, 0, 0, 0, 98, 99],
        ),
    ];
    for (bytes, offsets, text) in ROWS {
        let array = variable(&rt, alloc, bytes, offsets);
        let found = encoded(alloc, &VlenCodec, &pair, &array);
        same_at(&rt, *bytes, said(&found), Ok(*text));
    }
}

// How the encoding of an array as two elements is refused, if so.
fn refused<R: Abort>(
    rt: &R,
    alloc: Global,
    array: &ArrayBytes,
    data_type: DataType,
) -> Option<CodecError> {
    let pair = pair_of(rt, alloc, data_type);
    encoded(alloc, &VlenCodec, &pair, array).err()
}

// Another type, elements of one size, another number of elements.
#[test]
fn what_has_no_text_is_refused(rt: HostRuntime) {
    let alloc = rt.alloc();
    let one = variable(&rt, alloc, b"a", &[0, 1]);
    let found = refused(&rt, alloc, &one, DataType::UInt8);
    same(&rt, found, Some(CodecError::UnsupportedDataType));
    let bytes = fixed(&rt, &[1, 2], 1);
    let found = refused(&rt, alloc, &bytes, DataType::Bytes);
    same(&rt, found, Some(CodecError::WrongElementKind));
    let found = refused(&rt, alloc, &one, DataType::Bytes);
    same(&rt, found, Some(CodecError::InvalidNumberOfElements));
}

fn elements<'a, R: Abort>(
    rt: &R,
    alloc: Global,
    text: &'a [u8],
) -> Result<ArrayBytes<'a>, CodecError> {
    let pair = pair_of(rt, alloc, DataType::Bytes);
    decoded(alloc, &VlenCodec, &pair, text)
}

#[test]
fn a_text_gives_its_elements(rt: HostRuntime) {
    let want = variable(&rt, rt.alloc(), b"a", &[0, 1, 1]);
    same(&rt, elements(&rt, rt.alloc(), &TEXT), Ok(want));
}

// The text with one bit of a byte turned over.
fn with_bit(place: usize, bit: u8) -> [u8; 13] {
    let mut text = TEXT;
    if let Some(byte) = text.get_mut(place) {
        *byte ^= bit;
    }
    text
}

// Each bit of the count and of both lengths is needed, and no text that claims more than it has is believed.
#[test]
fn a_changed_number_is_damaged(rt: HostRuntime) {
    for place in [0, 1, 2, 3, 4, 5, 6, 7, 9, 10, 11, 12] {
        for bit in [1, 2, 4, 8, 16, 32, 64, 128] {
            let text = with_bit(place, bit);
            let found = elements(&rt, rt.alloc(), &text).err();
            same_at(&rt, (place, bit), found, Some(CodecError::Damaged));
        }
    }
}

// Each byte is needed.
#[test]
fn a_shorter_text_is_damaged(rt: HostRuntime) {
    for len in 0..13 {
        let front = TEXT.get(..len).expect(&rt, "a shorter text");
        let found = elements(&rt, rt.alloc(), front).err();
        same_at(&rt, len, found, Some(CodecError::Damaged));
    }
}

// Texts that claim more than they have, and one with a byte after it.
#[test]
fn a_text_of_other_elements_is_damaged(rt: HostRuntime) {
    const TEXTS: &[&[u8]] = &[
        &[255, 255, 255, 255],
        &[2, 0, 0, 0, 255, 255, 255, 255],
        &[2, 0, 0, 0, 1, 0, 0, 0, 97, 0, 0, 0, 0, 0],
        &[2, 0, 0, 0, 0, 0, 0, 0],
        &[1, 0, 0, 0, 1, 0, 0, 0, 97],
        &[3, 0, 0, 0, 0, 0, 0, 0, 0, 0, 0, 0, 0, 0, 0, 0],
    ];
    for text in TEXTS {
        let found = elements(&rt, rt.alloc(), text).err();
        same_at(&rt, *text, found, Some(CodecError::Damaged));
    }
}

// The text with a byte before it and one after it.
const LONGER: [u8; 15] = [7, 2, 0, 0, 0, 1, 0, 0, 0, 97, 0, 0, 0, 0, 7];

// The first element, read of an interval of that longer object.
fn first_of<R: Abort>(
    rt: &R,
    alloc: Global,
    interval: Interval,
) -> Result<ArrayBytes<'static>, CodecError> {
    let pair = pair_of(rt, alloc, DataType::Bytes);
    read_range_of(rt, alloc, &VlenCodec, &pair, &LONGER, interval, 0..1)
}

// The whole text of the interval is walked, also after the requested element, which is "a".
#[test]
fn a_text_is_read_whole(rt: HostRuntime) {
    let alloc = rt.alloc();
    let found = first_of(
        &rt,
        alloc,
        Interval {
            offset: 1,
            size: 13,
        },
    );
    same(&rt, found, Ok(variable(&rt, alloc, b"a", &[0, 1])));
    for (offset, size, want) in [
        (1, 12, CodecError::Damaged),
        (1, 14, CodecError::Damaged),
        (2, 14, CodecError::OutOfBounds),
    ] {
        let found = first_of(&rt, alloc, Interval { offset, size });
        same_at(&rt, (offset, size), found.err(), Some(want));
    }
}

#[test]
fn a_text_may_have_any_length(rt: HostRuntime) {
    same(&rt, VlenCodec.is_functional(), true);
    let pair = pair_of(&rt, rt.alloc(), DataType::Bytes);
    same(&rt, plain_size(&VlenCodec, &pair), None);
    let found = told(rt.alloc(), &VlenCodec, &pair);
    same(&rt, found, Ok(BytesRepresentation::UnboundedSize));
}
