// The codec `bytes` on small arrays worked by hand.
use crate::compared::{same, same_at};
use crate::examples::{
    ArraySpec, checked, decoded, encoded, fixed, plain_size, said, spec_of, told, variable,
};
use std::alloc::Global;
use std::process::Abort;
use zarr_codecs::{BytesCodec, BytesRepresentation, Endianness, FunctionalCodec};
use zarr_parts::{ArrayBytes, CodecError, DataType};

// The numbers of 16 bits of these axes.
fn numbers<R: Abort>(rt: &R, alloc: Global, axes: &[u64]) -> ArraySpec {
    spec_of(rt, alloc, axes, DataType::UInt16, &[0, 0])
}

// As many elements of this size, whose fill value is zero, as an array has.
fn elements_like<R: Abort>(
    rt: &R,
    alloc: Global,
    data_type: DataType,
    size: usize,
    array: &ArrayBytes,
) -> ArraySpec {
    let zero = Vec::from_elem(alloc, 0, size).expect(rt, "memory");
    spec_of(rt, alloc, &[array.len() as u64], data_type, &zero)
}

// Stores elements of this size as these bytes, and decodes them to the elements again.
fn are_stored_as<R: Abort>(
    rt: &R,
    alloc: Global,
    codec: BytesCodec,
    data_type: DataType,
    size: usize,
    memory: &[u8],
    want: &[u8],
) {
    let array = fixed(rt, memory, size);
    let spec = elements_like(rt, alloc, data_type, size, &array);
    let stored = encoded(alloc, &codec, &spec, &array);
    same_at(rt, (data_type, codec), said(&stored), Ok(want));
    let again = decoded(alloc, &codec, &spec, want);
    same_at(rt, (data_type, codec), again, Ok(array));
}

const LITTLE: Option<Endianness> = Some(Endianness::Little);

const BIG: Option<Endianness> = Some(Endianness::Big);

const SIX: &[u8] = &[1, 2, 3, 4, 5, 6];

// Whole numbers are stored in the codec's byte order, which is little endian by default, and elements without one as they are.
#[test]
fn whole_numbers_are_stored_in_their_order(rt: HostRuntime) {
    const ROWS: &[(Option<Endianness>, DataType, usize, &[u8], &[u8])] = &[
        (BIG, DataType::UInt16, 2, &[2, 1], &[1, 2]),
        (LITTLE, DataType::UInt16, 2, &[2, 1], &[2, 1]),
        (BIG, DataType::Int16, 2, SIX, &[2, 1, 4, 3, 6, 5]),
        (BIG, DataType::UInt8, 1, SIX, SIX),
        (BIG, DataType::Bool, 1, &[1, 0], &[1, 0]),
        (BIG, DataType::Raw(3), 3, SIX, SIX),
        (None, DataType::Raw(3), 3, SIX, SIX),
        (None, DataType::UInt8, 1, SIX, SIX),
    ];
    for (order, data_type, size, memory, want) in ROWS {
        let codec = BytesCodec::new(*order);
        are_stored_as(&rt, rt.alloc(), codec, *data_type, *size, memory, want);
    }
    let (codec, bytes) = (BytesCodec::default(), [2, 1]);
    are_stored_as(&rt, rt.alloc(), codec, DataType::UInt16, 2, &bytes, &bytes);
}

// An array of 2 to the power of 64 elements.
const WIDE: &[u64] = &[1 << 63, 2];

const UNSUPPORTED: Result<(), CodecError> = Err(CodecError::UnsupportedDataType);

const BAD_FILL: Result<(), CodecError> = Err(CodecError::BadFillValue);

const LARGE: Result<(), CodecError> = Err(CodecError::TooLarge);

// The type is tested before the fill value, and this before the shape.
#[test]
fn types_fill_values_and_shapes_are_tested_in_order(rt: HostRuntime) {
    const ROWS: &[(
        Option<Endianness>,
        DataType,
        &[u8],
        &[u64],
        Result<(), CodecError>,
    )] = &[
        (None, DataType::UInt16, &[0], WIDE, UNSUPPORTED),
        (LITTLE, DataType::Optional, &[0], WIDE, UNSUPPORTED),
        (LITTLE, DataType::Raw(0), &[0], WIDE, UNSUPPORTED),
        (LITTLE, DataType::Bytes, &[0], WIDE, UNSUPPORTED),
        (LITTLE, DataType::UInt16, &[0], WIDE, BAD_FILL),
        (LITTLE, DataType::UInt8, &[0], WIDE, LARGE),
        (LITTLE, DataType::UInt16, &[0, 0], &[1 << 63], LARGE),
        (LITTLE, DataType::UInt8, &[0], &[u64::MAX], Ok(())),
        (None, DataType::Bool, &[0], &[2], Ok(())),
    ];
    for (order, data_type, value, axes, want) in ROWS {
        let codec = BytesCodec::new(*order);
        let spec = spec_of(&rt, rt.alloc(), axes, *data_type, value);
        let answer = checked(rt.alloc(), &codec, &spec);
        same_at(&rt, (*data_type, codec), answer, *want);
    }
}

// How an array is refused as two big-endian numbers of 16 bits, if so.
fn refused<R: Abort>(rt: &R, alloc: Global, array: &ArrayBytes) -> Option<CodecError> {
    let two = numbers(rt, alloc, &[2]);
    encoded(alloc, &BytesCodec::big(), &two, array).err()
}

// The size of an element is tested before the number of elements.
#[test]
fn arrays_are_tested_in_order(rt: HostRuntime) {
    const ROWS: &[(usize, &[u8], Option<CodecError>)] = &[
        (1, &[0; 3], Some(CodecError::WrongElementKind)),
        (2, &[0; 6], Some(CodecError::InvalidNumberOfElements)),
        (2, &[0; 4], None),
    ];
    for (size, bytes, want) in ROWS {
        let answer = refused(&rt, rt.alloc(), &fixed(&rt, bytes, *size));
        same_at(&rt, (bytes.len(), *size), answer, *want);
    }
}

// Elements of any length are no numbers, also where each has the size of one.
#[test]
fn arrays_of_no_fixed_size_are_refused(rt: HostRuntime) {
    let array = variable(&rt, rt.alloc(), &[0; 4], &[0, 2, 4]);
    let answer = refused(&rt, rt.alloc(), &array);
    same(&rt, answer, Some(CodecError::WrongElementKind));
}

// Bytes are decoded where they are as many as the elements have.
#[test]
fn bytes_of_another_length_are_refused(rt: HostRuntime) {
    let two = numbers(&rt, rt.alloc(), &[2]);
    const ROWS: &[(&[u8], Option<CodecError>)] = &[
        (&[], Some(CodecError::Damaged)),
        (&[0; 3], Some(CodecError::Damaged)),
        (&[0; 6], Some(CodecError::Damaged)),
        (&[0; 4], None),
    ];
    for (bytes, want) in ROWS {
        let answer = decoded(rt.alloc(), &BytesCodec::big(), &two, bytes);
        same_at(&rt, bytes.len(), answer.err(), *want);
    }
}

// Each encoding has the length of the elements.
#[test]
fn encodings_have_one_length(rt: HostRuntime) {
    let sixteen = numbers(&rt, rt.alloc(), &[4, 4]);
    let found = told(rt.alloc(), &BytesCodec::big(), &sixteen);
    same(&rt, found, Ok(BytesRepresentation::FixedSize(32)));
}

// Elements are plain where they have no byte order, or that of memory; arrays that are not served never are.
#[test]
fn elements_in_the_order_of_memory_are_plain(rt: HostRuntime) {
    const ROWS: &[(Option<Endianness>, DataType, &[u8], Option<u64>)] = &[
        (LITTLE, DataType::UInt16, &[0, 0], Some(4)),
        (BIG, DataType::UInt16, &[0, 0], None),
        (BIG, DataType::UInt8, &[0], Some(2)),
        (BIG, DataType::Raw(3), &[0, 0, 0], Some(6)),
        (None, DataType::UInt8, &[7], Some(2)),
        (None, DataType::UInt16, &[0, 0], None),
        (LITTLE, DataType::UInt16, &[0], None),
    ];
    for (order, data_type, none, size) in ROWS {
        let codec = BytesCodec::new(*order);
        let pair = spec_of(&rt, rt.alloc(), &[2], *data_type, none);
        same_at(&rt, (*data_type, codec), plain_size(&codec, &pair), *size);
    }
}

// Equal elements have one encoding, in each byte order.
#[test]
fn the_elements_have_one_encoding(rt: HostRuntime) {
    for order in [LITTLE, BIG, None] {
        same_at(&rt, order, BytesCodec::new(order).is_functional(), true);
    }
}
