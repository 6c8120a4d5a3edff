// The laws of codecs, called.
use crate::compared::same;
use crate::examples::{ArraySpec, checked, coordinates, fixed, spec_of};
use std::alloc::Global;
use std::process::Abort;
use zarr_codecs::{ArrayToBytesCodecTraits, BytesCodec, decode_after_encode, read_after_decode};
use zarr_parts::{ArrayBytes, CodecError, CodecOptions, Coordinates, DataType};

// Decodes the encoding of an array, big endian, to it.
fn is_decoded_again<R: Abort>(rt: &R, alloc: Global, spec: &ArraySpec, array: &ArrayBytes) {
    let ArraySpec {
        axes,
        data_type,
        none,
    } = spec;
    let codec = BytesCodec::big();
    let options = CodecOptions::default();
    let encoded = codec.encode(alloc, array, axes, data_type, none, &options);
    let encoded = encoded.expect(rt, "an encoding");
    let again = decode_after_encode(
        &codec, alloc, array, &encoded, axes, data_type, none, &options,
    );
    same(rt, again.expect(rt, "an array") == *array, true);
}

#[test]
fn an_encoding_is_decoded_again(rt: HostRuntime) {
    let alloc = rt.alloc();
    let column = spec_of(&rt, alloc, &[2, 1], DataType::UInt16, &[0, 0]);
    let served = checked(alloc, &BytesCodec::big(), &column);
    served.expect(&rt, "numbers in big endian");
    is_decoded_again(&rt, alloc, &column, &fixed(&rt, &[1, 2, 3, 4], 2));
}

// The cells at coordinates, of bytes that were decoded before.
fn read_after<R: Abort, C: ArrayToBytesCodecTraits>(
    rt: &R,
    alloc: Global,
    codec: &C,
    spec: &ArraySpec,
    bytes: &[u8],
    cells: &Coordinates,
) -> Result<ArrayBytes<'static>, CodecError> {
    let ArraySpec {
        axes,
        data_type,
        none,
    } = spec;
    let options = CodecOptions::default();
    let array = codec.decode(alloc, bytes, axes, data_type, none, &options);
    let array = array.expect(rt, "an array");
    read_after_decode(codec, alloc, bytes, &array, axes, data_type, none, cells)
}

// The cells 2, 0 and 2 of three bytes, which were decoded before.
#[test]
fn cells_that_are_read_are_those_of_the_array(rt: HostRuntime) {
    let alloc = rt.alloc();
    let three = spec_of(&rt, alloc, &[3], DataType::UInt8, &[0]);
    let twice = coordinates(&rt, alloc, 1, 3, &[2, 0, 2]);
    let little = BytesCodec::little();
    let found = read_after(&rt, alloc, &little, &three, &[7, 8, 9], &twice);
    let cells = found.expect(&rt, "cells");
    same(&rt, cells.fixed_bytes(), Some([9, 7, 9].as_slice()));
}
