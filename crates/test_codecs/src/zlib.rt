// zlib streams that Python's zlib wrote, and some that were changed by hand.
use crate::compared::same;
use codec_compression::DecompressError;
use codec_gzip::{ZlibCodec, adler32, unzlib, zlib};
use std::alloc::Global;
use std::process::Abort;
use zarr_codecs::{BytesRepresentation, BytesToBytesCodecTraits};
use zarr_parts::CodecError;

// What stands in a table for a stream that is refused.
const DAMAGED: &[u8] = b"damaged";

const TOO_LONG: &[u8] = b"too long";

// A stream with fixed codes, as zlib writes it at level 6.
const STREAM: &[u8] = b"x\x9c\xcb\xc8\x04\x00\x01;\x00\xd2";

const TEXT: &[u8] = b"to be, or not to be, that is the question";

const ZEROS: &[u8] = &[0; 40];

const RANDOM: &[u8] = b"\x9f<~\x01\xd2\xb8JfU\xe0\xc9\x1d";

// The content as a slice, or why the stream was refused.
fn content(found: &Result<Vec<u8>, DecompressError>) -> &[u8] {
    match found {
        Ok(content) => content.as_slice(),
        Err(DecompressError::TooLong) => TOO_LONG,
        Err(_) => DAMAGED,
    }
}

// A stream gives its content, or is refused as damaged or too long.
#[test]
fn zlib_streams_are_read(rt: HostRuntime) {
    const ROWS: &[(&[u8], usize, &[u8])] = &[
        // empty, at level 0
        (b"x\x01\x01\x00\x00\xff\xff\x00\x00\x00\x01", 100, b""),
        // empty, at level 9
        (b"x\xda\x03\x00\x00\x00\x00\x01", 100, b""),
        // text, at level 0
        (
            b"x\x01\x01)\x00\xd6\xffto be, or not to be, that is the question\x1ev\x0eE",
            100,
            TEXT,
        ),
        // at level 1
        (
            b"x\x01+\xc9WHJ\xd5Q\xc8/R\xc8\xcb/Q(\x81\xf0J2\x12K\x142\x8b\x15J2R\x15\x0aKS\x8bK2\xf3\xf3\x00\x1ev\x0eE",
            100,
            TEXT,
        ),
        // at level 2
        (
            b"x^+\xc9WHJ\xd5Q\xc8/R\xc8\xcb/Q(\x81\xf0J2\x12K\x142\x8b\x15J2R\x15\x0aKS\x8bK2\xf3\xf3\x00\x1ev\x0eE",
            100,
            TEXT,
        ),
        // at levels 3 to 5
        (
            b"x^+\xc9WHJ\xd5Q\xc8/R\xc8\xcb/Q(\x81\xf0J2\x12K\x142\x8b\x81t\xaaBaijqIf~\x1e\x00\x1ev\x0eE",
            100,
            TEXT,
        ),
        // at level 6
        (
            b"x\x9c+\xc9WHJ\xd5Q\xc8/R\xc8\xcb/Q(\x81\xf0J2\x12K\x142\x8b\x81t\xaaBaijqIf~\x1e\x00\x1ev\x0eE",
            100,
            TEXT,
        ),
        // at levels 7 to 9
        (
            b"x\xda+\xc9WHJ\xd5Q\xc8/R\xc8\xcb/Q(\x81\xf0J2\x12K\x142\x8b\x81t\xaaBaijqIf~\x1e\x00\x1ev\x0eE",
            100,
            TEXT,
        ),
        // zeros, at level 6
        (b"x\x9cc` \x0e\x00\x00\x00(\x00\x01", 100, ZEROS),
        // random bytes, at level 0
        (
            b"x\x01\x01\x0c\x00\xf3\xff\x9f<~\x01\xd2\xb8JfU\xe0\xc9\x1d#\xfe\x05\xb0",
            100,
            RANDOM,
        ),
        // at level 9
        (
            b"x\xda\x9boS\xc7xi\x87WZ\xe8\x83\x93\xb2\x00#\xfe\x05\xb0",
            100,
            RANDOM,
        ),
        // a window of 512 bytes
        (b"\x18\x95\xcb\xc8\x04\x00\x01;\x00\xd2", 100, b"hi"),
        // exactly the limit
        (STREAM, 2, b"hi"),
        // one byte over the limit
        (STREAM, 1, TOO_LONG),
        // a byte after the stream
        (b"x\x9c\xcb\xc8\x04\x00\x01;\x00\xd2\x00", 100, DAMAGED),
        // a preset dictionary
        (
            b"x\xbb\x04\x18\x01\xa3\xcb\xc8\x04\x00\x01;\x00\xd2",
            100,
            DAMAGED,
        ),
        // CINFO 8
        (b"\x88\x1c\xcb\xc8\x04\x00\x01;\x00\xd2", 100, DAMAGED),
        // CM 9
        (b"y\x18\xcb\xc8\x04\x00\x01;\x00\xd2", 100, DAMAGED),
        // no bytes
        (b"", 100, DAMAGED),
    ];
    for (stream, limit, want) in ROWS {
        let found = unzlib(rt.alloc(), stream, *limit);
        same(&rt, content(&found), *want);
    }
}

// A stream with one bit flipped is damaged, but for the six bits that fill the last byte of the compressed data.
#[test]
fn each_bit_is_tested(rt: HostRuntime) {
    for place in 0..80 {
        let mut stream = STREAM.to_vec(rt.alloc()).expect(&rt, "refused");
        stream[place / 8] ^= 1 << (place % 8);
        let found = unzlib(rt.alloc(), &stream, 100);
        let fills = (42..48).contains(&place);
        let want: &[u8] = if fills { b"hi" } else { DAMAGED };
        same(&rt, content(&found), want);
    }
}

#[test]
fn a_stream_that_is_cut_off_is_damaged(rt: HostRuntime) {
    for length in 0..STREAM.len() {
        let found = unzlib(rt.alloc(), &STREAM[..length], 100);
        same(&rt, content(&found), DAMAGED);
    }
}

// No block, one, and more than four.
#[test]
fn checksums_are_those_of_python(rt: HostRuntime) {
    same(&rt, adler32(b""), 1);
    same(&rt, adler32(b"Wikipedia"), 0x11E6_0398);
    same(&rt, adler32(&[255; 2048]), 0xE26B_F86A);
    same(&rt, adler32(&[255; 10000]), 0xB623_EB2B);
}

#[test]
fn a_stream_is_written_as_zlib_writes_it(rt: HostRuntime) {
    let stored = zlib(rt.alloc(), b"hi", 0).expect(&rt, "refused");
    same(
        &rt,
        stored.as_slice(),
        b"x\x01\x01\x02\x00\xfd\xffhi\x01;\x00\xd2".as_slice(),
    );
    let compressed = zlib(rt.alloc(), b"hi", 6).expect(&rt, "refused");
    same(&rt, compressed.as_slice(), STREAM);
}

// What the codec decodes of a stream within a limit.
fn decoded_within<R: Abort>(rt: &R, alloc: Global, limit: usize) -> Result<Vec<u8>, CodecError> {
    let found = ZlibCodec { level: 6 }.decode_within(alloc, STREAM, limit)?;
    Ok(found.into_owned(alloc).expect(rt, "refused"))
}

#[test]
fn the_codec_reads_and_writes_streams(rt: HostRuntime) {
    let codec = ZlibCodec { level: 6 };
    let encoded = codec.encode(rt.alloc(), b"hi").expect(&rt, "refused");
    same(&rt, encoded.as_slice(), STREAM);
    let decoded = codec.decode(rt.alloc(), &encoded).expect(&rt, "refused");
    same(&rt, decoded.as_slice(), b"hi".as_slice());
    let within = decoded_within(&rt, rt.alloc(), 2).expect(&rt, "refused");
    same(&rt, within.as_slice(), b"hi".as_slice());
    same(
        &rt,
        decoded_within(&rt, rt.alloc(), 1),
        Err(CodecError::Damaged),
    );
    let told = codec.encoded_representation(BytesRepresentation::FixedSize(2));
    same(&rt, told, BytesRepresentation::BoundedSize(13));
}
