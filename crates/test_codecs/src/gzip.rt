// Gzip files that Python's zlib wrote, and some that were changed by hand.
use crate::compared::same;
use codec_compression::DecompressError;
use codec_deflate::inflate;
use codec_gzip::{GzipCodec, gunzip, gzip};
use std::alloc::Global;
use std::process::Abort;
use zarr_codecs::{BytesRepresentation, BytesToBytesCodecTraits};
use zarr_parts::CodecError;

// What stands in a table for a file that is refused.
const DAMAGED: &[u8] = b"damaged";

const TOO_LONG: &[u8] = b"too long";

// A file without compression, as zlib writes it at level 0.
const STORED: &[u8] =
    b"\x1f\x8b\x08\x00\x00\x00\x00\x00\x00\xff\x01\x02\x00\xfd\xffhi\xac*\x93\xd8\x02\x00\x00\x00";

// A file with fixed codes, as zlib writes it at level 5.
const COMPRESSED: &[u8] =
    b"\x1f\x8b\x08\x00\x00\x00\x00\x00\x00\xff\xcb\xc8\x04\x00\xac*\x93\xd8\x02\x00\x00\x00";

// The content as a slice, or why the file was refused.
fn content(found: &Result<Vec<u8>, DecompressError>) -> &[u8] {
    match found {
        Ok(content) => content.as_slice(),
        Err(DecompressError::TooLong) => TOO_LONG,
        Err(_) => DAMAGED,
    }
}

// A file gives its content, or is refused as damaged or too long.
#[test]
fn gzip_files_are_read(rt: HostRuntime) {
    const ROWS: &[(&[u8], usize, &[u8])] = &[
        // no content
        (
            b"\x1f\x8b\x08\x00\x00\x00\x00\x00\x00\xff\x03\x00\x00\x00\x00\x00\x00\x00\x00\x00",
            100,
            b"",
        ),
        // stored
        (
            b"\x1f\x8b\x08\x00\x00\x00\x00\x00\x00\xff\x01\x02\x00\xfd\xffhi\xac*\x93\xd8\x02\x00\x00\x00",
            100,
            b"hi",
        ),
        // fixed codes, a copy that overlaps itself
        (
            b"\x1f\x8b\x08\x00\x00\x00\x00\x00\x00\xffKLJN\x84!\x004*nZ\x0c\x00\x00\x00",
            100,
            b"abcabcabcabc",
        ),
        // dynamic codes
        (
            b"\x1f\x8b\x08\x00\x00\x00\x00\x00\x00\xff5\x8b\xc1\x0d\x000\x08\x02\xffly\xec?D\x05-Fs\x12\x80\xca\xa0\x9c\x90]\x0a8\xa6\xf2\x89\xd3x3t7\xb7E_G?\xfa\x00\xb5\x0b\x8c:Z\x00\x00\x00",
            100,
            b"aaaaaaabaa\x0aabaaaababbabaaababbb\x0aaba\x0abaaa\x0aaaaaaaaabb\x0ab\x0abab\x0abababaaab\x0aabaaabbaaabab\x0aa\x0aaaaaaa",
        ),
        // all flags, and a second member
        (
            b"\x1f\x8b\x08\x1f\x00\x00\x00\x00\x00\xff\x02\x00xxn\x00c\x00\x92\xbc\xcb\xcfK\x05\x00\xf1\x86lz\x03\x00\x00\x00\x1f\x8b\x08\x00\x00\x00\x00\x00\x00\xffS()\xcf\x07\x00V#\xfdo\x04\x00\x00\x00",
            100,
            b"one two",
        ),
        // exactly the limit
        (
            b"\x1f\x8b\x08\x00\x00\x00\x00\x00\x00\xffKLJN\x84!\x004*nZ\x0c\x00\x00\x00",
            12,
            b"abcabcabcabc",
        ),
        // one byte over the limit
        (
            b"\x1f\x8b\x08\x00\x00\x00\x00\x00\x00\xffKLJN\x84!\x004*nZ\x0c\x00\x00\x00",
            11,
            TOO_LONG,
        ),
        // the second member over the limit
        (
            b"\x1f\x8b\x08\x00\x00\x00\x00\x00\x00\xff\xcb\xcfK\x05\x00\xf1\x86lz\x03\x00\x00\x00\x1f\x8b\x08\x00\x00\x00\x00\x00\x00\xffS()\xcf\x07\x00V#\xfdo\x04\x00\x00\x00",
            6,
            TOO_LONG,
        ),
        // cut off
        (
            b"\x1f\x8b\x08\x00\x00\x00\x00\x00\x00\xff\x01\x02\x00\xfd\xffhi\xac*\x93\xd8\x02\x00\x00",
            100,
            DAMAGED,
        ),
        // a byte after the member
        (
            b"\x1f\x8b\x08\x00\x00\x00\x00\x00\x00\xff\x01\x02\x00\xfd\xffhi\xac*\x93\xd8\x02\x00\x00\x00\x00",
            100,
            DAMAGED,
        ),
        // another checksum
        (
            b"\x1f\x8b\x08\x00\x00\x00\x00\x00\x00\xff\x01\x02\x00\xfd\xffhi\xad*\x93\xd8\x02\x00\x00\x00",
            100,
            DAMAGED,
        ),
        // another length
        (
            b"\x1f\x8b\x08\x00\x00\x00\x00\x00\x00\xff\x01\x02\x00\xfd\xffhi\xac*\x93\xd8\x03\x00\x00\x00",
            100,
            DAMAGED,
        ),
        // a reserved flag
        (
            b"\x1f\x8b\x08 \x00\x00\x00\x00\x00\xff\x01\x02\x00\xfd\xffhi\xac*\x93\xd8\x02\x00\x00\x00",
            100,
            DAMAGED,
        ),
        // another CRC16
        (
            b"\x1f\x8b\x08\x02\x00\x00\x00\x00\x00\xff\x00\x00\xcb\xc8\x04\x00\xac*\x93\xd8\x02\x00\x00\x00",
            100,
            DAMAGED,
        ),
        // a copy from before the content
        (
            b"\x1f\x8b\x08\x00\x00\x00\x00\x00\x00\xffK\x04\x22\x00\x00\x00\x00\x00\x00\x00\x00\x00",
            100,
            DAMAGED,
        ),
        // no bytes
        (b"", 100, DAMAGED),
    ];
    for (file, limit, want) in ROWS {
        let found = gunzip(rt.alloc(), file, *limit);
        same(&rt, content(&found), *want);
    }
}

// A stream is read up to its end: the bytes after the header of a file, and its trailer of eight bytes is left.
#[test]
fn a_stream_ends_before_the_trailer(rt: HostRuntime) {
    let found = inflate(rt.alloc(), &STORED[10..], 2).expect(&rt, "refused");
    same(&rt, found.content.as_slice(), b"hi".as_slice());
    same(&rt, found.length, STORED.len() - 18);
}

#[test]
fn a_file_is_written_without_compression(rt: HostRuntime) {
    let found = gzip(rt.alloc(), b"hi", 0).expect(&rt, "refused");
    same(&rt, found.as_slice(), STORED);
}

// No bytes are one block, the last: without compression, or the end of a block by the fixed codes, as zlib writes them.
#[test]
fn a_file_of_no_bytes_is_written(rt: HostRuntime) {
    const ROWS: &[(u8, &[u8])] = &[
        (
            0,
            b"\x1f\x8b\x08\x00\x00\x00\x00\x00\x00\xff\x01\x00\x00\xff\xff\x00\x00\x00\x00\x00\x00\x00\x00",
        ),
        (
            1,
            b"\x1f\x8b\x08\x00\x00\x00\x00\x00\x04\xff\x03\x00\x00\x00\x00\x00\x00\x00\x00\x00",
        ),
        (
            6,
            b"\x1f\x8b\x08\x00\x00\x00\x00\x00\x00\xff\x03\x00\x00\x00\x00\x00\x00\x00\x00\x00",
        ),
        (
            9,
            b"\x1f\x8b\x08\x00\x00\x00\x00\x00\x02\xff\x03\x00\x00\x00\x00\x00\x00\x00\x00\x00",
        ),
    ];
    for (level, want) in ROWS {
        let found = gzip(rt.alloc(), b"", *level).expect(&rt, "refused");
        same(&rt, found.as_slice(), *want);
    }
}

// A copy of sixteen bytes, a copy from one byte back, and bytes that do not come again.
#[test]
fn a_file_is_compressed(rt: HostRuntime) {
    let content =
        b"sixteen letters, sixteen letters, aaaaaaaaaaaaaaaaaaaaaaaaaaaaaaaaaaaaaaaaaaaaaaaaaaa0123456789";
    let file = gzip(rt.alloc(), content, 6).expect(&rt, "refused");
    assert!(rt; file.len() < 70);
    let found = gunzip(rt.alloc(), &file, content.len()).expect(&rt, "refused");
    same(&rt, found.as_slice(), content.as_slice());
}

// What the codec decodes of a file within a limit.
fn decoded_within<R: Abort>(rt: &R, alloc: Global, limit: usize) -> Result<Vec<u8>, CodecError> {
    let found = GzipCodec { level: 5 }.decode_within(alloc, STORED, limit)?;
    Ok(found.into_owned(alloc).expect(rt, "refused"))
}

#[test]
fn the_codec_reads_and_writes_files(rt: HostRuntime) {
    let codec = GzipCodec { level: 5 };
    let encoded = codec.encode(rt.alloc(), b"hi").expect(&rt, "refused");
    same(&rt, encoded.as_slice(), COMPRESSED);
    let decoded = codec.decode(rt.alloc(), &encoded).expect(&rt, "refused");
    same(&rt, decoded.as_slice(), b"hi".as_slice());
    let within = decoded_within(&rt, rt.alloc(), 2).expect(&rt, "refused");
    same(&rt, within.as_slice(), b"hi".as_slice());
    same(
        &rt,
        decoded_within(&rt, rt.alloc(), 1),
        Err(CodecError::Damaged),
    );
    let told = codec.encoded_representation(BytesRepresentation::FixedSize(2));
    same(&rt, told, BytesRepresentation::BoundedSize(25));
}
