// Zstd files that the command zstd 1.5.4 wrote, and some that were changed by hand.
use crate::compared::same;
use codec_checksums::xxh64;
use codec_compression::DecompressError;
use codec_zstd::{ZstdCodec, unzstd, zstd_stored};
use std::alloc::Global;
use std::process::Abort;
use zarr_codecs::{BytesRepresentation, BytesToBytesCodecTraits};
use zarr_parts::CodecError;

// What stands in a table for a file that is refused.
const DAMAGED: &[u8] = b"damaged";

const TOO_LONG: &[u8] = b"too long";

// A file of one raw block by RFC 8878, 3.1.1: a content size of eight bytes, a window of 128 KiB, the header of a last raw block.
const STORED: &[u8] = b"(\xb5/\xfd\xc08\x02\x00\x00\x00\x00\x00\x00\x00\x11\x00\x00hi";

// A file of one segment and one raw block, as the command writes it.
const WRITTEN: &[u8] = b"(\xb5/\xfd \x02\x11\x00\x00hi";

// A file of one block of one byte, and the checksum of its content, which the program xxhsum gives.
const RUN: &[u8] = b"(\xb5/\xfd\xc48\x05\x00\x00\x00\x00\x00\x00\x00+\x00\x00ahAE\x13";

// The content as a slice, or why the file was refused.
fn content(found: &Result<Vec<u8>, DecompressError>) -> &[u8] {
    match found {
        Ok(content) => content.as_slice(),
        Err(DecompressError::TooLong) => TOO_LONG,
        Err(_) => DAMAGED,
    }
}

// A file gives its content, or is refused as damaged or too long.
#[test]
fn zstd_files_are_read(rt: HostRuntime) {
    const ROWS: &[(&[u8], usize, &[u8])] = &[
        // raw
        (b"(\xb5/\xfd \x02\x11\x00\x00hi", 100, b"hi"),
        // no content
        (b"(\xb5/\xfd \x00\x01\x00\x00", 100, b""),
        // no content, streamed with a checksum
        (b"(\xb5/\xfd$\x00\x01\x00\x00\x99\xe9\xd8Q", 100, b""),
        // a block of one byte
        (
            b"(\xb5/\xfd (E\x00\x00\x10aa\x01\x00\x1f\x80\x05",
            100,
            b"aaaaaaaaaaaaaaaaaaaaaaaaaaaaaaaaaaaaaaaa",
        ),
        // sequences by the predefined tables, a checksum
        (
            b"(\xb5/\xfd$6\xdd\x00\x00\xa8abcthe abc of the abc\x01\x00\x8en\x08&\x08I\xed",
            100,
            b"abcabcabcabcabcabcabcabcabcabcabcabcthe abc of the abc",
        ),
        // literals by a Huffman code
        (
            b"(\xb5/\xfd Z\x05\x01\x00\xf2\x04\x06\x06\xe0\xe9\x0d\x80V\x17S\xa7\x9f\xb4\xe6\xa4\x1f\xbf\x1a\x18\x9f\xdb}\xa2%\xc1,\x01\x00l\x00(",
            100,
            b"baca\x0acccbab\x0aacaaaabaababaacaaaa\x0aaa\x0a\x0aaabbbaaaaa\x0aaaaaaabccaacaaaaaaaaaaaabbabccaaaaabcaabbca",
        ),
        // two frames, and a skippable frame between them
        (
            b"(\xb5/\xfd$\x03\x19\x00\x00one\xf6\xa1\x08$P*M\x18\x03\x00\x00\x00xyz(\xb5/\xfd\x00X!\x00\x00 two",
            100,
            b"one two",
        ),
        // exactly the limit
        (
            b"(\xb5/\xfd$\x03\x19\x00\x00one\xf6\xa1\x08$P*M\x18\x03\x00\x00\x00xyz(\xb5/\xfd\x00X!\x00\x00 two",
            7,
            b"one two",
        ),
        // one byte over the limit
        (
            b"(\xb5/\xfd$\x03\x19\x00\x00one\xf6\xa1\x08$P*M\x18\x03\x00\x00\x00xyz(\xb5/\xfd\x00X!\x00\x00 two",
            6,
            TOO_LONG,
        ),
        // a block of one byte over the limit
        (
            b"(\xb5/\xfd (E\x00\x00\x10aa\x01\x00\x1f\x80\x05",
            39,
            TOO_LONG,
        ),
        // 128 KiB over the limit
        (
            b"(\xb5/\xfd\xa0\x00\x00\x02\x00M\x00\x00\x08\x00\x01\x00\xfc\xff9\x10\x02",
            1000,
            TOO_LONG,
        ),
        // cut off
        (b"(\xb5/\xfd \x02\x11\x00\x00h", 100, DAMAGED),
        // a byte after the frame
        (b"(\xb5/\xfd \x02\x11\x00\x00hi\x00", 100, DAMAGED),
        // another checksum
        (b"(\xb5/\xfd$\x03\x19\x00\x00one\xf6\xa1\x08%", 100, DAMAGED),
        // another content size
        (b"(\xb5/\xfd \x03\x11\x00\x00hi", 100, DAMAGED),
        // a reserved bit
        (b"(\xb5/\xfd(\x02\x11\x00\x00hi", 100, DAMAGED),
        // a reserved block
        (b"(\xb5/\xfd \x02\x17\x00\x00hi", 100, DAMAGED),
        // a dictionary
        (b"(\xb5/\xfd!\x07\x02\x11\x00\x00hi", 100, DAMAGED),
        // no frame
        (b"", 100, DAMAGED),
        // another magic number
        (b")\xb5/\xfd \x02\x11\x00\x00hi", 100, DAMAGED),
    ];
    for (file, limit, want) in ROWS {
        let found = unzstd(rt.alloc(), file, *limit);
        same(&rt, content(&found), *want);
    }
}

#[test]
fn a_file_is_written_without_compression(rt: HostRuntime) {
    let found = zstd_stored(rt.alloc(), b"hi", false).expect(&rt, "refused");
    same(&rt, found.as_slice(), STORED);
    let run = zstd_stored(rt.alloc(), b"aaaaa", true).expect(&rt, "refused");
    same(&rt, run.as_slice(), RUN);
}

// The checksums of the program xxhsum 0.8, with the seed 0.
#[test]
fn checksums_are_those_of_others(rt: HostRuntime) {
    const ROWS: &[(&[u8], u64)] = &[
        (b"", 0xEF46DB3751D8E999),
        (b"a", 0xD24EC4F1A98C6E5B),
        (b"abc", 0x44BC2CF5AD770999),
        (b"abcdefgh", 0x3AD351775B4634B7),
        (b"0123456789ab", 0x862E292326B8A4FC),
        (b"0123456789abcdefghijklmnopqrstuvwxyz", 0x69196C1B3AF0BFF9),
        (
            b"0123456789abcdef0123456789abcdef0123456789abcdef0123456789abcdefxyz",
            0x98AD8FF4BA176C8F,
        ),
    ];
    for (bytes, want) in ROWS {
        same(&rt, xxh64(bytes), *want);
    }
}

// What the codec decodes of a file within a limit.
fn decoded_within<R: Abort>(rt: &R, alloc: Global, limit: usize) -> Result<Vec<u8>, CodecError> {
    let codec = ZstdCodec {
        level: 3,
        checksum: false,
    };
    let found = codec.decode_within(alloc, STORED, limit)?;
    Ok(found.into_owned(alloc).expect(rt, "refused"))
}

#[test]
fn the_codec_reads_and_writes_files(rt: HostRuntime) {
    let codec = ZstdCodec {
        level: 3,
        checksum: false,
    };
    let encoded = codec.encode(rt.alloc(), b"hi").expect(&rt, "refused");
    same(&rt, encoded.as_slice(), WRITTEN);
    let decoded = codec.decode(rt.alloc(), &encoded).expect(&rt, "refused");
    same(&rt, decoded.as_slice(), b"hi".as_slice());
    let within = decoded_within(&rt, rt.alloc(), 2).expect(&rt, "refused");
    same(&rt, within.as_slice(), b"hi".as_slice());
    same(
        &rt,
        decoded_within(&rt, rt.alloc(), 1),
        Err(CodecError::Damaged),
    );
    let told = codec.encoded_representation(BytesRepresentation::FixedSize(2));
    same(&rt, told, BytesRepresentation::BoundedSize(23));
}
