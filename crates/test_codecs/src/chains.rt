// Codecs after the codec `bytes`: one that puts the byte 42 after bytes, and the checksum.
use crate::compared::{same, same_at};
use crate::examples::{said, told};
use crate::pairs::{decoded_pair, encoded_pair, second_of, two_cells, wanted};
use codec_checksums::{Crc32cCodec, crc32c};
use std::borrow::CowSlice;
use test_helpers::{MarkedCodec, PackedCodec};
use zarr_codecs::{
    BytesChain, BytesCodec, BytesRepresentation, BytesToBytesCodecTraits, FunctionalBytesCodec,
    FunctionalCodec, Interval,
};
use zarr_parts::CodecError;

fn marked() -> BytesChain<BytesCodec, MarkedCodec> {
    BytesChain::new(BytesCodec::little(), MarkedCodec)
}

const DAMAGED: Result<&[u8], CodecError> = Err(CodecError::Damaged);

// A chain encodes what its first codec wrote, and refuses what that refuses.
#[test]
fn a_chain_encodes_twice(rt: HostRuntime) {
    const ROWS: &[(&[u8], Result<&[u8], CodecError>)] = &[
        (&[1, 2], Ok(&[1, 2, 42])),
        (&[1], Err(CodecError::InvalidNumberOfElements)),
    ];
    for (elements, want) in ROWS {
        let text = encoded_pair(&rt, rt.alloc(), &marked(), elements);
        same(&rt, said(&text), *want);
    }
}

// A chain is damaged where either of its codecs finds its bytes so.
#[test]
fn a_chain_decodes_twice(rt: HostRuntime) {
    const ROWS: &[(&[u8], Result<&[u8], CodecError>)] = &[
        (&[1, 2, 42], Ok(&[1, 2])),
        (&[1, 2, 41], DAMAGED),
        (&[1, 42], DAMAGED),
        (&[42], DAMAGED),
        (&[], DAMAGED),
    ];
    for (bytes, want) in ROWS {
        let found = decoded_pair(&rt, rt.alloc(), &marked(), bytes);
        same_at(&rt, *bytes, found, wanted(&rt, *want));
    }
}

// The bytes of an interval are decoded whole, also for the second cell alone.
#[test]
fn a_chain_is_read_whole(rt: HostRuntime) {
    const ROWS: &[(u64, u64, Result<&[u8], CodecError>)] = &[
        (1, 3, Ok(&[2])),
        (1, 2, DAMAGED),
        (2, 2, DAMAGED),
        (3, 3, Err(CodecError::OutOfBounds)),
    ];
    for (offset, size, want) in ROWS {
        let (offset, size) = (*offset, *size);
        let interval = Interval { offset, size };
        let found = second_of(&rt, rt.alloc(), &marked(), &[7, 1, 2, 42, 7], interval);
        same_at(&rt, (offset, size), found, wanted(&rt, *want));
    }
}

// A chain has one encoding of an array where its first codec has, which is longer by what the second puts after it.
#[test]
fn a_chain_tells_its_size(rt: HostRuntime) {
    same(&rt, marked().is_functional(), true);
    let two = two_cells(&rt, rt.alloc());
    let found = told(rt.alloc(), &marked(), &two);
    same(&rt, found, Ok(BytesRepresentation::FixedSize(3)));
}

// Bytes that stand for more than memory holds are damaged behind a codec that tells how long its encodings are: they are not
// decoded.
#[test]
fn a_chain_decodes_no_more_than_is_told(rt: HostRuntime) {
    const ROWS: &[(&[u8], Result<&[u8], CodecError>)] = &[
        (&[0, 1, 2], Ok(&[1, 2])),
        (&[0, 1], DAMAGED),
        (&[0, 1, 2, 3], DAMAGED),
        (&[1, 255], DAMAGED),
    ];
    let packed = BytesChain::new(BytesCodec::little(), PackedCodec);
    for (bytes, want) in ROWS {
        let found = decoded_pair(&rt, rt.alloc(), &packed, bytes);
        same_at(&rt, *bytes, found, wanted(&rt, *want));
    }
    let found = PackedCodec.decode(rt.alloc(), &[1, 255]);
    same(&rt, said_of(&found), Err(CodecError::OutOfMemory));
}

// The check values of CRC-32C.
#[test]
fn checksums_are_those_of_crc32c(rt: HostRuntime) {
    const ROWS: &[(&[u8], u32)] = &[
        (b"123456789", 0xE306_9283),
        (&[0; 32], 0x8A91_36AA),
        (&[0xFF; 32], 0x62A8_AB43),
        (&[], 0),
    ];
    for (bytes, want) in ROWS {
        same_at(&rt, *bytes, crc32c(bytes), *want);
    }
}

// What an answer says, for a comparison.
fn said_of<'a>(answer: &'a Result<CowSlice<u8>, CodecError>) -> Result<&'a [u8], CodecError> {
    match answer {
        Ok(bytes) => Ok(bytes.as_slice()),
        Err(error) => Err(*error),
    }
}

// A text with its checksum.
const CHECKED: &[u8] = b"123456789\x83\x92\x06\xE3";

// A checksum stands after the bytes, the least significant byte first, and a wrong one is damaged.
#[test]
fn a_checksum_is_compared(rt: HostRuntime) {
    let stored = Crc32cCodec.encode(rt.alloc(), b"123456789");
    same(&rt, said(&stored), Ok(CHECKED));
    const ROWS: &[(&[u8], Result<&[u8], CodecError>)] = &[
        (CHECKED, Ok(b"123456789")),
        (b"123456788\x83\x92\x06\xE3", DAMAGED),
        (b"123456789\x83\x92\x06\xE2", DAMAGED),
        (b"123456789\x83\x92\x06", DAMAGED),
        (&[0, 0, 0, 0], Ok(&[])),
        (&[0, 0, 0], DAMAGED),
    ];
    for (bytes, want) in ROWS {
        let found = Crc32cCodec.decode(rt.alloc(), bytes);
        same_at(&rt, *bytes, said_of(&found), *want);
    }
}

// A text is decoded within its length, and not within less.
#[test]
fn a_checksum_is_compared_within_a_limit(rt: HostRuntime) {
    same(&rt, Crc32cCodec.is_functional(), true);
    const ROWS: &[(usize, Result<&[u8], CodecError>)] = &[
        (usize::MAX, Ok(b"123456789")),
        (9, Ok(b"123456789")),
        (8, DAMAGED),
    ];
    for (limit, want) in ROWS {
        let found = Crc32cCodec.decode_within(rt.alloc(), CHECKED, *limit);
        same_at(&rt, *limit, said_of(&found), *want);
    }
}
