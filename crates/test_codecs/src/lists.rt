// Lists of codecs from bytes to bytes.
use crate::compared::same;
use array_codecs::{ByteCodec, ByteCodecs};
use codec_gzip::GzipCodec;
use std::alloc::Global;
use zarr_codecs::BytesToBytesCodecTraits;
use zarr_parts::CodecError;

// `gzip` without compression, and once more with it: what lies between is a little longer than the bytes.
fn twice() -> ByteCodecs {
    ByteCodecs {
        first: ByteCodec::Gzip(GzipCodec { level: 0 }),
        second: Some(ByteCodec::Gzip(GzipCodec { level: 6 })),
        third: None,
    }
}

// How many bytes are decoded within a limit.
fn length_within(alloc: Global, encoded: &[u8], limit: usize) -> Result<usize, CodecError> {
    let decoded = twice().decode_within(alloc, encoded, limit)?;
    Ok(decoded.len())
}

// Of 70,000 bytes 70,028 lie between, for which a limit of 3,000 bytes gives memory, and one of 1,000 bytes does not.
#[test]
fn what_lies_between_is_bounded_by_memory(rt: HostRuntime) {
    let mut bytes = Vec::new(rt.alloc());
    bytes.resize(70_000, 0).expect(&rt, "memory");
    let encoded = twice().encode(rt.alloc(), &bytes).expect(&rt, "refused");
    let decoded = twice().decode(rt.alloc(), &encoded).expect(&rt, "refused");
    same(&rt, decoded.len(), 70_000);
    let wants = [
        (70_000, Ok(70_000)),
        (3_000, Err(CodecError::Damaged)),
        (1_000, Err(CodecError::OutOfMemory)),
    ];
    for (limit, want) in wants {
        same(&rt, length_within(rt.alloc(), &encoded, limit), want);
    }
}
