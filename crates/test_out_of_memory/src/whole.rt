// Whole shards: encoded, decoded, compacted and resharded.
use crate::shard::{Answer, Shard};
use crate::worked::{are, is_object};
use std::alloc::Global;
use zarr_codecs::ArrayToBytesCodecTraits;
use zarr_parts::{ArrayBytes, CodecError, CodecOptions, DataType, FixedTarget};
use zarrs_sharding::reshard;

fn encode_once<I: ArrayToBytesCodecTraits>(
    alloc: Global,
    shard: &Shard<I>,
    elements: &ArrayBytes,
) -> Result<Vec<u8>, CodecError> {
    shard.codec.encode(
        alloc,
        elements,
        &shard.shape,
        &DataType::UInt8,
        &shard.fill,
        &CodecOptions::default(),
    )
}

pub(crate) fn encode<I: ArrayToBytesCodecTraits>(alloc: Global, shard: &Shard<I>) -> Answer {
    let elements = again!(ArrayBytes::from_numbers(alloc, shard.worked.elements))?;
    let object = again!(encode_once(alloc, shard, &elements))?;
    Ok(are(&object, shard.worked.object))
}

fn decode_once<I: ArrayToBytesCodecTraits>(alloc: Global, shard: &Shard<I>) -> Answer {
    let elements = shard.codec.decode(
        alloc,
        &shard.object,
        &shard.shape,
        &DataType::UInt8,
        &shard.fill,
        &CodecOptions::default(),
    )?;
    Ok(elements.fixed_bytes() == Some(shard.worked.elements))
}

pub(crate) fn decode<I: ArrayToBytesCodecTraits>(alloc: Global, shard: &Shard<I>) -> Answer {
    again!(decode_once(alloc, shard))
}

fn decode_into_once<I: ArrayToBytesCodecTraits>(
    alloc: Global,
    shard: &Shard<I>,
    bytes: &mut [u8],
) -> Result<(), CodecError> {
    let Some(mut target) = FixedTarget::new(bytes, 1, shard.worked.shape, &shard.requested.whole)
    else {
        return Err(CodecError::OutOfBounds);
    };
    shard.codec.decode_into(
        alloc,
        &shard.object,
        &shard.shape,
        &DataType::UInt8,
        &shard.fill,
        &mut target,
        &CodecOptions::default(),
    )
}

// A refused call leaves the target, whose bytes are sevens.
fn decode_into_sevens<I: ArrayToBytesCodecTraits>(
    alloc: Global,
    shard: &Shard<I>,
    bytes: &mut [u8],
) -> Result<(), CodecError> {
    match decode_into_once(alloc, shard, bytes) {
        Err(CodecError::OutOfMemory) if are_sevens(bytes) => decode_into_once(alloc, shard, bytes),
        answer => answer,
    }
}

pub(crate) fn are_sevens(bytes: &[u8]) -> bool {
    bytes.iter().all(|byte| *byte == 7)
}

pub(crate) fn decode_into<I: ArrayToBytesCodecTraits>(alloc: Global, shard: &Shard<I>) -> Answer {
    let mut sevens = [7u8; 16];
    let Some(bytes) = sevens.get_mut(..shard.worked.elements.len()) else {
        return Ok(false);
    };
    decode_into_sevens(alloc, shard, bytes)?;
    Ok(&*bytes == shard.worked.elements)
}

fn compact_once<I: ArrayToBytesCodecTraits>(
    alloc: Global,
    shard: &Shard<I>,
    object: &[u8],
) -> Result<Option<Vec<u8>>, CodecError> {
    shard.codec.compact(
        alloc,
        object,
        &shard.shape,
        &DataType::UInt8,
        &shard.fill,
        &CodecOptions::default(),
    )
}

pub(crate) fn compact<I: ArrayToBytesCodecTraits>(alloc: Global, shard: &Shard<I>) -> Answer {
    let compact = again!(compact_once(alloc, shard, &shard.written))?;
    Ok(is_object(&compact, shard.worked.compact))
}

// There is nothing to gain in a new object.
pub(crate) fn compact_new<I: ArrayToBytesCodecTraits>(alloc: Global, shard: &Shard<I>) -> Answer {
    let compact = again!(compact_once(alloc, shard, &shard.object))?;
    Ok(compact.is_none())
}

fn reshard_once<I: ArrayToBytesCodecTraits>(
    alloc: Global,
    shard: &Shard<I>,
) -> Result<Vec<u8>, CodecError> {
    reshard(
        alloc,
        &shard.codec,
        &shard.other,
        &shard.object,
        &shard.shape,
        &DataType::UInt8,
        &shard.fill,
    )
}

pub(crate) fn resharded<I: ArrayToBytesCodecTraits>(alloc: Global, shard: &Shard<I>) -> Answer {
    let object = again!(reshard_once(alloc, shard))?;
    Ok(are(&object, shard.worked.resharded))
}
