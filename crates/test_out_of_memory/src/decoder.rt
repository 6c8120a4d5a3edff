// Shards that are held open for reading.
use crate::shard::{Answer, Shard};
use crate::whole::are_sevens;
use crate::worked::is_object;
use std::alloc::Global;
use zarr_codecs::{ArrayToBytesCodecTraits, BytesCodec, MemoryHandle, part_of};
use zarr_parts::{CodecError, CodecOptions, DataType, FixedTarget, Indexer};
use zarrs_sharding::ShardingPartialDecoder;

type Decoder<'a, I> = ShardingPartialDecoder<'a, I, BytesCodec, MemoryHandle>;

fn open_once<I: ArrayToBytesCodecTraits>(
    alloc: Global,
    shard: &Shard<I>,
    handle: MemoryHandle,
) -> Result<Decoder<'_, I>, (MemoryHandle, CodecError)> {
    shard.codec.partial_decoder(
        alloc,
        handle,
        &shard.shape,
        &DataType::UInt8,
        &shard.fill,
        &CodecOptions::default(),
    )
}

// Opens the object of a refused opening, which is as it was.
fn open_again<I: ArrayToBytesCodecTraits>(
    alloc: Global,
    shard: &Shard<I>,
    handle: MemoryHandle,
) -> Result<Decoder<'_, I>, CodecError> {
    let object = handle.into_inner();
    if !is_object(&object, shard.worked.object) {
        return Err(CodecError::Damaged);
    }
    match open_once(alloc, shard, MemoryHandle::new(object)) {
        Ok(decoder) => Ok(decoder),
        Err((_, error)) => Err(error),
    }
}

fn open<I: ArrayToBytesCodecTraits>(
    alloc: Global,
    shard: &Shard<I>,
) -> Result<Decoder<'_, I>, CodecError> {
    let object = again!(shard.object.clone())?;
    match open_once(alloc, shard, MemoryHandle::new(Some(object))) {
        Ok(decoder) => Ok(decoder),
        Err((handle, CodecError::OutOfMemory)) => open_again(alloc, shard, handle),
        Err((_, error)) => Err(error),
    }
}

fn read_once<I: ArrayToBytesCodecTraits, N: Indexer>(
    alloc: Global,
    decoder: &mut Decoder<'_, I>,
    requested: &N,
    wanted: &[u8],
) -> Answer {
    let elements = decoder.partial_decode(alloc, requested, &CodecOptions::default())?;
    Ok(elements.fixed_bytes() == Some(wanted))
}

// A refused read leaves what is held.
fn reads<I: ArrayToBytesCodecTraits, N: Indexer>(
    alloc: Global,
    decoder: &mut Decoder<'_, I>,
    requested: &N,
    wanted: &[u8],
) -> Answer {
    let held = decoder.size_held();
    match read_once(alloc, decoder, requested, wanted) {
        Err(CodecError::OutOfMemory) if decoder.size_held() == held => {
            read_once(alloc, decoder, requested, wanted)
        }
        answer => answer,
    }
}

fn read_into_once<I: ArrayToBytesCodecTraits>(
    alloc: Global,
    shard: &Shard<I>,
    decoder: &mut Decoder<'_, I>,
    bytes: &mut [u8],
) -> Result<(), CodecError> {
    let subset = &shard.requested.subset;
    let Some(mut target) = FixedTarget::new(bytes, 1, shard.worked.shape, subset) else {
        return Err(CodecError::OutOfBounds);
    };
    decoder.partial_decode_into(alloc, subset, &mut target, &CodecOptions::default())
}

// A refused read leaves the target, whose bytes are sevens, and what is held.
fn read_into_sevens<I: ArrayToBytesCodecTraits>(
    alloc: Global,
    shard: &Shard<I>,
    decoder: &mut Decoder<'_, I>,
    bytes: &mut [u8],
) -> Result<(), CodecError> {
    let held = decoder.size_held();
    match read_into_once(alloc, shard, decoder, bytes) {
        Err(CodecError::OutOfMemory) if are_sevens(bytes) && decoder.size_held() == held => {
            read_into_once(alloc, shard, decoder, bytes)
        }
        answer => answer,
    }
}

fn reads_into<I: ArrayToBytesCodecTraits>(
    alloc: Global,
    shard: &Shard<I>,
    decoder: &mut Decoder<'_, I>,
) -> Answer {
    let mut sevens = [7u8; 16];
    let Some(bytes) = sevens.get_mut(..shard.worked.target.len()) else {
        return Ok(false);
    };
    read_into_sevens(alloc, shard, decoder, bytes)?;
    Ok(&*bytes == shard.worked.target)
}

fn read_encoded_once<I: ArrayToBytesCodecTraits>(
    alloc: Global,
    shard: &Shard<I>,
    decoder: &mut Decoder<'_, I>,
) -> Answer {
    let wanted = part_of(&shard.object, shard.worked.stored)?;
    match decoder.retrieve_subchunk_encoded(alloc, shard.worked.subchunk)? {
        Some(bytes) => Ok(bytes.as_slice() == wanted),
        None => Ok(false),
    }
}

fn reads_encoded<I: ArrayToBytesCodecTraits>(
    alloc: Global,
    shard: &Shard<I>,
    decoder: &mut Decoder<'_, I>,
) -> Answer {
    let held = decoder.size_held();
    match read_encoded_once(alloc, shard, decoder) {
        Err(CodecError::OutOfMemory) if decoder.size_held() == held => {
            read_encoded_once(alloc, shard, decoder)
        }
        answer => answer,
    }
}

// Elements in a subset, at coordinates, and into a target; and an encoded subchunk.
fn reads_all<I: ArrayToBytesCodecTraits>(
    alloc: Global,
    shard: &Shard<I>,
    decoder: &mut Decoder<'_, I>,
) -> Answer {
    let in_subset = reads(
        alloc,
        decoder,
        &shard.requested.subset,
        shard.worked.subset_elements,
    )?;
    let at_listed = reads(
        alloc,
        decoder,
        &shard.requested.listed,
        shard.worked.listed_elements,
    )?;
    let into_target = reads_into(alloc, shard, decoder)?;
    let encoded = reads_encoded(alloc, shard, decoder)?;
    Ok(in_subset && at_listed && into_target && encoded)
}

// Takes no memory. The object comes back as it was.
fn ends<I: ArrayToBytesCodecTraits>(shard: &Shard<I>, decoder: Decoder<'_, I>) -> bool {
    let stored = decoder.subchunk_byte_range(shard.worked.subchunk);
    let object = decoder.close().into_inner();
    stored == Ok(Some(shard.worked.stored)) && is_object(&object, shard.worked.object)
}

pub(crate) fn decoder<I: ArrayToBytesCodecTraits>(
    alloc: Global,
    shard: &Shard<I>,
    is_whole: bool,
) -> Answer {
    let mut decoder = open(alloc, shard)?;
    let reads = reads_all(alloc, shard, &mut decoder)?;
    Ok(reads && (!is_whole || ends(shard, decoder)))
}
