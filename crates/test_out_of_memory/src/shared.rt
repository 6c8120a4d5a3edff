// Sessions behind a lock.
use crate::shard::{Answer, Shard};
use crate::worked::is_object;
use std::alloc::Global;
use std::sync::Wait;
use zarr_codecs::{ArrayToBytesCodecTraits, BytesCodec, MemoryHandle};
use zarr_parts::{ArrayBytes, ArraySubset, CodecError, CodecOptions, DataType, Indexer};
use zarrs_sharding::ShardingPartialEncoder;

type Shared<'a, I> = ShardingPartialEncoder<'a, I, BytesCodec, MemoryHandle>;

fn open_once<I: ArrayToBytesCodecTraits>(
    alloc: Global,
    shard: &Shard<I>,
    handle: MemoryHandle,
) -> Result<Shared<'_, I>, (MemoryHandle, CodecError)> {
    shard.codec.partial_encoder(
        alloc,
        handle,
        &shard.shape,
        &DataType::UInt8,
        &shard.fill,
        &CodecOptions::default(),
    )
}

// Opens the object of a refused opening, which is as it was.
fn open_again<I: ArrayToBytesCodecTraits>(
    alloc: Global,
    shard: &Shard<I>,
    handle: MemoryHandle,
) -> Result<Shared<'_, I>, CodecError> {
    let object = handle.into_inner();
    if !is_object(&object, shard.worked.object) {
        return Err(CodecError::Damaged);
    }
    match open_once(alloc, shard, MemoryHandle::new(object)) {
        Ok(session) => Ok(session),
        Err((_, error)) => Err(error),
    }
}

fn open<I: ArrayToBytesCodecTraits>(
    alloc: Global,
    shard: &Shard<I>,
) -> Result<Shared<'_, I>, CodecError> {
    let object = again!(shard.object.clone())?;
    match open_once(alloc, shard, MemoryHandle::new(Some(object))) {
        Ok(session) => Ok(session),
        Err((handle, CodecError::OutOfMemory)) => open_again(alloc, shard, handle),
        Err((_, error)) => Err(error),
    }
}

fn read_once<I: ArrayToBytesCodecTraits, N: Indexer, R: Wait>(
    rt: &R,
    alloc: Global,
    session: &Shared<'_, I>,
    requested: &N,
    wanted: &[u8],
) -> Answer {
    let elements = session.partial_decode(rt, alloc, requested, &CodecOptions::default())?;
    Ok(elements.fixed_bytes() == Some(wanted))
}

// A refused read leaves what is held.
fn reads<I: ArrayToBytesCodecTraits, N: Indexer, R: Wait>(
    rt: &R,
    alloc: Global,
    session: &Shared<'_, I>,
    requested: &N,
    wanted: &[u8],
) -> Answer {
    let held = session.size_held(rt);
    match read_once(rt, alloc, session, requested, wanted) {
        Err(CodecError::OutOfMemory) if session.size_held(rt) == held => {
            read_once(rt, alloc, session, requested, wanted)
        }
        answer => answer,
    }
}

fn reads_all<I: ArrayToBytesCodecTraits, R: Wait>(
    rt: &R,
    alloc: Global,
    shard: &Shard<I>,
    session: &Shared<'_, I>,
) -> Answer {
    let in_subset = reads(
        rt,
        alloc,
        session,
        &shard.requested.subset,
        shard.worked.subset_elements,
    )?;
    let at_listed = reads(
        rt,
        alloc,
        session,
        &shard.requested.listed,
        shard.worked.listed_elements,
    )?;
    Ok(in_subset && at_listed)
}

fn write_once<I: ArrayToBytesCodecTraits, R: Wait>(
    rt: &R,
    alloc: Global,
    session: &Shared<'_, I>,
    subset: &ArraySubset,
    elements: &ArrayBytes,
) -> Result<(), CodecError> {
    session.partial_encode(rt, alloc, subset, elements, &CodecOptions::default())
}

// Whether a session holds this number of bytes, and has the elements of the object.
fn is_left<I: ArrayToBytesCodecTraits, R: Wait>(
    rt: &R,
    alloc: Global,
    shard: &Shard<I>,
    session: &Shared<'_, I>,
    held: usize,
) -> Answer {
    let elements = read_once(
        rt,
        alloc,
        session,
        &shard.requested.whole,
        shard.worked.elements,
    )?;
    Ok(elements && session.size_held(rt) == held)
}

// A refused write leaves the session.
fn writes<I: ArrayToBytesCodecTraits, R: Wait>(
    rt: &R,
    alloc: Global,
    shard: &Shard<I>,
    session: &Shared<'_, I>,
    subset: &ArraySubset,
    elements: &ArrayBytes,
) -> Result<(), CodecError> {
    let held = session.size_held(rt);
    let answer = write_once(rt, alloc, session, subset, elements);
    if answer != Err(CodecError::OutOfMemory) {
        return answer;
    }
    if is_left(rt, alloc, shard, session, held)? {
        return write_once(rt, alloc, session, subset, elements);
    }
    Err(CodecError::Damaged)
}

fn writes_first<I: ArrayToBytesCodecTraits, R: Wait>(
    rt: &R,
    alloc: Global,
    shard: &Shard<I>,
    session: &Shared<'_, I>,
) -> Answer {
    let subset = again!(ArraySubset::from_ranges(alloc, shard.worked.first.subset))?;
    let elements = again!(ArrayBytes::from_numbers(alloc, shard.worked.first.elements))?;
    writes(rt, alloc, shard, session, &subset, &elements)?;
    session.exists(rt)
}

// Reads, writes, and the object that is left.
pub(crate) fn shared<I: ArrayToBytesCodecTraits, R: Wait>(
    rt: &R,
    alloc: Global,
    shard: &Shard<I>,
) -> Answer {
    let session = open(alloc, shard)?;
    let reads = reads_all(rt, alloc, shard, &session)?;
    let exists = writes_first(rt, alloc, shard, &session)?;
    let object = session.into_inner().into_inner();
    Ok(reads && exists && is_object(&object, shard.worked.first_written))
}

// An erasure and the end of a session take no memory.
fn ends<I: ArrayToBytesCodecTraits, R: Wait>(rt: &R, session: Shared<'_, I>) -> bool {
    let erased = session.erase(rt);
    let object = session.into_inner().into_inner();
    erased.is_ok() && object.is_none()
}

pub(crate) fn erase<I: ArrayToBytesCodecTraits, R: Wait>(
    rt: &R,
    alloc: Global,
    shard: &Shard<I>,
    is_whole: bool,
) -> Answer {
    let session = open(alloc, shard)?;
    Ok(!is_whole || ends(rt, session))
}
