// Shards that are held open for reading and writing.
use crate::shard::{Answer, Shard};
use crate::worked::{Write, is_object};
use std::alloc::Global;
use zarr_codecs::{ArrayToBytesCodecTraits, BytesCodec, MemoryHandle};
use zarr_parts::{ArrayBytes, ArraySubset, CodecError, CodecOptions, DataType, Indexer};
use zarrs_sharding::ShardState;

type Session<'a, I> = ShardState<'a, I, BytesCodec, MemoryHandle>;

fn open_once<I: ArrayToBytesCodecTraits>(
    alloc: Global,
    shard: &Shard<I>,
    handle: MemoryHandle,
) -> Result<Session<'_, I>, (MemoryHandle, CodecError)> {
    shard.codec.open_state(
        alloc,
        handle,
        &shard.shape,
        &DataType::UInt8,
        &shard.fill,
        &CodecOptions::default(),
    )
}

// Opens the object of a refused opening, which is as it was.
fn open_again<I: ArrayToBytesCodecTraits>(
    alloc: Global,
    shard: &Shard<I>,
    handle: MemoryHandle,
) -> Result<Session<'_, I>, CodecError> {
    let object = handle.into_inner();
    if !is_object(&object, shard.worked.object) {
        return Err(CodecError::Damaged);
    }
    match open_once(alloc, shard, MemoryHandle::new(object)) {
        Ok(session) => Ok(session),
        Err((_, error)) => Err(error),
    }
}

fn open<I: ArrayToBytesCodecTraits>(
    alloc: Global,
    shard: &Shard<I>,
) -> Result<Session<'_, I>, CodecError> {
    let object = again!(shard.object.clone())?;
    match open_once(alloc, shard, MemoryHandle::new(Some(object))) {
        Ok(session) => Ok(session),
        Err((handle, CodecError::OutOfMemory)) => open_again(alloc, shard, handle),
        Err((_, error)) => Err(error),
    }
}

fn read_once<I: ArrayToBytesCodecTraits, N: Indexer>(
    alloc: Global,
    session: &mut Session<'_, I>,
    requested: &N,
    wanted: &[u8],
) -> Answer {
    let elements = session.partial_decode(alloc, requested, &CodecOptions::default())?;
    Ok(elements.fixed_bytes() == Some(wanted))
}

// A refused read leaves what is held.
fn reads<I: ArrayToBytesCodecTraits, N: Indexer>(
    alloc: Global,
    session: &mut Session<'_, I>,
    requested: &N,
    wanted: &[u8],
) -> Answer {
    let held = session.size_held();
    match read_once(alloc, session, requested, wanted) {
        Err(CodecError::OutOfMemory) if session.size_held() == held => {
            read_once(alloc, session, requested, wanted)
        }
        answer => answer,
    }
}

fn reads_all<I: ArrayToBytesCodecTraits>(
    alloc: Global,
    shard: &Shard<I>,
    session: &mut Session<'_, I>,
) -> Answer {
    let in_subset = reads(
        alloc,
        session,
        &shard.requested.subset,
        shard.worked.subset_elements,
    )?;
    let at_listed = reads(
        alloc,
        session,
        &shard.requested.listed,
        shard.worked.listed_elements,
    )?;
    Ok(in_subset && at_listed)
}

pub(crate) fn read<I: ArrayToBytesCodecTraits>(alloc: Global, shard: &Shard<I>) -> Answer {
    let mut session = open(alloc, shard)?;
    reads_all(alloc, shard, &mut session)
}

fn write_once<I: ArrayToBytesCodecTraits>(
    alloc: Global,
    session: &mut Session<'_, I>,
    subset: &ArraySubset,
    elements: &ArrayBytes,
) -> Result<(), CodecError> {
    session.partial_encode(alloc, subset, elements, &CodecOptions::default())
}

// What is written, in a session whose elements these were before.
struct Update<'a> {
    subset: ArraySubset,
    elements: ArrayBytes<'static>,
    whole: &'a ArraySubset,
    before: &'a [u8],
}

impl Drop for Update<'_> {
    fn drop(self) {
        let Update {
            subset: _,
            elements: _,
            whole: _,
            before: _,
        } = self;
    }
}

// A refused write leaves the number of bytes that are held, and the elements.
fn writes<I: ArrayToBytesCodecTraits>(
    alloc: Global,
    session: &mut Session<'_, I>,
    update: &Update<'_>,
) -> Result<(), CodecError> {
    let held = session.size_held();
    let answer = write_once(alloc, session, &update.subset, &update.elements);
    if answer != Err(CodecError::OutOfMemory) {
        return answer;
    }
    let is_left = session.size_held() == held;
    if is_left && read_once(alloc, session, update.whole, update.before)? {
        return write_once(alloc, session, &update.subset, &update.elements);
    }
    Err(CodecError::Damaged)
}

fn write_over<I: ArrayToBytesCodecTraits>(
    alloc: Global,
    shard: &Shard<I>,
    session: &mut Session<'_, I>,
    write: &Write,
    before: &[u8],
) -> Result<(), CodecError> {
    let update = Update {
        subset: again!(ArraySubset::from_ranges(alloc, write.subset))?,
        elements: again!(ArrayBytes::from_numbers(alloc, write.elements))?,
        whole: &shard.requested.whole,
        before,
    };
    writes(alloc, session, &update)
}

fn write_all<I: ArrayToBytesCodecTraits>(
    alloc: Global,
    shard: &Shard<I>,
    session: &mut Session<'_, I>,
) -> Result<(), CodecError> {
    write_over(
        alloc,
        shard,
        session,
        &shard.worked.first,
        shard.worked.elements,
    )?;
    let mut before = shard.worked.first.left;
    for write in shard.worked.later.iter() {
        write_over(alloc, shard, session, write, before)?;
        before = write.left;
    }
    Ok(())
}

// Each write in turn, and the object that is left.
pub(crate) fn write<I: ArrayToBytesCodecTraits>(alloc: Global, shard: &Shard<I>) -> Answer {
    let mut session = open(alloc, shard)?;
    let written = write_all(alloc, shard, &mut session);
    let object = session.close().into_inner();
    written?;
    Ok(is_object(&object, shard.worked.written))
}

// Takes no memory. No object is left.
fn ends<I: ArrayToBytesCodecTraits>(mut session: Session<'_, I>) -> bool {
    let erased = session.erase();
    let exists = session.exists();
    let object = session.close().into_inner();
    erased.is_ok() && exists == Ok(false) && object.is_none()
}

pub(crate) fn erase<I: ArrayToBytesCodecTraits>(
    alloc: Global,
    shard: &Shard<I>,
    is_whole: bool,
) -> Answer {
    let session = open(alloc, shard)?;
    Ok(!is_whole || ends(session))
}
