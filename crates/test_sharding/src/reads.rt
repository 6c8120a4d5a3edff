// Reads of a shard that stands in an interval of an object, and decoding into a target.
use crate::compared::{same, same_at};
use crate::shards::{Plain, Sixteen, cells_of, elements_of, said, sixteen_cells, subset_of};
use std::alloc::Global;
use std::process::Abort;
use zarr_codecs::{ArrayToBytesCodecTraits, Interval, MemoryHandle};
use zarr_parts::{CodecError, CodecOptions, DataType, FixedTarget};

// A shard of 80 bytes behind three bytes of an object, and before one; or no object.
fn object_around_a_shard<R: Abort>(
    rt: &R,
    alloc: Global,
    shard: &[u8],
    is_there: bool,
) -> Option<Vec<u8>> {
    if !is_there {
        return None;
    }
    let mut object = [9u8, 9, 9].to_vec(alloc).expect(rt, "refused");
    object.extend_from_slice(shard).expect(rt, "refused");
    object.push(9).expect(rt, "refused");
    Some(object)
}

// Two cells of the first column, from a row on, of the shard in an interval.
fn read_column<R: Abort>(
    rt: &R,
    alloc: Global,
    codec: &Plain,
    handle: &mut MemoryHandle,
    interval: Interval,
    row: u64,
) -> Result<Vec<u8>, CodecError> {
    let cells = cells_of(rt, alloc, &[4, 4]);
    let requested = subset_of(rt, alloc, &[row..row.saturating_add(2), 0..1]);
    let (bytes, options) = (&DataType::UInt8, CodecOptions::default());
    let (shape, fill) = (&cells.shape, &cells.fill);
    let read = codec.partial_decode(
        alloc, handle, interval, shape, bytes, fill, &requested, &options,
    );
    elements_of(rt, alloc, read)
}

fn column_of<R: Abort>(
    rt: &R,
    alloc: Global,
    stored: &Sixteen,
    is_there: bool,
    interval: Interval,
    row: u64,
) -> Result<Vec<u8>, CodecError> {
    let object = object_around_a_shard(rt, alloc, &stored.shard, is_there);
    let mut handle = MemoryHandle::new(object);
    read_column(rt, alloc, &stored.codec, &mut handle, interval, row)
}

// The cells are tested before the shard, and only the bytes of the interval are read.
#[test]
fn a_shard_inside_an_object_is_read(rt: HostRuntime) {
    let stored = sixteen_cells(&rt, rt.alloc());
    for (is_there, offset, size, row, want) in [
        (true, 3, 80, 1, Ok([4u8, 8].as_slice())),
        (true, 5, 80, 1, Err(CodecError::OutOfBounds)),
        (true, 85, 0, 1, Err(CodecError::OutOfBounds)),
        (true, u64::MAX, 80, 1, Err(CodecError::OutOfBounds)),
        (true, 3, 63, 1, Err(CodecError::ShardTooShort)),
        (true, 3, 63, 3, Err(CodecError::OutOfBounds)),
        (false, 0, 80, 1, Err(CodecError::OutOfBounds)),
    ] {
        let cells = column_of(
            &rt,
            rt.alloc(),
            &stored,
            is_there,
            Interval { offset, size },
            row,
        );
        same_at(&rt, (size, offset, row), said(&cells), want);
    }
}

// Decodes a shard into a target of one byte for each cell.
fn decode_into<R: Abort>(
    rt: &R,
    alloc: Global,
    codec: &Plain,
    object: &[u8],
    target: &mut FixedTarget,
) -> Result<(), CodecError> {
    let cells = cells_of(rt, alloc, &[4, 4]);
    let options = CodecOptions::default();
    codec.decode_into(
        alloc,
        object,
        &cells.shape,
        &DataType::UInt8,
        &cells.fill,
        target,
        &options,
    )
}

// Decodes sixteen cells into bytes.
fn sixteen_into<R: Abort>(
    rt: &R,
    alloc: Global,
    stored: &Sixteen,
    bytes: &mut [u8],
) -> Result<(), CodecError> {
    let whole = subset_of(rt, alloc, &[0..4, 0..4]);
    match FixedTarget::new(bytes, 1, &[4, 4], &whole) {
        Some(mut target) => decode_into(rt, alloc, &stored.codec, &stored.shard, &mut target),
        None => Err(CodecError::OutOfBounds),
    }
}

// Whether the bytes of a target are these once sixteen cells are decoded into it.
fn is_decoded_into<R: Abort>(rt: &R, alloc: Global, want: &[u8]) -> bool {
    let stored = sixteen_cells(rt, alloc);
    let mut bytes = [77u8; 16];
    sixteen_into(rt, alloc, &stored, &mut bytes).expect(rt, "refused");
    bytes.as_slice() == want
}

// Each cell of the target is written.
#[test]
fn a_shard_is_decoded_into_a_target(rt: HostRuntime) {
    let wanted = [0u8, 1, 2, 3, 4, 5, 6, 7, 8, 9, 10, 11, 12, 13, 14, 15].as_slice();
    same(&rt, is_decoded_into(&rt, rt.alloc(), wanted), true);
}
