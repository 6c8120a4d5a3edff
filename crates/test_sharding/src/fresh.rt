// Subsets of shards whose subchunks are shards, read by a decoder, and into a target that nobody looks at where it is refused.
use crate::compared::{same, same_at};
use crate::shards::{Cells, Plain, around, cells_of, encoded, plain, read_back, said, subset_of};
use std::alloc::Global;
use std::ops::Range;
use std::process::Abort;
use zarr_codecs::{
    ArrayToBytesCodecTraits, BytesCodec, BytesPartialDecoderTraits, FaultingHandle, Interval,
    SliceHandle, StoredArray,
};
use zarr_parts::{ArraySubset, CodecError, CodecOptions, DataType, FixedTarget};
use zarrs_sharding::{ShardingCodec, ShardingIndexLocation};

// Four by four cells in two shards of two subchunks each. The last of these four is all fill.
const CELLS: [u8; 16] = [1, 2, 3, 4, 5, 6, 7, 8, 9, 10, 0, 0, 13, 14, 0, 0];

fn rows_of_shards<R: Abort>(rt: &R, alloc: Global) -> ShardingCodec<Plain, BytesCodec> {
    let inner = plain(rt, alloc, &[2, 2], ShardingIndexLocation::End);
    around(rt, alloc, &[2, 4], inner, ShardingIndexLocation::End)
}

fn object_of<R: Abort>(rt: &R, alloc: Global) -> Vec<u8> {
    encoded(rt, alloc, &rows_of_shards(rt, alloc), &[4, 4], &CELLS)
}

// The cells of a subset.
fn subset_read_back<R: Abort>(
    rt: &R,
    alloc: Global,
    rows: Range<u64>,
    columns: Range<u64>,
) -> Result<Vec<u8>, CodecError> {
    let codec = rows_of_shards(rt, alloc);
    read_back(rt, alloc, &codec, &[4, 4], &CELLS, &[rows, columns])
}

#[test]
fn subsets_of_nested_shards_are_read(rt: HostRuntime) {
    for (rows, columns, want) in [
        (1..3, 1..3, [6u8, 7, 10, 0].as_slice()),
        (0..4, 0..4, &CELLS),
        (2..4, 2..4, &[0, 0, 0, 0]),
        (3..4, 0..4, &[13, 14, 0, 0]),
        (0..2, 3..4, &[4, 8]),
        (2..2, 0..4, &[]),
    ] {
        let cells = subset_read_back(&rt, rt.alloc(), rows, columns);
        same_at(&rt, want, said(&cells), Ok(want));
    }
}

// What reads of the cells in the middle take.
struct Middle {
    codec: ShardingCodec<Plain, BytesCodec>,
    cells: Cells,
    requested: ArraySubset,
}

impl Drop for Middle {
    fn drop(self) {
        let Middle {
            codec: _,
            cells: _,
            requested: _,
        } = self;
    }
}

fn requested_middle<R: Abort>(rt: &R, alloc: Global) -> Middle {
    Middle {
        codec: rows_of_shards(rt, alloc),
        cells: cells_of(rt, alloc, &[4, 4]),
        requested: subset_of(rt, alloc, &[1..3, 1..3]),
    }
}

// Reads them from a handle's object, which has so many bytes.
fn read_middle<H: BytesPartialDecoderTraits>(
    alloc: Global,
    handle: &mut H,
    size: usize,
    middle: &Middle,
    target: &mut FixedTarget,
) -> Result<(), CodecError> {
    let stored = StoredArray {
        interval: Interval {
            offset: 0,
            size: size as u64,
        },
        shape: &middle.cells.shape,
        data_type: &DataType::UInt8,
        fill_value: &middle.cells.fill,
    };
    middle.codec.partial_decode_into_fresh(
        alloc,
        handle,
        &stored,
        &middle.requested,
        target,
        &CodecOptions::default(),
    )
}

// Reads them into a subset of other bytes.
fn read_into<H: BytesPartialDecoderTraits, R: Abort>(
    rt: &R,
    alloc: Global,
    handle: &mut H,
    size: usize,
    axes: &[u64],
    place: &ArraySubset,
    bytes: &mut [u8],
) -> Result<(), CodecError> {
    let mut target = FixedTarget::new(bytes, 1, axes, place).ok_or(CodecError::OutOfBounds)?;
    let middle = requested_middle(rt, alloc);
    read_middle(alloc, handle, size, &middle, &mut target)
}

// So many nines, into a subset of which they were read.
fn middle_in<R: Abort>(
    rt: &R,
    alloc: Global,
    count: usize,
    axes: &[u64],
    place: &[Range<u64>],
) -> Result<Vec<u8>, CodecError> {
    let object = object_of(rt, alloc);
    let place = subset_of(rt, alloc, place);
    let mut bytes = vec![in alloc; 9u8; count].expect(rt, "refused");
    let mut handle = SliceHandle::new(&object);
    read_into(
        rt,
        alloc,
        &mut handle,
        object.len(),
        axes,
        &place,
        &mut bytes,
    )?;
    Ok(bytes)
}

// Into a subset of the subset's shape, and into one of another.
#[test]
fn a_subset_is_read_into_a_fresh_target(rt: HostRuntime) {
    for (count, axes, place, want) in [
        (
            9,
            [3u64, 3].as_slice(),
            [1..3, 0..2].as_slice(),
            Ok([9u8, 9, 9, 6, 7, 9, 10, 0, 9].as_slice()),
        ),
        (4, &[2, 2], &[0..2, 0..2], Ok(&[6, 7, 10, 0])),
        (6, &[6], &[1..5], Ok(&[9, 6, 7, 10, 0, 9])),
        (
            9,
            &[3, 3],
            &[0..3, 0..1],
            Err(CodecError::InvalidNumberOfElements),
        ),
    ] {
        let bytes = middle_in(&rt, rt.alloc(), count, axes, place);
        same_at(&rt, axes, said(&bytes), want);
    }
}

// The same by a handle of which a call fails: how often one did, and what was read.
fn middle_by<R: Abort>(
    rt: &R,
    alloc: Global,
    fails_at: u64,
    bytes: &mut [u8],
) -> (u64, Result<(), CodecError>) {
    let object = object_of(rt, alloc);
    let size = object.len();
    let place = subset_of(rt, alloc, &[0..2, 0..2]);
    let mut handle = FaultingHandle::new(Some(object), fails_at);
    let read = read_into(rt, alloc, &mut handle, size, &[2, 2], &place, bytes);
    (handle.faults(), read)
}

// How often a call of such a handle fails. Damaged where a read is accepted beside a fault or with other cells, or refused in another way.
fn faults_of<R: Abort>(rt: &R, alloc: Global, fails_at: u64) -> Result<u64, CodecError> {
    let mut bytes = [9u8; 4];
    let (faults, read) = middle_by(rt, alloc, fails_at, &mut bytes);
    let is_right = match read {
        Ok(()) => faults == 0 && bytes == [6, 7, 10, 0],
        Err(error) => faults == 1 && error == CodecError::Fault,
    };
    if !is_right {
        return Err(CodecError::Damaged);
    }
    Ok(faults)
}

// Whichever call of the handle fails, the read is refused, until none is left to fail.
#[test]
fn each_fault_refuses_a_read(rt: HostRuntime) {
    for fails_at in 0..5u64 {
        same_at(&rt, fails_at, faults_of(&rt, rt.alloc(), fails_at), Ok(1));
    }
    for fails_at in 5..20u64 {
        let answer = faults_of(&rt, rt.alloc(), fails_at);
        same_at(&rt, fails_at, answer.is_ok(), true);
    }
    same(&rt, faults_of(&rt, rt.alloc(), 20), Ok(0));
}
