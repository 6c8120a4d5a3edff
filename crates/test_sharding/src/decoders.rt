// Decoders: what they tell besides cells, subchunks as they are stored, reads into a target, and objects that are not opened.
use crate::compared::{same, same_at};
use crate::shards::{
    ABSENT, Cells, Plain, Sixteen, cells_of, decoder_of, listed, plain, read, said, shard_of,
    sixteen_cells, subset_of,
};
use std::alloc::Global;
use std::ops::Range;
use std::process::Abort;
use zarr_codecs::{ByteRange, BytesCodec, BytesPartialDecoderTraits, MemoryHandle, SliceHandle};
use zarr_parts::{CodecError, CodecOptions, DataType, FixedTarget};
use zarrs_sharding::{ShardingIndexLocation, ShardingPartialDecoder};

// What a decoder tells of an object: whether it is there, what is held of it, its cells' type, and whether it is read in part.
type Told = (bool, usize, DataType, bool);

fn told<H: BytesPartialDecoderTraits + Drop, R: Abort>(
    rt: &R,
    decoder: &mut ShardingPartialDecoder<'_, BytesCodec, BytesCodec, H>,
) -> Told {
    let exists = decoder.exists().expect(rt, "refused");
    let (cached, data_type) = (decoder.size_held(), *decoder.data_type());
    (exists, cached, data_type, decoder.supports_partial_decode())
}

// What a decoder of a handle's object tells.
fn told_of<H: BytesPartialDecoderTraits + Drop, R: Abort>(
    rt: &R,
    alloc: Global,
    codec: &Plain,
    handle: H,
) -> Told {
    let mut decoder = decoder_of(rt, alloc, codec, handle, &[4, 4]).expect(rt, "refused");
    told(rt, &mut decoder)
}

// A decoder holds its index besides what its handle holds, and none where there is no object.
#[test]
fn an_object_is_told(rt: HostRuntime) {
    let codec = plain(&rt, rt.alloc(), &[2, 2], ShardingIndexLocation::Start);
    let borrowed = told_of(&rt, rt.alloc(), &codec, SliceHandle::new(&[255; 80]));
    same(&rt, borrowed, (true, 80 + 64, DataType::UInt8, true));
    let none = told_of(&rt, rt.alloc(), &codec, MemoryHandle::new(None));
    same(&rt, none, (false, 0, DataType::UInt8, true));
}

// The cells at coordinates of a shape of 4 by 4.
fn read_at<R: Abort>(rt: &R, alloc: Global, flat: &[u64]) -> Result<Vec<u8>, CodecError> {
    let requested = listed(rt, alloc, 2, flat);
    let stored = sixteen_cells(rt, alloc);
    read(
        rt,
        alloc,
        &stored.codec,
        SliceHandle::new(&stored.shard),
        &[4, 4],
        &requested,
    )
}

// Cells of several subchunks are read in the order in which they are asked, one of them twice.
#[test]
fn coordinates_are_read(rt: HostRuntime) {
    let cells = read_at(&rt, rt.alloc(), &[3, 3, 0, 0, 1, 3, 3, 3, 0, 1]);
    same(&rt, said(&cells), Ok([15u8, 0, 7, 15, 1].as_slice()));
}

// The index of 8193 subchunks, all of them absent but the first and the last, of two bytes each.
fn long_index<R: Abort>(rt: &R, alloc: Global) -> Vec<u64> {
    let mut index = vec![in alloc; ABSENT; 16386].expect(rt, "refused");
    index[0] = 0;
    index[1] = 2;
    index[16384] = 2;
    index[16385] = 2;
    index
}

// The cells at coordinates of such a shard.
fn read_sparse<R: Abort>(rt: &R, alloc: Global, flat: &[u64]) -> Result<Vec<u8>, CodecError> {
    let codec = plain(rt, alloc, &[2], ShardingIndexLocation::End);
    let object = shard_of(rt, alloc, &[5, 6, 7, 8], &long_index(rt, alloc));
    let requested = listed(rt, alloc, 1, flat);
    let handle = MemoryHandle::new(Some(object));
    read(rt, alloc, &codec, handle, &[16386], &requested)
}

// An index that is read in several pieces is that of the whole shard.
#[test]
fn a_long_index_is_read(rt: HostRuntime) {
    let cells = read_sparse(&rt, rt.alloc(), &[1, 8192, 16385]);
    same(&rt, said(&cells), Ok([6u8, 0, 8].as_slice()));
}

// Reads two of sixteen cells into a target, by either call.
fn read_two<R: Abort>(
    rt: &R,
    alloc: Global,
    stored: &Sixteen,
    is_fresh: bool,
    target: &mut FixedTarget,
) -> Result<(), CodecError> {
    let options = CodecOptions::default();
    let requested = subset_of(rt, alloc, &[1..3, 0..1]);
    let handle = SliceHandle::new(&stored.shard);
    let mut decoder = decoder_of(rt, alloc, &stored.codec, handle, &[4, 4])?;
    if is_fresh {
        return decoder.partial_decode_into_fresh(alloc, &requested, target, &options);
    }
    decoder.partial_decode_into(alloc, &requested, target, &options)
}

// Reads them into a subset of a target of 3 by 3.
fn read_into<R: Abort>(
    rt: &R,
    alloc: Global,
    is_fresh: bool,
    bytes: &mut [u8],
    element_size: usize,
    rows: Range<u64>,
) -> Result<(), CodecError> {
    let stored = sixteen_cells(rt, alloc);
    let cells = subset_of(rt, alloc, &[rows, 1..2]);
    match FixedTarget::new(bytes, element_size, &[3, 3], &cells) {
        Some(mut target) => read_two(rt, alloc, &stored, is_fresh, &mut target),
        None => Err(CodecError::OutOfBounds),
    }
}

// What such a read answers; a fault where the target, whose bytes were 77, has not these then.
fn is_target<R: Abort>(
    rt: &R,
    alloc: Global,
    is_fresh: bool,
    element_size: usize,
    rows: Range<u64>,
    want: &[u8],
) -> Result<(), CodecError> {
    let mut bytes = vec![in alloc; 77u8; want.len()].expect(rt, "refused");
    let answer = read_into(rt, alloc, is_fresh, &mut bytes, element_size, rows);
    if bytes.as_slice() == want {
        answer
    } else {
        Err(CodecError::Fault)
    }
}

// Cells are read into a target of as many of their size, and another stays as it was.
#[test]
fn cells_are_read_into_a_target(rt: HostRuntime) {
    let few = Err(CodecError::InvalidNumberOfElements);
    let wrong = Err(CodecError::WrongElementKind);
    let rows: [(usize, Range<u64>, Result<(), CodecError>, &[u8]); 3] = [
        (1, 1..3, Ok(()), &[77, 77, 77, 77, 4, 77, 77, 8, 77]),
        (1, 1..2, few, &[77; 9]),
        (2, 1..3, wrong, &[77; 18]),
    ];
    for (element_size, rows, answer, want) in rows {
        for is_fresh in [false, true] {
            let found = is_target(
                &rt,
                rt.alloc(),
                is_fresh,
                element_size,
                rows.start..rows.end,
                want,
            );
            same(&rt, found, answer);
        }
    }
}

// Four cells in two subchunks: an object of two bytes and this index, or none.
fn object_of<R: Abort>(rt: &R, alloc: Global, index: Option<[u64; 4]>) -> MemoryHandle {
    let object = match index {
        Some(index) => Some(shard_of(rt, alloc, &[0, 7], &index)),
        None => None,
    };
    MemoryHandle::new(object)
}

fn range_of<R: Abort>(
    rt: &R,
    alloc: Global,
    index: Option<[u64; 4]>,
    subchunk: &[u64],
) -> Result<Option<ByteRange>, CodecError> {
    let codec = plain(rt, alloc, &[2], ShardingIndexLocation::End);
    let decoder = decoder_of(rt, alloc, &codec, object_of(rt, alloc, index), &[4])?;
    decoder.subchunk_byte_range(subchunk)
}

// A subchunk that is stored has a range, where the index is sound for it.
#[test]
fn a_subchunk_has_a_range(rt: HostRuntime) {
    let half_stored = Some([0, 2, ABSENT, ABSENT]);
    let half_empty = Some([0, 2, ABSENT, 5]);
    let first = ByteRange::FromStart(0, Some(2));
    for (index, subchunk, want) in [
        (half_stored, [0u64].as_slice(), Ok(Some(first))),
        (half_stored, &[1], Ok(None)),
        (half_stored, &[2], Err(CodecError::OutOfBounds)),
        (
            half_stored,
            &[0, 0],
            Err(CodecError::IncompatibleDimensionality),
        ),
        (
            half_empty,
            &[1],
            Err(CodecError::BadIndexEntry { number: 1 }),
        ),
        (None, &[0], Ok(None)),
        (None, &[2], Err(CodecError::OutOfBounds)),
    ] {
        let range = range_of(&rt, rt.alloc(), index, subchunk);
        same_at(&rt, (subchunk, index), range, want);
    }
}

// Whether a subchunk is stored as these bytes, or is not stored.
fn is_retrieved<H: BytesPartialDecoderTraits, R: Abort>(
    rt: &R,
    alloc: Global,
    decoder: &mut ShardingPartialDecoder<'_, BytesCodec, BytesCodec, H>,
    subchunk: &[u64],
    want: Option<&[u8]>,
) -> bool {
    match decoder
        .retrieve_subchunk_encoded(alloc, subchunk)
        .expect(rt, "refused")
    {
        Some(bytes) => want == Some(bytes.as_slice()),
        None => want.is_none(),
    }
}

fn is_stored<R: Abort>(rt: &R, alloc: Global, subchunk: &[u64], want: Option<&[u8]>) -> bool {
    let codec = plain(rt, alloc, &[2], ShardingIndexLocation::End);
    let handle = object_of(rt, alloc, Some([0, 2, ABSENT, ABSENT]));
    let mut decoder = decoder_of(rt, alloc, &codec, handle, &[4]).expect(rt, "refused");
    is_retrieved(rt, alloc, &mut decoder, subchunk, want)
}

// The bytes of a subchunk are retrieved as they are stored.
#[test]
fn a_subchunk_is_retrieved_as_it_is_stored(rt: HostRuntime) {
    let stored = Some([0u8, 7].as_slice());
    same(&rt, is_stored(&rt, rt.alloc(), &[0], stored), true);
    same(&rt, is_stored(&rt, rt.alloc(), &[1], None), true);
}

// How many bytes a handle holds that comes back, since it is not opened, and why it is not.
fn refusal_of(
    alloc: Global,
    codec: &Plain,
    cells: &Cells,
    handle: MemoryHandle,
) -> Option<(usize, CodecError)> {
    let options = CodecOptions::default();
    match codec.partial_decoder(
        alloc,
        handle,
        &cells.shape,
        &DataType::UInt8,
        &cells.fill,
        &options,
    ) {
        Ok(_) => None,
        Err((handle, error)) => Some((handle.size_held(), error)),
    }
}

// The same of an object of so many bytes.
fn refused<R: Abort>(
    rt: &R,
    alloc: Global,
    codec: &Plain,
    len: usize,
) -> Option<(usize, CodecError)> {
    let object = vec![in alloc; 255u8; len].expect(rt, "refused");
    let cells = cells_of(rt, alloc, &[4]);
    let handle = MemoryHandle::new(Some(object));
    refusal_of(alloc, codec, &cells, handle)
}

// An object shorter than the index, of 32 bytes, is not opened.
#[test]
fn a_short_object_is_given_back(rt: HostRuntime) {
    let codec = plain(&rt, rt.alloc(), &[2], ShardingIndexLocation::End);
    for (len, want) in [
        (0, Some((0, CodecError::ShardTooShort))),
        (31, Some((31, CodecError::ShardTooShort))),
        (32, None),
    ] {
        same_at(&rt, len, refused(&rt, rt.alloc(), &codec, len), want);
    }
}
