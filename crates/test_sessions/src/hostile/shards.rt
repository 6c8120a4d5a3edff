// Shards of elements of one byte with the fill value 0, and the calls that meet their objects. What sets the scene is made, or the
// test ends.
use std::alloc::Global;
use std::ops::Range;
use std::process::Abort;
use std::thread::Threads;
use test_helpers::{ABSENT, HostileObject, Wanted, object_of};
use zarr_codecs::{ArrayToBytesCodecTraits, BytesCodec, MemoryHandle, SliceHandle};
use zarr_parts::{
    ArrayBytes, ArraySubset, ChunkShape, CodecError, CodecOptions, Coordinates, DataType,
    FillValue, FixedTarget, Indexer,
};
use zarrs_sharding::{
    NoGate, ShardState, ShardingCodec, ShardingIndexLocation, ShardingPartialDecoder,
    SubchunkWriteOrder,
};

pub(crate) type Plain = ShardingCodec<BytesCodec, BytesCodec>;

pub(crate) type Answer<'a> = Result<ArrayBytes<'a>, CodecError>;

pub(crate) type Decoder<'a, I> = ShardingPartialDecoder<'a, I, BytesCodec, SliceHandle<'a>>;

pub(crate) type Session<'a, I> = ShardState<'a, I, BytesCodec, MemoryHandle>;

// A codec, and what it is asked to serve.
pub(crate) struct Shards<I> {
    pub(crate) codec: ShardingCodec<I, BytesCodec>,
    pub(crate) shape: ChunkShape,
    pub(crate) fill: FillValue,
}

impl<I: Drop> Drop for Shards<I> {
    fn drop(self) {
        let Shards {
            codec: _,
            shape: _,
            fill: _,
        } = self;
    }
}

pub(crate) fn shape_of<R: Abort>(rt: &R, alloc: Global, axes: &[u64]) -> ChunkShape {
    ChunkShape::new(alloc, axes)
        .expect(rt, "memory")
        .expect(rt, "a shape")
}

// A codec around another, whose subchunks have this number of elements and are written in row-major order.
pub(crate) fn around<R: Abort, I: Drop>(
    rt: &R,
    alloc: Global,
    sub: u64,
    inner: I,
    location: ShardingIndexLocation,
) -> ShardingCodec<I, BytesCodec> {
    let sub = shape_of(rt, alloc, &[sub]);
    let codec = ShardingCodec::new(sub, inner, BytesCodec::little(), location);
    codec.with_subchunk_write_order(SubchunkWriteOrder::C)
}

// Shards of this number of elements.
pub(crate) fn shards_of<R: Abort, I: Drop>(
    rt: &R,
    alloc: Global,
    elements: u64,
    codec: ShardingCodec<I, BytesCodec>,
) -> Shards<I> {
    Shards {
        codec,
        shape: shape_of(rt, alloc, &[elements]),
        fill: FillValue::from_number(alloc, 0u8).expect(rt, "memory"),
    }
}

pub(crate) fn location_of(at_start: bool) -> ShardingIndexLocation {
    if at_start {
        ShardingIndexLocation::Start
    } else {
        ShardingIndexLocation::End
    }
}

// Two subchunks of two elements.
pub(crate) fn plain<R: Abort>(
    rt: &R,
    alloc: Global,
    location: ShardingIndexLocation,
) -> Shards<BytesCodec> {
    let codec = around(rt, alloc, 2, BytesCodec::little(), location);
    shards_of(rt, alloc, 4, codec)
}

// The object of 0, 7, 0, 0.
pub(crate) fn seven<R: Abort>(rt: &R, alloc: Global) -> Vec<u8> {
    let object = object_of(alloc, false, &[0, 7], &[0, 2, ABSENT, ABSENT]);
    object.expect(rt, "memory")
}

// The codec of 4 by 4 elements in squares, whose index is before them.
pub(crate) fn squares<R: Abort>(rt: &R, alloc: Global) -> Plain {
    let (little, sub) = (BytesCodec::little(), shape_of(rt, alloc, &[2, 2]));
    let codec = ShardingCodec::new(sub, little, little, ShardingIndexLocation::Start);
    codec.with_subchunk_write_order(SubchunkWriteOrder::C)
}

// The shard of 0 to 15 in squares.
pub(crate) fn in_squares<R: Abort>(rt: &R, alloc: Global) -> Vec<u8> {
    let slices = [0, 1, 4, 5, 2, 3, 6, 7, 8, 9, 12, 13, 10, 11, 14, 15];
    let index = [64, 4, 68, 4, 72, 4, 76, 4];
    object_of(alloc, true, &slices, &index).expect(rt, "memory")
}

// The bytes of an object, and the shards of which it is to be one.
#[derive(Drop)]
pub(crate) struct Case {
    pub(crate) object: Vec<u8>,
    pub(crate) shards: Shards<BytesCodec>,
}

pub(crate) fn case_of<R: Abort>(rt: &R, alloc: Global, hostile: &HostileObject) -> Case {
    Case {
        object: hostile.object(alloc).expect(rt, "memory"),
        shards: plain(rt, alloc, location_of(hostile.at_start)),
    }
}

impl Case {
    // Decodes all four elements into these bytes.
    pub(crate) fn decode_over<R: Abort>(
        &self,
        rt: &R,
        alloc: Global,
        bytes: &mut [u8],
    ) -> Result<(), CodecError> {
        let all = subset_of(rt, alloc, &(0..4));
        let mut target = FixedTarget::new(bytes, 1, &[4], &all).expect(rt, "a target");
        self.shards.decoded_into(alloc, &self.object, &mut target)
    }

    pub(crate) fn index<R: Abort>(&self, rt: &R, alloc: Global) -> Result<Vec<u64>, CodecError> {
        let grid = shape_of(rt, alloc, &[2]);
        let options = CodecOptions::default();
        self.shards
            .codec
            .decode_index(alloc, &self.object, &grid, &options)
    }

    // The elements of a range that a decoder reads.
    pub(crate) fn read<R: Abort>(
        &self,
        rt: &R,
        alloc: Global,
        range: &Range<u64>,
    ) -> Answer<'static> {
        let requested = subset_of(rt, alloc, range);
        self.shards.read(alloc, &self.object, &requested)
    }
}

pub(crate) fn subset_of<R: Abort>(rt: &R, alloc: Global, range: &Range<u64>) -> ArraySubset {
    ArraySubset::from_ranges(alloc, &[range.start..range.end]).expect(rt, "a subset")
}

// The elements 3, 0 and 3.
pub(crate) fn listed<R: Abort>(rt: &R, alloc: Global) -> Coordinates {
    let numbers = [3, 0, 3].to_vec(alloc).expect(rt, "memory");
    Coordinates::new(1, 3, numbers).expect(rt, "coordinates")
}

// What an answer says, for a comparison: the elements, each of which has one size, or the refusal.
pub(crate) fn said<'a>(answer: &'a Result<ArrayBytes, CodecError>) -> Result<&'a [u8], CodecError> {
    match answer {
        Ok(array) => array.fixed_bytes().ok_or(CodecError::WrongElementKind),
        Err(error) => Err(*error),
    }
}

// What a call answers that is to write elements into a target, and the target then: these bytes, where it is refused.
pub(crate) fn over(wanted: Wanted, kept: &'static [u8]) -> (Result<(), CodecError>, &'static [u8]) {
    match wanted {
        Ok(elements) => (Ok(()), elements),
        Err(error) => (Err(error), kept),
    }
}

impl<I: ArrayToBytesCodecTraits + Drop> Shards<I> {
    pub(crate) fn decoded<'a>(&self, alloc: Global, object: &'a [u8]) -> Answer<'a> {
        let options = CodecOptions::default();
        self.codec.decode(
            alloc,
            object,
            &self.shape,
            &DataType::UInt8,
            &self.fill,
            &options,
        )
    }

    pub(crate) fn decoded_into(
        &self,
        alloc: Global,
        object: &[u8],
        target: &mut FixedTarget,
    ) -> Result<(), CodecError> {
        let options = CodecOptions::default();
        self.codec.decode_into(
            alloc,
            object,
            &self.shape,
            &DataType::UInt8,
            &self.fill,
            target,
            &options,
        )
    }

    pub(crate) fn compacted(
        &self,
        alloc: Global,
        object: &[u8],
    ) -> Result<Option<Vec<u8>>, CodecError> {
        let options = CodecOptions::default();
        self.codec.compact(
            alloc,
            object,
            &self.shape,
            &DataType::UInt8,
            &self.fill,
            &options,
        )
    }

    pub(crate) fn decoder<'a>(
        &'a self,
        alloc: Global,
        object: &'a [u8],
    ) -> Result<Decoder<'a, I>, CodecError> {
        let opened = self.codec.partial_decoder(
            alloc,
            SliceHandle::new(object),
            &self.shape,
            &DataType::UInt8,
            &self.fill,
            &CodecOptions::default(),
        );
        match opened {
            Ok(decoder) => Ok(decoder),
            Err((_, error)) => Err(error),
        }
    }

    pub(crate) fn open(
        &self,
        alloc: Global,
        object: Vec<u8>,
    ) -> Result<Session<'_, I>, (MemoryHandle, CodecError)> {
        self.codec.open_state(
            alloc,
            MemoryHandle::new(Some(object)),
            &self.shape,
            &DataType::UInt8,
            &self.fill,
            &CodecOptions::default(),
        )
    }

    // The requested elements of an object that a session reads.
    pub(crate) fn read_opened<N: Indexer>(
        &self,
        alloc: Global,
        object: Vec<u8>,
        requested: &N,
    ) -> Answer<'static> {
        match self.open(alloc, object) {
            Ok(mut session) => {
                session.partial_decode(alloc, requested, &CodecOptions::default())
            }
            Err((_, error)) => Err(error),
        }
    }

    // The elements that a decoder of an object reads.
    pub(crate) fn read<N: Indexer>(
        &self,
        alloc: Global,
        object: &[u8],
        requested: &N,
    ) -> Answer<'static> {
        let mut decoder = self.decoder(alloc, object)?;
        decoder.partial_decode(alloc, requested, &CodecOptions::default())
    }
}

impl<I: ArrayToBytesCodecTraits + Drop + Sync> Shards<I> {
    pub(crate) fn decoded_by_workers<'a, R: Threads + Sync>(
        &self,
        rt: &R,
        alloc: Global,
        object: &'a [u8],
        workers: usize,
    ) -> Answer<'a> {
        let options = CodecOptions::default().with_concurrent_target(workers);
        self.codec.decode_by_workers(
            rt,
            alloc,
            object,
            &self.shape,
            &DataType::UInt8,
            &self.fill,
            &NoGate,
            &options,
        )
    }
}
