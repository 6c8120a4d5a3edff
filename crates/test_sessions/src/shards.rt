// Shards for the tests: four cells of one byte in two subchunks, with the fill value 0. What sets the scene is made, or the test
// ends.
use std::alloc::Global;
use std::ops::Range;
use std::process::Abort;
use zarr_codecs::{ArrayToBytesCodecTraits, BytesCodec, BytesPartialEncoderTraits};
use zarr_parts::{
    ArrayBytes, ArraySubset, ChunkShape, CodecError, CodecOptions, DataType, FillValue, Indexer,
};
use zarrs_sharding::{ShardState, ShardingCodec, ShardingIndexLocation, ShardingPartialEncoder};

pub(crate) type Session<'a, H> = ShardState<'a, BytesCodec, BytesCodec, H>;

// A session that threads share.
pub(crate) type Shared<'a, H> = ShardingPartialEncoder<'a, BytesCodec, BytesCodec, H>;

// What a read answers.
pub(crate) type Answer = Result<ArrayBytes<'static>, CodecError>;

pub(crate) const ABSENT: u64 = u64::MAX;

pub(crate) fn shape_of<R: Abort>(rt: &R, alloc: Global, axes: &[u64]) -> ChunkShape {
    ChunkShape::new(alloc, axes)
        .expect(rt, "memory")
        .expect(rt, "a shape")
}

// A codec, and what it is asked to serve.
pub(crate) struct Shards {
    codec: ShardingCodec<BytesCodec, BytesCodec>,
    shape: ChunkShape,
    fill: FillValue,
}

impl Drop for Shards {
    fn drop(self) {
        let Shards {
            codec: _,
            shape: _,
            fill: _,
        } = self;
    }
}

impl Shards {
    pub(crate) fn new<R: Abort>(rt: &R, alloc: Global, location: ShardingIndexLocation) -> Self {
        let (sub, little) = (shape_of(rt, alloc, &[2]), BytesCodec::little());
        Shards {
            codec: ShardingCodec::new(sub, little, little, location),
            shape: shape_of(rt, alloc, &[4]),
            fill: FillValue::from_number(alloc, 0u8).expect(rt, "memory"),
        }
    }

    pub(crate) fn open<H: BytesPartialEncoderTraits>(
        &self,
        alloc: Global,
        handle: H,
    ) -> Result<Session<'_, H>, (H, CodecError)> {
        self.codec.open_state(
            alloc,
            handle,
            &self.shape,
            &DataType::UInt8,
            &self.fill,
            &CodecOptions::default(),
        )
    }

    // A session of an object that can be opened.
    pub(crate) fn opened<R: Abort, H: BytesPartialEncoderTraits + Drop>(
        &self,
        rt: &R,
        alloc: Global,
        handle: H,
    ) -> Session<'_, H> {
        self.open(alloc, handle).ok().expect(rt, "a session")
    }

    pub(crate) fn share<H: BytesPartialEncoderTraits>(
        &self,
        alloc: Global,
        handle: H,
    ) -> Result<Shared<'_, H>, (H, CodecError)> {
        self.codec.partial_encoder(
            alloc,
            handle,
            &self.shape,
            &DataType::UInt8,
            &self.fill,
            &CodecOptions::default(),
        )
    }
}

// An object of these slices and this index.
pub(crate) fn object_of<R: Abort>(
    rt: &R,
    alloc: Global,
    location: ShardingIndexLocation,
    slices: &[u8],
    index: [u64; 4],
) -> Vec<u8> {
    let mut numbers: Vec<u8> = Vec::new(alloc);
    for number in index.iter() {
        let bytes = number.to_le_bytes();
        numbers.extend_from_slice(&bytes).expect(rt, "memory");
    }
    let (first, last) = match location {
        ShardingIndexLocation::Start => (numbers.as_slice(), slices),
        ShardingIndexLocation::End => (slices, numbers.as_slice()),
    };
    let mut object = first.to_vec(alloc).expect(rt, "memory");
    object.extend_from_slice(last).expect(rt, "memory");
    object
}

// The object of the cells 0, 7, 0, 0.
pub(crate) fn seven<R: Abort>(rt: &R, alloc: Global) -> Vec<u8> {
    let index = [0, 2, ABSENT, ABSENT];
    object_of(rt, alloc, ShardingIndexLocation::End, &[0, 7], index)
}

pub(crate) fn subset_of<R: Abort>(rt: &R, alloc: Global, range: Range<u64>) -> ArraySubset {
    ArraySubset::from_ranges(alloc, &[range]).expect(rt, "a subset")
}

// The cells that an indexer requests.
pub(crate) fn read<I: ArrayToBytesCodecTraits, H: BytesPartialEncoderTraits, N: Indexer>(
    alloc: Global,
    session: &mut ShardState<'_, I, BytesCodec, H>,
    indexer: &N,
) -> Answer {
    session.partial_decode(alloc, indexer, &CodecOptions::default())
}

// Whether the cells of a range are read, and are these.
pub(crate) fn are_cells<R: Abort, I: ArrayToBytesCodecTraits, H: BytesPartialEncoderTraits>(
    rt: &R,
    alloc: Global,
    session: &mut ShardState<'_, I, BytesCodec, H>,
    range: Range<u64>,
    want: &[u8],
) -> bool {
    let requested = subset_of(rt, alloc, range);
    said(&read(alloc, session, &requested)) == Ok(want)
}

// Writes cells over those of a range.
pub(crate) fn write<R: Abort, I: ArrayToBytesCodecTraits, H: BytesPartialEncoderTraits>(
    rt: &R,
    alloc: Global,
    session: &mut ShardState<'_, I, BytesCodec, H>,
    range: Range<u64>,
    cells: &[u8],
) -> Result<(), CodecError> {
    let subset = subset_of(rt, alloc, range);
    let update = ArrayBytes::from_numbers(alloc, cells).expect(rt, "memory");
    session.partial_encode(alloc, &subset, &update, &CodecOptions::default())
}

// What an answer says, for a comparison: the cells, each of which has one size, or the refusal.
pub(crate) fn said(answer: &Answer) -> Result<&[u8], CodecError> {
    match answer {
        Ok(array) => array.fixed_bytes().ok_or(CodecError::WrongElementKind),
        Err(error) => Err(*error),
    }
}
