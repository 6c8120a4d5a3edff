// A shard that is worked by hand, as the calls of the library take it.
use crate::worked::{self, Part, Worked};
use std::alloc::Global;
use zarr_codecs::{ArrayToBytesCodecTraits, BytesCodec};
use zarr_parts::{ArraySubset, ChunkShape, CodecError, Coordinates, FillValue};
use zarrs_sharding::{ShardingCodec, ShardingIndexLocation};

// Whether a call answers what is wanted, or how it is refused.
pub(crate) type Answer = Result<bool, CodecError>;

pub(crate) type Plain = ShardingCodec<BytesCodec, BytesCodec>;

// A codec, the arrays that it serves, another codec, and what is requested of them. The object is as it was encoded, and after all
// writes.
pub(crate) struct Shard<I: ArrayToBytesCodecTraits> {
    pub codec: ShardingCodec<I, BytesCodec>,
    pub other: Plain,
    pub shape: ChunkShape,
    pub fill: FillValue,
    pub requested: Requested,
    pub object: Vec<u8>,
    pub written: Vec<u8>,
    pub worked: Worked,
}

impl<I: ArrayToBytesCodecTraits + Drop> Drop for Shard<I> {
    fn drop(self) {
        let Shard {
            codec: _,
            other: _,
            shape: _,
            fill: _,
            requested: _,
            object: _,
            written: _,
            worked: _,
        } = self;
    }
}

// All elements, some in a subset, and three by their coordinates.
pub(crate) struct Requested {
    pub whole: ArraySubset,
    pub subset: ArraySubset,
    pub listed: Coordinates,
}

impl Drop for Requested {
    fn drop(self) {
        let Requested {
            whole: _,
            subset: _,
            listed: _,
        } = self;
    }
}

fn put(object: &mut Vec<u8>, part: &Part) -> Result<(), CodecError> {
    match part {
        Part::Bytes(bytes) => object.extend_from_slice(bytes)?,
        Part::Index(numbers) => {
            for number in numbers.iter() {
                object.extend_from_slice(&number.to_le_bytes())?;
            }
        }
    }
    Ok(())
}

fn object_of(alloc: Global, parts: &[Part]) -> Result<Vec<u8>, CodecError> {
    let mut object = Vec::with_capacity(alloc, 256)?;
    for part in parts {
        put(&mut object, part)?;
    }
    Ok(object)
}

fn listed(alloc: Global, worked: &Worked) -> Result<Coordinates, CodecError> {
    let numbers = worked.listed.to_vec(alloc)?;
    Coordinates::new(worked.shape.len(), 3, numbers).ok_or(CodecError::IncompatibleDimensionality)
}

impl Requested {
    fn new(alloc: Global, worked: &Worked) -> Result<Self, CodecError> {
        Ok(Requested {
            whole: ArraySubset::from_ranges(alloc, worked.whole)?,
            subset: ArraySubset::from_ranges(alloc, worked.subset)?,
            listed: listed(alloc, worked)?,
        })
    }
}

fn shape_of(alloc: Global, axes: &[u64]) -> Result<ChunkShape, CodecError> {
    ChunkShape::new(alloc, axes)?.ok_or(CodecError::InvalidSubchunkShape)
}

fn codec_of<I: ArrayToBytesCodecTraits + Drop>(
    alloc: Global,
    subchunk: &[u64],
    inner: I,
    location: ShardingIndexLocation,
) -> Result<ShardingCodec<I, BytesCodec>, CodecError> {
    let shape = shape_of(alloc, subchunk)?;
    Ok(ShardingCodec::new(shape, inner, BytesCodec::little(), location))
}

fn plain(
    alloc: Global,
    subchunk: &[u64],
    location: ShardingIndexLocation,
) -> Result<Plain, CodecError> {
    codec_of(alloc, subchunk, BytesCodec::little(), location)
}

// What a shard has beside its codecs.
#[derive(Drop)]
struct Arguments {
    shape: ChunkShape,
    fill: FillValue,
    requested: Requested,
    object: Vec<u8>,
    written: Vec<u8>,
}

impl Arguments {
    fn new(alloc: Global, worked: &Worked, fill: u8) -> Result<Self, CodecError> {
        Ok(Arguments {
            shape: shape_of(alloc, worked.shape)?,
            fill: FillValue::from_number(alloc, fill)?,
            requested: Requested::new(alloc, worked)?,
            object: object_of(alloc, worked.object)?,
            written: object_of(alloc, worked.written)?,
        })
    }
}

impl<I: ArrayToBytesCodecTraits + Drop> Shard<I> {
    fn new(
        alloc: Global,
        worked: Worked,
        codec: ShardingCodec<I, BytesCodec>,
        other: Plain,
        fill: u8,
    ) -> Result<Self, CodecError> {
        let Arguments {
            shape,
            fill,
            requested,
            object,
            written,
        } = Arguments::new(alloc, &worked, fill)?;
        Ok(Shard {
            codec,
            other,
            shape,
            fill,
            requested,
            object,
            written,
            worked,
        })
    }
}

pub(crate) fn index_at_start(alloc: Global) -> Result<Shard<BytesCodec>, CodecError> {
    let codec = plain(alloc, &[2, 2], ShardingIndexLocation::Start)?;
    let other = plain(alloc, &[4, 2], ShardingIndexLocation::End)?;
    Shard::new(alloc, worked::start(), codec, other, 255)
}

pub(crate) fn index_at_end(alloc: Global) -> Result<Shard<BytesCodec>, CodecError> {
    let codec = plain(alloc, &[2], ShardingIndexLocation::End)?;
    let other = plain(alloc, &[4], ShardingIndexLocation::End)?;
    Shard::new(alloc, worked::end(), codec, other, 0)
}

pub(crate) fn shards_of_shards(alloc: Global) -> Result<Shard<Plain>, CodecError> {
    let inner = plain(alloc, &[1], ShardingIndexLocation::End)?;
    let codec = codec_of(alloc, &[2], inner, ShardingIndexLocation::End)?;
    let other = plain(alloc, &[2], ShardingIndexLocation::End)?;
    Shard::new(alloc, worked::nested(), codec, other, 0)
}
