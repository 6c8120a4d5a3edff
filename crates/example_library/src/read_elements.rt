// Stores numbers as a shard, opens it through a handle, and reads a subset and three coordinates. Of the object only the index
// and the slices that these need are read.

use std::alloc::Global;
use zarr_codecs::{ArrayToBytesCodecTraits, BytesCodec, MemoryHandle};
use zarr_parts::{
    ArrayBytes, ArraySubset, ChunkShape, CodecError, CodecOptions, Coordinates, DataType, FillValue,
};
use zarrs_sharding::{ShardingCodec, ShardingIndexLocation, ShardingPartialDecoder};

type Decoder<'a> = ShardingPartialDecoder<'a, BytesCodec, BytesCodec, MemoryHandle>;

fn shape(alloc: Global, axes: &[u64]) -> Result<ChunkShape, CodecError> {
    ChunkShape::new(alloc, axes)?.ok_or(CodecError::InvalidSubchunkShape)
}

// A codec with subchunks of 4 by 4 elements.
fn codec(alloc: Global) -> Result<ShardingCodec<BytesCodec, BytesCodec>, CodecError> {
    let (inner, index) = (BytesCodec::little(), BytesCodec::little());
    let subchunk = shape(alloc, &[4, 4])?;
    Ok(ShardingCodec::new(subchunk, inner, index, ShardingIndexLocation::End))
}

// The numbers 0 to 63 of an 8 by 8 array, as a shard.
fn store(alloc: Global) -> Result<Vec<u8>, CodecError> {
    let numbers: Vec<u16> = (0..64u16).collect(alloc)?;
    let cells = ArrayBytes::from_numbers(alloc, &numbers)?;
    let shape = shape(alloc, &[8, 8])?;
    let fill = FillValue::from_number(alloc, 0u16)?;
    let options = CodecOptions::default();
    codec(alloc)?.encode(alloc, &cells, &shape, &DataType::UInt16, &fill, &options)
}

// The elements of a subset of 2 by 3.
fn read_subset(alloc: Global, decoder: &mut Decoder) -> Result<Vec<u16>, CodecError> {
    let requested = ArraySubset::from_ranges(alloc, &[1..3, 3..6])?;
    let cells = decoder.partial_decode(alloc, &requested, &CodecOptions::default())?;
    cells.to_numbers(alloc)
}

// The elements at three coordinates.
fn read_three(alloc: Global, decoder: &mut Decoder) -> Result<Vec<u16>, CodecError> {
    let requested = Coordinates::new(2, 3, [7, 7, 0, 0, 7, 7].to_vec(alloc)?);
    let requested = requested.ok_or(CodecError::IncompatibleDimensionality)?;
    let cells = decoder.partial_decode(alloc, &requested, &CodecOptions::default())?;
    cells.to_numbers(alloc)
}

// Both, read from a stored shard.
fn read(alloc: Global, shard: Vec<u8>) -> Result<[Vec<u16>; 2], CodecError> {
    let codec = codec(alloc)?;
    let shape = shape(alloc, &[8, 8])?;
    let fill = FillValue::from_number(alloc, 0u16)?;
    let options = CodecOptions::default();
    let handle = MemoryHandle::new(Some(shard));
    match codec.partial_decoder(alloc, handle, &shape, &DataType::UInt16, &fill, &options) {
        Ok(mut decoder) => Ok([
            read_subset(alloc, &mut decoder)?,
            read_three(alloc, &mut decoder)?,
        ]),
        Err((_handle, error)) => Err(error),
    }
}

// Prints both of a shard in memory.
pub fn print_elements(rt: &HostRuntime) -> anyhow::Result<()> {
    let shard = store(rt.alloc())?;
    for numbers in read(rt.alloc(), shard)? {
        println!(rt; "{:?}", numbers)?;
    }
    Ok(())
}
