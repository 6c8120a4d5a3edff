// A handle of your own, through which three elements of a shard in a shard are read.

use crate::counted::Counted;
use std::alloc::Global;
use zarr_codecs::{ArrayToBytesCodecTraits, BytesCodec};
use zarr_parts::{
    ArrayBytes, ChunkShape, CodecError, CodecOptions, Coordinates, DataType, FillValue,
};
use zarrs_sharding::{ShardingCodec, ShardingIndexLocation, ShardingPartialDecoder};

type Inner = ShardingCodec<BytesCodec, BytesCodec>;

// Three elements, and how many byte ranges were read for them.
type Found = (ArrayBytes<'static>, u64);

fn shape(alloc: Global, axes: &[u64]) -> Result<ChunkShape, CodecError> {
    ChunkShape::new(alloc, axes)?.ok_or(CodecError::InvalidSubchunkShape)
}

// Subchunks of 4 by 4 elements that are shards themselves, with subchunks of 2 by 2.
fn codec(alloc: Global) -> Result<ShardingCodec<Inner, BytesCodec>, CodecError> {
    let inner = ShardingCodec::new(
        shape(alloc, &[2, 2])?,
        BytesCodec::little(),
        BytesCodec::little(),
        ShardingIndexLocation::Start,
    );
    let outer = shape(alloc, &[4, 4])?;
    let end = ShardingIndexLocation::End;
    Ok(ShardingCodec::new(outer, inner, BytesCodec::big(), end))
}

// The 16-bit numbers 0 to 63, an array of 8 by 8, encoded by a codec.
fn store<C: ArrayToBytesCodecTraits>(alloc: Global, codec: &C) -> Result<Vec<u8>, CodecError> {
    let numbers: Vec<u16> = (0..64u16).collect(alloc)?;
    let cells = ArrayBytes::from_numbers(alloc, &numbers)?;
    let shape = shape(alloc, &[8, 8])?;
    let fill = FillValue::from_number(alloc, 0u16)?;
    let options = CodecOptions::default();
    codec.encode(alloc, &cells, &shape, &DataType::UInt16, &fill, &options)
}

fn read_cells<I: ArrayToBytesCodecTraits, X: ArrayToBytesCodecTraits>(
    alloc: Global,
    decoder: &mut ShardingPartialDecoder<'_, I, X, Counted>,
) -> Result<ArrayBytes<'static>, CodecError> {
    let requested = Coordinates::new(2, 3, [0, 1, 7, 7, 0, 1].to_vec(alloc)?);
    let requested = requested.ok_or(CodecError::IncompatibleDimensionality)?;
    decoder.partial_decode(alloc, &requested, &CodecOptions::default())
}

fn read<I: ArrayToBytesCodecTraits, X: ArrayToBytesCodecTraits>(
    alloc: Global,
    mut decoder: ShardingPartialDecoder<'_, I, X, Counted>,
) -> Result<Found, CodecError> {
    let cells = read_cells(alloc, &mut decoder);
    let reads = decoder.close().reads;
    Ok((cells?, reads))
}

// Three elements of an array that a codec encoded.
fn read_through<I: ArrayToBytesCodecTraits, X: ArrayToBytesCodecTraits>(
    alloc: Global,
    codec: &ShardingCodec<I, X>,
    handle: Counted,
) -> Result<Found, CodecError> {
    let shape = shape(alloc, &[8, 8])?;
    let fill = FillValue::from_number(alloc, 0u16)?;
    let options = CodecOptions::default();
    match codec.partial_decoder(alloc, handle, &shape, &DataType::UInt16, &fill, &options) {
        Ok(decoder) => read(alloc, decoder),
        Err((_handle, error)) => Err(error),
    }
}

// Three elements of the stored array.
fn read_stored<I: ArrayToBytesCodecTraits, X: ArrayToBytesCodecTraits>(
    alloc: Global,
    codec: &ShardingCodec<I, X>,
) -> Result<Found, CodecError> {
    let bytes = store(alloc, codec)?;
    read_through(alloc, codec, Counted { bytes, reads: 0 })
}

fn read_three(alloc: Global) -> Result<Found, CodecError> {
    read_stored(alloc, &codec(alloc)?)
}

// Prints the three elements, and how many byte ranges were read for them.
pub fn print_three(rt: &HostRuntime) -> anyhow::Result<()> {
    let (cells, reads) = read_three(rt.alloc())?;
    for place in 0..cells.len() {
        println!(rt; "{:?}", cells.element(place))?;
    }
    println!(rt; "{} ranges were read", reads)?;
    Ok(())
}
