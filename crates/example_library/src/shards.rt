// A shard of 8 by 8 numbers in four subchunks, with the fill value 0, in a file.
use std::alloc::Global;
use std::ops::Range;
use storage_files::FileHandle;
use zarr_codecs::{
    ArrayToBytesCodecTraits, ByteRange, BytesCodec, BytesPartialDecoderTraits,
    BytesPartialEncoderTraits, copy_range,
};
use zarr_parts::{
    ArrayBytes, ArraySubset, ChunkShape, CodecError, CodecOptions, DataType, FillValue,
};
use zarrs_sharding::{ShardState, ShardingCodec, ShardingIndexLocation};

pub type File = FileHandle<HostRuntime>;

pub type Session<'a> = ShardState<'a, BytesCodec, BytesCodec, File>;

#[derive(Drop)]
pub struct Shards {
    codec: ShardingCodec<BytesCodec, BytesCodec>,
    shape: ChunkShape,
    fill: FillValue,
}

fn shape_of(alloc: Global, axes: &[u64]) -> Result<ChunkShape, CodecError> {
    ChunkShape::new(alloc, axes)?.ok_or(CodecError::InvalidSubchunkShape)
}

impl Shards {
    pub fn new(alloc: Global) -> Result<Self, CodecError> {
        let (inner, index) = (BytesCodec::little(), BytesCodec::little());
        let subchunk = shape_of(alloc, &[4, 4])?;
        Ok(Shards {
            codec: ShardingCodec::new(subchunk, inner, index, ShardingIndexLocation::End),
            shape: shape_of(alloc, &[8, 8])?,
            fill: FillValue::from_number(alloc, 0u16)?,
        })
    }

    // A session over a file.
    pub fn open(&self, alloc: Global, file: File) -> Result<Session<'_>, (File, CodecError)> {
        self.codec.open_state(
            alloc,
            file,
            &self.shape,
            &DataType::UInt16,
            &self.fill,
            &CodecOptions::default(),
        )
    }

    // Replaces a file that has dead bytes by one without, and says whether there were any.
    pub fn compact(&self, alloc: Global, file: &mut File) -> Result<bool, CodecError> {
        let Some(bytes) = copy_range(file, alloc, ByteRange::FromStart(0, None))? else {
            return Ok(false);
        };
        let options = CodecOptions::default();
        let made = self.codec.compact(
            alloc,
            &bytes,
            &self.shape,
            &DataType::UInt16,
            &self.fill,
            &options,
        )?;
        match made {
            Some(compacted) => {
                file.replace(alloc, &compacted)?;
                Ok(true)
            }
            None => Ok(false),
        }
    }
}

// The numbers of a subset.
pub fn read(
    alloc: Global,
    session: &mut Session,
    ranges: [Range<u64>; 2],
) -> Result<Vec<u16>, CodecError> {
    let requested = ArraySubset::from_ranges(alloc, &ranges)?;
    let cells = session.partial_decode(alloc, &requested, &CodecOptions::default())?;
    cells.to_numbers(alloc)
}

// Writes numbers to a subset.
pub fn write(
    alloc: Global,
    session: &mut Session,
    ranges: [Range<u64>; 2],
    numbers: &[u16],
) -> Result<(), CodecError> {
    let written = ArraySubset::from_ranges(alloc, &ranges)?;
    let cells = ArrayBytes::from_numbers(alloc, numbers)?;
    session.partial_encode(alloc, &written, &cells, &CodecOptions::default())
}

// The length of a file, or `None` if there is none.
pub fn length_of(mut file: File) -> Result<Option<u64>, CodecError> {
    file.len()
}
