// The codec of an array's shards, by what commands do with it.
use crate::chunk_encoding::encode_chunk;
use crate::compaction_plans::{Planned, plan_of};
use crate::open_shard::{OpenShard, OpenedShard, whole_index};
use crate::shard_indexes::{IndexDecoder, ShardIndexes};
use crate::whole_chunks::{WholeChunk, one_entry};
use array_codecs::ArrangedCodec;
use array_metadata::{ArrayCodec, ArrayMetadata, ShardsCodec};
use codec_traits::ArrayToBytesCodecTraits;
use parts_arrays::ArrayBytes;
use parts_errors::CodecError;
use parts_subsets::ChunkShape;
use sharding_format::{ShardIndex, ShardingIndexLocation, calculate_chunks_per_shard};
use std::alloc::Global;
use storage_files::HostFile;
use storage_handles::Interval;

/// The file of a shard.
pub type ShardFile<'a> = HostFile<'a>;

/// The codec of an array's shards, without `transpose` before them; a chunk that is no shard is taken as one of one subchunk.
#[derive(Clone, Copy)]
pub enum ShardCodec<'a> {
    Shards(&'a ShardsCodec),
    Chunks(&'a ArrangedCodec),
}

// Tests whether a codec serves the shards of an array.
fn check_served<C: ArrayToBytesCodecTraits>(
    alloc: Global,
    codec: &C,
    metadata: &ArrayMetadata,
) -> Result<(), CodecError> {
    codec.check(
        alloc,
        &metadata.encoded,
        &metadata.data_type,
        &metadata.fill_value,
    )
}

impl<'a> ShardCodec<'a> {
    /// The codec that metadata names.
    pub fn of(metadata: &'a ArrayMetadata) -> Self {
        match &metadata.codec {
            ArrayCodec::Sharded(shards) => ShardCodec::Shards(shards),
            ArrayCodec::Transposed(transposed) => ShardCodec::Shards(&transposed.codec),
            ArrayCodec::Unsharded(codec) => ShardCodec::Chunks(codec),
        }
    }

    /// How many subchunks the shards of an array have along each axis, where the codec serves them.
    pub fn subchunks(
        self,
        alloc: Global,
        metadata: &ArrayMetadata,
    ) -> Result<ChunkShape, CodecError> {
        match self {
            ShardCodec::Shards(codec) => check_served(alloc, codec, metadata)?,
            ShardCodec::Chunks(codec) => check_served(alloc, codec, metadata)?,
        }
        calculate_chunks_per_shard(alloc, &metadata.encoded, &metadata.subchunk)
    }

    /// Opens the shard that a file holds; where it is refused, the file is given back.
    pub fn open(
        self,
        alloc: Global,
        file: ShardFile<'a>,
        metadata: &ArrayMetadata,
    ) -> Result<OpenShard<'a>, (ShardFile<'a>, CodecError)> {
        match self {
            ShardCodec::Shards(codec) => match OpenedShard::open(alloc, codec, file, metadata) {
                Ok(shard) => Ok(OpenShard::Shard(shard)),
                Err(refused) => Err(refused),
            },
            ShardCodec::Chunks(codec) => match WholeChunk::open(codec, file) {
                Ok(chunk) => Ok(OpenShard::Chunk(chunk)),
                Err(refused) => Err(refused),
            },
        }
    }

    /// The indexes of shards with these subchunks along each axis. Refused as `VariableIndexSize` where their size is not fixed.
    pub fn indexes(
        self,
        alloc: Global,
        subchunks: &ChunkShape,
    ) -> Result<IndexDecoder<'a>, CodecError> {
        match self {
            ShardCodec::Shards(codec) => {
                Ok(IndexDecoder::Indexes(ShardIndexes::new(alloc, codec, subchunks)?))
            }
            ShardCodec::Chunks(_) => Ok(IndexDecoder::None),
        }
    }

    /// Whether the index stands at the start or at the end.
    pub fn index_location(self) -> ShardingIndexLocation {
        match self {
            ShardCodec::Shards(codec) => codec.location,
            ShardCodec::Chunks(_) => ShardingIndexLocation::End,
        }
    }

    /// Which bytes of a shard of a length and a shape are its index.
    pub fn index_interval(
        self,
        alloc: Global,
        length: u64,
        shape: &ChunkShape,
    ) -> Result<Interval, CodecError> {
        match self {
            ShardCodec::Shards(codec) => codec.index_interval(alloc, length, shape),
            ShardCodec::Chunks(_) => Ok(Interval {
                offset: length,
                size: 0,
            }),
        }
    }

    /// The index of the shard of a shape that a file of a length holds. Only the index is read, a long one in pieces.
    pub fn read_index(
        self,
        alloc: Global,
        file: &mut ShardFile<'a>,
        length: u64,
        shape: &ChunkShape,
    ) -> Result<ShardIndex, CodecError> {
        match self {
            ShardCodec::Shards(codec) => whole_index(alloc, codec, shape, file, length),
            ShardCodec::Chunks(_) => Ok(ShardIndex {
                len: length,
                numbers: one_entry(alloc, length)?,
            }),
        }
    }

    /// What a compaction does to the shard of a shape in a file. Only its index is read, and is in memory once until a plan is made.
    pub fn plan_compaction(
        self,
        alloc: Global,
        file: &mut ShardFile<'a>,
        shape: &ChunkShape,
        is_dry: bool,
    ) -> Result<Planned, CodecError> {
        match self {
            ShardCodec::Shards(codec) => plan_of(alloc, codec, shape, file, is_dry),
            ShardCodec::Chunks(_) => Ok(Planned::Nothing),
        }
    }

    /// The bytes of a shard that has these elements, in row-major order, or `None` where each of them is the fill value, as
    /// `encode_chunk` says.
    pub fn encode(
        self,
        alloc: Global,
        elements: &ArrayBytes,
        metadata: &ArrayMetadata,
    ) -> Result<Option<Vec<u8>>, CodecError> {
        match self {
            ShardCodec::Shards(codec) => encode_chunk(alloc, codec, elements, metadata),
            ShardCodec::Chunks(codec) => encode_chunk(alloc, codec, elements, metadata),
        }
    }
}
