// The indexes of the shards of an array, which all have one shape.
use crate::whole_chunks::one_entry;
use array_metadata::IndexCodec as ShardsIndexCodec;
use codec_traits::ArrayToBytesCodecTraits;
use parts_errors::{CodecError, CodecOptions};
use parts_subsets::ChunkShape;
use sharding_codec::ShardingCodec;
use sharding_index::{IndexCodec, IndexPlan};
use std::alloc::Global;
use std::marker::Model;

/// The indexes of shards of the codec `sharding_indexed`. What is tested of their shape, is tested once.
#[derive(Drop)]
pub struct ShardIndexes<'a, X: ArrayToBytesCodecTraits> {
    codec: IndexCodec<'a, X>,
    plan: IndexPlan,
}

impl<'a, X: ArrayToBytesCodecTraits> Model for ShardIndexes<'a, X> {
    ghost use Rattle.sharding_index.specs.declared.index.IndexPlan.{IndexPlan};
    ghost use Rattle.sharding_index.specs.Indexes.{index_meaning, IsIndexPlan};

    // what is known of each index
    ghost Value = { IndexPlan };

    ghost view = { λ indexes. indexes.plan };

    ghost invariant = { λ indexes. IsIndexPlan (index_meaning X.meaning indexes.codec.codec.now) indexes.plan };
}

impl<'a, X: ArrayToBytesCodecTraits> ShardIndexes<'a, X> {
    /// The indexes of shards with these subchunks along each axis. Refused as `IndexCodec::plan` refuses.
    pub fn new<I>(
        alloc: Global,
        codec: &'a ShardingCodec<I, X>,
        subchunks: &ChunkShape,
    ) -> Result<Self, CodecError> {
        let codec = IndexCodec {
            codec: &codec.index_codec,
            location: codec.location,
        };
        let plan = codec.plan(alloc, subchunks.try_clone(alloc)?)?;
        Ok(ShardIndexes { codec, plan })
    }
}

impl<X: ArrayToBytesCodecTraits> ShardIndexes<'_, X> {
    // The numbers of an index that has these bytes.
    fn numbers(&self, alloc: Global, bytes: &[u8]) -> Result<Vec<u64>, CodecError> {
        let index = self
            .codec
            .decode(alloc, bytes, &self.plan, &CodecOptions::default())?;
        Ok(index.numbers)
    }
}

/// What decodes the indexes of the shards of an array. A chunk that is no shard is taken as one whose index has no bytes.
#[derive(Drop)]
pub enum IndexDecoder<'a> {
    Indexes(ShardIndexes<'a, ShardsIndexCodec>),
    None,
}

impl IndexDecoder<'_> {
    /// How many bytes each index has.
    pub fn size(&self) -> u64 {
        match self {
            IndexDecoder::Indexes(indexes) => indexes.plan.size,
            IndexDecoder::None => 0,
        }
    }

    /// The numbers of the index of a shard in an object of a length, which has these bytes.
    pub fn numbers(
        &self,
        alloc: Global,
        bytes: &[u8],
        length: u64,
    ) -> Result<Vec<u64>, CodecError> {
        match self {
            IndexDecoder::Indexes(indexes) => indexes.numbers(alloc, bytes),
            IndexDecoder::None => Ok(one_entry(alloc, length)?),
        }
    }
}
