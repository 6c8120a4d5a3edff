// The numbers of the index of a shard, for callers.
ghost use Rattle.std.specs.Prelude.{◌≡◌, ◌<◌, ◌^◌, ◌*◌, Some, IfOk, IfErr, OnOk};
ghost use Rattle.parts_errors.specs.Order.{◌or◌then◌, done, RefusedBy};
ghost use Rattle.parts_row_major.specs.Numbering.{count_of};
ghost use Rattle.parts_errors.specs.declared.error.CodecError.TheVariants.{TooLarge};
ghost use Rattle.sharding_format.specs.Index.{index_spec, numbers_in_index};
ghost use Rattle.sharding_format.specs.Serves.{fixed_size, IndexServes, IndexCodecRefusals};
ghost use Rattle.sharding_format.specs.DecodeRefusals.{IndexRefusals};

use crate::codec::ShardingCodec;
use codec_traits::ArrayToBytesCodecTraits;
use parts_errors::{CodecError, CodecOptions};
use parts_subsets::ChunkShape;
use sharding_index::IndexCodec;
use std::alloc::Global;

impl<I, X: ArrayToBytesCodecTraits> ShardingCodec<I, X> {
    /// The numbers of the index of a shard, two for each subchunk in row-major order: its offset and its size in
    /// bytes, both `u64::MAX` where it is absent (Zarr V3 codec `sharding_indexed`, "Binary shard format").
    /// `chunks_per_shard` is the grid of subchunks. Refused, in this order, as `TooLarge` where the index's bytes
    /// pass `u64::MAX`, as the index codec's `check` refuses, as `TooLarge` or `VariableIndexSize` where the index
    /// has no fixed size, as `ShardTooShort`, and as `Damaged` where the index does not decode; or as `OutOfMemory`.
    pub fn decode_index(
        &self,
        alloc: Global,
        bytes: &[u8],
        chunks_per_shard: &ChunkShape,
        options: &CodecOptions,
    ) -> Result<Vec<u64>, CodecError>
        ensures serves { let x = self.now.index_codec in let g = index_spec chunks_per_shard.now in
            OnOk result (IndexServes (X.meaning x g)) }
        ensures numbers { let x = self.now.index_codec in let g = index_spec chunks_per_shard.now in
            IfOk result (λ numbers. numbers_in_index (X.meaning x g).cells self.now.location (fixed_size (X.meaning x g).representation) bytes.now ≡ Some numbers.items) }
        ensures refused { let x = self.now.index_codec in let g = index_spec chunks_per_shard.now in
            IfErr result (RefusedBy (
            16 * count_of chunks_per_shard.now < 2 ^ 64 or TooLarge then
            IndexCodecRefusals (X.meaning x g) (
            IndexRefusals (X.meaning x g).decode_refusals (X.meaning x g).cells self.now.location (fixed_size (X.meaning x g).representation) bytes.now
            done))) }
    {
        let Some(subchunks) = chunks_per_shard.num_elements() else {
            return Err(CodecError::TooLarge);
        };
        let Some(_) = subchunks.checked_mul(16) else {
            return Err(CodecError::TooLarge);
        };
        let index_codec = IndexCodec {
            codec: &self.index_codec,
            location: self.location,
        };
        let grid = chunks_per_shard.try_clone(alloc)?;
        let plan = index_codec.plan(alloc, grid)?;
        let index = index_codec.decode(alloc, bytes, &plan, options)?;
        Ok(index.numbers)
    }
}
