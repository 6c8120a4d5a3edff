// What a compaction does to a shard, by its index.
ghost use Rattle.std.specs.Prelude.{◌≡◌, ◌*◌, length};
ghost use Rattle.parts_row_major.specs.Numbering.{count_of};
ghost use Rattle.parts_subsets.specs.Grid.{grid_of};

use crate::open_shard::whole_index;
use codec_traits::ArrayToBytesCodecTraits;
use parts_errors::{CodecError, CodecOptions};
use parts_subsets::ChunkShape;
use sharding_codec::ShardingCodec;
use sharding_format::ShardIndex;
use sharding_layout::{CompactionPlan, compact_size};
use std::alloc::Global;
use storage_handles::BytesPartialDecoderTraits;

/// What a compaction does to a shard.
#[derive(Drop)]
pub enum Planned {
    /// Nothing: there is no file, or the shard is compact.
    Nothing,
    /// It would make it longer, by these bytes.
    Longer(u64),
    /// It saves bytes, by a plan, which a dry run does not make.
    Saves {
        bytes: u64,
        plan: Option<CompactionPlan>,
    },
}

// What a compaction does to a shard that has an index and a size, which is another one once it is compact.
fn plan_of_index<I, X: ArrayToBytesCodecTraits>(
    alloc: Global,
    codec: &ShardingCodec<I, X>,
    shape: &ChunkShape,
    index: ShardIndex,
    sizes: (u64, u64),
    is_dry: bool,
) -> Result<Planned, CodecError>
    requires { length index.numbers.items ≡ 2 * count_of (grid_of shape.now codec.now.subchunk_shape) }
{
    let (length, compacted) = sizes;
    if compacted > length {
        return Ok(Planned::Longer(compacted - length));
    }
    let bytes = length - compacted;
    if bytes == 0 {
        return Ok(Planned::Nothing);
    }
    if is_dry {
        return Ok(Planned::Saves { bytes, plan: None });
    }
    let options = CodecOptions::default();
    match codec.plan_compaction_of_index(alloc, index, shape, &options)? {
        Some(plan) => Ok(Planned::Saves {
            bytes,
            plan: Some(plan),
        }),
        None => Ok(Planned::Nothing),
    }
}

// What a compaction does to the shard in a file.
pub(crate) fn plan_of<I, X: ArrayToBytesCodecTraits, H: BytesPartialDecoderTraits>(
    alloc: Global,
    codec: &ShardingCodec<I, X>,
    shape: &ChunkShape,
    file: &mut H,
    is_dry: bool,
) -> Result<Planned, CodecError> {
    match file.len()? {
        Some(length) => {
            let interval = codec.index_interval(alloc, length, shape)?;
            let index = whole_index(alloc, codec, shape, file, length)?;
            let compacted = compact_size(&index, interval.size)?;
            plan_of_index(alloc, codec, shape, index, (length, compacted), is_dry)
        }
        None => Ok(Planned::Nothing),
    }
}
