// Reads of some cells of a shard that is open.
ghost use Rattle.std.specs.Prelude.{◌≡◌, IsTrue, Some, IfOk, IfErr, map, length};
ghost use Rattle.std.specs.List.{All};
ghost use Rattle.parts_errors.specs.Order.{RefusedBy};
ghost use Rattle.parts_row_major.specs.Numbering.{IsInside};
ghost use Rattle.parts_subsets.specs.Selections.{IsSelectionOf};
ghost use Rattle.storage_handles.specs.Handles.{IsRead, IsCounted};
ghost use Rattle.storage_handles.specs.Objects.{ObjectRefusals};
ghost use Rattle.codec_traits.specs.Reads.{cells_at, IsAnswer};
ghost use Rattle.sharding_engine.specs.Meanings.{shard_layout, inner_of, index_of, meaning_of};
ghost use Rattle.sharding_open.specs.Cached.{object_cells, CachedCellsRefusals};
ghost use Rattle.sharding_open.specs.OpenShards.{shard_spec, numbers_by, IsKnown};

use crate::shard::OpenShard;
use codec_traits::ArrayToBytesCodecTraits;
use parts_arrays::ArrayBytes;
use parts_errors::{CodecError, CodecOptions};
use parts_subsets::Indexer;
use sharding_engine::Sharding;
use sharding_gather::filled;
use sharding_subchunks::{StoredShard, Subchunks};
use std::alloc::Global;
use storage_handles::{BytesPartialDecoderTraits, Interval};

// The shard that an object is, with its index.
macro_rules! stored {
    ($open:expr, $sharding:expr, $index:expr, $options:expr) => {
        StoredShard {
            subchunks: Subchunks {
                codec: $sharding.inner,
                shape: $sharding.subchunk_shape,
                data_type: &$open.data_type,
                fill_value: &$open.fill_value,
                options: $options,
            },
            interval: Interval {
                offset: 0,
                size: $index.len,
            },
            index: $index,
            shape: &$open.shape,
            cells: $open.cells,
            grid: &$open.grid,
        }
    };
}

pub(crate) use stored;

impl OpenShard {
    /// The cells that an indexer requests, in its order, by the cached index; the count is theirs. Without an object each is the fill
    /// value. Refused, in this order, as the lowest refused subchunk is in which cells are asked (`BadIndexEntry` with its
    /// number, `Damaged`, `TooLarge`), and as `TooLarge` where the lengths of the requested cells pass `usize::MAX`; or as `Fault`,
    /// where the handle failed, or `OutOfMemory`.
    pub fn read<
        I: ArrayToBytesCodecTraits,
        X: ArrayToBytesCodecTraits,
        H: BytesPartialDecoderTraits,
        N: Indexer,
    >(
        &self,
        sharding: &Sharding<'_, I, X>,
        alloc: Global,
        handle: &mut H,
        count: u64,
        indexer: &N,
        options: &CodecOptions,
    ) -> Result<ArrayBytes<'static>, CodecError>
        requires known { let s = sharding.now in
            IsKnown (meaning_of I.meaning X.meaning s) (numbers_by X.meaning s) s.subchunk_shape.now H.state handle.old self.now }
        requires selection { IsSelectionOf self.now.shape (N.selection indexer.now) }
        requires points { All (λ point. IsInside point self.now.shape) (N.selection indexer.now).points }
        requires count { count ≡ length (N.selection indexer.now).points }
        ensures read { IsRead (H.state handle.old) (H.state handle.new) }
        ensures answer { IfOk result (IsAnswer (shard_spec self.now) (N.selection indexer.now)) }
        ensures cells { let g = shard_spec self.now in let shard = meaning_of I.meaning X.meaning sharding.now g in
            IfOk result (λ array. IsTrue (H.state handle.old).transparent
            → cells_at (object_cells shard.cells g (H.state handle.old).contents) g.shape (N.selection indexer.now).points ≡ map Some array.elements) }
        ensures fault { IfErr result (IsCounted (H.state handle.old) (H.state handle.new)) }
        ensures refused { let s = sharding.now in let g = shard_spec self.now in let index = index_of X.meaning s g in
            IfErr result (RefusedBy (ObjectRefusals (H.state handle.old) (H.state handle.new) (
            CachedCellsRefusals (inner_of I.meaning s g) index (shard_layout s index g) (H.state handle.old).contents (N.selection indexer.now).points))) }
    {
        let Some(index) = &self.cached else {
            let fill = filled(alloc, &self.data_type, count, &self.fill_value)?;
            return Ok(fill);
        };
        let shard = stored!(self, sharding, index, options);
        let array = shard.read_requested(alloc, handle, indexer, count)?;
        Ok(array)
    }
}
