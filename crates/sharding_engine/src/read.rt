// Some cells of a shard that stands in an interval of an object.
ghost use Rattle.std.specs.Prelude.{◌≡◌, IsTrue, IfOk, IfErr, length};
ghost use Rattle.std.specs.List.{All};
ghost use Rattle.parts_errors.specs.Order.{RefusedBy};
ghost use Rattle.parts_row_major.specs.Numbering.{IsInside};
ghost use Rattle.parts_subsets.specs.Selections.{IsSelectionOf};
ghost use Rattle.storage_handles.specs.Handles.{IsRead, IsCounted};
ghost use Rattle.codec_traits.specs.Reads.{IsAnswer, IsReadOf};
ghost use Rattle.storage_handles.specs.Objects.{ObjectRefusals, IntervalRefusals};
ghost use Rattle.sharding_index.specs.Indexes.{index_meaning};
ghost use Rattle.sharding_engine.specs.Meanings.{meaning_of};
ghost use Rattle.sharding_index.specs.steps.Plans.{spec_of, IsPlan};

use crate::plan::Planned;
use crate::sharding::Sharding;
use codec_traits::ArrayToBytesCodecTraits;
use parts_arrays::ArrayBytes;
use parts_errors::CodecError;
use parts_subsets::Indexer;
use sharding_index::read_index;
use std::alloc::Global;
use storage_handles::{BytesPartialDecoderTraits, Interval};

/// A shard that stands in an interval of an object, and what is known of it before its bytes are looked at.
#[derive(Clone, Copy)]
pub(crate) struct PlannedShard<'a> {
    pub(crate) interval: Interval,
    pub(crate) planned: Planned<'a>,
}

// Such a shard by its index: written out where it is read, so that a proof sees what each field is.
macro_rules! stored {
    ($sharding:expr, $shard:expr, $index:expr) => {
        sharding_subchunks::StoredShard {
            subchunks: crate::plan::subchunks!($sharding, $shard.planned),
            interval: $shard.interval,
            index: $index,
            shape: $shard.planned.spec.shape,
            cells: $shard.planned.plan.cells,
            grid: &$shard.planned.plan.index.grid,
        }
    };
}

pub(crate) use stored;

impl<I: ArrayToBytesCodecTraits, X: ArrayToBytesCodecTraits> Sharding<'_, I, X> {
    /// The cells that an indexer asks of a shard, after the tests of the shard and of what is asked; the count is theirs. Refused, in
    /// this order, as `OutOfBounds` where no object has the interval, as `ShardTooShort`, as `Damaged` where the index does not decode,
    /// as the lowest refused subchunk is (`BadIndexEntry` with its number, `Damaged`, `TooLarge`), and as `TooLarge` where the lengths
    /// of the requested cells pass `usize::MAX`; or as `Fault`, where the handle failed, or `OutOfMemory`.
    pub(crate) fn read_planned<H: BytesPartialDecoderTraits, N: Indexer>(
        &self,
        alloc: Global,
        handle: &mut H,
        shard: &PlannedShard,
        indexer: &N,
        count: u64,
    ) -> Result<ArrayBytes<'static>, CodecError>
        requires serves { (meaning_of I.meaning X.meaning self.now (spec_of shard.now.planned.spec)).serves }
        requires plan { IsPlan (index_meaning X.meaning self.now.index_codec.codec.now) shard.now.planned.spec.shape.now self.now.subchunk_shape.now shard.now.planned.plan.now }
        requires selection { IsSelectionOf shard.now.planned.spec.shape.now (N.selection indexer.now) }
        requires count { count ≡ length (N.selection indexer.now).points }
        requires points { All (λ point. IsInside point shard.now.planned.spec.shape.now) (N.selection indexer.now).points }
        ensures read { IsRead (H.state handle.old) (H.state handle.new) }
        ensures answer { IfOk result (IsAnswer (spec_of shard.now.planned.spec) (N.selection indexer.now)) }
        ensures cells { let g = spec_of shard.now.planned.spec in
            IfOk result (λ array. IsTrue (H.state handle.old).transparent
            → IsReadOf (meaning_of I.meaning X.meaning self.now g).cells shard.now.interval (H.state handle.old).contents shard.now.planned.spec.shape.now (N.selection indexer.now).points array.elements) }
        ensures fault { IfErr result (IsCounted (H.state handle.old) (H.state handle.new)) }
        ensures refused { let g = spec_of shard.now.planned.spec in
            IfErr result (RefusedBy (ObjectRefusals (H.state handle.old) (H.state handle.new) (
            IntervalRefusals shard.now.interval (H.state handle.old).contents (λ b. (meaning_of I.meaning X.meaning self.now g).read_refusals b (N.selection indexer.now).points)))) }
    {
        let index = read_index(
            alloc,
            &self.index_codec,
            handle,
            shard.interval,
            &shard.planned.plan.index,
            shard.planned.options,
        )?;
        let stored = stored!(self, shard, &index);
        let array = stored.read_requested(alloc, handle, indexer, count)?;
        Ok(array)
    }
}
