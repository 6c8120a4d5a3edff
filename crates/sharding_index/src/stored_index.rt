// The index of a shard that stands in an interval of an object.
ghost use Rattle.std.specs.Prelude.{◌≡◌, ◌<◌, ◌+◌, ◌*◌, ◌^◌, IsTrue, Some, IfOk, IfErr, OnOk, length};
ghost use Rattle.parts_errors.specs.Order.{done, RefusedBy};
ghost use Rattle.parts_row_major.specs.Numbering.{count_of};
ghost use Rattle.storage_handles.specs.Handles.{IsRead, IsCounted};
ghost use Rattle.storage_handles.specs.Objects.{interval_part, HasInterval, ObjectRefusals, IntervalRefusals};
ghost use Rattle.sharding_format.specs.Index.{numbers_in_index};
ghost use Rattle.sharding_format.specs.DecodeRefusals.{IndexRefusals};
ghost use Rattle.sharding_index.specs.Indexes.{index_meaning, IsIndexPlan};

use crate::index::{IndexCodec, IndexPlan};
use codec_traits::ArrayToBytesCodecTraits;
use parts_errors::{CodecError, CodecOptions};
use sharding_format::ShardIndex;
use std::alloc::Global;
use storage_handles::{BytesPartialDecoderTraits, Interval, check_interval};

/// The index of a shard, after the test of the interval in which it stands. Refused, in this order, as `OutOfBounds` where no object
/// has the interval, as `ShardTooShort`, and as `Damaged` where the index does not decode; or as `Fault`, where the handle failed, or
/// `OutOfMemory`.
pub fn read_index<X: ArrayToBytesCodecTraits, H: BytesPartialDecoderTraits>(
    alloc: Global,
    index_codec: &IndexCodec<'_, X>,
    handle: &mut H,
    interval: Interval,
    plan: &IndexPlan,
    options: &CodecOptions,
) -> Result<ShardIndex, CodecError>
    requires { IsIndexPlan (index_meaning X.meaning index_codec.now.codec.now) plan.now }
    ensures read { IsRead (H.state handle.old) (H.state handle.new) }
    ensures room { OnOk result (interval.offset + interval.size < 2 ^ 64) }
    ensures inside { OnOk result (IsTrue (H.state handle.old).transparent → HasInterval interval (H.state handle.old).contents) }
    ensures len { IfOk result (λ index. index.len ≡ interval.size) }
    ensures counted { IfOk result (λ index. length index.numbers.items ≡ 2 * count_of plan.now.grid) }
    ensures numbers { let index = index_meaning X.meaning index_codec.now.codec.now plan.now.grid in
        IfOk result (λ found. IsTrue (H.state handle.old).transparent
        → numbers_in_index index.cells index_codec.now.location plan.now.size (interval_part interval (H.state handle.old).contents) ≡ Some found.numbers.items) }
    ensures fault { IfErr result (IsCounted (H.state handle.old) (H.state handle.new)) }
    ensures refused { let index = index_meaning X.meaning index_codec.now.codec.now plan.now.grid in
        IfErr result (RefusedBy (ObjectRefusals (H.state handle.old) (H.state handle.new) (
        IntervalRefusals interval (H.state handle.old).contents (λ bytes.
        IndexRefusals index.decode_refusals index.cells index_codec.now.location plan.now.size bytes done)))) }
{
    check_interval(handle, interval)?;
    let index = index_codec.read(alloc, handle, interval, plan, options)?;
    Ok(index)
}
