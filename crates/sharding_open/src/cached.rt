// What is held of a handle's object.
ghost use Rattle.std.specs.Prelude.{◌≡◌, ◌≤◌, ◌+◌, ◌^◌, ◌<◌, ◌*◌, IsTrue, IfOk, IfErr, IfSome, length};
ghost use Rattle.parts_errors.specs.Order.{done, RefusedBy};
ghost use Rattle.parts_row_major.specs.Numbering.{count_of};
ghost use Rattle.storage_handles.specs.Handles.{IsRead, IsCounted};
ghost use Rattle.storage_handles.specs.Objects.{ObjectRefusals};
ghost use Rattle.sharding_format.specs.Index.{numbers_in_index};
ghost use Rattle.sharding_index.specs.Indexes.{index_meaning, IsIndexPlan};
ghost use Rattle.sharding_open.specs.Cached.{HoldsIndex, cached_len, cached_numbers, ObjectIndexRefusals};

use codec_traits::ArrayToBytesCodecTraits;
use parts_errors::{CodecError, CodecOptions};
use sharding_format::ShardIndex;
use sharding_index::{IndexCodec, IndexPlan};
use std::alloc::Global;
use storage_handles::{BytesPartialDecoderTraits, Interval};

// The index of a handle's object. Without an object no memory is asked.
pub(crate) fn read_cached_index<X: ArrayToBytesCodecTraits, H: BytesPartialDecoderTraits>(
    index_codec: &IndexCodec<'_, X>,
    alloc: Global,
    handle: &mut H,
    plan: &IndexPlan,
    options: &CodecOptions,
) -> Result<Option<ShardIndex>, CodecError>
    requires { IsIndexPlan (index_meaning X.meaning index_codec.now.codec.now) plan.now }
    ensures read { IsRead (H.state handle.old) (H.state handle.new) }
    ensures room { IfOk result (λ cached. cached_len cached + 1 < 2 ^ 64) }
    ensures enough { IfOk result (λ cached. IfSome cached (λ index. plan.now.size ≤ index.len)) }
    ensures counted { IfOk result (λ cached. IfSome (cached_numbers cached) (λ numbers. length numbers ≡ 2 * count_of plan.now.grid)) }
    ensures cached { let index = index_meaning X.meaning index_codec.now.codec.now plan.now.grid in
        IfOk result (λ cached. IsTrue (H.state handle.old).transparent
        → HoldsIndex (numbers_in_index index.cells index_codec.now.location plan.now.size) (H.state handle.old).contents (cached_len cached) (cached_numbers cached)) }
    ensures fault { IfErr result (IsCounted (H.state handle.old) (H.state handle.new)) }
    ensures refused { let index = index_meaning X.meaning index_codec.now.codec.now plan.now.grid in
        IfErr result (RefusedBy (ObjectRefusals (H.state handle.old) (H.state handle.new) (
        ObjectIndexRefusals index index_codec.now.location (H.state handle.old).contents (λ bytes. done)))) }
{
    let Some(len) = handle.len()? else {
        return Ok(None);
    };
    if len == u64::MAX {
        return Err(CodecError::TooLarge);
    }
    let whole = Interval {
        offset: 0,
        size: len,
    };
    let index = index_codec.read(alloc, handle, whole, plan, options)?;
    Ok(Some(index))
}
