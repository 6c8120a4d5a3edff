// Intervals of an object.
ghost use Rattle.std.specs.Prelude.{◌≡◌, ◌+◌, ◌^◌, ◌<◌, ◌⊎◌, IsTrue, IfErr, OnOk};
ghost use Rattle.parts_errors.specs.Order.{◌or◌then◌, done};
ghost use Rattle.parts_errors.specs.declared.error.CodecError.TheVariants.{OutOfBounds};
ghost use Rattle.storage_handles.specs.Handles.{IsRead, IsCounted};
ghost use Rattle.storage_handles.specs.Objects.{HasInterval, ObjectRefusals};

use crate::bytes::Interval;
use crate::handle::BytesPartialDecoderTraits;
use parts_errors::CodecError;

/// Tests that there is an object which has an interval. Refused as `OutOfBounds`; or as `Fault`, where the handle failed.
pub fn check_interval<H: BytesPartialDecoderTraits>(
    handle: &mut H,
    interval: Interval,
) -> Result<(), CodecError>
    ensures read { IsRead (H.state handle.old) (H.state handle.new) }
    ensures room { OnOk result (interval.offset + interval.size < 2 ^ 64) }
    ensures inside { OnOk result (IsTrue (H.state handle.old).transparent → HasInterval interval (H.state handle.old).contents) }
    ensures counted { IfErr result (IsCounted (H.state handle.old) (H.state handle.new)) }
    ensures refused { IfErr result (ObjectRefusals (H.state handle.old) (H.state handle.new)
        (HasInterval interval (H.state handle.old).contents or OutOfBounds then done)) }
{
    let Some(len) = handle.len()? else {
        return Err(CodecError::OutOfBounds);
    };
    if interval.offset > len || interval.size > len - interval.offset {
        return Err(CodecError::OutOfBounds);
    }
    Ok(())
}
