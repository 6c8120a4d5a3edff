// Opens a shard for reading and writing.
ghost use Rattle.std.specs.Prelude.{◌≡◌, ◌*◌, false, IfOk, IfErr};
ghost use Rattle.parts_errors.specs.Order.{◌or_as◌then◌, RefusedBy};
ghost use Rattle.parts_arrays.specs.ArraySpec.{array_spec};
ghost use Rattle.storage_handles.specs.Handles.{IsRead, IsCounted};
ghost use Rattle.storage_handles.specs.Objects.{ObjectRefusals};
ghost use Rattle.codec_traits.specs.Refusals.{RefusesUnserved};
ghost use Rattle.sharding_codec.specs.Sessions.{IsInStep, SessionRefusals};

use super::ShardState;
use crate::codec::{ShardingCodec, borrowed};
use codec_traits::ArrayToBytesCodecTraits;
use parts_arrays::{DataType, FillValue};
use parts_errors::{CodecError, CodecOptions};
use parts_subsets::ChunkShape;
use sharding_format::ArraySpecRef;
use sharding_open::OpenSession;
use std::alloc::Global;
use storage_handles::BytesPartialEncoderTraits;

impl<I: ArrayToBytesCodecTraits, X: ArrayToBytesCodecTraits> ShardingCodec<I, X> {
    /// Opens a session of the shard that is a handle's object, or of no object, and reads its index. A refusal gives the
    /// handle back. Refused as `partial_decoder` refuses, and then as `BadIndexEntry` with the number of the lowest subchunk
    /// that is neither absent nor a slice of the data part.
    pub fn open_state<'a, H: BytesPartialEncoderTraits>(
        &'a self,
        alloc: Global,
        mut handle: H,
        shape: &ChunkShape,
        data_type: &DataType,
        fill_value: &FillValue,
        options: &CodecOptions,
    ) -> Result<ShardState<'a, I, X, H>, (H, CodecError)>
        ensures codec { IfOk result (λ session. session.codec ≡ self.now) }
        ensures spec { IfOk result (λ session. session.array_spec ≡ array_spec shape.now data_type.now fill_value.now) }
        ensures usable { IfOk result (λ session. session.failed ≡ false) }
        ensures read { IfOk result (λ session. IsRead (H.state handle) (H.state session.handle)) }
        ensures in_step { IfOk result (IsInStep ⟦<Self as ArrayToBytesCodecTraits>⟧.meaning X.meaning H.state) }
        ensures returned { IfErr result (λ e. IsRead (H.state handle) (H.state e.0)) }
        ensures fault { IfErr result (λ e. IsCounted (H.state handle) (H.state e.0) e.1) }
        ensures refused { let codec = ⟦<Self as ArrayToBytesCodecTraits>⟧ in let s = self.now in let g = array_spec shape.now data_type.now fill_value.now in
            IfErr result (λ e. RefusedBy (
            (codec.meaning s g).serves or_as RefusesUnserved (codec.meaning s g) then
            ObjectRefusals (H.state handle) (H.state e.0) (
            SessionRefusals X.meaning s g (H.state handle).contents)) e.1) }
    {
        let spec = ArraySpecRef {
            shape,
            data_type,
            fill_value,
        };
        match OpenSession::open(&borrowed!(self), alloc, &mut handle, &spec, options) {
            Ok(opened) => Ok(ShardState {
                codec: self,
                handle,
                failed: false,
                opened,
            }),
            Err(error) => Err((handle, error)),
        }
    }
}
