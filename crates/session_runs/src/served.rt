// A sharding codec with the arrays that it is asked to serve.
ghost use Rattle.std.specs.Prelude.{◌≡◌, false, IsTrue, IfOk, IfErr, MatchOption};
ghost use Rattle.parts_errors.specs.Order.{◌or_as◌then◌, RefusedBy};
ghost use Rattle.parts_arrays.specs.ArraySpec.{array_spec};
ghost use Rattle.storage_handles.specs.Handles.{IsRead, IsCounted};
ghost use Rattle.storage_handles.specs.Objects.{ObjectRefusals};
ghost use Rattle.codec_traits.specs.Refusals.{RefusesUnserved};
ghost use Rattle.sharding_codec.specs.Sessions.{IsInStep, SessionRefusals};
ghost use Rattle.session_runs.specs.Served.{served_spec};

use codec_traits::ArrayToBytesCodecTraits;
use parts_arrays::{DataType, FillValue};
use parts_errors::{CodecError, CodecOptions};
use parts_subsets::ChunkShape;
use sharding_codec::{ShardState, ShardingCodec};
use std::alloc::Global;
use storage_handles::BytesPartialEncoderTraits;

// A codec, and the shape, the data type and the fill value of the arrays that it is asked to serve.
#[derive(Drop)]
pub struct Served<'a, I: ArrayToBytesCodecTraits, X: ArrayToBytesCodecTraits> {
    pub codec: &'a ShardingCodec<I, X>,
    pub shape: &'a ChunkShape,
    pub data_type: &'a DataType,
    pub fill_value: &'a FillValue,
}

impl<'a, I: ArrayToBytesCodecTraits, X: ArrayToBytesCodecTraits> Served<'a, I, X> {
    // Opens a session of a handle's object, as the codec does.
    pub fn open<H: BytesPartialEncoderTraits>(
        &self,
        alloc: Global,
        handle: H,
    ) -> Result<ShardState<'a, I, X, H>, (H, CodecError)>
        ensures codec { IfOk result (λ session. session.codec ≡ self.now.codec.now) }
        ensures spec { IfOk result (λ session. session.array_spec ≡ served_spec self.now) }
        ensures usable { IfOk result (λ session. session.failed ≡ false) }
        ensures read { IfOk result (λ session. IsRead (H.state handle) (H.state session.handle)) }
        ensures in_step { IfOk result (IsInStep ⟦<ShardingCodec<I, X> as ArrayToBytesCodecTraits>⟧.meaning X.meaning H.state) }
        ensures returned { IfErr result (λ e. IsRead (H.state handle) (H.state e.0)) }
        ensures fault { IfErr result (λ e. IsCounted (H.state handle) (H.state e.0) e.1) }
        ensures refused { let codec = ⟦<ShardingCodec<I, X> as ArrayToBytesCodecTraits>⟧ in let s = self.now.codec.now in let g = served_spec self.now in
            IfErr result (λ e. RefusedBy (
            (codec.meaning s g).serves or_as RefusesUnserved (codec.meaning s g) then
            ObjectRefusals (H.state handle) (H.state e.0) (
            SessionRefusals X.meaning s g (H.state handle).contents)) e.1) }
    {
        self.codec.open_state(
            alloc,
            handle,
            self.shape,
            self.data_type,
            self.fill_value,
            &CodecOptions::default(),
        )
    }
}
