// Reads of some cells of a session.
ghost use Rattle.std.specs.Prelude.{◌≡◌, false, IsTrue, Some, IfOk, IfErr, OnOk, map, length};
ghost use Rattle.parts_errors.specs.Order.{◌or◌then◌, RefusedBy};
ghost use Rattle.parts_errors.specs.declared.error.CodecError.TheVariants.{SessionFailed};
ghost use Rattle.storage_handles.specs.Handles.{IsCounted};
ghost use Rattle.storage_handles.specs.Objects.{ObjectRefusals};
ghost use Rattle.codec_traits.specs.Reads.{cells_at, IsAnswer, RequestRefusals};
ghost use Rattle.sharding_open.specs.Cached.{object_cells};
ghost use Rattle.sharding_codec.specs.Decoders.{ObjectCellsRefusals};
ghost use Rattle.sharding_codec.specs.Sessions.{IsInStep, IsLeft};

use super::ShardState;
use crate::codec::{ShardingCodec, borrowed};
use codec_traits::ArrayToBytesCodecTraits;
use parts_arrays::ArrayBytes;
use parts_errors::{CodecError, CodecOptions};
use parts_subsets::Indexer;
use std::alloc::Global;
use storage_handles::BytesPartialEncoderTraits;

impl<
    'a,
    I: ArrayToBytesCodecTraits,
    X: ArrayToBytesCodecTraits,
    H: BytesPartialEncoderTraits,
> ShardState<'a, I, X, H> {
    /// Reads the cells that an indexer requests, as a decoder of the object does. Refused as `SessionFailed`, and then as the
    /// decoder's `partial_decode`.
    pub fn partial_decode<N: Indexer>(
        &mut self,
        alloc: Global,
        indexer: &N,
        options: &CodecOptions,
    ) -> Result<ArrayBytes<'static>, CodecError>
        ensures left { IsLeft H.state self.old self.new }
        ensures was_in_step { IsInStep ⟦<ShardingCodec<I, X> as ArrayToBytesCodecTraits>⟧.meaning X.meaning H.state self.old }
        ensures in_step { IsInStep ⟦<ShardingCodec<I, X> as ArrayToBytesCodecTraits>⟧.meaning X.meaning H.state self.new }
        ensures usable { OnOk result (self.old.failed ≡ false) }
        ensures answer { IfOk result (IsAnswer self.old.array_spec (N.selection indexer.now)) }
        ensures answerable { OnOk result ((⟦<ShardingCodec<I, X> as ArrayToBytesCodecTraits>⟧.meaning self.old.codec self.old.array_spec).answerable (length (N.selection indexer.now).points)) }
        ensures cells { let codec = ⟦<ShardingCodec<I, X> as ArrayToBytesCodecTraits>⟧ in let s = self.old.codec in let g = self.old.array_spec in
            IfOk result (λ array. IsTrue (H.state self.old.handle).transparent
            → cells_at (object_cells (codec.meaning s g).cells g (H.state self.old.handle).contents) g.shape (N.selection indexer.now).points ≡ map Some array.elements) }
        ensures fault { IfErr result (IsCounted (H.state self.old.handle) (H.state self.new.handle)) }
        ensures refused { let codec = ⟦<ShardingCodec<I, X> as ArrayToBytesCodecTraits>⟧ in let s = self.old.codec in let g = self.old.array_spec in
            IfErr result (RefusedBy (
            self.old.failed ≡ false or SessionFailed then
            RequestRefusals g (N.selection indexer.now) (codec.meaning s g).answerable (
            ObjectRefusals (H.state self.old.handle) (H.state self.new.handle) (
            ObjectCellsRefusals I.meaning X.meaning s g (H.state self.old.handle).contents (N.selection indexer.now).points)))) }
    {
        if self.failed {
            return Err(CodecError::SessionFailed);
        }
        self.opened.read(
            &borrowed!(self.codec),
            alloc,
            &mut self.handle,
            indexer,
            options,
        )
    }
}
