// Writes into a session.
ghost use Rattle.std.specs.Prelude.{◌≡◌, false, IsTrue, IfErr, IfSome, OnOk};
ghost use Rattle.parts_errors.specs.Order.{◌or◌then◌, RefusedBy};
ghost use Rattle.parts_errors.specs.declared.error.CodecError.TheVariants.{SessionFailed};
ghost use Rattle.storage_handles.specs.Handles.{IsCounted};
ghost use Rattle.storage_handles.specs.Objects.{ObjectRefusals};
ghost use Rattle.sharding_gather.specs.Updates.{UpdateRefusals, IsUpdateOf};
ghost use Rattle.sharding_write.specs.Writing.{AreOverlaid};
ghost use Rattle.sharding_open.specs.Cached.{object_cells};
ghost use Rattle.sharding_codec.specs.Sessions.{IsInStep, IsDone, IsLeftOrFailed};
ghost use Rattle.sharding_codec.specs.SessionWrites.{IsWritten, WrittenRefusals, SubsetIndexerRefusals};

use super::ShardState;
use crate::codec::{ShardingCodec, borrowed};
use codec_traits::ArrayToBytesCodecTraits;
use parts_arrays::ArrayBytes;
use parts_errors::{CodecError, CodecOptions};
use parts_subsets::Indexer;
use sharding_gather::check_update;
use sharding_write::Update;
use std::alloc::Global;
use storage_handles::BytesPartialEncoderTraits;

impl<
    'a,
    I: ArrayToBytesCodecTraits,
    X: ArrayToBytesCodecTraits,
    H: BytesPartialEncoderTraits,
> ShardState<'a, I, X, H> {
    /// Writes elements over the cells of a subset, in row-major order of this. Only the subchunks that it touches are encoded,
    /// and of these only those that are stored and not covered are read; all others stay as they are. The new slices go behind
    /// the old ones, or, where no other subchunk is stored, the shard starts anew; where none is stored then, the object goes.
    /// Refused, in this order, as `SessionFailed`, as `UnsupportedIndexer` where the indexer is no subset, as
    /// `IncompatibleDimensionality`, as `OutOfBounds`, as `WrongElementKind`, as `InvalidNumberOfElements`, as the lowest
    /// refused subchunk is that is read (`Damaged`, `TooLarge`), as the lowest refused new one is (`CannotEncode`, `TooLarge`),
    /// as `TooLarge` where the object would reach `usize::MAX` bytes, and as the index codec refuses the index; or as `Fault`,
    /// where the handle failed, or `OutOfMemory`. By a fault of its one writing call the session is failed; each other refusal
    /// leaves session and object.
    pub fn partial_encode<N: Indexer>(
        &mut self,
        alloc: Global,
        indexer: &N,
        bytes: &ArrayBytes,
        options: &CodecOptions,
    ) -> Result<(), CodecError>
        ensures was_in_step { IsInStep ⟦<ShardingCodec<I, X> as ArrayToBytesCodecTraits>⟧.meaning X.meaning H.state self.old }
        ensures in_step { IsInStep ⟦<ShardingCodec<I, X> as ArrayToBytesCodecTraits>⟧.meaning X.meaning H.state self.new }
        ensures done { OnOk result (IsDone H.state self.old self.new) }
        ensures update { OnOk result (IsUpdateOf self.old.array_spec.shape self.old.array_spec.data_type (N.selection indexer.now) bytes.now) }
        ensures written { OnOk result (IsTrue (H.state self.old.handle).transparent → IfSome (N.selection indexer.now).subset (λ subset.
            IsWritten I.meaning X.meaning self.old.codec self.old.array_spec subset bytes.now.elements
            (H.state self.old.handle).contents self.old.index (H.state self.new.handle).contents self.new.index)) }
        ensures cells { let codec = ⟦<ShardingCodec<I, X> as ArrayToBytesCodecTraits>⟧ in let s = self.old.codec in let g = self.old.array_spec in
            OnOk result (IsTrue (H.state self.old.handle).transparent → IfSome (N.selection indexer.now).subset (λ subset.
            AreOverlaid g.shape subset bytes.now.elements (object_cells (codec.meaning s g).cells g (H.state self.old.handle).contents)
            (object_cells (codec.meaning s g).cells g (H.state self.new.handle).contents))) }
        ensures failed { IfErr result (IsLeftOrFailed H.state self.old self.new) }
        ensures fault { IfErr result (IsCounted (H.state self.old.handle) (H.state self.new.handle)) }
        ensures refused { let s = self.old.codec in let g = self.old.array_spec in let old = H.state self.old.handle in
            IfErr result (RefusedBy (
            self.old.failed ≡ false or SessionFailed then
            UpdateRefusals g.shape g.data_type (N.selection indexer.now) bytes.now (
            ObjectRefusals old (H.state self.new.handle) (
            SubsetIndexerRefusals (N.selection indexer.now).subset (λ subset. WrittenRefusals I.meaning X.meaning s g subset bytes.now.elements old.contents self.old.index))))) }
    {
        if self.failed {
            return Err(CodecError::SessionFailed);
        }
        let shard = &self.opened.shard;
        let subset = check_update(indexer, &shard.shape, &shard.data_type, bytes)?;
        let update = Update {
            subset,
            elements: bytes,
        };
        let prepared = self.opened.prepare_write(
            &borrowed!(self.codec),
            alloc,
            &mut self.handle,
            &update,
            options,
        )?;
        if let Err(error) = self.opened.write(alloc, &mut self.handle, prepared) {
            self.failed = error == CodecError::Fault;
            return Err(error);
        }
        Ok(())
    }
}
