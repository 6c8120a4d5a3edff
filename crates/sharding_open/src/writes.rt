// Writes into a session: all that is read and encoded first, and the one writing call of its handle.
ghost use Rattle.std.specs.Prelude.{◌≡◌, ◌+◌, ◌<◌, ◌^◌, IsTrue, IfOk, IfErr, IfSome, IfNone, OnOk, OnErr, length, replicate};
ghost use Rattle.parts_errors.specs.Order.{done, RefusedBy};
ghost use Rattle.parts_row_major.specs.Numbering.{AllPositive, count_of};
ghost use Rattle.parts_row_major.specs.Subsets.{LiesIn};
ghost use Rattle.parts_subsets.specs.Grid.{grid_of};
ghost use Rattle.parts_arrays.specs.Types.{size_of};
ghost use Rattle.storage_handles.specs.Handles.{IsRead, IsCounted};
ghost use Rattle.storage_handles.specs.Objects.{ObjectRefusals};
ghost use Rattle.storage_handles.specs.Writes.{IsWriting, KeptUnlessFault};
ghost use Rattle.sharding_format.specs.Index.{absent_number};
ghost use Rattle.sharding_format.specs.Serves.{subchunk_spec};
ghost use Rattle.sharding_index.specs.Indexes.{index_meaning};
ghost use Rattle.sharding_write.specs.steps.Changes.{object_after};
ghost use Rattle.sharding_write.specs.Writing.{HoldsNumbers, IsCachedIndex, AreOverlaid};
ghost use Rattle.sharding_engine.specs.Meanings.{inner_of, index_of, meaning_of};
ghost use Rattle.sharding_open.specs.Cached.{object_cells};
ghost use Rattle.sharding_open.specs.OpenShards.{shard_spec, numbers_by};
ghost use Rattle.sharding_open.specs.OpenSessions.{IsOpenSession, numbers_cached};
ghost use Rattle.sharding_open.specs.PreparedWrites.{IsWrittenTo, WriteToRefusals, cached_after};

use crate::session::OpenSession;
use codec_traits::ArrayToBytesCodecTraits;
use parts_errors::{CodecError, CodecOptions};
use sharding_engine::Sharding;
use sharding_index::IndexCodec;
use sharding_layout::CachedIndex;
use sharding_subchunks::Subchunks;
use sharding_write::{Prepared, Update, Writing};
use std::alloc::Global;
use storage_handles::{BytesPartialDecoderTraits, BytesPartialEncoderTraits};

impl OpenSession {
    /// All that a write of an update reads, grows and encodes before its one writing call. Refused, in
    /// this order, as the lowest refused subchunk is that is read (`Damaged`, `TooLarge`), as the lowest refused new one is
    /// (`CannotEncode`, `TooLarge`), as `TooLarge` where the object would reach `usize::MAX` bytes, and as the index codec
    /// refuses the index; or as `Fault`, where the handle failed, or `OutOfMemory`.
    pub fn prepare_write<
        I: ArrayToBytesCodecTraits,
        X: ArrayToBytesCodecTraits,
        H: BytesPartialDecoderTraits,
    >(
        &self,
        sharding: &Sharding<'_, I, X>,
        alloc: Global,
        handle: &mut H,
        update: &Update,
        options: &CodecOptions,
    ) -> Result<Prepared, CodecError>
        requires cached { let s = sharding.now in
            IsOpenSession (meaning_of I.meaning X.meaning s) (index_meaning X.meaning s.index_codec.codec.now) s.index_codec.location s.subchunk_shape.now H.state handle.old self.now }
        requires positive { AllPositive self.now.shard.shape }
        requires inside { LiesIn update.now.subset.now self.now.shard.shape }
        requires kind { update.now.elements.now.kind ≡ size_of self.now.shard.data_type }
        ensures read { IsRead (H.state handle.old) (H.state handle.new) }
        ensures cached { let s = sharding.now in
            IfOk result (λ p. IsCachedIndex s.index_codec.location self.now.plan.size (count_of (grid_of self.now.shard.shape s.subchunk_shape.now)) p.len p.numbers.items) }
        ensures told { IfOk result (λ p. IsTrue (H.state handle.old).transparent
            → HoldsNumbers (numbers_by X.meaning sharding.now (shard_spec self.now.shard)) (object_after p.change (H.state handle.old).contents) p.len p.numbers.items) }
        ensures written { let s = sharding.now in let g = shard_spec self.now.shard in
            IfOk result (λ p. IsTrue (H.state handle.old).transparent
            → IsWrittenTo (inner_of I.meaning s g) (index_of X.meaning s g) s.index_codec.location (subchunk_spec s.subchunk_shape.now g) g update.now.subset.now update.now.elements.now.elements
            (H.state handle.old).contents (numbers_cached self.now.shard.cached self.now.blank.items) (object_after p.change (H.state handle.old).contents) p.numbers.items) }
        ensures cells { let g = shard_spec self.now.shard in let shard = meaning_of I.meaning X.meaning sharding.now g in
            IfOk result (λ p. IsTrue (H.state handle.old).transparent
            → AreOverlaid g.shape update.now.subset.now update.now.elements.now.elements (object_cells shard.cells g (H.state handle.old).contents)
            (object_cells shard.cells g (object_after p.change (H.state handle.old).contents))) }
        ensures fault { IfErr result (IsCounted (H.state handle.old) (H.state handle.new)) }
        ensures refused { let s = sharding.now in let g = shard_spec self.now.shard in
            IfErr result (RefusedBy (ObjectRefusals (H.state handle.old) (H.state handle.new) (
            WriteToRefusals (inner_of I.meaning s g) (index_of X.meaning s g) s.index_codec.location (subchunk_spec s.subchunk_shape.now g) g update.now.subset.now update.now.elements.now.elements
            (H.state handle.old).contents (numbers_cached self.now.shard.cached self.now.blank.items)))) }
    {
        let shard = &self.shard;
        let positions = shard.cells / shard.subchunks;
        let writing = Writing {
            subchunks: Subchunks {
                codec: sharding.inner,
                shape: sharding.subchunk_shape,
                data_type: &shard.data_type,
                fill_value: &shard.fill_value,
                options,
            },
            index_codec: IndexCodec {
                codec: sharding.index_codec.codec,
                location: sharding.index_codec.location,
            },
            plan: &self.plan,
            shape: &shard.shape,
            positions,
        };
        let (len, numbers) = self.cached_index();
        let cached = CachedIndex { len, numbers };
        let prepared = writing.prepare(alloc, handle, &cached, update)?;
        Ok(prepared)
    }

    /// Makes a prepared write by one writing call of the handle, and holds what it leaves. Refused as `Fault`, where the handle
    /// failed, or `OutOfMemory`; a refusal leaves what is held, and one that is no fault leaves the object.
    pub fn write<H: BytesPartialEncoderTraits>(
        &mut self,
        alloc: Global,
        handle: &mut H,
        prepared: Prepared,
    ) -> Result<(), CodecError>
        requires room { IsTrue (H.state handle.old).transparent → IfSome (object_after prepared.change (H.state handle.old).contents) (λ bytes. length bytes + 1 < 2 ^ 64) }
        ensures writing { IsWriting (H.state handle.old) (H.state handle.new) }
        ensures made { OnOk result (IsTrue (H.state handle.old).transparent → (H.state handle.new).contents ≡ object_after prepared.change (H.state handle.old).contents) }
        ensures shard { OnOk result (self.new.shard ≡ record self.old.shard { cached = cached_after prepared.change prepared.len prepared.numbers }) }
        ensures plan { OnOk result (self.new.plan ≡ self.old.plan) }
        ensures blank { OnOk result (IfNone self.new.shard.cached (self.new.blank.items ≡ replicate (length prepared.numbers.items) absent_number)) }
        ensures left { OnErr result (self.new ≡ self.old) }
        ensures kept { IfErr result (KeptUnlessFault (H.state handle.old) (H.state handle.new)) }
        ensures fault { IfErr result (IsCounted (H.state handle.old) (H.state handle.new)) }
        ensures refused { IfErr result (RefusedBy (ObjectRefusals (H.state handle.old) (H.state handle.new) done)) }
    {
        prepared.change.make(alloc, handle)?;
        self.hold(prepared);
        Ok(())
    }
}
