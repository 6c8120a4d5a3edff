// Reads of some cells of a session.
ghost use Rattle.std.specs.Prelude.{◌≡◌, IsTrue, Some, IfOk, IfErr, OnOk, map, length};
ghost use Rattle.parts_errors.specs.Order.{RefusedBy};
ghost use Rattle.storage_handles.specs.Handles.{IsRead, IsCounted};
ghost use Rattle.storage_handles.specs.Objects.{ObjectRefusals};
ghost use Rattle.codec_traits.specs.Reads.{cells_at, IsAnswer, RequestRefusals};
ghost use Rattle.sharding_engine.specs.Meanings.{shard_layout, inner_of, index_of, meaning_of};
ghost use Rattle.sharding_open.specs.Cached.{object_cells, CachedCellsRefusals};
ghost use Rattle.sharding_open.specs.OpenShards.{shard_spec, numbers_by, IsKnown};

use crate::requested::read_indexer;
use crate::session::OpenSession;
use codec_traits::ArrayToBytesCodecTraits;
use parts_arrays::ArrayBytes;
use parts_errors::{CodecError, CodecOptions};
use parts_subsets::Indexer;
use sharding_engine::Sharding;
use std::alloc::Global;
use storage_handles::BytesPartialEncoderTraits;

impl OpenSession {
    /// The cells that an indexer requests, as `read_indexer`, through a handle that could be written too: the object stays.
    pub fn read<
        I: ArrayToBytesCodecTraits,
        X: ArrayToBytesCodecTraits,
        H: BytesPartialEncoderTraits,
        N: Indexer,
    >(
        &self,
        sharding: &Sharding<'_, I, X>,
        alloc: Global,
        handle: &mut H,
        indexer: &N,
        options: &CodecOptions,
    ) -> Result<ArrayBytes<'static>, CodecError>
        requires known { let s = sharding.now in
            IsKnown (meaning_of I.meaning X.meaning s) (numbers_by X.meaning s) s.subchunk_shape.now H.state handle.old self.now.shard }
        ensures read { IsRead (H.state handle.old) (H.state handle.new) }
        ensures answer { IfOk result (IsAnswer (shard_spec self.now.shard) (N.selection indexer.now)) }
        ensures answerable { OnOk result ((meaning_of I.meaning X.meaning sharding.now (shard_spec self.now.shard)).answerable (length (N.selection indexer.now).points)) }
        ensures cells { let g = shard_spec self.now.shard in let meant = meaning_of I.meaning X.meaning sharding.now g in
            IfOk result (λ array. IsTrue (H.state handle.old).transparent
            → cells_at (object_cells meant.cells g (H.state handle.old).contents) g.shape (N.selection indexer.now).points ≡ map Some array.elements) }
        ensures fault { IfErr result (IsCounted (H.state handle.old) (H.state handle.new)) }
        ensures refused { let s = sharding.now in let g = shard_spec self.now.shard in let index = index_of X.meaning s g in
            IfErr result (RefusedBy (RequestRefusals g (N.selection indexer.now) (meaning_of I.meaning X.meaning s g).answerable (
            ObjectRefusals (H.state handle.old) (H.state handle.new) (
            CachedCellsRefusals (inner_of I.meaning s g) index (shard_layout s index g) (H.state handle.old).contents (N.selection indexer.now).points)))) }
    {
        read_indexer(&self.shard, sharding, alloc, handle, indexer, options)
    }
}
