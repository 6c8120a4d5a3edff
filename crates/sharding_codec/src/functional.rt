// The sharding codec, where each array has one encoding.
ghost use Rattle.std.specs.Prelude.{◌&&◌};
ghost use Rattle.parts_subsets.specs.Grid.{grid_of};
ghost use Rattle.sharding_format.specs.Index.{index_spec};
ghost use Rattle.sharding_format.specs.Serves.{subchunk_spec, layout};
ghost use Rattle.sharding_format.specs.Scratch.{ordered_shard};
ghost use Rattle.sharding_format.specs.WriteOrder.{is_ordered};

use crate::codec::ShardingCodec;
use codec_traits::FunctionalCodec;
use sharding_format::SubchunkWriteOrder;

impl<I: FunctionalCodec, X: FunctionalCodec> FunctionalCodec for ShardingCodec<I, X> {
    ghost functional = { λ s. is_ordered s.order && (I.functional s.inner && X.functional s.index_codec) };

    ghost encoding = { λ s g a. let inner_g = subchunk_spec s.subchunk_shape g in let index_g = index_spec (grid_of g.shape s.subchunk_shape) in
        ordered_shard (I.encoding s.inner inner_g) (X.encoding s.index_codec index_g) (layout s.subchunk_shape s.location s.order (X.meaning s.index_codec index_g).representation g) a };

    /// Where the order leaves one place for each subchunk, as `C` and `Morton` do, and the inner codec and the index codec each have
    /// one encoding of an array.
    fn is_functional(&self) -> bool {
        match self.order {
            SubchunkWriteOrder::C | SubchunkWriteOrder::Morton => {
                self.inner.is_functional() && self.index_codec.is_functional()
            }
            SubchunkWriteOrder::Unordered => false,
        }
    }

    ghost use Rattle.sharding_format.specs.ScratchLaws.{ordered_of_encoding, IsFunctional, functional_parts};

    ghost one_encoding = { λ s g a b functional h array e.
        let parts : IsFunctional s.order (I.functional s.inner) (X.functional s.index_codec) = functional_parts s.order (I.functional s.inner) (X.functional s.index_codec) functional in
        ordered_of_encoding _ _ _ _ s.subchunk_shape s.location s.order _ g a b h.divides array parts.ordered
        (λ x y array written. I.one_encoding s.inner _ x y parts.inner h.inner_served array written)
        (λ x y array written. X.one_encoding s.index_codec _ x y parts.index h.index_served.served array written) e };
}
