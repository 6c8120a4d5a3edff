// A shard whose object another codec encodes anew.
ghost use Rattle.std.specs.Prelude.{◌≡◌, IfOk, IfErr, IfSome, IfNone, IsSomeAnd, OnOk, OnErr, None, vec_len};
ghost use Rattle.parts_subsets.specs.Grid.{grid_of};
ghost use Rattle.parts_errors.specs.Order.{RefusedBy};
ghost use Rattle.storage_handles.specs.Handles.{seen};
ghost use Rattle.zarrs_sharding.specs.Resharding.{IsResharded, ReshardRefusals};
ghost use Rattle.tool_script.specs.Shards.{codec_with, spec_of_shard, state_of, ObjectReshardRefusals};

use crate::codec::{Codec, built_codec};
use crate::shard::{Shard, served_grid};
use std::alloc::Global;
use zarr_codecs::ArrayToBytesCodecTraits;
use zarr_parts::{ChunkShape, CodecError};
use zarrs_sharding::{ShardingIndexLocation, reshard};

impl Shard {
    // The object, encoded anew by another codec; `None` without an object.
    fn encoded_anew(&self, alloc: Global, codec: &Codec) -> Result<Option<Vec<u8>>, CodecError>
        ensures none { IfOk result (λ made. IfNone made (self.now.object ≡ None)) }
        ensures serves { IfOk result (λ made. IfSome made (λ _. (⟦<Codec as ArrayToBytesCodecTraits>⟧.meaning codec.now (spec_of_shard self.now)).serves)) }
        ensures resharded { let c = ⟦<Codec as ArrayToBytesCodecTraits>⟧ in let g = spec_of_shard self.now in
            IfOk result (λ made. IfSome made (λ new. IsSomeAnd self.now.object (λ old.
            IsResharded g (c.meaning self.now.codec g) (c.meaning codec.now g) old.items new.items))) }
        ensures refused { let c = ⟦<Codec as ArrayToBytesCodecTraits>⟧ in let g = spec_of_shard self.now in
            IfErr result (λ e. IsSomeAnd self.now.object (λ old. RefusedBy (
            ReshardRefusals g (c.meaning self.now.codec g) (c.meaning codec.now g) old.items) e)) }
    {
        let Some(object) = &self.object else {
            return Ok(None);
        };
        let made = reshard(
            alloc,
            &self.codec,
            codec,
            object,
            &self.shape,
            &self.element_type.data_type(),
            &self.fill_value,
        )?;
        Ok(Some(made))
    }

    /// Takes the builder's codec for another subchunk shape and place of the index, with the order of subchunks that stands, and
    /// encodes the object anew by it; answers its length, `None` where there is no object. Where that is refused everything
    /// stays as it was. Refused as `reshard` refuses; without an object, as the new codec's `check` does.
    pub fn reshard(
        &mut self,
        alloc: Global,
        subchunk_shape: ChunkShape,
        location: ShardingIndexLocation,
    ) -> Result<Option<usize>, CodecError>
        ensures codec { OnOk result (self.new.codec ≡ codec_with subchunk_shape self.old.element_type location self.old.codec.order) }
        ensures serves { OnOk result (⟦<Codec as ArrayToBytesCodecTraits>⟧.meaning self.new.codec (spec_of_shard self.new)).serves }
        ensures same { OnOk result (state_of self.new ≡ record (state_of self.old) {
          codec = self.new.codec;
          grid = grid_of self.old.shape subchunk_shape;
          object = (state_of self.new).object;
        }) }
        ensures none { IfOk result (λ answer. IfNone answer ((self.old.object ≡ None) × (self.new.object ≡ None))) }
        ensures resharded { let c = ⟦<Codec as ArrayToBytesCodecTraits>⟧ in let g = spec_of_shard self.old in
            IfOk result (λ answer. IfSome answer (λ len. IsSomeAnd self.old.object (λ old. IsSomeAnd self.new.object (λ object. (vec_len object ≡ len)
            × IsResharded g (c.meaning self.old.codec g) (c.meaning self.new.codec g) old.items object.items)))) }
        ensures kept { OnErr result (self.new ≡ self.old) }
        ensures refused { let c = ⟦<Codec as ArrayToBytesCodecTraits>⟧ in let g = spec_of_shard self.old in
            let to = c.meaning (codec_with subchunk_shape self.old.element_type location self.old.codec.order) g in
            IfErr result (RefusedBy (ObjectReshardRefusals g (c.meaning self.old.codec g) to (seen (λ bytes. bytes.items) self.old.object))) }
    {
        let codec = built_codec(
            subchunk_shape,
            self.element_type,
            location,
            self.codec.order,
        );
        let object = self.encoded_anew(alloc, &codec)?;
        let data_type = self.element_type.data_type();
        let grid = served_grid(alloc, &codec, &self.shape, &data_type, &self.fill_value)?;
        self.codec = codec;
        self.chunks_per_shard = grid;
        self.object = object;
        match &self.object {
            Some(object) => Ok(Some(object.len())),
            None => Ok(None),
        }
    }
}
