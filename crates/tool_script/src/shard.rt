// A shard of one codec, for arrays of one shape and type, and its object.
mod resharding;

ghost use Rattle.std.specs.Prelude.{◌≡◌, ◌≤◌, ◌<◌, ◌^◌, ◌*◌, Some, None, Ok, IfOk, IfErr, IfSome, IfNone, IsSomeAnd, OnOk, OnErr, length, map, vec_len};
ghost use Rattle.parts_subsets.specs.Grid.{grid_of};
ghost use Rattle.parts_arrays.specs.ArraySpec.{array_spec};
ghost use Rattle.parts_row_major.specs.Numbering.{count_of};
ghost use Rattle.parts_subsets.specs.Selections.{subset_selection};
ghost use Rattle.parts_errors.specs.Order.{◌or◌then◌, ◌or_as◌then◌, done, RefusedBy};
ghost use Rattle.parts_errors.specs.declared.error.CodecError.TheVariants.{TooLarge};
ghost use Rattle.storage_handles.specs.Handles.{seen};
ghost use Rattle.codec_traits.specs.Reads.{cells_at, RequestRefusals};
ghost use Rattle.codec_traits.specs.Refusals.{RefusesUnserved};
ghost use Rattle.sharding_codec.specs.Decoders.{index_in, object_cells, OpenRefusals, ObjectCellsRefusals};
ghost use Rattle.sharding_codec.specs.Sessions.{SessionRefusals};
ghost use Rattle.sharding_codec.specs.SessionWrites.{WrittenRefusals};
ghost use Rattle.sharding_gather.specs.Updates.{UpdateRefusals, IsUpdateOf};
ghost use Rattle.sharding_write.specs.Writing.{AreOverlaid};
ghost use Rattle.sharding_format.specs.DecodeRefusals.{IndexRefusals};
ghost use Rattle.sharding_format.specs.Index.{index_spec, numbers_in_index};
ghost use Rattle.sharding_format.specs.Serves.{fixed_size, layout, IndexCodecRefusals};
ghost use Rattle.sharding_format.specs.Compacting.{IsCompact};
ghost use Rattle.tool_script.specs.Shards.{codec_of, settings_spec, spec_of_shard, state_of, Opens, OpensWith, OpensToWrite};
ghost use Rattle.tool_script.specs.Answers.{AreShort};
ghost use Rattle.tool_script.specs.Configured.{configured_by, IsRefusal};

use crate::codec::{Codec, built_codec};
use crate::command::Settings;
use crate::configure::{ConfigureError, codec_in};
use crate::element_type::ElementType;
use std::alloc::Global;
use zarr_codecs::{ArrayToBytesCodecTraits, BytesCodec, DefaultArrayToBytesCodec, MemoryHandle};
use zarr_parts::{
    ArrayBytes, ArraySubset, ChunkShape, CodecError, CodecOptions, DataType, FillValue, Indexer,
};
use zarrs_sharding::{SubchunkWriteOrder, calculate_chunks_per_shard};

/// A shard of one shape and type, and its object once something was stored.
#[derive(Drop)]
pub struct Shard {
    codec: Codec,
    shape: ChunkShape,
    chunks_per_shard: ChunkShape,
    pub element_type: ElementType,
    fill_value: FillValue,
    pub object: Option<Vec<u8>>,
}

// The grid of a shard that a codec serves. Refused as the codec's `check` refuses.
fn served_grid(
    alloc: Global,
    codec: &Codec,
    shape: &ChunkShape,
    data_type: &DataType,
    fill_value: &FillValue,
) -> Result<ChunkShape, CodecError>
    ensures grid { IfOk result (λ grid. grid ≡ grid_of shape.now codec.now.subchunk_shape) }
    ensures serves { OnOk result (⟦<Codec as ArrayToBytesCodecTraits>⟧.meaning codec.now (array_spec shape.now data_type.now fill_value.now)).serves }
    ensures refused { let c = ⟦<Codec as ArrayToBytesCodecTraits>⟧ in
        IfErr result (RefusedBy (RefusesUnserved (c.meaning codec.now (array_spec shape.now data_type.now fill_value.now)))) }
{
    codec.check(alloc, shape, data_type, fill_value)?;
    let grid = calculate_chunks_per_shard(alloc, shape, codec.partial_decode_granularity())?;
    Ok(grid)
}

impl Shard {
    /// The shard of these settings, without an object. Refused as the codec's `check` refuses.
    pub fn new(alloc: Global, settings: Settings) -> Result<Self, CodecError>
        ensures made { IfOk result (λ shard. (shard.object ≡ None) × (shard.codec ≡ codec_of settings) × (spec_of_shard shard ≡ settings_spec settings)) }
        ensures refused { let codec = ⟦<Codec as ArrayToBytesCodecTraits>⟧ in let c = codec_of settings in let g = settings_spec settings in
            IfErr result (RefusedBy (RefusesUnserved (codec.meaning c g))) }
    {
        let Settings {
            shape,
            subchunk_shape,
            element_type,
            fill_value,
            location,
        } = settings;
        let data_type = element_type.data_type();
        let codec = built_codec(
            subchunk_shape,
            element_type,
            location,
            SubchunkWriteOrder::C,
        );
        let chunks_per_shard = served_grid(alloc, &codec, &shape, &data_type, &fill_value)?;
        Ok(Shard {
            codec,
            shape,
            chunks_per_shard,
            element_type,
            fill_value,
            object: None,
        })
    }

    /// Takes the codec of a configuration, a text of JSON, for the same arrays, with the order of subchunks that stands; there is
    /// no object then. Where that is refused everything stays as it was. Refused as the text is refused, and then as the codec's `check` refuses.
    pub fn configure(&mut self, alloc: Global, text: &str) -> Result<(), ConfigureError>
        ensures configured { OnOk result (configured_by self.old.codec.order text.now ≡ Ok self.new.codec) }
        ensures serves { OnOk result (⟦<Codec as ArrayToBytesCodecTraits>⟧.meaning self.new.codec (spec_of_shard self.new)).serves }
        ensures same { OnOk result (state_of self.new ≡ record { codec = self.new.codec; array_spec = spec_of_shard self.old; grid = grid_of self.old.shape self.new.codec.subchunk_shape; object = None }) }
        ensures kept { OnErr result (state_of self.new ≡ state_of self.old) }
        ensures refused { let codec = ⟦<Codec as ArrayToBytesCodecTraits>⟧ in
            IfErr result (IsRefusal (configured_by self.old.codec.order text.now) (λ c. RefusesUnserved (codec.meaning c (spec_of_shard self.old)))) }
    {
        let codec = codec_in(alloc, text, self.codec.order)?;
        let data_type = self.element_type.data_type();
        let grid = match served_grid(alloc, &codec, &self.shape, &data_type, &self.fill_value) {
            Ok(grid) => grid,
            Err(error) => return Err(ConfigureError::Codec(error)),
        };
        self.codec = codec;
        self.chunks_per_shard = grid;
        self.object = None;
        Ok(())
    }

    /// Takes another order in which subchunks are written; the object stays.
    pub fn set_order(&mut self, order: SubchunkWriteOrder)
        ensures { state_of self.new ≡ record (state_of self.old) { codec = record self.old.codec { order = order } } }
    {
        self.codec.order = order;
    }

    /// Stores the encoding of these elements, and answers its length. Where that is refused the object stays.
    pub fn encode(&mut self, alloc: Global, elements: &ArrayBytes) -> Result<usize, CodecError>
        ensures ok { IfOk result (λ len. IsSomeAnd self.new.object (λ object. (vec_len object ≡ len)
            × (⟦<Codec as ArrayToBytesCodecTraits>⟧.meaning self.old.codec (spec_of_shard self.old)).written elements.now.elements object.items)) }
        ensures kept { OnErr result (self.new ≡ self.old) }
        ensures refused { let codec = ⟦<Codec as ArrayToBytesCodecTraits>⟧ in let c = self.old.codec in let g = spec_of_shard self.old in
            IfErr result (RefusedBy (
            (codec.meaning c g).serves or_as RefusesUnserved (codec.meaning c g) then
            (codec.meaning c g).encode_refusals elements.now)) }
    {
        let object = self.codec.encode(
            alloc,
            elements,
            &self.shape,
            &self.element_type.data_type(),
            &self.fill_value,
            &CodecOptions::default(),
        )?;
        Ok(self.store(object))
    }

    /// The elements of the object, where there is one.
    pub fn decode(&self, alloc: Global) -> Result<Option<ArrayBytes<'_>>, CodecError>
        ensures none { IfOk result (λ found. IfNone found (self.now.object ≡ None)) }
        ensures cells { let codec = ⟦<Codec as ArrayToBytesCodecTraits>⟧ in
            IfOk result (λ found. IfSome found (λ cells. IsSomeAnd self.now.object (λ object.
            (codec.meaning self.now.codec (spec_of_shard self.now)).cells object.items ≡ map Some cells.elements))) }
        ensures short { IfOk result (λ found. IfSome found AreShort) }
        ensures refused { let codec = ⟦<Codec as ArrayToBytesCodecTraits>⟧ in let c = self.now.codec in let g = spec_of_shard self.now in
            IfErr result (λ e. IsSomeAnd self.now.object (λ object. RefusedBy (
            (codec.meaning c g).serves or_as RefusesUnserved (codec.meaning c g) then
            (codec.meaning c g).decode_refusals object.items) e)) }
    {
        let Some(object) = &self.object else {
            return Ok(None);
        };
        let array = self.codec.decode(
            alloc,
            object,
            &self.shape,
            &self.element_type.data_type(),
            &self.fill_value,
            &CodecOptions::default(),
        )?;
        Ok(Some(array))
    }

    /// The numbers of the object's index, where there is one.
    pub fn index(&self, alloc: Global) -> Result<Option<Vec<u64>>, CodecError>
        ensures none { IfOk result (λ found. IfNone found (self.now.object ≡ None)) }
        ensures numbers { let bytes = ⟦<BytesCodec as ArrayToBytesCodecTraits>⟧ in let c = self.now.codec in let g = index_spec self.now.chunks_per_shard in
            IfOk result (λ found. IfSome found (λ numbers. IsSomeAnd self.now.object (λ object.
            numbers_in_index (bytes.meaning c.index_codec g).cells c.location (fixed_size (bytes.meaning c.index_codec g).representation) object.items ≡ Some numbers.items))) }
        ensures refused { let bytes = ⟦<BytesCodec as ArrayToBytesCodecTraits>⟧ in let c = self.now.codec in let g = index_spec self.now.chunks_per_shard in
            IfErr result (λ e. IsSomeAnd self.now.object (λ object. RefusedBy (
            16 * count_of self.now.chunks_per_shard < 2 ^ 64 or TooLarge then
            IndexCodecRefusals (bytes.meaning c.index_codec g) (
            IndexRefusals (bytes.meaning c.index_codec g).decode_refusals (bytes.meaning c.index_codec g).cells c.location (fixed_size (bytes.meaning c.index_codec g).representation) object.items
            done)) e)) }
    {
        let Some(object) = &self.object else {
            return Ok(None);
        };
        let options = CodecOptions::default();
        let index = self
            .codec
            .decode_index(alloc, object, &self.chunks_per_shard, &options)?;
        Ok(Some(index))
    }

    /// Stores these bytes as the object, and answers its length.
    pub fn store(&mut self, bytes: Vec<u8>) -> usize
        ensures stored { self.new.object ≡ Some bytes }
        ensures len { result ≡ vec_len bytes }
    {
        let len = bytes.len();
        self.object = Some(bytes);
        len
    }

    // What a shard of these bytes is compacted to; nothing where there is nothing to gain.
    fn compaction_of(&self, alloc: Global, bytes: &[u8]) -> Result<Option<Vec<u8>>, CodecError>
        ensures compacted { let codec = ⟦<Codec as ArrayToBytesCodecTraits>⟧ in
            IfOk result (λ answer. IfSome answer (λ new. (codec.meaning self.now.codec (spec_of_shard self.now)).compacted bytes.now new.items)) }
        ensures nothing { let bytes_codec = ⟦<BytesCodec as ArrayToBytesCodecTraits>⟧ in let c = self.now.codec in let g = spec_of_shard self.now in
            let index_g = index_spec (grid_of g.shape c.subchunk_shape) in
            IfOk result (λ answer. IfNone answer (IsCompact (bytes_codec.meaning c.index_codec index_g).cells
            (layout c.subchunk_shape c.location c.order (bytes_codec.meaning c.index_codec index_g).representation g) bytes.now)) }
        ensures refused { let codec = ⟦<Codec as ArrayToBytesCodecTraits>⟧ in
            IfErr result (RefusedBy ((codec.meaning self.now.codec (spec_of_shard self.now)).compact_refusals bytes.now)) }
    {
        let compacted = self.codec.compact(
            alloc,
            bytes,
            &self.shape,
            &self.element_type.data_type(),
            &self.fill_value,
            &CodecOptions::default(),
        )?;
        Ok(compacted)
    }

    /// Compacts the object, and answers its new length; `None`, and the object stays, where there is nothing to gain
    /// or no object. Where that is refused the object stays.
    pub fn compact(&mut self, alloc: Global) -> Result<Option<usize>, CodecError>
        ensures compacted { let codec = ⟦<Codec as ArrayToBytesCodecTraits>⟧ in
            IfOk result (λ answer. IfSome answer (λ len. IsSomeAnd self.old.object (λ old. IsSomeAnd self.new.object (λ object. (vec_len object ≡ len)
            × (codec.meaning self.old.codec (spec_of_shard self.old)).compacted old.items object.items)))) }
        ensures nothing { let bytes = ⟦<BytesCodec as ArrayToBytesCodecTraits>⟧ in let c = self.old.codec in let g = spec_of_shard self.old in
            let index_g = index_spec (grid_of g.shape c.subchunk_shape) in
            IfOk result (λ answer. IfNone answer (IfSome self.old.object (λ object. IsCompact (bytes.meaning c.index_codec index_g).cells
            (layout c.subchunk_shape c.location c.order (bytes.meaning c.index_codec index_g).representation g) object.items))) }
        ensures stays { IfOk result (λ answer. IfNone answer (self.new ≡ self.old)) }
        ensures kept { OnErr result (self.new ≡ self.old) }
        ensures refused { let codec = ⟦<Codec as ArrayToBytesCodecTraits>⟧ in
            IfErr result (λ e. IsSomeAnd self.old.object (λ object. RefusedBy ((codec.meaning self.old.codec (spec_of_shard self.old)).compact_refusals object.items) e)) }
    {
        let Some(object) = &self.object else {
            return Ok(None);
        };
        match self.compaction_of(alloc, object)? {
            Some(bytes) => Ok(Some(self.store(bytes))),
            None => Ok(None),
        }
    }

    /// The cells that an indexer requests, in its order: of the object, or fill values where there is none. The object stays.
    pub fn read<N: Indexer>(
        &mut self,
        alloc: Global,
        indexer: &N,
    ) -> Result<ArrayBytes<'static>, CodecError>
        ensures kept { seen (λ bytes. bytes.items) self.new.object ≡ seen (λ bytes. bytes.items) self.old.object }
        ensures short { IfOk result AreShort }
        ensures cells { let codec = ⟦<Codec as ArrayToBytesCodecTraits>⟧ in let g = spec_of_shard self.old in
            IfOk result (λ array. cells_at (object_cells (codec.meaning self.old.codec g).cells g (seen (λ bytes. bytes.items) self.old.object)) g.shape
            (N.selection indexer.now).points ≡ map Some array.elements) }
        ensures same { state_of self.new ≡ state_of self.old }
        ensures refused { let codec = ⟦<Codec as ArrayToBytesCodecTraits>⟧ in let bytes = ⟦<BytesCodec as ArrayToBytesCodecTraits>⟧ in
            let inner = ⟦<DefaultArrayToBytesCodec as ArrayToBytesCodecTraits>⟧ in let c = self.old.codec in let g = spec_of_shard self.old in let object = seen (λ bytes. bytes.items) self.old.object in
            IfErr result (RefusedBy (
            (codec.meaning c g).serves or_as RefusesUnserved (codec.meaning c g) then
            Opens (index_in bytes.meaning c g) object or_as OpenRefusals bytes.meaning c (grid_of g.shape c.subchunk_shape) object then
            RequestRefusals g (N.selection indexer.now) (codec.meaning c g).answerable (
            ObjectCellsRefusals inner.meaning bytes.meaning c g object (N.selection indexer.now).points))) }
    {
        let handle = MemoryHandle::new(self.object.take());
        let options = CodecOptions::default();
        let opened = self.codec.partial_decoder(
            alloc,
            handle,
            &self.shape,
            &self.element_type.data_type(),
            &self.fill_value,
            &options,
        );
        match opened {
            Ok(mut decoder) => {
                let cells = decoder.partial_decode(alloc, indexer, &options);
                self.object = decoder.close().into_inner();
                cells
            }
            Err((handle, error)) => {
                self.object = handle.into_inner();
                Err(error)
            }
        }
    }

    /// Writes elements over the cells of a subset. Where it is refused the object stays. Refused as a session on the object is
    /// opened, and then as its `partial_encode` refuses.
    pub fn write(
        &mut self,
        alloc: Global,
        subset: &ArraySubset,
        elements: &ArrayBytes,
    ) -> Result<(), CodecError>
        ensures same { state_of self.new ≡ record (state_of self.old) { object = (state_of self.new).object } }
        ensures cells { let codec = ⟦<Codec as ArrayToBytesCodecTraits>⟧ in let c = self.old.codec in let g = spec_of_shard self.old in
            OnOk result (AreOverlaid g.shape subset.now elements.now.elements (object_cells (codec.meaning c g).cells g (state_of self.old).object)
            (object_cells (codec.meaning c g).cells g (state_of self.new).object)) }
        ensures passed { let codec = ⟦<Codec as ArrayToBytesCodecTraits>⟧ in let bytes = ⟦<BytesCodec as ArrayToBytesCodecTraits>⟧ in
            let c = self.old.codec in let g = spec_of_shard self.old in
            OnOk result ((codec.meaning c g).serves × OpensToWrite bytes.meaning c g (state_of self.old).object
            × IsUpdateOf g.shape g.data_type (subset_selection subset.now) elements.now) }
        ensures kept { OnErr result (state_of self.new ≡ state_of self.old) }
        ensures refused { let codec = ⟦<Codec as ArrayToBytesCodecTraits>⟧ in let bytes = ⟦<BytesCodec as ArrayToBytesCodecTraits>⟧ in
            let inner = ⟦<DefaultArrayToBytesCodec as ArrayToBytesCodecTraits>⟧ in let c = self.old.codec in let g = spec_of_shard self.old in
            let object = (state_of self.old).object in
            IfErr result (RefusedBy (
            (codec.meaning c g).serves or_as RefusesUnserved (codec.meaning c g) then
            OpensToWrite bytes.meaning c g object or_as SessionRefusals bytes.meaning c g object then
            UpdateRefusals g.shape g.data_type (subset_selection subset.now) elements.now (λ e. OpensWith bytes.meaning c g object (λ numbers.
            WrittenRefusals inner.meaning bytes.meaning c g subset.now elements.now.elements object numbers e)))) }
    {
        let handle = MemoryHandle::new(self.object.take());
        let options = CodecOptions::default();
        let opened = self.codec.open_state(
            alloc,
            handle,
            &self.shape,
            &self.element_type.data_type(),
            &self.fill_value,
            &options,
        );
        match opened {
            Ok(mut session) => {
                let written = session.partial_encode(alloc, subset, elements, &options);
                self.object = session.close().into_inner();
                written
            }
            Err((handle, refusal)) => {
                self.object = handle.into_inner();
                Err(refusal)
            }
        }
    }

    /// Erases the object. Where its opening is refused it stays.
    pub fn erase(&mut self, alloc: Global) -> Result<(), CodecError>
        ensures erased { OnOk result (state_of self.new ≡ record (state_of self.old) { object = None }) }
        ensures kept { OnErr result (state_of self.new ≡ state_of self.old) }
        ensures refused { let codec = ⟦<Codec as ArrayToBytesCodecTraits>⟧ in let bytes = ⟦<BytesCodec as ArrayToBytesCodecTraits>⟧ in
            let c = self.old.codec in let g = spec_of_shard self.old in
            IfErr result (RefusedBy (
            (codec.meaning c g).serves or_as RefusesUnserved (codec.meaning c g) then
            SessionRefusals bytes.meaning c g (seen (λ bytes. bytes.items) self.old.object))) }
    {
        let handle = MemoryHandle::new(self.object.take());
        let opened = self.codec.open_state(
            alloc,
            handle,
            &self.shape,
            &self.element_type.data_type(),
            &self.fill_value,
            &CodecOptions::default(),
        );
        match opened {
            Ok(mut session) => {
                let erased = session.erase();
                self.object = session.close().into_inner();
                erased
            }
            Err((handle, refusal)) => {
                self.object = handle.into_inner();
                Err(refusal)
            }
        }
    }
}
