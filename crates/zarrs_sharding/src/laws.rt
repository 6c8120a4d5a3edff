// What callers learn from the sharding codec's laws, each as the contract of a call.
ghost use Rattle.std.specs.Prelude.{◌≡◌, ◌&&◌, ℕ, Some, None, IsTrue, IfOk, IfErr, IfSome, IfNone, IsSome, map};
ghost use Rattle.parts_errors.specs.Order.{◌or_as◌then◌, RefusedBy};
ghost use Rattle.parts_row_major.specs.Numbering.{count_of};
ghost use Rattle.parts_subsets.specs.Grid.{grid_of};
ghost use Rattle.parts_arrays.specs.ArraySpec.{array_spec, IsArrayOf};
ghost use Rattle.parts_arrays.specs.Types.{size_of, byte_size};
ghost use Rattle.parts_arrays.specs.declared.data_type.DataTypeSize.TheVariants.{Fixed};
ghost use Rattle.parts_errors.specs.declared.error.CodecError.TheVariants.{OutOfMemory, BadIndexEntry};
ghost use Rattle.codec_traits.specs.Cells.{all_there};
ghost use Rattle.codec_traits.specs.Refusals.{RefusesUnserved, MayRefuseEncode, MayRefuseDecode, MayRefuseCompact};
ghost use Rattle.sharding_format.specs.Index.{index_spec};
ghost use Rattle.sharding_format.specs.Holding.{Holds};
ghost use Rattle.sharding_format.specs.Compacting.{IsCompact};
ghost use Rattle.sharding_format.specs.Scratch.{scratch};
ghost use Rattle.sharding_format.specs.Serves.{subchunk_spec};
ghost use Rattle.sharding_index.specs.steps.Plans.{spec_of};
ghost use Rattle.sharding_codec.specs.Meanings.{layout_in};
ghost use Rattle.sharding_format.specs.DecodeRefusals.{IsLowestBad};
ghost use Rattle.storage_handles.specs.Handles.{seen};
ghost use Rattle.storage_handles.specs.Objects.{ObjectRefusals};
ghost use Rattle.codec_traits.specs.Reads.{RequestRefusals};
ghost use Rattle.sharding_write.specs.Writing.{AreOverlaid, AreReadAfter};
ghost use Rattle.sharding_codec.specs.Decoders.{index_in, object_cells, ObjectCellsRefusals, Unmoved};

use codec_traits::{ArrayToBytesCodecTraits, FunctionalCodec};
use parts_arrays::{ArrayBytes, DataType, FillValue};
use parts_errors::{CodecError, CodecOptions};
use parts_subsets::{ArraySubset, ChunkShape, Indexer};
use sharding_codec::{ShardingCodec, ShardingPartialDecoder};
use sharding_format::ArraySpecRef;
use std::alloc::Global;
use storage_handles::BytesPartialDecoderTraits;

/// Decodes a shard that the codec serves and whose cells are all there, of elements of one length: the answer has these
/// cells. Refused only as out of memory.
pub fn decode_sound<'a, I: ArrayToBytesCodecTraits, X: ArrayToBytesCodecTraits>(
    codec: &ShardingCodec<I, X>,
    alloc: Global,
    bytes: &'a [u8],
    shape: &ChunkShape,
    data_type: &DataType,
    fill_value: &FillValue,
    options: &CodecOptions,
) -> Result<ArrayBytes<'a>, CodecError>
    requires serves { (⟦<ShardingCodec<I, X> as ArrayToBytesCodecTraits>⟧.meaning codec.now (array_spec shape.now data_type.now fill_value.now)).serves }
    requires fixed { size_of data_type.now ≡ Fixed (byte_size (size_of data_type.now)) }
    requires sound { let g = array_spec shape.now data_type.now fill_value.now in
        IsSome (all_there ((⟦<ShardingCodec<I, X> as ArrayToBytesCodecTraits>⟧.meaning codec.now g).cells bytes.now)) }
    ensures array { IfOk result (λ array. (array.kind ≡ size_of data_type.now) × IsArrayOf (array_spec shape.now data_type.now fill_value.now) array.elements) }
    ensures cells { let g = array_spec shape.now data_type.now fill_value.now in
        IfOk result (λ array. (⟦<ShardingCodec<I, X> as ArrayToBytesCodecTraits>⟧.meaning codec.now g).cells bytes.now ≡ map Some array.elements) }
    ensures refused { IfErr result (λ e. e ≡ OutOfMemory) }
{
    codec.decode(alloc, bytes, shape, data_type, fill_value, options)
}

/// Decodes a shard of an array that the codec serves. An array that is decoded has the cells that the shard stands for. A
/// refusal as `BadIndexEntry` names the lowest subchunk that has no array, whose pair is bad; `Damaged` says that some cell
/// is not there, and no shard is refused as `Fault`. Refused as `decode` refuses after the tests of `check`.
pub fn decode_served<'a, I: ArrayToBytesCodecTraits, X: ArrayToBytesCodecTraits>(
    codec: &ShardingCodec<I, X>,
    alloc: Global,
    shard: &'a [u8],
    shape: &ChunkShape,
    data_type: &DataType,
    fill_value: &FillValue,
    options: &CodecOptions,
) -> Result<ArrayBytes<'a>, CodecError>
    requires serves { (⟦<ShardingCodec<I, X> as ArrayToBytesCodecTraits>⟧.meaning codec.now (array_spec shape.now data_type.now fill_value.now)).serves }
    ensures array { IfOk result (λ array. (array.kind ≡ size_of data_type.now) × IsArrayOf (array_spec shape.now data_type.now fill_value.now) array.elements) }
    ensures cells { let g = array_spec shape.now data_type.now fill_value.now in
        IfOk result (λ array. (⟦<ShardingCodec<I, X> as ArrayToBytesCodecTraits>⟧.meaning codec.now g).cells shard.now ≡ map Some array.elements) }
    ensures lawful { let g = array_spec shape.now data_type.now fill_value.now in
        IfErr result (MayRefuseDecode ((⟦<ShardingCodec<I, X> as ArrayToBytesCodecTraits>⟧.meaning codec.now g).cells shard.now)) }
    ensures lowest { let g = array_spec shape.now data_type.now fill_value.now in let s = codec.now in
        let inner_cells = (I.meaning s.inner (subchunk_spec s.subchunk_shape g)).cells in let numbers = index_in X.meaning s g shard.now in
        IfErr result (λ e. (number : ℕ) → e ≡ BadIndexEntry number
        → IsLowestBad inner_cells shard.now numbers (count_of (grid_of g.shape s.subchunk_shape)) number) }
    ensures refused { let g = array_spec shape.now data_type.now fill_value.now in
        IfErr result (RefusedBy ((⟦<ShardingCodec<I, X> as ArrayToBytesCodecTraits>⟧.meaning codec.now g).decode_refusals shard.now)) }
{
    codec.decode(alloc, shard, shape, data_type, fill_value, options)
}

/// Encodes an array by a codec of which each array has one encoding (`is_functional`): the encoding is the one shard with the
/// encodings of the subchunks that are not wholly the fill value laid end to end in the codec's order. Refused as `encode`
/// refuses.
pub fn encode_functional<I: FunctionalCodec, X: FunctionalCodec>(
    codec: &ShardingCodec<I, X>,
    alloc: Global,
    array: &ArrayBytes,
    shape: &ChunkShape,
    data_type: &DataType,
    fill_value: &FillValue,
    options: &CodecOptions,
) -> Result<Vec<u8>, CodecError>
    requires functional { IsTrue (⟦<ShardingCodec<I, X> as FunctionalCodec>⟧.functional codec.now) }
    ensures one { let g = array_spec shape.now data_type.now fill_value.now in
        IfOk result (λ shard. shard.items ≡ ⟦<ShardingCodec<I, X> as FunctionalCodec>⟧.encoding codec.now g array.now.elements) }
    ensures lawful { let sharding = ⟦<ShardingCodec<I, X> as ArrayToBytesCodecTraits>⟧ in let g = array_spec shape.now data_type.now fill_value.now in
        IfErr result (λ e. (sharding.meaning codec.now g).serves → array.now.kind ≡ size_of data_type.now → IsArrayOf g array.now.elements
        → MayRefuseEncode (sharding.meaning codec.now g) array.now.elements e) }
    ensures refused { let m = ⟦<ShardingCodec<I, X> as ArrayToBytesCodecTraits>⟧.meaning codec.now (array_spec shape.now data_type.now fill_value.now) in
        IfErr result (RefusedBy (
        m.serves or_as RefusesUnserved m then
        m.encode_refusals array.now)) }
{
    codec.encode(alloc, array, shape, data_type, fill_value, options)
}

/// Compacts a shard that holds an array, in whatever order and with whatever gaps, by codecs of which each has one encoding
/// of an array (`is_functional`): the answer is a compaction of the shard, and the shard that is made from scratch: whatever the
/// codec's order, the slices are in ascending number. `None` exactly where nothing is to be gained, as for each encoding. Refused
/// as `compact` refuses.
pub fn compact_encoded<I: FunctionalCodec, X: FunctionalCodec>(
    codec: &ShardingCodec<I, X>,
    alloc: Global,
    encoded: &[u8],
    array: &ArrayBytes,
    spec: &ArraySpecRef<'_>,
    options: &CodecOptions,
) -> Result<Option<Vec<u8>>, CodecError>
    requires serves { (⟦<ShardingCodec<I, X> as ArrayToBytesCodecTraits>⟧.meaning codec.now (spec_of spec.now)).serves }
    requires array { IsArrayOf (spec_of spec.now) array.now.elements }
    requires holds { let g = spec_of spec.now in let s = codec.now in
        let inner_written = (I.meaning s.inner (subchunk_spec s.subchunk_shape g)).written in let index_cells = (X.meaning s.index_codec (index_spec (grid_of g.shape s.subchunk_shape))).cells in
        Holds inner_written index_cells (layout_in s (X.meaning s.index_codec (index_spec (grid_of g.shape s.subchunk_shape))) g) array.now.elements encoded.now }
    requires functional { let s = codec.now in IsTrue (I.functional s.inner && X.functional s.index_codec) }
    ensures scratch { let g = spec_of spec.now in let s = codec.now in let index_g = index_spec (grid_of g.shape s.subchunk_shape) in
        IfOk result (λ answer. IfSome answer (λ new. new.items ≡ scratch (I.encoding s.inner (subchunk_spec s.subchunk_shape g)) (X.encoding s.index_codec index_g)
        (layout_in s (X.meaning s.index_codec index_g) g) array.now.elements)) }
    ensures compacted { let g = spec_of spec.now in
        IfOk result (λ answer. IfSome answer (λ new. (⟦<ShardingCodec<I, X> as ArrayToBytesCodecTraits>⟧.meaning codec.now g).compacted encoded.now new.items)) }
    ensures kept { let g = spec_of spec.now in let s = codec.now in
        let index_cells = (X.meaning s.index_codec (index_spec (grid_of g.shape s.subchunk_shape))).cells in
        IfOk result (λ answer. IfNone answer (IsCompact index_cells (layout_in s (X.meaning s.index_codec (index_spec (grid_of g.shape s.subchunk_shape))) g) encoded.now)) }
    ensures lawful { let g = spec_of spec.now in
        IfErr result (MayRefuseCompact ((⟦<ShardingCodec<I, X> as ArrayToBytesCodecTraits>⟧.meaning codec.now g).cells encoded.now)) }
    ensures refused { let g = spec_of spec.now in
        IfErr result (RefusedBy ((⟦<ShardingCodec<I, X> as ArrayToBytesCodecTraits>⟧.meaning codec.now g).compact_refusals encoded.now)) }
{
    let (shape, data_type) = (spec.shape, spec.data_type);
    codec.compact(alloc, encoded, shape, data_type, spec.fill_value, options)
}

/// Compacts what `compact` made of a shard that the codec serves: there is nothing to gain, so the answer is `None`. Refused
/// only as out of memory.
pub fn compact_again<I: ArrayToBytesCodecTraits, X: ArrayToBytesCodecTraits>(
    codec: &ShardingCodec<I, X>,
    alloc: Global,
    _shard: &[u8],
    compacted: &[u8],
    spec: &ArraySpecRef<'_>,
    options: &CodecOptions,
) -> Result<Option<Vec<u8>>, CodecError>
    requires serves { (⟦<ShardingCodec<I, X> as ArrayToBytesCodecTraits>⟧.meaning codec.now (spec_of spec.now)).serves }
    requires compacted { let g = spec_of spec.now in
        (⟦<ShardingCodec<I, X> as ArrayToBytesCodecTraits>⟧.meaning codec.now g).compacted _shard.now compacted.now }
    ensures compact { let g = spec_of spec.now in let s = codec.now in
        let index = X.meaning s.index_codec (index_spec (grid_of g.shape s.subchunk_shape)) in
        IsCompact index.cells (layout_in s index g) compacted.now }
    ensures nothing { IfOk result (λ answer. answer ≡ None) }
    ensures refused { IfErr result (λ e. e ≡ OutOfMemory) }
{
    let (shape, data_type) = (spec.shape, spec.data_type);
    codec.compact(alloc, compacted, shape, data_type, spec.fill_value, options)
}

/// Reads some cells of an object into which an update was written over the cells of a subset, by a decoder that was opened after
/// it: what is read in the subset are the update's elements, and elsewhere what the cells of the object were before. Refused as
/// the decoder's `partial_decode` refuses.
pub fn read_after_write<
    I: ArrayToBytesCodecTraits,
    X: ArrayToBytesCodecTraits,
    H: BytesPartialDecoderTraits,
    N: Indexer,
>(
    decoder: &mut ShardingPartialDecoder<'_, I, X, H>,
    alloc: Global,
    _before: Option<&[u8]>,
    _subset: &ArraySubset,
    _update: &ArrayBytes,
    indexer: &N,
    options: &CodecOptions,
) -> Result<ArrayBytes<'static>, CodecError>
    requires told { IsTrue (H.state decoder.old.handle).transparent }
    requires written { let codec = ⟦<ShardingCodec<I, X> as ArrayToBytesCodecTraits>⟧ in let s = decoder.old.codec in let g = decoder.old.array_spec in
        AreOverlaid g.shape _subset.now _update.now.elements (object_cells (codec.meaning s g).cells g (seen (λ bytes. bytes.now) _before))
        (object_cells (codec.meaning s g).cells g (H.state decoder.old.handle).contents) }
    ensures unmoved { Unmoved H.state decoder.old decoder.new }
    ensures agree { let codec = ⟦<ShardingCodec<I, X> as ArrayToBytesCodecTraits>⟧ in let s = decoder.old.codec in let g = decoder.old.array_spec in
        IfOk result (λ array. AreReadAfter g.shape _subset.now _update.now.elements
        (object_cells (codec.meaning s g).cells g (seen (λ bytes. bytes.now) _before.entry)) (N.selection indexer.now).points array.elements) }
    ensures refused { let codec = ⟦<ShardingCodec<I, X> as ArrayToBytesCodecTraits>⟧ in let s = decoder.old.codec in let g = decoder.old.array_spec in
        IfErr result (RefusedBy (RequestRefusals g (N.selection indexer.now) (codec.meaning s g).answerable (
        ObjectRefusals (H.state decoder.old.handle) (H.state decoder.new.handle) (
        ObjectCellsRefusals I.meaning X.meaning s g (H.state decoder.old.handle).contents (N.selection indexer.now).points)))) }
{
    decoder.partial_decode(alloc, indexer, options)
}
