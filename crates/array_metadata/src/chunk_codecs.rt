// The codecs of the chunks of an array on disk.
ghost use Rattle.std.specs.Prelude.{◌≡◌, Some, Ok, IfOk, IfSome, List, ℕ, length, option_map, option_and_then, codes};
ghost use Rattle.serde_json.specs.Find.{as_array, get};
ghost use Rattle.serde_json.specs.View.{view, items_view};
ghost use Rattle.codec_metadata.specs.Metadata.{name_in};
ghost use Rattle.sharding_format.specs.declared.order.SubchunkWriteOrder.TheVariants.{Unordered};
ghost use Rattle.sharding_configuration.specs.Configuration.{configuration_in, shape_in};
ghost use Rattle.sharding_configuration.specs.Configurations.{configuration_of};
ghost use Rattle.array_fields.specs.MetadataFields.{configured_in};
ghost use Rattle.array_codecs.specs.ElementCodecsMetadata.{elements_in, arranged_in};
ghost use Rattle.array_metadata.specs.ArrayCodecs.{shards_in, served_in, subchunks_in, opaque_in, chunk_shards_or, array_codec_in, subchunk_in, subchunk_of, HasAxes};
ghost use Rattle.array_codecs.specs.UnreadCodecs.{chunks_in};
ghost use Rattle.array_fields.specs.MetadataFields.{Names};

use crate::array_codec::ArrayCodec;
use crate::codecs::{IndexCodec, ShardsCodec};
use crate::inner_codec::InnerCodec;
use array_codecs::{
    ArrangedCodec, CodecList, CodecValues, ElementCodec, OpaqueCodec, TransposeCodec,
    arranged_codec, codec_values, first_unserved, innermost, names_shards,
    sole_shards as sole_value, test_names, transpose_order,
};
use array_fields::{MetadataError, Placed};
use codec_metadata::PluginCreateError;
use parts_arrays::DataType;
use serde_json::Value;
use sharding_codec::ShardingCodec;
use sharding_configuration::{ShardingCodecConfiguration, ShardingCodecConfigurationV1};
use std::alloc::Global;

// What a shard's configuration says, where the metadata of the codecs of subchunks stands, and the codec of the index.
#[derive(Drop)]
struct ShardParts {
    configuration: ShardingCodecConfigurationV1,
    place: String,
    index_codec: IndexCodec,
}

impl ShardParts {
    // The codec of shards of which this is said, by that of their subchunks.
    fn with_inner<I>(self, inner: I) -> ShardingCodec<I, IndexCodec>
        ensures { let said = self.configuration in
            result ≡ record { subchunk_shape = said.chunk_shape; inner = inner; index_codec = self.index_codec; location = said.index_location; order = Unordered } }
    {
        let ShardParts {
            configuration,
            index_codec,
            ..
        } = self;
        let ShardingCodecConfigurationV1 {
            chunk_shape,
            index_location,
            ..
        } = configuration;
        ShardingCodec::new(chunk_shape, inner, index_codec, index_location)
    }
}

// The configuration of a shard. Refused as `from_value` refuses, or as `BadField` where a subchunk has other axes.
fn parsed_configuration(
    alloc: Global,
    configuration: &Placed,
    axes: usize,
) -> Result<ShardingCodecConfigurationV1, MetadataError>
    ensures axes { IfOk result (λ parsed. length parsed.chunk_shape ≡ axes) }
    ensures read { IfOk result (λ parsed. configuration_in (view configuration.now.value.now) ≡ Ok (configuration_of (ShardingCodecConfiguration.V1 parsed))) }
{
    let parsed = match ShardingCodecConfiguration::from_value(alloc, configuration.value) {
        Ok(ShardingCodecConfiguration::V1(parsed)) => parsed,
        Err(error) => return Err(configuration.refused_by(alloc, error)),
    };
    if parsed.chunk_shape.as_slice().len() != axes {
        let error = PluginCreateError::bad_field(alloc, "chunk_shape");
        return Err(configuration.refused(
            alloc,
            error,
            "a subchunk has other than one number for each axis",
        ));
    }
    Ok(parsed)
}

// Whether all indexes of as many subchunks have encodings of one length.
fn is_of_fixed_size(codec: &IndexCodec) -> bool {
    match codec {
        ElementCodec::Alone(_) => true,
        ElementCodec::Chain(chain) => chain.bytes_to_bytes.are_checksums(),
    }
}

// The codec of an index. Refused as the codec of elements is, or as `UnsupportedChain` where encodings of an index differ in length.
fn index_codec_in(alloc: Global, values: &[Value], place: &str) -> Result<IndexCodec, MetadataError>
    ensures read { IfOk result (λ codec. elements_in (items_view values.now) ≡ Ok codec) }
{
    let list = CodecList::named(alloc, values, "index_codecs", place, 0)?;
    // The numbers of an index are of 64 bits.
    let codec = list.element_codec(alloc, DataType::UInt64)?;
    if is_of_fixed_size(&codec) {
        return Ok(codec);
    }
    Err(list.refused(
        alloc,
        "the encoding of an index has a fixed length: bytes, or bytes and crc32c behind it",
    ))
}

// What the configuration of a shard says. Refused as the configuration is, or as the codec of the index.
fn shard_parts(alloc: Global, metadata: &Placed, axes: usize) -> Result<ShardParts, MetadataError>
    ensures axes { IfOk result (λ parts. length parts.configuration.chunk_shape ≡ axes) }
    ensures read { IfOk result (λ parts. option_map configuration_in (get (codes "configuration") (view metadata.now.value.now)) ≡ Some (Ok (configuration_of (ShardingCodecConfiguration.V1 parts.configuration)))) }
    ensures shape { IfOk result (λ parts. option_and_then shape_in (configured_in (codes "chunk_shape") (view metadata.now.value.now)) ≡ Some parts.configuration.chunk_shape) }
    ensures index { IfOk result (λ parts. elements_in (items_view parts.configuration.index_codecs.items) ≡ Ok parts.index_codec) }
{
    let placed = metadata.required(alloc, "configuration")?;
    let configuration = parsed_configuration(alloc, &placed, axes)?;
    let outer = placed.place.as_str();
    let index_offset = format!(in alloc; "{outer}.index_codecs")?;
    let values = configuration.index_codecs.as_slice();
    let index_codec = index_codec_in(alloc, values, index_offset.as_str())?;
    let place = format!(in alloc; "{outer}.codecs")?;
    Ok(ShardParts {
        configuration,
        place,
        index_codec,
    })
}

// The codec of shards whose subchunks are no shards.
fn innermost_shards(
    alloc: Global,
    metadata: &Placed,
    data_type: DataType,
    axes: usize,
) -> Result<ShardingCodec<ArrangedCodec, IndexCodec>, MetadataError>
    requires named { Names (view metadata.now.value.now) (codes "sharding_indexed") }
    ensures read { IfOk result (λ codec. shards_in (arranged_in axes) (view metadata.now.value.now) ≡ Ok codec) }
{
    let parts = shard_parts(alloc, metadata, axes)?;
    let values = parts.configuration.codecs.as_slice();
    let inner = arranged_codec(alloc, values, parts.place.as_str(), data_type, axes)?;
    Ok(parts.with_inner(inner))
}

// The metadata of shards that stands at a place of a list. Refused as `BadField`.
fn shards_at<'a>(
    alloc: Global,
    value: &'a Value,
    list: &str,
    index: usize,
) -> Result<Placed<'a>, MetadataError>
    requires named { name_in (view value.now) ≡ Some (codes "sharding_indexed") }
    ensures same { IfOk result (λ metadata. metadata.value.now ≡ value.now) }
    ensures named { IfOk result (λ metadata. Names (view metadata.value.now) (codes "sharding_indexed")) }
{
    let key = "codecs";
    let place = format!(in alloc; "{list}[{index}]")?;
    let metadata = Placed { value, key, place };
    let _name = metadata.extension_name(alloc)?;
    Ok(metadata)
}

// The codec of subchunks that are looked into: of elements, or of shards.
fn served_codec(
    alloc: Global,
    values: &[Value],
    place: &str,
    data_type: DataType,
    axes: usize,
) -> Result<InnerCodec, MetadataError>
    ensures read { IfOk result (λ codec. served_in axes (items_view values.now) ≡ Ok codec) }
{
    let Some(value) = sole_value(values) else {
        let codec = arranged_codec(alloc, values, place, data_type, axes)?;
        return Ok(InnerCodec::Elements(codec));
    };
    let metadata = shards_at(alloc, value, place, 0)?;
    let codec = innermost_shards(alloc, &metadata, data_type, axes)?;
    Ok(InnerCodec::Shards(codec))
}

// The codec of subchunks that are not looked into. Refused as the first codec of elements that has no name.
fn opaque_codec(alloc: Global, values: &[Value], place: &str) -> Result<InnerCodec, MetadataError>
    ensures read { IfOk result (λ codec. opaque_in (items_view values.now) ≡ Ok codec) }
{
    test_names(alloc, innermost(values), place)?;
    Ok(InnerCodec::Opaque(OpaqueCodec))
}

// The codec of subchunks, which are not looked into where elements go through a codec that is not served.
fn inner_codec(
    alloc: Global,
    values: &[Value],
    place: &str,
    data_type: DataType,
    axes: usize,
) -> Result<InnerCodec, MetadataError>
    ensures read { IfOk result (λ codec. subchunks_in axes (items_view values.now) ≡ Ok codec) }
{
    match first_unserved(codec_values(innermost(values), "bytes").codecs) {
        Some(_) => opaque_codec(alloc, values, place),
        None => served_codec(alloc, values, place, data_type, axes),
    }
}

// The codec of shards that metadata names.
fn shards(
    alloc: Global,
    metadata: &Placed,
    data_type: DataType,
    axes: usize,
) -> Result<ShardsCodec, MetadataError>
    requires named { Names (view metadata.now.value.now) (codes "sharding_indexed") }
    ensures axes { IfOk result (λ codec. length codec.subchunk_shape ≡ axes) }
    ensures read { IfOk result (λ codec. shards_in (subchunks_in axes) (view metadata.now.value.now) ≡ Ok codec) }
    ensures shape { IfOk result (λ codec. option_and_then shape_in (configured_in (codes "chunk_shape") (view metadata.now.value.now)) ≡ Some codec.subchunk_shape) }
{
    let parts = shard_parts(alloc, metadata, axes)?;
    let values = parts.configuration.codecs.as_slice();
    let inner = inner_codec(alloc, values, parts.place.as_str(), data_type, axes)?;
    Ok(parts.with_inner(inner))
}

// The codec of shards behind `transpose` that metadata names.
fn opaque_shards(
    alloc: Global,
    metadata: &Placed,
    axes: usize,
) -> Result<ShardsCodec, MetadataError>
    requires named { Names (view metadata.now.value.now) (codes "sharding_indexed") }
    ensures axes { IfOk result (λ codec. length codec.subchunk_shape ≡ axes) }
    ensures read { IfOk result (λ codec. shards_in opaque_in (view metadata.now.value.now) ≡ Ok codec) }
    ensures shape { IfOk result (λ codec. option_and_then shape_in (configured_in (codes "chunk_shape") (view metadata.now.value.now)) ≡ Some codec.subchunk_shape) }
{
    let parts = shard_parts(alloc, metadata, axes)?;
    let values = parts.configuration.codecs.as_slice();
    let inner = opaque_codec(alloc, values, parts.place.as_str())?;
    Ok(parts.with_inner(inner))
}

// The codec of shards in a list, and `transpose` before them. Refused as `transpose` is, or as shards are.
fn chunk_shards(
    alloc: Global,
    transpose: Option<&Value>,
    value: &Value,
    list: &str,
    data_type: DataType,
    axes: usize,
) -> Result<ArrayCodec, MetadataError>
    requires transpose { IfSome transpose (λ metadata. name_in (view metadata.now) ≡ Some (codes "transpose")) }
    requires named { name_in (view value.now) ≡ Some (codes "sharding_indexed") }
    ensures axes { IfOk result (HasAxes axes) }
    ensures read { IfOk result (λ codec. chunk_shards_or axes (option_map (λ metadata. view metadata.now) transpose.entry) (view value.now) ≡ Ok codec) }
    ensures shape { IfOk result (λ codec. (chunk : List ℕ) → option_and_then shape_in (configured_in (codes "chunk_shape") (view value.now)) ≡ Some (subchunk_of codec chunk)) }
{
    let Some(transpose) = transpose else {
        let metadata = shards_at(alloc, value, list, 0)?;
        let codec = shards(alloc, &metadata, data_type, axes)?;
        return Ok(ArrayCodec::Sharded(codec));
    };
    let order = transpose_order(alloc, transpose, list, axes)?;
    let metadata = shards_at(alloc, value, list, 1)?;
    let codec = opaque_shards(alloc, &metadata, axes)?;
    Ok(ArrayCodec::Transposed(TransposeCodec { order, codec }))
}

// The codec of chunks that are no shards. Refused as `UnsupportedChain` where shards have another codec beside them than `transpose` before
// them.
fn elements_of_chunks(
    alloc: Global,
    values: &[Value],
    place: &str,
    data_type: DataType,
    axes: usize,
) -> Result<ArrangedCodec, MetadataError>
    ensures read { IfOk result (λ codec. arranged_in axes (items_view values.now) ≡ Ok codec) }
{
    if names_shards(values) {
        let error = PluginCreateError::UnsupportedChain;
        let sentence = "sharding_indexed is read where no other codec stands beside it";
        return Err(MetadataError::refused(alloc, error, place, sentence));
    }
    arranged_codec(alloc, values, place, data_type, axes)
}

// The codec of the chunks of an array with this number of axes.
pub fn array_codec(
    alloc: Global,
    codecs: &Placed,
    data_type: DataType,
    axes: usize,
) -> Result<ArrayCodec, MetadataError>
    ensures axes { IfOk result (HasAxes axes) }
    ensures read { IfOk result (λ codec. option_map (array_codec_in axes) (as_array (view codecs.now.value.now)) ≡ Some (Ok codec)) }
    ensures shape { IfOk result (λ codec. (chunk : List ℕ) → subchunk_in (chunks_in (view codecs.now.value.now)) chunk ≡ Some (subchunk_of codec chunk)) }
{
    let Some(values) = codecs.value.as_array() else {
        return Err(codecs.bad(alloc, "this is no list of codecs"));
    };
    let list = codecs.place.as_str();
    let CodecValues {
        transpose,
        codecs: behind,
    } = codec_values(values, "sharding_indexed");
    let Some(value) = sole_value(behind) else {
        let codec = elements_of_chunks(alloc, values, list, data_type, axes)?;
        return Ok(ArrayCodec::Unsharded(codec));
    };
    chunk_shards(alloc, transpose, value, list, data_type, axes)
}
