// The codecs that a list of metadata names: of elements, and from bytes to bytes behind it.
ghost use Rattle.std.specs.Prelude.{◌≡◌, IsTrue, Ok, IfOk, IfSome, codes};
ghost use Rattle.std.specs.List.{All};
ghost use Rattle.serde_json.specs.View.{view, items_view};
ghost use Rattle.array_codecs.specs.ElementCodecsMetadata.{bytes_in, vlen_in, first_in, elements_in, arranged_in};
ghost use Rattle.array_fields.specs.MetadataFields.{Names};
ghost use Rattle.array_codecs.specs.CodecNames.{codec_name, IsByteCodec, IsFirstCodec, IsVlenCodec, IsNamed, listed, metadata_of};

use crate::byte_codecs_metadata::{are_byte_codecs, byte_codecs};
use crate::element_codec::ElementCodec;
use crate::transpose_codec::TransposeCodec;
use crate::transposes::{CodecValues, codec_values, transpose_order};
use array_fields::{MetadataError, Placed};
use codec_bytes::BytesCodec;
use codec_chains::{BytesChain, EitherCodec};
use codec_metadata::{CodecTraitsV3, PluginCreateError};
use codec_vlen::{DefaultArrayToBytesCodec, VlenCodec};
use parts_arrays::{DataType, DataTypeSize};
use serde_json::Value;
use std::alloc::Global;

/// The codec of elements inside a shard: `transpose` stands before it or not.
pub type ArrangedCodec = EitherCodec<ElementCodec, TransposeCodec<ElementCodec>>;

// The codecs that are served.
#[derive(Clone, Copy, PartialEq, Eq)]
pub enum CodecName {
    Bytes,
    VlenUtf8,
    VlenBytes,
    Crc32c,
    Gzip,
    Zlib,
    Zstd,
    ShardingIndexed,
}

impl CodecName {
    // The codec of a name.
    fn of(name: &str) -> Option<CodecName>
        ensures { IfSome result (λ codec. codec_name codec ≡ name.now) }
    {
        match name {
            "bytes" => Some(CodecName::Bytes),
            "vlen-utf8" => Some(CodecName::VlenUtf8),
            "vlen-bytes" => Some(CodecName::VlenBytes),
            "crc32c" => Some(CodecName::Crc32c),
            "gzip" => Some(CodecName::Gzip),
            "numcodecs.zlib" => Some(CodecName::Zlib),
            "zstd" => Some(CodecName::Zstd),
            "sharding_indexed" => Some(CodecName::ShardingIndexed),
            _ => None,
        }
    }
}

// A codec's metadata, and the codec that it names.
#[derive(Drop)]
pub struct NamedCodec<'a> {
    pub name: CodecName,
    pub metadata: Placed<'a>,
}

impl NamedCodec<'_> {
    // Whether the codec is one from bytes to bytes.
    pub fn is_byte_codec(&self) -> bool
        ensures { IsTrue result → IsByteCodec self.now.name }
    {
        match self.name {
            CodecName::Crc32c | CodecName::Gzip | CodecName::Zlib | CodecName::Zstd => true,
            CodecName::Bytes | CodecName::ShardingIndexed => false,
            CodecName::VlenUtf8 | CodecName::VlenBytes => false,
        }
    }

    // Whether the codec is one of elements.
    fn is_first_codec(&self) -> bool
        ensures { IsTrue result → IsFirstCodec self.now.name }
    {
        match self.name {
            CodecName::Bytes | CodecName::VlenUtf8 | CodecName::VlenBytes => true,
            _ => false,
        }
    }
}

/// The metadata of codecs, in their order, and where it stands.
#[derive(Drop)]
pub struct CodecList<'a> {
    codecs: Vec<NamedCodec<'a>>,
    place: &'a str,
}

/// Why a codec of another name is refused.
pub fn unserved(name: &str) -> &'static str {
    match name {
        "blosc" | "zlib" | "lz4" | "bz2" | "lzma" => {
            "of the codecs that compress, this program reads gzip, zstd and numcodecs.zlib alone"
        }
        "transpose" => "this program reads transpose alone where bytes follows it",
        _ => "this program does not know this codec",
    }
}

// The codec that metadata names. Refused as `BadField` or `UnsupportedCodec`.
fn named_codec<'a>(alloc: Global, metadata: Placed<'a>) -> Result<NamedCodec<'a>, MetadataError>
    ensures same { IfOk result (λ codec. codec.metadata.value.now ≡ metadata.entry.value.now) }
    ensures named { IfOk result IsNamed }
{
    let name = metadata.extension_name(alloc)?;
    match CodecName::of(name) {
        Some(name) => Ok(NamedCodec { name, metadata }),
        None => {
            let error = PluginCreateError::unsupported_codec(alloc, name);
            Err(metadata.refused(alloc, error, unserved(name)))
        }
    }
}

// The codec that the value at a place of a list names. Refused as `BadField` or `UnsupportedCodec`.
fn listed_codec<'a>(
    alloc: Global,
    value: &'a Value,
    key: &'static str,
    list: &str,
    index: usize,
) -> Result<NamedCodec<'a>, MetadataError>
    ensures same { IfOk result (λ codec. codec.metadata.value.now ≡ value.now) }
    ensures named { IfOk result IsNamed }
{
    let place = format!(in alloc; "{list}[{index}]")?;
    named_codec(alloc, Placed { value, key, place })
}

impl<'a> CodecList<'a> {
    /// The codecs that values name, which stand in their list from a number on. Refused as the first that is refused.
    pub fn named(
        alloc: Global,
        values: &'a [Value],
        key: &'static str,
        place: &'a str,
        from: usize,
    ) -> Result<Self, MetadataError>
        ensures values { IfOk result (λ list. listed list.codecs.items ≡ items_view values.now) }
        ensures named { IfOk result (λ list. All IsNamed list.codecs.items) }
    {
        let mut codecs = Vec::new(alloc);
        for (index, value) in values.iter().enumerate() {
            let number = from.saturating_add(index);
            codecs.push(listed_codec(alloc, value, key, place, number)?)?;
        }
        Ok(CodecList { codecs, place })
    }

    /// The refusal of a list of codecs that are served, but not in this order.
    pub fn refused(&self, alloc: Global, sentence: &str) -> MetadataError {
        let error = PluginCreateError::UnsupportedChain;
        MetadataError::refused(alloc, error, self.place, sentence)
    }

    /// The codec of elements. Refused as `UnsupportedChain`, or as one of its codecs is.
    pub fn element_codec(
        &self,
        alloc: Global,
        data_type: DataType,
    ) -> Result<ElementCodec, MetadataError>
        requires named { All IsNamed self.now.codecs.items }
        ensures read { IfOk result (λ codec. elements_in (listed self.now.codecs.items) ≡ Ok codec) }
    {
        match self.codecs.as_slice() {
            [first] if first.is_first_codec() => {
                Ok(ElementCodec::Alone(first_codec(alloc, first, data_type)?))
            }
            [first, behind @ ..] if first.is_first_codec() && are_byte_codecs(behind) => {
                let codec = first_codec(alloc, first, data_type)?;
                let codecs = byte_codecs(alloc, behind)?;
                Ok(ElementCodec::Chain(BytesChain::new(codec, codecs)))
            }
            _ => Err(self.refused(
                alloc,
                "only bytes, vlen-utf8 or vlen-bytes is served here, and up to three of crc32c, gzip, zstd and numcodecs.zlib behind it",
            )),
        }
    }
}

// The codec of elements that have lengths of their own: both names are of one encoding. Refused as `BadField` where its configuration has
// a member, or elements have one size.
fn vlen_codec(
    alloc: Global,
    codec: &NamedCodec,
    data_type: DataType,
) -> Result<VlenCodec, MetadataError>
    requires named { IsNamed codec.now }
    requires vlen { IsVlenCodec codec.now.name }
    ensures read { IfOk result (λ found. vlen_in (metadata_of codec.now) ≡ Ok found) }
{
    if data_type.size() != DataTypeSize::Variable {
        return Err(
            codec.metadata.bad(
                alloc,
                "elements of the data type have one size: their codec is bytes",
            ),
        );
    }
    if let Some(configuration) = codec.metadata.member(alloc, "configuration")? {
        configuration.only_members(alloc, &[])?;
    }
    Ok(VlenCodec)
}

// The codec of elements that metadata names. Refused as it is.
fn first_codec(
    alloc: Global,
    codec: &NamedCodec,
    data_type: DataType,
) -> Result<DefaultArrayToBytesCodec, MetadataError>
    requires named { IsNamed codec.now }
    requires served { IsFirstCodec codec.now.name }
    ensures read { IfOk result (λ found. first_in (metadata_of codec.now) ≡ Ok found) }
{
    match codec.name {
        CodecName::Bytes => {
            let bytes = bytes_codec(alloc, &codec.metadata, data_type)?;
            Ok(DefaultArrayToBytesCodec::Bytes(bytes))
        }
        _ => Ok(DefaultArrayToBytesCodec::Vlen(vlen_codec(alloc, codec, data_type)?)),
    }
}

// The codec `bytes`. Refused as its `create` refuses, as `BadField` where elements have lengths of their own, or as `MissingField` where
// elements of more than one byte have no order.
fn bytes_codec(
    alloc: Global,
    metadata: &Placed,
    data_type: DataType,
) -> Result<BytesCodec, MetadataError>
    requires named { Names (view metadata.now.value.now) (codes "bytes") }
    ensures read { IfOk result (λ codec. bytes_in (view metadata.now.value.now) ≡ Ok codec) }
{
    let codec = match BytesCodec::create(alloc, metadata.value) {
        Ok(codec) => codec,
        Err(error) => return Err(metadata.refused_by(alloc, error)),
    };
    if data_type.size() == DataTypeSize::Variable {
        return Err(metadata.bad(
            alloc,
            "elements of the data type have lengths of their own: their codec is vlen-utf8 or vlen-bytes",
        ));
    }
    let has_order = !matches!(data_type, DataType::Raw(_));
    if codec.endianness().is_none() && has_order && data_type.size() != DataTypeSize::Fixed(1) {
        let error = PluginCreateError::missing_field(alloc, "endian");
        return Err(metadata.refused(
            alloc,
            error,
            "elements of more than one byte have no byte order",
        ));
    }
    Ok(codec)
}

// The codec of elements that values name, which stand in their list from a number on. Refused as the first that is refused, or as
// `UnsupportedChain`.
fn listed_elements(
    alloc: Global,
    values: &[Value],
    place: &str,
    from: usize,
    data_type: DataType,
) -> Result<ElementCodec, MetadataError>
    ensures read { IfOk result (λ codec. elements_in (items_view values.now) ≡ Ok codec) }
{
    let list = CodecList::named(alloc, values, "codecs", place, from)?;
    list.element_codec(alloc, data_type)
}

/// The codec of elements that values name inside a shard with this number of axes, and `transpose` before it. Refused as the first that is
/// refused, or as `UnsupportedChain`.
pub fn arranged_codec(
    alloc: Global,
    values: &[Value],
    place: &str,
    data_type: DataType,
    axes: usize,
) -> Result<ArrangedCodec, MetadataError>
    ensures read { IfOk result (λ codec. arranged_in axes (items_view values.now) ≡ Ok codec) }
{
    let CodecValues { transpose, codecs } = codec_values(values, "bytes");
    let Some(transpose) = transpose else {
        let codec = listed_elements(alloc, codecs, place, 0, data_type)?;
        return Ok(EitherCodec::First(codec));
    };
    let order = transpose_order(alloc, transpose, place, axes)?;
    let codec = listed_elements(alloc, codecs, place, 1, data_type)?;
    Ok(EitherCodec::Second(TransposeCodec { order, codec }))
}
