// Codecs from bytes to bytes in the metadata of an array.
ghost use Rattle.std.specs.Prelude.{◌≡◌, Some, Ok, IfOk, IfSome, IsTrue, codes, option_map};
ghost use Rattle.std.specs.List.{All};
ghost use Rattle.serde_json.specs.Find.{get};
ghost use Rattle.serde_json.specs.View.{view};
ghost use Rattle.array_codecs.specs.ByteCodecsMetadata.{crc32c_in, level_of, gzip_in, zlib_in, zlib_level_in, zstd_in, zstd_level_of, checksum_in, byte_codec_in, IsOptionalCodec, byte_codecs_in};
ghost use Rattle.array_fields.specs.MetadataFields.{Names};
ghost use Rattle.array_codecs.specs.CodecNames.{IsByteCodec, AreByteCodecs, IsNamed, listed, metadata_of};

use crate::byte_codec::ByteCodec;
use crate::byte_codecs::ByteCodecs;
use crate::codec_list::{CodecName, NamedCodec};
use array_fields::{MetadataError, Placed};
use codec_checksums::Crc32cCodec;
use codec_gzip::{GzipCodec, ZlibCodec};
use codec_zstd::ZstdCodec;
use std::alloc::Global;

// The codec `crc32c`, which has no configuration. Refused as `BadField`.
fn crc32c_codec(alloc: Global, metadata: &Placed) -> Result<Crc32cCodec, MetadataError>
    requires named { Names (view metadata.now.value.now) (codes "crc32c") }
    ensures read { IfOk result (λ codec. crc32c_in (view metadata.now.value.now) ≡ Ok codec) }
{
    if let Some(configuration) = metadata.member(alloc, "configuration")? {
        configuration.only_members(alloc, &[])?;
    }
    Ok(Crc32cCodec)
}

// A level of DEFLATE. Refused as `BadField`.
fn deflate_level(alloc: Global, level: &Placed) -> Result<u8, MetadataError>
    ensures read { IfOk result (λ number. level_of (view level.now.value.now) ≡ Some number) }
{
    match level.value.as_u64() {
        Some(number) if number <= 9 => Ok(number as u8),
        _ => Err(level.bad(alloc, "a level is a whole number from 0 to 9")),
    }
}

// The codec `gzip`, by the level of its configuration. Refused as `MissingField` or `BadField`.
fn gzip_codec(alloc: Global, metadata: &Placed) -> Result<GzipCodec, MetadataError>
    requires named { Names (view metadata.now.value.now) (codes "gzip") }
    ensures read { IfOk result (λ codec. gzip_in (view metadata.now.value.now) ≡ Ok codec) }
{
    let configuration = metadata.required(alloc, "configuration")?;
    configuration.only_members(alloc, &["level"])?;
    let level = deflate_level(alloc, &configuration.required(alloc, "level")?)?;
    Ok(GzipCodec { level })
}

// The level of a configuration of `numcodecs.zlib`; 1 where nothing is said. Refused as `BadField`.
fn zlib_level(alloc: Global, configuration: &Placed) -> Result<u8, MetadataError>
    ensures read { IfOk result (λ level. zlib_level_in (get (codes "level") (view configuration.now.value.now)) ≡ Some level) }
{
    match configuration.member(alloc, "level")? {
        Some(level) => deflate_level(alloc, &level),
        None => Ok(1),
    }
}

// The codec `numcodecs.zlib`, by its configuration. Refused as `MissingField` or `BadField`.
fn zlib_codec(alloc: Global, metadata: &Placed) -> Result<ZlibCodec, MetadataError>
    requires named { Names (view metadata.now.value.now) (codes "numcodecs.zlib") }
    ensures read { IfOk result (λ codec. zlib_in (view metadata.now.value.now) ≡ Ok codec) }
{
    let configuration = metadata.required(alloc, "configuration")?;
    configuration.only_members(alloc, &["level"])?;
    let level = zlib_level(alloc, &configuration)?;
    Ok(ZlibCodec { level })
}

// The level of a configuration of `zstd`. Refused as `BadField`.
fn zstd_level(alloc: Global, level: &Placed) -> Result<i32, MetadataError>
    ensures read { IfOk result (λ number. zstd_level_of (view level.now.value.now) ≡ Some number) }
{
    match level.value.as_i64() {
        Some(number) if number >= -131_072 && number <= 22 => Ok(number as i32),
        _ => Err(level.bad(alloc, "a level is a whole number from -131072 to 22")),
    }
}

// Whether a configuration of `zstd` asks for checksums; not where nothing is said. Refused as `BadField`.
fn zstd_checksum(alloc: Global, configuration: &Placed) -> Result<bool, MetadataError>
    ensures read { IfOk result (λ checksum. checksum_in (get (codes "checksum") (view configuration.now.value.now)) ≡ Some checksum) }
{
    let Some(checksum) = configuration.member(alloc, "checksum")? else {
        return Ok(false);
    };
    match checksum.value.as_bool() {
        Some(has_checksum) => Ok(has_checksum),
        None => Err(checksum.bad(alloc, "a checksum is true or false")),
    }
}

// The codec `zstd`, by its configuration. Refused as `MissingField` or `BadField`.
fn zstd_codec(alloc: Global, metadata: &Placed) -> Result<ZstdCodec, MetadataError>
    requires named { Names (view metadata.now.value.now) (codes "zstd") }
    ensures read { IfOk result (λ codec. zstd_in (view metadata.now.value.now) ≡ Ok codec) }
{
    let configuration = metadata.required(alloc, "configuration")?;
    configuration.only_members(alloc, &["level", "checksum"])?;
    let level = zstd_level(alloc, &configuration.required(alloc, "level")?)?;
    let checksum = zstd_checksum(alloc, &configuration)?;
    Ok(ZstdCodec { level, checksum })
}

// The codec from bytes to bytes that metadata names. Refused as it is.
fn byte_codec(alloc: Global, codec: &NamedCodec) -> Result<ByteCodec, MetadataError>
    requires named { IsNamed codec.now }
    requires served { IsByteCodec codec.now.name }
    ensures read { IfOk result (λ found. byte_codec_in (metadata_of codec.now) ≡ Ok found) }
{
    match codec.name {
        CodecName::Zstd => Ok(ByteCodec::Zstd(zstd_codec(alloc, &codec.metadata)?)),
        CodecName::Gzip => Ok(ByteCodec::Gzip(gzip_codec(alloc, &codec.metadata)?)),
        CodecName::Zlib => Ok(ByteCodec::Zlib(zlib_codec(alloc, &codec.metadata)?)),
        _ => Ok(ByteCodec::Crc32c(crc32c_codec(alloc, &codec.metadata)?)),
    }
}

// The codec from bytes to bytes that metadata names, if there is any. Refused as it is.
fn optional_codec(
    alloc: Global,
    codec: Option<&NamedCodec>,
) -> Result<Option<ByteCodec>, MetadataError>
    requires named { IfSome codec (λ codec. IsNamed codec.now) }
    requires served { IfSome codec (λ codec. IsByteCodec codec.now.name) }
    ensures read { IfOk result (IsOptionalCodec (option_map (λ codec. codec.now) codec.entry)) }
{
    match codec {
        Some(codec) => Ok(Some(byte_codec(alloc, codec)?)),
        None => Ok(None),
    }
}

// Whether metadata names one to three codecs from bytes to bytes.
pub fn are_byte_codecs(codecs: &[NamedCodec]) -> bool
    ensures { IsTrue result → AreByteCodecs codecs.now }
{
    match codecs {
        [first] => first.is_byte_codec(),
        [first, second] => first.is_byte_codec() && second.is_byte_codec(),
        [first, second, third] => {
            first.is_byte_codec() && second.is_byte_codec() && third.is_byte_codec()
        }
        _ => false,
    }
}

// The codecs from bytes to bytes that metadata names, in its order. Refused as the first that is refused.
pub fn byte_codecs(alloc: Global, codecs: &[NamedCodec]) -> Result<ByteCodecs, MetadataError>
    requires named { All IsNamed codecs.now }
    requires served { AreByteCodecs codecs.now }
    ensures read { IfOk result (λ found. byte_codecs_in (listed codecs.now) ≡ Ok found) }
{
    let first = byte_codec(alloc, &codecs[0])?;
    let second = optional_codec(alloc, codecs.get(1))?;
    let third = optional_codec(alloc, codecs.get(2))?;
    Ok(ByteCodecs {
        first,
        second,
        third,
    })
}
