// Metadata and configurations that are accepted, and what is written of the codec.
use crate::compared::{same, same_at};
use crate::metadata_examples::{Shards, ShardsOfShards, codec_of, configured, created, shape_of};
use serde_json::Value;
use std::alloc::Global;
use std::process::Abort;
use std::test::Fail;
use zarr_codecs::{
    ArrayToBytesCodecTraits, BytesCodec, CodecTraitsV3, DefaultArrayToBytesCodec, VlenCodec,
};
use zarr_parts::{CodecError, DataType, FillValue};

const LITTLE: &str =
    r#"{"chunk_shape":[2,2],"codecs":[{"configuration":{"endian":"little"},"name":"bytes"}],"index_codecs":[{"configuration":{"endian":"little"},"name":"bytes"}],"index_location":"start"}"#;

const BIG: &str =
    r#"{"chunk_shape":[2],"codecs":[{"name":"endian","configuration":{"endian":"big"}}],"index_codecs":["bytes"]}"#;

const BIG_WRITTEN: &str =
    r#"{"chunk_shape":[2],"codecs":[{"configuration":{"endian":"big"},"name":"bytes"}],"index_codecs":[{"name":"bytes"}],"index_location":"end"}"#;

const NO_AXES: &str =
    r#"{"index_location":"end","index_codecs":[{"name":"endian","must_understand":false,"configuration":{}}],"codecs":["endian"],"chunk_shape":[]}"#;

const NO_AXES_WRITTEN: &str =
    r#"{"chunk_shape":[],"codecs":[{"name":"bytes"}],"index_codecs":[{"name":"bytes"}],"index_location":"end"}"#;

const LARGEST: &str =
    r#"{"chunk_shape":[0],"chunk_shape":[18446744073709551615,1],"codecs":["bytes"],"index_codecs":["bytes"]}"#;

const LARGEST_WRITTEN: &str =
    r#"{"chunk_shape":[18446744073709551615,1],"codecs":[{"name":"bytes"}],"index_codecs":[{"name":"bytes"}],"index_location":"end"}"#;

// All four members are written, names as they are today, and no empty configuration; of a key that is there twice the last
// counts.
#[test]
fn a_configuration_is_written_in_one_form(rt: HostRuntime) -> Result<(), Fail> {
    for (text, want) in [
        (LITTLE, LITTLE),
        (BIG, BIG_WRITTEN),
        (NO_AXES, NO_AXES_WRITTEN),
        (LARGEST, LARGEST_WRITTEN),
    ] {
        let found = configured(rt.alloc(), text)?;
        same_at(&rt, text, found.as_str(), want);
    }
    Ok(())
}

// A name alone, both names, and a byte order.
#[test]
fn metadata_is_written_in_one_form(rt: HostRuntime) -> Result<(), Fail> {
    for (text, want) in [
        (r#""bytes""#, r#"{"name":"bytes"}"#),
        (r#""endian""#, r#"{"name":"bytes"}"#),
        (
            r#"{"name":"endian","configuration":{"endian":"big"},"must_understand":true}"#,
            r#"{"configuration":{"endian":"big"},"name":"bytes"}"#,
        ),
        (
            r#"{"configuration":{"endian":"little"},"name":"bytes"}"#,
            r#"{"configuration":{"endian":"little"},"name":"bytes"}"#,
        ),
    ] {
        let found = created::<BytesCodec>(rt.alloc(), text)?;
        same_at(&rt, text, found.as_str(), want);
    }
    Ok(())
}

// The codec of variable elements is its name alone.
#[test]
fn an_empty_configuration_is_not_written(rt: HostRuntime) -> Result<(), Fail> {
    for text in [
        r#""zarr_parts.vlen""#,
        r#"{"name":"zarr_parts.vlen"}"#,
        r#"{"name":"zarr_parts.vlen","configuration":{}}"#,
    ] {
        let found = created::<VlenCodec>(rt.alloc(), text)?;
        same_at(&rt, text, found.as_str(), r#"{"name":"zarr_parts.vlen"}"#);
    }
    Ok(())
}

// The default codec is named by either of its codecs.
#[test]
fn the_default_codec_has_the_names_of_both(rt: HostRuntime) -> Result<(), Fail> {
    for (text, want) in [
        (r#""endian""#, r#"{"name":"bytes"}"#),
        (r#""zarr_parts.vlen""#, r#"{"name":"zarr_parts.vlen"}"#),
        (
            r#"{"name":"bytes","configuration":{"endian":"big"}}"#,
            r#"{"configuration":{"endian":"big"},"name":"bytes"}"#,
        ),
        (
            r#"{"name":"zarr_parts.vlen","configuration":{"endian":"big"}}"#,
            "BadField endian",
        ),
        (r#""gzip""#, "UnsupportedCodec gzip"),
        ("1", "BadField name"),
    ] {
        let found = created::<DefaultArrayToBytesCodec>(rt.alloc(), text)?;
        same_at(&rt, text, found.as_str(), want);
    }
    Ok(())
}

// The byte order is told apart.
#[test]
fn a_byte_order_is_read(rt: HostRuntime) {
    for (text, want) in [
        (r#""bytes""#, BytesCodec::new(None)),
        (
            r#"{"name":"bytes","configuration":{"endian":"big"}}"#,
            BytesCodec::big(),
        ),
        (
            r#"{"name":"bytes","configuration":{"endian":"little"}}"#,
            BytesCodec::little(),
        ),
    ] {
        let value = Value::from_str(rt.alloc(), text).expect(&rt, "refused");
        same(
            &rt,
            BytesCodec::create(rt.alloc(), &value).expect(&rt, "refused"),
            want,
        );
    }
}

const SHARDS: &str =
    r#"{"configuration":{"chunk_shape":[2,2],"codecs":[{"configuration":{"endian":"little"},"name":"bytes"}],"index_codecs":[{"configuration":{"endian":"little"},"name":"bytes"}],"index_location":"start"},"name":"sharding_indexed"}"#;

// A shard's metadata is its configuration under its name.
#[test]
fn the_metadata_of_shards_is_read_and_written(rt: HostRuntime) -> Result<(), Fail> {
    let found = created::<Shards>(rt.alloc(), SHARDS)?;
    same(&rt, found.as_str(), SHARDS);
    Ok(())
}

const SHARDS_OF_SHARDS: &str =
    r#"{"configuration":{"chunk_shape":[4],"codecs":[{"configuration":{"chunk_shape":[2],"codecs":[{"name":"bytes"}],"index_codecs":[{"name":"bytes"}],"index_location":"start"},"name":"sharding_indexed"}],"index_codecs":[{"configuration":{"endian":"big"},"name":"bytes"}],"index_location":"end"},"name":"sharding_indexed"}"#;

// And that of a shard of shards.
#[test]
fn the_metadata_of_shards_of_shards_is_read_and_written(rt: HostRuntime) -> Result<(), Fail> {
    let found = created::<ShardsOfShards>(rt.alloc(), SHARDS_OF_SHARDS)?;
    same(&rt, found.as_str(), SHARDS_OF_SHARDS);
    Ok(())
}

fn configured_codec<R: Abort>(rt: &R, alloc: Global, text: &str) -> Shards {
    let value = Value::from_str(alloc, text).expect(rt, "refused");
    codec_of(alloc, &value).expect(rt, "refused")
}

// How a codec serves arrays of four bytes.
fn checked<R: Abort>(rt: &R, alloc: Global, codec: &Shards) -> Result<(), CodecError> {
    let four = shape_of(rt, alloc, &[4]);
    let fill = FillValue::from_number(alloc, 0u8)?;
    codec.check(alloc, &four, &DataType::UInt8, &fill)
}

// An index codec without a byte order makes a codec that serves no shape.
#[test]
fn an_index_needs_a_byte_order(rt: HostRuntime) {
    let codec = configured_codec(&rt, rt.alloc(), BIG);
    let answer = checked(&rt, rt.alloc(), &codec);
    same(&rt, answer, Err(CodecError::UnsupportedDataType));
}
