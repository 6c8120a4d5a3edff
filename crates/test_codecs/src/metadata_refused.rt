// Metadata and configurations that are refused, and as what: the first test that fails.
use crate::compared::same_at;
use crate::metadata_examples::{ShardsOfShards, configured, created};
use std::test::Fail;
use zarr_codecs::{BytesCodec, VlenCodec};

// What is no configuration: another key comes before a missing one, and the form of a list before its members.
const CONFIGURATIONS: &[(&str, &str)] = &[
    (r#"null"#, "BadField configuration"),
    (r#"true"#, "BadField configuration"),
    (r#"7"#, "BadField configuration"),
    (r#""bytes""#, "BadField configuration"),
    (r#"[]"#, "BadField configuration"),
    (r#"[{}]"#, "BadField configuration"),
    (r#"{}"#, "MissingField chunk_shape"),
    (r#"{"x":1}"#, "BadField x"),
    (r#"{"z":1,"a":1}"#, "BadField a"),
    (r#"{"":1}"#, "BadField "),
    (r#"{"Codecs":[]}"#, "BadField Codecs"),
    (r#"{"zz":1,"chunk_shape":0}"#, "BadField zz"),
    (r#"{"a":1,"chunk_shape":[0],"codecs":7}"#, "BadField a"),
    (
        r#"{"codecs":[],"index_codecs":[]}"#,
        "MissingField chunk_shape",
    ),
    (r#"{"chunk_shape":null}"#, "BadField chunk_shape"),
    (r#"{"chunk_shape":2}"#, "BadField chunk_shape"),
    (r#"{"chunk_shape":"2"}"#, "BadField chunk_shape"),
    (r#"{"chunk_shape":{}}"#, "BadField chunk_shape"),
    (r#"{"chunk_shape":true}"#, "BadField chunk_shape"),
    (r#"{"chunk_shape":[0]}"#, "BadField chunk_shape"),
    (r#"{"chunk_shape":[2,0]}"#, "BadField chunk_shape"),
    (r#"{"chunk_shape":[-1]}"#, "BadField chunk_shape"),
    (r#"{"chunk_shape":[-0]}"#, "BadField chunk_shape"),
    (r#"{"chunk_shape":[1.5]}"#, "BadField chunk_shape"),
    (r#"{"chunk_shape":[2.0]}"#, "BadField chunk_shape"),
    (r#"{"chunk_shape":[2e0]}"#, "BadField chunk_shape"),
    (
        r#"{"chunk_shape":[18446744073709551616]}"#,
        "BadField chunk_shape",
    ),
    (r#"{"chunk_shape":["2"]}"#, "BadField chunk_shape"),
    (r#"{"chunk_shape":[[2]]}"#, "BadField chunk_shape"),
    (r#"{"chunk_shape":[null]}"#, "BadField chunk_shape"),
    (r#"{"chunk_shape":[true]}"#, "BadField chunk_shape"),
    (
        r#"{"chunk_shape":[],"index_codecs":7}"#,
        "MissingField codecs",
    ),
    (
        r#"{"chunk_shape":[0],"chunk_shape":[2]}"#,
        "MissingField codecs",
    ),
    (r#"{"chunk_shape":[2],"codecs":null}"#, "BadField codecs"),
    (r#"{"chunk_shape":[2],"codecs":7}"#, "BadField codecs"),
    (r#"{"chunk_shape":[2],"codecs":"bytes"}"#, "BadField codecs"),
    (r#"{"chunk_shape":[2],"codecs":{}}"#, "BadField codecs"),
    (
        r#"{"chunk_shape":[2],"codecs":[7]}"#,
        "MissingField index_codecs",
    ),
    (
        r#"{"chunk_shape":[2],"codecs":[7],"index_codecs":null}"#,
        "BadField index_codecs",
    ),
    (
        r#"{"chunk_shape":[2],"codecs":[7],"index_codecs":"bytes"}"#,
        "BadField index_codecs",
    ),
    (
        r#"{"chunk_shape":[2],"codecs":[7],"index_codecs":{}}"#,
        "BadField index_codecs",
    ),
    (
        r#"{"chunk_shape":[2],"codecs":[7],"index_codecs":[],"index_location":null}"#,
        "BadField index_location",
    ),
    (
        r#"{"chunk_shape":[2],"codecs":[7],"index_codecs":[],"index_location":7}"#,
        "BadField index_location",
    ),
    (
        r#"{"chunk_shape":[2],"codecs":[7],"index_codecs":[],"index_location":""}"#,
        "BadField index_location",
    ),
    (
        r#"{"chunk_shape":[2],"codecs":[7],"index_codecs":[],"index_location":"START"}"#,
        "BadField index_location",
    ),
    (
        r#"{"chunk_shape":[2],"codecs":[7],"index_codecs":[],"index_location":"middle"}"#,
        "BadField index_location",
    ),
    (
        r#"{"chunk_shape":[2],"codecs":[7],"index_codecs":[],"index_location":["end"]}"#,
        "BadField index_location",
    ),
];

#[test]
fn what_is_no_configuration_is_refused(rt: HostRuntime) -> Result<(), Fail> {
    for (text, want) in CONFIGURATIONS {
        let found = configured(rt.alloc(), text)?;
        same_at(&rt, *text, found.as_str(), *want);
    }
    Ok(())
}

// Lists of codecs: names, how many they are, and then the one member; the inner codec before the index codec.
const LISTS: &[(&str, &str)] = &[
    (
        r#"{"chunk_shape":[1,2,2],"codecs":[],"index_codecs":[]}"#,
        "UnsupportedChain",
    ),
    (
        r#"{"chunk_shape":[1,2,2],"codecs":["bytes"],"index_codecs":[]}"#,
        "UnsupportedChain",
    ),
    (
        r#"{"chunk_shape":[1,2,2],"codecs":["bytes","bytes"],"index_codecs":["gzip"]}"#,
        "UnsupportedChain",
    ),
    (
        r#"{"chunk_shape":[1,2,2],"codecs":[],"index_codecs":["gzip"]}"#,
        "UnsupportedChain",
    ),
    (
        r#"{"chunk_shape":[1,2,2],"codecs":["bytes",{"name":"gzip","configuration":{"level":1}}],"index_codecs":["bytes",{"name":"crc32c"}]}"#,
        "UnsupportedCodec gzip",
    ),
    (
        r#"{"chunk_shape":[1,2,2],"codecs":["bytes"],"index_codecs":["bytes",{"name":"crc32c"}]}"#,
        "UnsupportedCodec crc32c",
    ),
    (
        r#"{"chunk_shape":[1,2,2],"codecs":[7],"index_codecs":["gzip"]}"#,
        "BadField codecs",
    ),
    (
        r#"{"chunk_shape":[1,2,2],"codecs":[null],"index_codecs":["gzip"]}"#,
        "BadField codecs",
    ),
    (
        r#"{"chunk_shape":[1,2,2],"codecs":[[]],"index_codecs":["gzip"]}"#,
        "BadField codecs",
    ),
    (
        r#"{"chunk_shape":[1,2,2],"codecs":[{}],"index_codecs":["gzip"]}"#,
        "BadField codecs",
    ),
    (
        r#"{"chunk_shape":[1,2,2],"codecs":[{"name":7}],"index_codecs":["gzip"]}"#,
        "BadField codecs",
    ),
    (
        r#"{"chunk_shape":[1,2,2],"codecs":[{"nam":"bytes"}],"index_codecs":["gzip"]}"#,
        "BadField codecs",
    ),
    (
        r#"{"chunk_shape":[1,2,2],"codecs":[{"name":null,"x":1}],"index_codecs":["gzip"]}"#,
        "BadField codecs",
    ),
    (
        r#"{"chunk_shape":[1,2,2],"codecs":["gzip",7],"index_codecs":["bytes"]}"#,
        "UnsupportedCodec gzip",
    ),
    (
        r#"{"chunk_shape":[1,2,2],"codecs":[7,"gzip"],"index_codecs":["bytes"]}"#,
        "BadField codecs",
    ),
    (
        r#"{"chunk_shape":[1,2,2],"codecs":["sharding_indexed"],"index_codecs":["bytes"]}"#,
        "UnsupportedCodec sharding_indexed",
    ),
    (
        r#"{"chunk_shape":[1,2,2],"codecs":["Bytes"],"index_codecs":["bytes"]}"#,
        "UnsupportedCodec Bytes",
    ),
    (
        r#"{"chunk_shape":[1,2,2],"codecs":[""],"index_codecs":["bytes"]}"#,
        "UnsupportedCodec ",
    ),
    (
        r#"{"chunk_shape":[1,2,2],"codecs":[{"name":"bytes","x":1},"gzip"],"index_codecs":["bytes"]}"#,
        "UnsupportedCodec gzip",
    ),
    (
        r#"{"chunk_shape":[1,2,2],"codecs":[{"name":"bytes","x":1},"bytes"],"index_codecs":["bytes"]}"#,
        "UnsupportedChain",
    ),
    (
        r#"{"chunk_shape":[1,2,2],"codecs":[{"name":"bytes","x":1}],"index_codecs":[7]}"#,
        "BadField x",
    ),
    (
        r#"{"chunk_shape":[1,2,2],"codecs":["bytes"],"index_codecs":[7]}"#,
        "BadField index_codecs",
    ),
    (
        r#"{"chunk_shape":[1,2,2],"codecs":["bytes"],"index_codecs":["bytes","bytes"]}"#,
        "UnsupportedChain",
    ),
    (
        r#"{"chunk_shape":[1,2,2],"codecs":["bytes"],"index_codecs":[{"name":"bytes","configuration":{"endian":"mid"}}]}"#,
        "BadField endian",
    ),
];

#[test]
fn lists_of_codecs_are_refused_in_order(rt: HostRuntime) -> Result<(), Fail> {
    for (text, want) in LISTS {
        let found = configured(rt.alloc(), text)?;
        same_at(&rt, *text, found.as_str(), *want);
    }
    Ok(())
}

// Metadata of another codec than `bytes`, and of none.
const METADATA: &[(&str, &str)] = &[
    (r#"null"#, "BadField name"),
    (r#"7"#, "BadField name"),
    (r#"[]"#, "BadField name"),
    (r#"{}"#, "BadField name"),
    (r#"{"name":7}"#, "BadField name"),
    (r#"{"configuration":{}}"#, "BadField name"),
    (r#"{"name":null,"x":1}"#, "BadField name"),
    (r#""gzip""#, "UnsupportedCodec gzip"),
    (r#"{"name":"gzip","x":1}"#, "UnsupportedCodec gzip"),
    (r#"{"name":"BYTES"}"#, "UnsupportedCodec BYTES"),
    (
        r#"{"name":"bytes","configuration":null}"#,
        "BadField configuration",
    ),
    (
        r#"{"name":"bytes","configuration":[]}"#,
        "BadField configuration",
    ),
    (
        r#"{"name":"bytes","configuration":"little"}"#,
        "BadField configuration",
    ),
    (
        r#"{"name":"bytes","configuration":7}"#,
        "BadField configuration",
    ),
    (
        r#"{"name":"bytes","must_understand":null}"#,
        "BadField must_understand",
    ),
    (
        r#"{"name":"bytes","must_understand":1}"#,
        "BadField must_understand",
    ),
    (
        r#"{"name":"bytes","must_understand":"true"}"#,
        "BadField must_understand",
    ),
    (
        r#"{"name":"bytes","must_understand":{}}"#,
        "BadField must_understand",
    ),
    (
        r#"{"name":"bytes","must_understand":1,"configuration":1}"#,
        "BadField configuration",
    ),
    (
        r#"{"name":"bytes","x":1,"configuration":{"y":1}}"#,
        "BadField x",
    ),
    (r#"{"name":"bytes","a":1,"configuration":7}"#, "BadField a"),
    (r#"{"name":"bytes","Name":"bytes"}"#, "BadField Name"),
    (
        r#"{"name":"bytes","configuration":{"endian":null}}"#,
        "BadField endian",
    ),
    (
        r#"{"name":"bytes","configuration":{"endian":7}}"#,
        "BadField endian",
    ),
    (
        r#"{"name":"bytes","configuration":{"endian":""}}"#,
        "BadField endian",
    ),
    (
        r#"{"name":"bytes","configuration":{"endian":"Little"}}"#,
        "BadField endian",
    ),
    (
        r#"{"name":"bytes","configuration":{"endian":"LITTLE"}}"#,
        "BadField endian",
    ),
    (
        r#"{"name":"bytes","configuration":{"endian":"middle"}}"#,
        "BadField endian",
    ),
    (
        r#"{"name":"bytes","configuration":{"endian":["little"]}}"#,
        "BadField endian",
    ),
    (
        r#"{"name":"bytes","configuration":{"endian":{}}}"#,
        "BadField endian",
    ),
    (
        r#"{"name":"bytes","configuration":{"Endian":"little"}}"#,
        "BadField Endian",
    ),
    (
        r#"{"name":"bytes","configuration":{"endian":"mid","a":0}}"#,
        "BadField a",
    ),
    (
        r#"{"name":"bytes","configuration":{"endian":"mid","z":0}}"#,
        "BadField endian",
    ),
    (
        r#"{"name":"bytes","configuration":{"endian":"little","z":0}}"#,
        "BadField z",
    ),
    (
        r#"{"name":"bytes","configuration":{"endian":"mid"},"z":1}"#,
        "BadField z",
    ),
];

#[test]
fn metadata_is_refused_in_order(rt: HostRuntime) -> Result<(), Fail> {
    for (text, want) in METADATA {
        let found = created::<BytesCodec>(rt.alloc(), text)?;
        same_at(&rt, *text, found.as_str(), *want);
    }
    Ok(())
}

// Metadata of another codec than that of variable elements, which has no member in its configuration.
const VARIABLE: &[(&str, &str)] = &[
    (r#""bytes""#, "UnsupportedCodec bytes"),
    (
        r#"{"name":"zarr_parts.vlen","endian":"big"}"#,
        "BadField endian",
    ),
    (
        r#"{"name":"zarr_parts.vlen","configuration":{"z":1,"a":1}}"#,
        "BadField a",
    ),
    (
        r#"{"name":"zarr_parts.vlen","configuration":{"a":1},"x":1}"#,
        "BadField x",
    ),
];

#[test]
fn a_member_that_no_configuration_has_is_refused(rt: HostRuntime) -> Result<(), Fail> {
    for (text, want) in VARIABLE {
        let found = created::<VlenCodec>(rt.alloc(), text)?;
        same_at(&rt, *text, found.as_str(), *want);
    }
    Ok(())
}

// Metadata of no shard of shards.
const SHARDS: &[(&str, &str)] = &[
    (r#"7"#, "BadField name"),
    (r#""bytes""#, "UnsupportedCodec bytes"),
    (r#""sharding_indexed""#, "MissingField configuration"),
    (
        r#"{"name":"sharding_indexed"}"#,
        "MissingField configuration",
    ),
    (
        r#"{"name":"sharding_indexed","configuration":{}}"#,
        "MissingField chunk_shape",
    ),
    (
        r#"{"name":"sharding_indexed","configuration":[]}"#,
        "BadField configuration",
    ),
    (r#"{"name":"sharding_indexed","x":1}"#, "BadField x"),
    (
        r#"{"name":"sharding_indexed","configuration":{"x":1},"must_understand":7}"#,
        "BadField must_understand",
    ),
    (
        r#"{"name":"sharding_indexed","configuration":{"x":1}}"#,
        "BadField x",
    ),
    (
        r#"{"name":"sharding_indexed","configuration":{"chunk_shape":[2],"codecs":["bytes"],"index_codecs":["bytes"]}}"#,
        "UnsupportedCodec bytes",
    ),
    (
        r#"{"name":"sharding_indexed","configuration":{"chunk_shape":[2],"codecs":["sharding_indexed"],"index_codecs":["gzip"]}}"#,
        "MissingField configuration",
    ),
    (
        r#"{"name":"sharding_indexed","configuration":{"chunk_shape":[2],"codecs":[{"name":"sharding_indexed","configuration":{"chunk_shape":[1],"codecs":[7],"index_codecs":[]}}],"index_codecs":["gzip"]}}"#,
        "BadField codecs",
    ),
];

#[test]
fn the_metadata_of_shards_is_refused_in_order(rt: HostRuntime) -> Result<(), Fail> {
    for (text, want) in SHARDS {
        let found = created::<ShardsOfShards>(rt.alloc(), text)?;
        same_at(&rt, *text, found.as_str(), *want);
    }
    Ok(())
}
