// Metadata of arrays that is read.
use crate::compared::same;
use crate::examples::{told_inside, told_with, unread_inside, unread_with};

// The arrays: start of the index and big endian elements, an axis of no cells, no axes, times, and one byte for each element.
const ARRAYS: &[(&str, &str)] = &[
    (
        r#""storage_transformers": []"#,
        "[8, 8] [4, 4] [2, 2] [7, 0] c/8/8",
    ),
    (
        r#""shape": [0, 8], "x": {"must_understand": false}"#,
        "[0, 8] [4, 4] [2, 2] [7, 0] c/0/8",
    ),
    (
        r#""shape": [3, 4, 5], "data_type": "int32", "fill_value": -1,
        "chunk_grid": {"name": "regular", "configuration": {"chunk_shape": [3, 2, 5]}},
        "chunk_key_encoding": {"name": "v2", "configuration": {"separator": "."}},
        "codecs": [{"name": "sharding_indexed", "configuration": {"chunk_shape": [1, 2, 5],
            "codecs": [{"name": "bytes", "configuration": {"endian": "big"}}],
            "index_codecs": [{"name": "bytes", "configuration": {"endian": "little"}}], "index_location": "start"}}]"#,
        "[3, 4, 5] [3, 2, 5] [1, 2, 5] [255, 255, 255, 255] 3.4.5",
    ),
    (
        r#""shape": [], "data_type": "uint64", "fill_value": 0,
        "chunk_grid": {"name": "regular", "configuration": {"chunk_shape": []}},
        "codecs": [{"name": "sharding_indexed", "configuration": {"chunk_shape": [],
            "codecs": [{"name": "bytes", "configuration": {"endian": "little"}}],
            "index_codecs": [{"name": "bytes", "configuration": {"endian": "little"}}, {"name": "crc32c"}]}}]"#,
        "[] [] [] [0, 0, 0, 0, 0, 0, 0, 0] c",
    ),
    (
        r#""shape": [], "data_type": "uint8", "fill_value": 0, "chunk_key_encoding": {"name": "v2"},
        "chunk_grid": {"name": "regular", "configuration": {"chunk_shape": []}},
        "codecs": [{"name": "sharding_indexed", "configuration": {"chunk_shape": [], "codecs": [{"name": "bytes"}],
            "index_codecs": [{"name": "bytes", "configuration": {"endian": "little"}}]}}]"#,
        "[] [] [] [0] 0",
    ),
    (
        r#""data_type": {"name": "numpy.timedelta64", "configuration": {"unit": "ns", "scale_factor": 1}}, "fill_value": -2"#,
        "[8, 8] [4, 4] [2, 2] [254, 255, 255, 255, 255, 255, 255, 255] c/8/8",
    ),
    (
        r#""shape": [6], "data_type": "bool", "fill_value": false,
        "chunk_grid": {"name": "regular", "configuration": {"chunk_shape": [6]}},
        "codecs": [{"name": "sharding_indexed", "configuration": {"chunk_shape": [3], "codecs": [{"name": "bytes"}],
            "index_codecs": [{"name": "bytes", "configuration": {"endian": "little"}}, {"name": "crc32c"}]}}]"#,
        "[6] [6] [3] [0] c/6",
    ),
];

// Chunk key encodings, and the key of the chunk 8, 8.
const KEYS: &[(&str, &str)] = &[
    (r#"{"name": "default"}"#, "c/8/8"),
    (r#"{"name": "default", "configuration": {}}"#, "c/8/8"),
    (
        r#"{"name": "default", "configuration": {"separator": "."}}"#,
        "c.8.8",
    ),
    (r#"{"name": "v2"}"#, "8.8"),
    (r#""v2""#, "8.8"),
    (
        r#"{"name": "v2", "configuration": {"separator": "/"}}"#,
        "8/8",
    ),
];

// Fill values of a data type, and their bytes.
const FILL_VALUES: &[(&str, &str, &str)] = &[
    ("bool", "true", "[1]"),
    ("int8", "-128", "[128]"),
    ("int16", "-2", "[254, 255]"),
    ("int32", "2147483647", "[255, 255, 255, 127]"),
    (
        "int64",
        "-9223372036854775808",
        "[0, 0, 0, 0, 0, 0, 0, 128]",
    ),
    ("uint8", "255", "[255]"),
    ("uint16", "258", "[2, 1]"),
    ("uint32", "4294967295", "[255, 255, 255, 255]"),
    (
        "uint64",
        "18446744073709551615",
        "[255, 255, 255, 255, 255, 255, 255, 255]",
    ),
    ("float16", "0.1", "[102, 46]"),
    ("float16", "65519.99", "[255, 123]"),
    ("float16", "2049", "[0, 104]"),
    ("float16", "-2.9802322387695316e-8", "[1, 128]"),
    ("float16", "\"NaN\"", "[0, 126]"),
    ("float16", "\"-Infinity\"", "[0, 252]"),
    ("bfloat16", "0.1", "[205, 61]"),
    ("bfloat16", "1.00390625", "[128, 63]"),
    ("bfloat16", "1.003906250000001", "[129, 63]"),
    ("bfloat16", "4.6e-41", "[1, 0]"),
    ("bfloat16", "\"0x7fc1\"", "[193, 127]"),
    ("float32", "-0.0", "[0, 0, 0, 128]"),
    ("float32", "16777217", "[0, 0, 128, 75]"),
    ("float32", "\"Infinity\"", "[0, 0, 128, 127]"),
    ("float32", "\"0x7fC00001\"", "[1, 0, 192, 127]"),
    ("float64", "0.1", "[154, 153, 153, 153, 153, 153, 185, 63]"),
    ("float64", "\"NaN\"", "[0, 0, 0, 0, 0, 0, 248, 127]"),
    (
        "numpy.datetime64",
        "-1",
        "[255, 255, 255, 255, 255, 255, 255, 255]",
    ),
    ("numpy.datetime64", "\"NaT\"", "[0, 0, 0, 0, 0, 0, 0, 128]"),
    (
        "complex64",
        "[1, \"NaN\"]",
        "[0, 0, 128, 63, 0, 0, 192, 127]",
    ),
    (
        "complex128",
        "[\"0x3ff0000000000002\", -0.0]",
        "[2, 0, 0, 0, 0, 0, 240, 63, 0, 0, 0, 0, 0, 0, 0, 128]",
    ),
    ("r16", "[1, 255]", "[1, 255]"),
    ("r24", "\"AQL/\"", "[1, 2, 255]"),
];

// The codecs of subchunks.
const INNER_CODECS: &[&str] = &[
    r#"[{"name": "bytes", "configuration": {"endian": "big"}}]"#,
    r#"[{"name": "bytes", "configuration": {"endian": "little"}}, {"name": "crc32c"}]"#,
    r#"[{"name": "bytes", "configuration": {"endian": "little"}}, "crc32c"]"#,
    r#"[{"name": "sharding_indexed", "configuration": {"chunk_shape": [1, 2],
        "codecs": [{"name": "bytes", "configuration": {"endian": "little"}}, {"name": "crc32c", "configuration": {}}],
        "index_codecs": [{"name": "bytes", "configuration": {"endian": "little"}}]}}]"#,
    r#"[{"name": "transpose", "configuration": {"order": [1, 0]}}, {"name": "bytes", "configuration": {"endian": "big"}}]"#,
    r#"[{"name": "transpose", "configuration": {"order": [0, 1]}}, {"name": "bytes", "configuration": {"endian": "little"}},
        {"name": "gzip", "configuration": {"level": 5}}, {"name": "crc32c"}]"#,
    r#"[{"name": "bytes", "configuration": {"endian": "little"}}, "crc32c", {"name": "numcodecs.zlib", "configuration": {}},
        {"name": "zstd", "configuration": {"level": 3}}]"#,
    r#"[{"name": "sharding_indexed", "configuration": {"chunk_shape": [1, 2],
        "codecs": [{"name": "transpose", "configuration": {"order": [1, 0]}}, {"name": "bytes", "configuration": {"endian": "little"}}],
        "index_codecs": [{"name": "bytes", "configuration": {"endian": "little"}}]}}]"#,
];

// Codecs of subchunks that are not looked into, and the first that is not served: `transpose` is where `bytes` does not follow it.
const UNREAD_CODECS: &[(&str, &str)] = &[
    (r#"["transpose"]"#, "transpose"),
    (
        r#"[{"name": "transpose", "configuration": {"order": [1, 0]}}, "vlen-utf8"]"#,
        "transpose",
    ),
    (r#"["transpose", "transpose", "bytes"]"#, "transpose"),
    (
        r#"[{"name": "transpose", "configuration": {"order": [1, 0]}}, {"name": "sharding_indexed"}]"#,
        "transpose",
    ),
    (r#"["bytes", "transpose"]"#, "transpose"),
    (
        r#"[{"name": "transpose", "configuration": {"order": [1, 0]}}, "bytes", "blosc"]"#,
        "blosc",
    ),
];

// An array of shards behind `transpose`, whose subchunks divide the transposed chunk, of a type of which nothing is known.
const TRANSPOSED: &str =
    r#""data_type": "quantity", "fill_value": "", "chunk_grid": {"name": "regular", "configuration": {"chunk_shape": [4, 6]}},
    "codecs": [{"name": "transpose", "configuration": {"order": [1, 0]}}, {"name": "sharding_indexed", "configuration": {
        "chunk_shape": [3, 2], "codecs": ["bytes"], "index_codecs": [{"name": "bytes", "configuration": {"endian": "little"}}]}}]"#;

#[test]
fn arrays_are_read(rt: HostRuntime) {
    for (members, want) in ARRAYS {
        let told = told_with(rt.alloc(), members).expect(&rt, "refused");
        same(&rt, told.as_str(), *want);
    }
}

#[test]
fn keys_are_read(rt: HostRuntime) {
    for (encoding, key) in KEYS {
        let members = format!(in rt.alloc(); r#""chunk_key_encoding": {encoding}"#).expect(
            &rt, "refused",
        );
        let told = told_with(rt.alloc(), members.as_str()).expect(&rt, "refused");
        let want = format!(in rt.alloc(); "[8, 8] [4, 4] [2, 2] [7, 0] {key}").expect(
            &rt, "refused",
        );
        same(&rt, told, want);
    }
}

#[test]
fn fill_values_are_read(rt: HostRuntime) {
    for (data_type, fill_value, bytes) in FILL_VALUES {
        let members = format!(in rt.alloc();
            r#""data_type": "{data_type}", "fill_value": {fill_value}"#
        ).expect(&rt, "refused");
        let told = told_with(rt.alloc(), members.as_str()).expect(&rt, "refused");
        let want = format!(in rt.alloc(); "[8, 8] [4, 4] [2, 2] {bytes} c/8/8").expect(
            &rt, "refused",
        );
        same(&rt, told, want);
    }
}

#[test]
fn inner_codecs_are_read(rt: HostRuntime) {
    for codecs in INNER_CODECS {
        let told = told_inside(rt.alloc(), codecs).expect(&rt, "refused");
        same(&rt, told.as_str(), "[8, 8] [4, 4] [2, 2] [7, 0] c/8/8");
    }
}

#[test]
fn other_codecs_are_not_looked_into(rt: HostRuntime) {
    for (codecs, name) in UNREAD_CODECS {
        let unread = unread_inside(rt.alloc(), codecs).expect(&rt, "refused");
        same(&rt, unread.as_str(), *name);
    }
    let told = told_with(rt.alloc(), TRANSPOSED).expect(&rt, "refused");
    same(&rt, told.as_str(), "[8, 8] [4, 6] [3, 2] [0] c/8/8");
    let unread = unread_with(rt.alloc(), TRANSPOSED).expect(&rt, "refused");
    same(&rt, unread.as_str(), "transpose");
}
