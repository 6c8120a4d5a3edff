// Metadata of arrays that is refused.
use crate::compared::same;
use crate::examples::{told, told_inside, told_with};

// Whole texts.
const TEXTS: &[(&str, &str)] = &[
    (
        "",
        "4 BadField zarr.json: in zarr.json: the text is no JSON",
    ),
    (
        r#"{"zarr_format": 3"#,
        "4 BadField zarr.json: in zarr.json: the text is no JSON",
    ),
    (
        "{\n  \"attributes\": {\"least\": NaN}}",
        "4 BadField zarr.json: in zarr.json: the text is no JSON, which has no NaN, as at line 2, column 27",
    ),
    (
        r#"{"x": "NaN""#,
        "4 BadField zarr.json: in zarr.json: the text is no JSON",
    ),
    (
        "[x, NaN]",
        "4 BadField zarr.json: in zarr.json: the text is no JSON",
    ),
    (
        "[]",
        "4 BadField zarr.json: in zarr.json: the text is JSON, but no object",
    ),
    (
        r#"{"x": 1e400}"#,
        "4 BadField zarr.json: in zarr.json: a number near line 1, column 12 is past the range of a 64-bit float",
    ),
    (
        "{}",
        "3 MissingField zarr_format: in zarr.json: the key zarr_format is missing",
    ),
    (
        r#"{"zarr_format": 3}"#,
        "3 MissingField node_type: in zarr.json: the key node_type is missing",
    ),
    (
        r#"{"zarr_format": 3, "node_type": "group", "x": 1}"#,
        "4 BadField node_type: in node_type: this is a group, not an array: `list` names the arrays below it",
    ),
    (
        r#"{"zarr_format": 3, "node_type": "array", "shape": [1]}"#,
        "3 MissingField data_type: in zarr.json: the key data_type is missing",
    ),
];

// Members in place of those of an array that is read, and behind an arrow why they are refused.
const MEMBERS: &str =
    r#""zarr_format": 2 => 4 BadField zarr_format: in zarr_format: only arrays of Zarr V3 are read
"node_type": "x" => 4 BadField node_type: in node_type: this is not an array
"x": 1 => 4 BadField x: in x: the key is not known, and must be understood
"x": {"must_understand": true} => 4 BadField x: in x: the key is not known, and must be understood
"storage_transformers": [{"name": "x"}] => 4 BadField storage_transformers: in storage_transformers: storage transformers are not served
"shape": 8 => 4 BadField shape: in shape: this is no list of whole numbers
"shape": [8, -1] => 4 BadField shape: in shape: this is no list of whole numbers from 0 to 2^64 - 1
"data_type": "r12" => 4 BadField data_type: in data_type: elements of the data type r12 are not read, only bool, int8 to int64, uint8 to uint64, floats, complex numbers, raw bits, times, texts and bytes
"data_type": "bytes", "fill_value": "" => 4 BadField codecs: in codecs[0].configuration.codecs[0]: elements of the data type have lengths of their own: their codec is vlen-utf8 or vlen-bytes
"data_type": {"name": "x"} => 4 BadField data_type: in data_type: elements of the data type x are not read, only bool, int8 to int64, uint8 to uint64, floats, complex numbers, raw bits, times, texts and bytes
"chunk_grid": {"name": "rectilinear"} => 4 BadField chunk_grid: in chunk_grid: the chunk grid rectilinear is not served, only regular
"chunk_grid": {"name": "regular"} => 3 MissingField configuration: in chunk_grid: the key configuration is missing
"chunk_grid": {"name": "regular", "configuration": {"chunk_shape": [4, 4, 4]}} => 4 BadField chunk_shape: in chunk_grid.configuration.chunk_shape: a chunk has other than one number for each axis of the array
"chunk_grid": {"name": "regular", "configuration": {"chunk_shape": [4, 0]}} => 4 BadField chunk_shape: in chunk_grid.configuration.chunk_shape: an axis of a chunk is 0
"chunk_key_encoding": {"name": "fanout"} => 4 BadField chunk_key_encoding: in chunk_key_encoding: the chunk key encoding fanout is not served, only default and v2
"chunk_key_encoding": {"name": "v2", "configuration": {"separator": "-"}} => 4 BadField separator: in chunk_key_encoding.configuration.separator: only the separators / and . are served
"chunk_key_encoding": {"name": "v2", "configuration": {"x": 1}} => 4 BadField x: in chunk_key_encoding.configuration: the key is not known
"fill_value": 65536 => 4 BadField fill_value: in fill_value: this is no element of uint16
"fill_value": -1 => 4 BadField fill_value: in fill_value: this is no element of uint16
"fill_value": 1.5 => 4 BadField fill_value: in fill_value: this is no element of uint16
"fill_value": null => 4 BadField fill_value: in fill_value: this is no element of uint16
"data_type": "complex64", "fill_value": [1] => 4 BadField fill_value: in fill_value: this is no element of complex64
"data_type": "r16", "fill_value": [1, 256] => 4 BadField fill_value: in fill_value: this is no list of 2 bytes, and no base64 of as many
"data_type": "int8", "fill_value": 128 => 4 BadField fill_value: in fill_value: this is no element of int8
"data_type": "bool", "fill_value": 1 => 4 BadField fill_value: in fill_value: this is no element of bool
"data_type": "float16", "fill_value": 65520 => 4 BadField fill_value: in fill_value: this number is past the range of float16
"data_type": "bfloat16", "fill_value": 3.4e38 => 4 BadField fill_value: in fill_value: this number is past the range of bfloat16
"data_type": "float32", "fill_value": -3.5e38 => 4 BadField fill_value: in fill_value: this number is past the range of float32
"data_type": "float32", "fill_value": "0x+fc00000" => 4 BadField fill_value: in fill_value: this is no element of float32
"data_type": "float64", "fill_value": "inf" => 4 BadField fill_value: in fill_value: this is no element of float64
"data_type": "numpy.datetime64", "fill_value": 1.5 => 4 BadField fill_value: in fill_value: this is no element of numpy.datetime64
"data_type": {"name": "numpy.datetime64", "configuration": {"units": "s"}} => 4 BadField units: in data_type.configuration: the key is not known
"\u001b[31m\n": 1 => 4 BadField \u{1b}[31m\n: in \u{1b}[31m\n: the key is not known, and must be understood
"data_type": "a\tb\u202ec" => 4 BadField data_type: in data_type: elements of the data type a\tb\u{202e}c are not read, only bool, int8 to int64, uint8 to uint64, floats, complex numbers, raw bits, times, texts and bytes
"chunk_grid": {"name": "\u0085"} => 4 BadField chunk_grid: in chunk_grid: the chunk grid \u{85} is not served, only regular
"chunk_key_encoding": {"name": "\r"} => 4 BadField chunk_key_encoding: in chunk_key_encoding: the chunk key encoding \r is not served, only default and v2
"chunk_grid": {"name": "regular", "configuration": {"chunk_shape": [4, 3]}} => 4 BadField chunk_shape: in codecs[0].configuration.chunk_shape: subchunks of the shape [2, 2] do not divide a shard of the shape [4, 3] evenly
"codecs": {} => 4 BadField codecs: in codecs: this is no list of codecs
"codecs": [{"name": "bytes"}] => 3 MissingField endian: in codecs[0]: elements of more than one byte have no byte order
"codecs": [{"name": "bytes", "configuration": {"endian": "little"}}, "lz4"] => 2 UnsupportedCodec lz4: in codecs[1]: of the codecs that compress, this program reads gzip, zstd and numcodecs.zlib alone
"codecs": ["transpose", {"name": "sharding_indexed"}] => 3 MissingField configuration: in codecs[0]: the key configuration is missing
"codecs": [{"name": "transpose", "configuration": {"order": [1, 1]}}, "sharding_indexed"] => 4 BadField order: in codecs[0].configuration.order: an order names each axis once, from 0 on
"codecs": [{"name": "transpose", "configuration": {"order": [1, 0]}}, "sharding_indexed"] => 3 MissingField configuration: in codecs[1]: the key configuration is missing
"chunk_grid": {"name": "regular", "configuration": {"chunk_shape": [4, 6]}}, "codecs": [{"name": "transpose", "configuration": {"order": [1, 0]}}, {"name": "sharding_indexed", "configuration": { "chunk_shape": [2, 3], "codecs": ["bytes"], "index_codecs": [{"name": "bytes", "configuration": {"endian": "little"}}]}}] => 4 BadField chunk_shape: in codecs[1].configuration.chunk_shape: subchunks of the shape [2, 3] do not divide a shard of the shape [6, 4] evenly
"codecs": [{"name": "transpose", "configuration": {"order": [1, 0]}}, {"name": "sharding_indexed"}, "crc32c"] => 5 UnsupportedChain: in codecs: sharding_indexed is read where no other codec stands beside it
"codecs": [{"name": "sharding_indexed"}, "gzip"] => 5 UnsupportedChain: in codecs: sharding_indexed is read where no other codec stands beside it
"codecs": ["sharding_indexed"] => 3 MissingField configuration: in codecs[0]: the key configuration is missing"#;

// The codecs of subchunks.
const INNER_CODECS: &str =
    r#"["blosc", {"configuration": {}}] => 4 BadField codecs: in codecs[0].configuration.codecs[1]: this is neither a name nor an object with a name
[{"name": "bytes"}, {"name": "blosc", "level": 1}] => 4 BadField level: in codecs[0].configuration.codecs[1]: the key is not known, or its value has another form
[{"name": "sharding_indexed", "configuration": {"chunk_shape": [1, 3], "codecs": [{"name": "bytes", "configuration": {"endian": "little"}}], "index_codecs": [{"name": "bytes", "configuration": {"endian": "little"}}]}}] => 4 BadField chunk_shape: in codecs[0].configuration.codecs[0].configuration.chunk_shape: subchunks of the shape [1, 3] do not divide a shard of the shape [2, 2] evenly
[7] => 4 BadField codecs: in codecs[0].configuration.codecs[0]: this is neither a name nor an object with a name
[] => 5 UnsupportedChain: in codecs[0].configuration.codecs: only bytes, vlen-utf8 or vlen-bytes is served here, and up to three of crc32c, gzip, zstd and numcodecs.zlib behind it
[{"name": "crc32c"}, {"name": "bytes"}] => 5 UnsupportedChain: in codecs[0].configuration.codecs: only bytes, vlen-utf8 or vlen-bytes is served here, and up to three of crc32c, gzip, zstd and numcodecs.zlib behind it
[{"name": "bytes"}] => 3 MissingField endian: in codecs[0].configuration.codecs[0]: elements of more than one byte have no byte order
[{"name": "bytes", "configuration": {"endian": "middle"}}] => 4 BadField endian: in codecs[0].configuration.codecs[0]: the key is not known, or its value has another form
[{"name": "bytes", "configuration": {"endian": "little"}}, {"name": "crc32c", "configuration": {"level": 1}}] => 4 BadField level: in codecs[0].configuration.codecs[1].configuration: the key is not known
[{"name": "bytes", "configuration": {"endian": "little"}}, {"name": "gzip"}] => 3 MissingField configuration: in codecs[0].configuration.codecs[1]: the key configuration is missing
[{"name": "bytes", "configuration": {"endian": "little"}}, {"name": "gzip", "configuration": {}}] => 3 MissingField level: in codecs[0].configuration.codecs[1].configuration: the key level is missing
[{"name": "bytes", "configuration": {"endian": "little"}}, {"name": "gzip", "configuration": {"level": 10}}] => 4 BadField level: in codecs[0].configuration.codecs[1].configuration.level: a level is a whole number from 0 to 9
[{"name": "bytes", "configuration": {"endian": "little"}}, {"name": "gzip", "configuration": {"level": -1}}] => 4 BadField level: in codecs[0].configuration.codecs[1].configuration.level: a level is a whole number from 0 to 9
[{"name": "bytes", "configuration": {"endian": "little"}}, {"name": "gzip", "configuration": {"level": 1.0}}] => 4 BadField level: in codecs[0].configuration.codecs[1].configuration.level: a level is a whole number from 0 to 9
[{"name": "bytes", "configuration": {"endian": "little"}}, {"name": "gzip", "configuration": {"level": 1, "lvl": 2}}] => 4 BadField lvl: in codecs[0].configuration.codecs[1].configuration: the key is not known
[{"name": "bytes", "configuration": {"endian": "little"}}, {"name": "numcodecs.zlib"}] => 3 MissingField configuration: in codecs[0].configuration.codecs[1]: the key configuration is missing
[{"name": "bytes", "configuration": {"endian": "little"}}, "crc32c", {"name": "numcodecs.zlib", "configuration": {"level": 10}}] => 4 BadField level: in codecs[0].configuration.codecs[2].configuration.level: a level is a whole number from 0 to 9
[{"name": "bytes", "configuration": {"endian": "little"}}, {"name": "zstd"}] => 3 MissingField configuration: in codecs[0].configuration.codecs[1]: the key configuration is missing
[{"name": "bytes", "configuration": {"endian": "little"}}, {"name": "zstd", "configuration": {"checksum": true}}] => 3 MissingField level: in codecs[0].configuration.codecs[1].configuration: the key level is missing
[{"name": "bytes", "configuration": {"endian": "little"}}, {"name": "zstd", "configuration": {"level": 23}}] => 4 BadField level: in codecs[0].configuration.codecs[1].configuration.level: a level is a whole number from -131072 to 22
[{"name": "bytes", "configuration": {"endian": "little"}}, {"name": "zstd", "configuration": {"level": -131073}}] => 4 BadField level: in codecs[0].configuration.codecs[1].configuration.level: a level is a whole number from -131072 to 22
[{"name": "bytes", "configuration": {"endian": "little"}}, {"name": "zstd", "configuration": {"level": 3, "checksum": 0}}] => 4 BadField checksum: in codecs[0].configuration.codecs[1].configuration.checksum: a checksum is true or false
[{"name": "bytes", "configuration": {"endian": "little"}}, {"name": "zstd", "configuration": {"level": 3, "window": 9}}] => 4 BadField window: in codecs[0].configuration.codecs[1].configuration: the key is not known
[{"name": "bytes", "configuration": {"endian": "little"}}, "crc32c", "crc32c", "crc32c", "crc32c"] => 5 UnsupportedChain: in codecs[0].configuration.codecs: only bytes, vlen-utf8 or vlen-bytes is served here, and up to three of crc32c, gzip, zstd and numcodecs.zlib behind it
[{"name": "sharding_indexed", "configuration": {"chunk_shape": [2, 2], "codecs": [{"name": "bytes"}], "index_codecs": [{"name": "bytes", "configuration": {"endian": "little"}}]}}] => 3 MissingField endian: in codecs[0].configuration.codecs[0].configuration.codecs[0]: elements of more than one byte have no byte order
[{"name": "sharding_indexed", "configuration": {"chunk_shape": [2, 2], "codecs": [{"name": "bytes", "configuration": {"endian": "little"}}], "index_codecs": [{"name": "bytes"}]}}] => 3 MissingField endian: in codecs[0].configuration.codecs[0].configuration.index_codecs[0]: elements of more than one byte have no byte order
[{"name": "sharding_indexed", "configuration": {"chunk_shape": [2, 2], "codecs": [{"name": "crc32c"}], "index_codecs": [{"name": "blosc"}]}}] => 2 UnsupportedCodec blosc: in codecs[0].configuration.codecs[0].configuration.index_codecs[0]: of the codecs that compress, this program reads gzip, zstd and numcodecs.zlib alone
[{"name": "sharding_indexed", "configuration": {"chunk_shape": [2, 2], "codecs": [{"name": "bytes", "configuration": {"endian": "little"}}], "index_codecs": [{"name": "bytes", "configuration": {"endian": "little"}}, {"name": "gzip", "configuration": {"level": 1}}]}}] => 5 UnsupportedChain: in codecs[0].configuration.codecs[0].configuration.index_codecs: the encoding of an index has a fixed length: bytes, or bytes and crc32c behind it
["transpose", {"name": "bytes", "configuration": {"endian": "little"}}] => 3 MissingField configuration: in codecs[0].configuration.codecs[0]: the key configuration is missing
[{"name": "transpose", "order": [1, 0]}, {"name": "bytes", "configuration": {"endian": "little"}}] => 4 BadField order: in codecs[0].configuration.codecs[0]: the key is not known, or its value has another form
[{"name": "transpose", "configuration": {}}, {"name": "bytes", "configuration": {"endian": "little"}}] => 3 MissingField order: in codecs[0].configuration.codecs[0].configuration: the key order is missing
[{"name": "transpose", "configuration": {"order": [1, 0], "axes": 2}}, {"name": "bytes", "configuration": {"endian": "little"}}] => 4 BadField axes: in codecs[0].configuration.codecs[0].configuration: the key is not known
[{"name": "transpose", "configuration": {"order": "F"}}, {"name": "bytes", "configuration": {"endian": "little"}}] => 4 BadField order: in codecs[0].configuration.codecs[0].configuration.order: this is no list of whole numbers
[{"name": "transpose", "configuration": {"order": [-1, 0]}}, {"name": "bytes", "configuration": {"endian": "little"}}] => 4 BadField order: in codecs[0].configuration.codecs[0].configuration.order: this is no list of whole numbers from 0 to 2^64 - 1
[{"name": "transpose", "configuration": {"order": [0, 1, 2]}}, {"name": "bytes", "configuration": {"endian": "little"}}] => 4 BadField order: in codecs[0].configuration.codecs[0].configuration.order: an order has other than one number for each axis
[{"name": "transpose", "configuration": {"order": [1, 1]}}, {"name": "bytes", "configuration": {"endian": "little"}}] => 4 BadField order: in codecs[0].configuration.codecs[0].configuration.order: an order names each axis once, from 0 on
[{"name": "transpose", "configuration": {"order": [1, 2]}}, {"name": "bytes", "configuration": {"endian": "little"}}] => 4 BadField order: in codecs[0].configuration.codecs[0].configuration.order: an order names each axis once, from 0 on
[{"name": "transpose", "configuration": {"order": [1, 0]}}, {"name": "bytes"}] => 3 MissingField endian: in codecs[0].configuration.codecs[1]: elements of more than one byte have no byte order"#;

#[test]
fn texts_are_refused(rt: HostRuntime) {
    for (text, want) in TEXTS {
        let told = told(rt.alloc(), text).expect(&rt, "refused");
        same(&rt, told.as_str(), *want);
    }
}

#[test]
fn members_are_refused(rt: HostRuntime) {
    for line in MEMBERS.lines() {
        let (members, want) = line.split_once(" => ").expect(&rt, "no arrow");
        let told = told_with(rt.alloc(), members).expect(&rt, "refused");
        same(&rt, told.as_str(), want);
    }
}

#[test]
fn inner_codecs_are_refused(rt: HostRuntime) {
    for line in INNER_CODECS.lines() {
        let (codecs, want) = line.split_once(" => ").expect(&rt, "no arrow");
        let told = told_inside(rt.alloc(), codecs).expect(&rt, "refused");
        same(&rt, told.as_str(), want);
    }
}
