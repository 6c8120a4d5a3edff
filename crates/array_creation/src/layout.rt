// How an array is laid out anew, and its metadata then.
use array_cli::Stop;
use array_fields::{ElementType, escaped};
use array_metadata::{ArrayCodec, ArrayMetadata, reversed_size};
use codec_bytes::Endianness;
use parts_arrays::DataType;
use serde_json::Value;
use sharding_format::{ShardingIndexLocation, SubchunkWriteOrder};
use std::alloc::{AllocError, Global};

/// How an array is laid out anew, by the words of a command line. What is `None` stays as it is.
#[derive(Clone, Copy)]
pub struct LayoutWords<'a> {
    /// The shapes of a shard and of a subchunk, as `512,512`.
    pub shard: Option<&'a str>,
    pub subchunk: Option<&'a str>,
    /// Where the index stands: `start` or `end`.
    pub index: Option<&'a str>,
    /// Whether `crc32c` is behind the index.
    pub is_checked: Option<bool>,
    /// The codec behind that of elements inside a shard: `none`, `crc32c`, `gzip`, `zlib` or `zstd`.
    pub inner: Option<&'a str>,
    /// In which order the subchunks are written: `c` or `morton`.
    pub order: Option<&'a str>,
}

/// Numbers of a command line as a list of JSON. Refused as `Stop::BadWord` where a word is no list of numbers.
pub fn list_of(alloc: Global, word: &str) -> Result<String, Stop> {
    let is_list = word
        .bytes()
        .all(|byte| byte.is_ascii_digit() || byte == b',');
    if !is_list {
        return Err(Stop::BadWord(escaped(alloc, word)?));
    }
    Ok(format!(in alloc; "[{word}]")?)
}

// A shape as a list of JSON.
fn shape_text(alloc: Global, word: Option<&str>, shape: &[u64]) -> Result<String, Stop> {
    if let Some(word) = word {
        return list_of(alloc, word);
    }
    let mut text = String::from_str(alloc, "[")?;
    let mut before = "";
    for count in shape {
        text.push_str(format!(in alloc; "{before}{count}")?.as_str())?;
        before = ",";
    }
    text.push(']')?;
    Ok(text)
}

// The metadata of a codec behind that of elements, with a comma before it.
fn behind_elements(name: &str) -> Option<&'static str> {
    match name {
        "none" => Some(""),
        "crc32c" => Some(",{\"name\":\"crc32c\"}"),
        "gzip" => Some(",{\"name\":\"gzip\",\"configuration\":{\"level\":5}}"),
        "zlib" => Some(",{\"name\":\"numcodecs.zlib\",\"configuration\":{\"level\":5}}"),
        "zstd" => Some(",{\"name\":\"zstd\",\"configuration\":{\"level\":0,\"checksum\":false}}"),
        _ => None,
    }
}

// The first codec of a list, and its name.
fn first_of(list: Option<&Value>) -> Option<(&Value, &str)> {
    let codec = list?.get(0)?;
    let name = codec.get("name")?.as_str()?;
    Some((codec, name))
}

/// The metadata of the codec of elements of a type, in a new array: `bytes`, or the codec of those that have lengths of their own.
pub fn codec_of_elements(element_type: ElementType, order: Endianness) -> &'static str {
    match (element_type, order) {
        (ElementType::Utf8, _) => "{\"name\":\"vlen-utf8\"}",
        (ElementType::Binary, _) => "{\"name\":\"vlen-bytes\"}",
        (_, Endianness::Little) => "{\"name\":\"bytes\",\"configuration\":{\"endian\":\"little\"}}",
        (_, Endianness::Big) => "{\"name\":\"bytes\",\"configuration\":{\"endian\":\"big\"}}",
    }
}

// The byte order of elements that are laid out anew: as it is where the codecs do not turn elements, so that these go as they are.
fn byte_order(metadata: &ArrayMetadata) -> Endianness {
    match reversed_size(metadata.element_type, &metadata.codec) {
        Some(_) => Endianness::Big,
        None => Endianness::Little,
    }
}

// The codec of elements of a list, or another where the list does not begin with one.
fn first_text(alloc: Global, list: Option<&Value>, other: &str) -> Result<String, AllocError> {
    match first_of(list) {
        Some((codec, "bytes" | "vlen-utf8" | "vlen-bytes")) => codec.to_string(alloc),
        _ => String::from_str(alloc, other),
    }
}

// The codecs inside a shard as a list of JSON.
fn inner_text(
    alloc: Global,
    word: Option<&str>,
    old: Option<&Value>,
    metadata: &ArrayMetadata,
) -> Result<String, Stop> {
    let Some(word) = word else {
        return match old {
            Some(list) => Ok(list.to_string(alloc)?),
            None => Ok(String::from_str(alloc, "[]")?),
        };
    };
    let Some(behind) = behind_elements(word) else {
        return Err(Stop::BadWord(escaped(alloc, word)?));
    };
    let codec = codec_of_elements(metadata.element_type, byte_order(metadata));
    let first = first_text(alloc, old, codec)?;
    Ok(format!(in alloc; "[{first}{behind}]")?)
}

// The codecs of an index as a list of JSON; where there was none, `bytes` and `crc32c`.
fn index_text(
    alloc: Global,
    is_checked: Option<bool>,
    old: Option<&Value>,
) -> Result<String, AllocError> {
    let behind = match (is_checked, old) {
        (None, Some(list)) => return list.to_string(alloc),
        (Some(false), _) => "",
        (Some(true), _) | (None, None) => ",{\"name\":\"crc32c\"}",
    };
    // the numbers of an index are of 64 bits
    let number = ElementType::Number(DataType::UInt64);
    let bytes = first_text(alloc, old, codec_of_elements(number, Endianness::Little))?;
    format!(in alloc; "[{bytes}{behind}]")
}

// Where an index stands, in the words of metadata.
fn location_text(
    alloc: Global,
    word: Option<&str>,
    old: ShardingIndexLocation,
) -> Result<&'static str, Stop> {
    match (word, old) {
        (Some("start"), _) | (None, ShardingIndexLocation::Start) => Ok("start"),
        (Some("end"), _) | (None, ShardingIndexLocation::End) => Ok("end"),
        (Some(word), _) => Err(Stop::BadWord(escaped(alloc, word)?)),
    }
}

// What the document of an array says of its layout.
#[derive(Clone, Copy)]
struct OldLayout<'d> {
    // the codecs of elements
    inner: Option<&'d Value>,
    // those of an index, or `None` of chunks without one, and where it stands
    index: Option<&'d Value>,
    location: ShardingIndexLocation,
}

// What the document of an array, which has this metadata, says of its layout.
fn old_layout<'d>(document: &'d Value, metadata: &ArrayMetadata) -> OldLayout<'d> {
    match &metadata.codec {
        ArrayCodec::Sharded(shards) => OldLayout {
            inner: document.pointer("/codecs/0/configuration/codecs"),
            index: document.pointer("/codecs/0/configuration/index_codecs"),
            location: shards.location,
        },
        ArrayCodec::Transposed(transposed) => OldLayout {
            inner: document.pointer("/codecs/1/configuration/codecs"),
            index: document.pointer("/codecs/1/configuration/index_codecs"),
            location: transposed.codec.location,
        },
        ArrayCodec::Unsharded(_) => OldLayout {
            inner: document.pointer("/codecs"),
            index: None,
            location: ShardingIndexLocation::End,
        },
    }
}

/// What stands before the shape of the subchunks in the value of `codecs`.
pub const BEFORE_SUBCHUNK: &str =
    "[{\"name\":\"sharding_indexed\",\"configuration\":{\"chunk_shape\":";

/// Adds a value to a text of JSON, behind what stands before it.
pub fn add(text: &mut String, before: &str, value: Result<String, Stop>) -> Result<(), Stop> {
    let value = value?;
    text.push_str(before)?;
    Ok(text.push_str(&value)?)
}

// The value of `codecs` in a new layout.
fn codecs_text(
    alloc: Global,
    words: &LayoutWords<'_>,
    document: &Value,
    metadata: &ArrayMetadata,
) -> Result<String, Stop> {
    let old = old_layout(document, metadata);
    let chunk = shape_text(alloc, words.subchunk, metadata.subchunk.as_slice());
    let mut text = String::new(alloc);
    add(&mut text, BEFORE_SUBCHUNK, chunk)?;
    let inner = inner_text(alloc, words.inner, old.inner, metadata);
    add(&mut text, ",\"codecs\":", inner)?;
    let index = index_text(alloc, words.is_checked, old.index);
    add(&mut text, ",\"index_codecs\":", Ok(index?))?;
    text.push_str(",\"index_location\":\"")?;
    text.push_str(location_text(alloc, words.index, old.location)?)?;
    text.push_str("\"}}]")?;
    Ok(text)
}

// The value of `codecs` in a new layout, of an array with this document.
fn new_codecs(
    alloc: Global,
    words: &LayoutWords<'_>,
    document: &Value,
    metadata: &ArrayMetadata,
) -> Result<Value, Stop> {
    let text = codecs_text(alloc, words, document, metadata)?;
    parsed(alloc, &text)
}

// The shape of a shard in a new layout.
fn new_shard_shape(
    alloc: Global,
    words: &LayoutWords<'_>,
    metadata: &ArrayMetadata,
) -> Result<Value, Stop> {
    let text = shape_text(alloc, words.shard, metadata.shard.as_slice())?;
    parsed(alloc, &text)
}

/// The `zarr.json` of an array that is laid out anew, or a subset of it that has this shape, from the one of the array as it is: all other
/// members stay. Refused as `Stop::BadWord` where a word is none of those that it may be.
pub fn new_document(
    alloc: Global,
    words: &LayoutWords<'_>,
    text: &str,
    metadata: &ArrayMetadata,
    shape: &[u64],
) -> Result<String, Stop> {
    let mut document = parsed(alloc, text)?;
    let codecs = new_codecs(alloc, words, &document, metadata)?;
    let shard = new_shard_shape(alloc, words, metadata)?;
    let shape = parsed(alloc, &shape_text(alloc, None, shape)?)?;
    put(&mut document, "/shape", shape);
    put(&mut document, "/codecs", codecs);
    put(
        &mut document,
        "/chunk_grid/configuration/chunk_shape",
        shard,
    );
    Ok(document.to_string(alloc)?)
}

/// The order in which subchunks are written. Refused as `Stop::BadWord`.
pub fn order_of(alloc: Global, word: Option<&str>) -> Result<SubchunkWriteOrder, Stop> {
    match word {
        None | Some("c") => Ok(SubchunkWriteOrder::C),
        Some("morton") => Ok(SubchunkWriteOrder::Morton),
        Some(word) => Err(Stop::BadWord(escaped(alloc, word)?)),
    }
}

// The value of a text that is JSON.
fn parsed(alloc: Global, text: &str) -> Result<Value, Stop> {
    match Value::from_str(alloc, text) {
        Ok(value) => Ok(value),
        Err(error) if error.is_memory() => Err(Stop::OutOfMemory),
        Err(_) => Err(Stop::BadWord(escaped(alloc, text)?)),
    }
}

// Puts a value in the place of what stands at a path.
fn put(document: &mut Value, path: &str, value: Value) {
    if let Some(place) = document.pointer_mut(path) {
        *place = value;
    }
}
