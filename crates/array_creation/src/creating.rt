// A new array that has no shard yet.
use crate::layout::{
    BEFORE_SUBCHUNK, LayoutWords, add, codec_of_elements, list_of, new_document, order_of,
};
use crate::new_folder::{begin_folder, end_folder, test_served};
use array_cli::{Ending, Stop, described};
use array_fields::{ElementType, escaped};
use codec_bytes::Endianness;
use parts_arrays::DataType;
use serde_json::Value;
use sharding_format::SubchunkWriteOrder;
use std::alloc::Global;
use std::fs;

/// What a new array is, by the words of a command line.
#[derive(Clone, Copy)]
pub struct ArrayWords<'a> {
    /// The shapes of the array, of a shard and of a subchunk, as `512,512`.
    pub shape: &'a str,
    pub shard: &'a str,
    pub subchunk: &'a str,
    /// The name of the data type, as `uint16`.
    pub data_type: &'a str,
    /// The fill value, as it stands in metadata, or as a text of it; the zero of the data type where it is `None`, or no byte where its
    /// elements have lengths of their own.
    pub fill: Option<&'a str>,
    /// How shards are laid out.
    pub layout: LayoutWords<'a>,
}

// A word of a command line as a text of JSON. Refused as `Stop::BadWord` where it has other characters than those of names and numbers.
fn text_of(alloc: Global, word: &str) -> Result<String, Stop> {
    let is_plain = word.bytes().all(|byte| byte.is_ascii_alphanumeric()
        || matches!(byte, b'_' | b'-' | b'+' | b'.'));
    if !is_plain {
        return Err(Stop::BadWord(escaped(alloc, word)?));
    }
    Ok(format!(in alloc; "\"{word}\"")?)
}

// The zero of a data type, in the form that metadata has (Zarr V3 core, "Fill value list"); no byte of those whose elements have lengths of
// their own.
fn zero_of(data_type: &str) -> &'static str {
    match data_type {
        "bool" => "false",
        "complex64" | "complex128" => "[0,0]",
        "string" | "bytes" | "variable_length_bytes" => "\"\"",
        _ => "0",
    }
}

// A fill value, in the form that metadata has.
fn fill_text(alloc: Global, word: Option<&str>, data_type: &str) -> Result<String, Stop> {
    let Some(word) = word else {
        return Ok(String::from_str(alloc, zero_of(data_type))?);
    };
    match Value::from_str(alloc, word) {
        Ok(_) => Ok(String::from_str(alloc, word)?),
        Err(error) if error.is_memory() => Err(Stop::OutOfMemory),
        Err(_) => text_of(alloc, word),
    }
}

// The type by which the codec of elements of a data type is chosen.
fn codec_type(data_type: &str) -> ElementType {
    match data_type {
        "string" => ElementType::Utf8,
        "bytes" | "variable_length_bytes" => ElementType::Binary,
        _ => ElementType::Number(DataType::UInt8),
    }
}

// What stands in the `zarr.json` of a new array before its shape, its data type, the shape of its shards, its fill value and its codecs,
// behind the shape of its subchunks, and behind the codec of its elements.
const BEFORE_SHAPE: &str = "{\"zarr_format\":3,\"node_type\":\"array\",\"shape\":";

const BEFORE_DATA_TYPE: &str = ",\"data_type\":";

const BEFORE_SHARD: &str =
    ",\"chunk_grid\":{\"name\":\"regular\",\"configuration\":{\"chunk_shape\":";

const BEFORE_FILL_VALUE: &str =
    "}},\"chunk_key_encoding\":{\"name\":\"default\",\"configuration\":{\"separator\":\"/\"}},\"fill_value\":";

const BEHIND_SUBCHUNK: &str = ",\"codecs\":[";

const BEHIND_ELEMENTS: &str =
    "],\"index_codecs\":[{\"name\":\"bytes\",\"configuration\":{\"endian\":\"little\"}},{\"name\":\"crc32c\"}],\"index_location\":\"end\"}}],\"attributes\":{}}";

// The `zarr.json` of a new array, whose shards are laid out as no word says otherwise.
fn plain_document(alloc: Global, words: &ArrayWords<'_>) -> Result<String, Stop> {
    let mut text = String::new(alloc);
    add(&mut text, BEFORE_SHAPE, list_of(alloc, words.shape))?;
    add(&mut text, BEFORE_DATA_TYPE, text_of(alloc, words.data_type))?;
    add(&mut text, BEFORE_SHARD, list_of(alloc, words.shard))?;
    let fill = fill_text(alloc, words.fill, words.data_type);
    add(&mut text, BEFORE_FILL_VALUE, fill)?;
    text.push_str(",\"codecs\":")?;
    add(&mut text, BEFORE_SUBCHUNK, list_of(alloc, words.subchunk))?;
    text.push_str(BEHIND_SUBCHUNK)?;
    text.push_str(codec_of_elements(codec_type(words.data_type), Endianness::Little))?;
    text.push_str(BEHIND_ELEMENTS)?;
    Ok(text)
}

// The `zarr.json` of a new array, laid out as the words say.
fn laid_out(alloc: Global, path: &str, words: &ArrayWords<'_>) -> Result<String, Stop> {
    let plain = plain_document(alloc, words)?;
    let metadata = described(alloc, path, &plain, SubchunkWriteOrder::C)?;
    new_document(alloc, &words.layout, &plain, &metadata, &metadata.shape)
}

// Tests that the codecs serve an array with this document.
fn test_document(
    rt: &HostRuntime,
    path: &str,
    document: &str,
    order: SubchunkWriteOrder,
) -> Result<(), Stop> {
    let metadata = described(rt.alloc(), path, document, order)?;
    test_served(rt, path, &metadata)
}

// The `zarr.json` of a new array. Refused as `Stop::BadWord`, as `Stop::Metadata`, and where the codecs do not serve it.
fn document_of(rt: &HostRuntime, path: &str, words: &ArrayWords<'_>) -> Result<String, Stop> {
    let order = order_of(rt.alloc(), words.layout.order)?;
    let document = laid_out(rt.alloc(), path, words)?;
    test_document(rt, path, &document, order)?;
    Ok(document)
}

/// Makes an array in a folder that is not there yet, by its `zarr.json` alone: all of its elements are the fill value. It is written
/// beside itself, with `.partial` behind its name, and renamed once it is whole. Refused, in this order, as `Stop::BadWord` where a
/// word is none of those that it may be, as `Stop::Metadata` and `Stop::Codec` where no array is so, and as `Stop::System` where the
/// folder is there already or cannot be made; nothing is left then.
pub fn create(rt: &HostRuntime, path: &str, words: &ArrayWords<'_>) -> Result<Ending, Stop> {
    let document = document_of(rt, path, words)?;
    let beside = format!(in rt.alloc(); "{path}.partial")?;
    begin_folder(rt, path, &beside)?;
    let ended = end_folder(rt, path, &beside, &document);
    if ended.is_err() {
        let _ = fs::remove_dir_all(rt, &beside);
    }
    ended?;
    Ok(Ending::Done)
}
