// What is told of a text of metadata.
use array_metadata::ArrayMetadata;
use std::alloc::{AllocError, Global};

// The members of an array of two axes. Of two members with one key the later one is read.
const ARRAY: &str =
    r#""zarr_format": 3, "node_type": "array", "shape": [8, 8], "data_type": "uint16",
    "chunk_grid": {"name": "regular", "configuration": {"chunk_shape": [4, 4]}},
    "chunk_key_encoding": {"name": "default", "configuration": {"separator": "/"}},
    "fill_value": 7, "attributes": {}, "dimension_names": ["d0", "d1"],
    "codecs": [{"name": "sharding_indexed", "configuration": {
        "chunk_shape": [2, 2],
        "codecs": [{"name": "bytes", "configuration": {"endian": "little"}}],
        "index_codecs": [{"name": "bytes", "configuration": {"endian": "little"}}, {"name": "crc32c"}],
        "index_location": "end"}}]"#;

// The shapes that metadata has, its fill value, and the key of the chunk with the shape's numbers.
fn told_of(alloc: Global, metadata: &ArrayMetadata) -> Result<String, AllocError> {
    let shape = metadata.shape.as_slice();
    let shard = metadata.shard.as_slice();
    let subchunk = metadata.subchunk.as_slice();
    let fill = metadata.fill_value.as_ne_bytes();
    let key = metadata.keys.key_of(alloc, shape)?;
    format!(in alloc; "{shape:?} {shard:?} {subchunk:?} {fill:?} {key}")
}

// What is told of the metadata in a text, or why it is refused.
pub fn told(alloc: Global, text: &str) -> Result<String, AllocError> {
    match ArrayMetadata::from_text(alloc, text) {
        Ok(metadata) => told_of(alloc, &metadata),
        Err(error) => format!(in alloc; "{error}"),
    }
}

// What is told of the array of two axes with these members in place of its own.
pub fn told_with(alloc: Global, members: &str) -> Result<String, AllocError> {
    let text = format!(in alloc; "{{{ARRAY}, {members}}}")?;
    told(alloc, text.as_str())
}

// The codecs of the array of two axes whose subchunks have this list of codecs.
fn members_inside(alloc: Global, codecs: &str) -> Result<String, AllocError> {
    format!(in alloc;
        r#""codecs": [{{"name": "sharding_indexed", "configuration": {{"chunk_shape": [2, 2], "codecs": {codecs}, "index_codecs": [{{"name": "bytes", "configuration": {{"endian": "big"}}}}]}}}}]"#
    )
}

// What is told of the array of two axes whose subchunks have this list of codecs.
pub fn told_inside(alloc: Global, codecs: &str) -> Result<String, AllocError> {
    told_with(alloc, members_inside(alloc, codecs)?.as_str())
}

// The codec for which no subchunk of the array of two axes with this list of codecs of subchunks is looked into, or why it is refused.
pub fn unread_inside(alloc: Global, codecs: &str) -> Result<String, AllocError> {
    unread_with(alloc, members_inside(alloc, codecs)?.as_str())
}

// The codec for which no subchunk of the array of two axes with these members in place of its own is looked into, or why it is refused.
pub fn unread_with(alloc: Global, members: &str) -> Result<String, AllocError> {
    let text = format!(in alloc; "{{{ARRAY}, {members}}}")?;
    match ArrayMetadata::from_text(alloc, text.as_str()) {
        Ok(metadata) => format!(in alloc; "{}", metadata.unread.as_deref().unwrap_or("")),
        Err(error) => format!(in alloc; "{error}"),
    }
}
