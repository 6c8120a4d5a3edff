// What an array holds, as lines of JSON.
use crate::info::{ShardInfo, Sums, key_words, push_counts};
use array_cli::{Output, put_refusal};
use array_fields::JsonLine;
use array_folder::IndexInfo;
use array_grid::write_json_cell;
use array_metadata::{ArrayCodec, ArrayMetadata};
use std::alloc::AllocError;
use std::io;
use std::io::Write;

// Writes what the metadata says of elements.
fn put_type(line: &mut JsonLine<'_, Output>, metadata: &ArrayMetadata) -> io::Result<()> {
    match &metadata.type_text {
        Some(text) => {
            line.text("data_type", &text.data_type)?;
            line.text("fill_value", &text.fill_value)
        }
        None => {
            let element_type = metadata.element_type;
            line.text("data_type", element_type.name())?;
            let element = metadata.fill_value.as_ne_bytes();
            write_json_cell(line.member("fill_value")?, element_type, element)
        }
    }
}

// Puts the shape of a subchunk, or `null` where the chunks are no shards.
fn put_subchunk(line: &mut JsonLine<'_, Output>, metadata: &ArrayMetadata) -> io::Result<()> {
    match metadata.codec {
        ArrayCodec::Unsharded(_) => line.member("subchunk_shape")?.write_all(b"null"),
        _ => line.numbers("subchunk_shape", metadata.subchunk.as_slice()),
    }
}

// Puts the shape of an array, and the names of its axes where there are any.
fn put_shape(line: &mut JsonLine<'_, Output>, metadata: &ArrayMetadata) -> io::Result<()> {
    line.numbers("shape", &metadata.shape)?;
    match &metadata.dimension_names {
        Some(names) => line.text("dimension_names", names),
        None => Ok(()),
    }
}

// Puts what the keys of chunks are, and the shapes of chunks and of subchunks.
fn put_chunks(line: &mut JsonLine<'_, Output>, metadata: &ArrayMetadata) -> io::Result<()> {
    let (encoding, separator) = key_words(metadata.keys);
    line.text("chunk_key_encoding", encoding)?;
    line.text("separator", separator)?;
    line.numbers("chunk_shape", metadata.shard.as_slice())?;
    put_subchunk(line, metadata)
}

// Puts what the metadata says of elements, the codecs, and the one for which no subchunk is looked into.
fn put_codecs(
    line: &mut JsonLine<'_, Output>,
    metadata: &ArrayMetadata,
    unread: Option<&str>,
) -> io::Result<()> {
    put_type(line, metadata)?;
    line.text("codecs", &metadata.codecs)?;
    match unread {
        Some(name) => line.text("unread_codec", name),
        None => Ok(()),
    }
}

/// Writes a line of the kind `array`: what the metadata says, and how many shards there could be, in digits. `unread` is the codec for
/// which no subchunk is looked into.
pub fn write_array(
    out: &mut Output,
    metadata: &ArrayMetadata,
    possible: &str,
    unread: Option<&str>,
) -> io::Result<()> {
    let mut line = JsonLine::new(out, "array")?;
    put_shape(&mut line, metadata)?;
    put_chunks(&mut line, metadata)?;
    put_codecs(&mut line, metadata, unread)?;
    line.member("possible_shards")?
        .write_all(possible.as_bytes())?;
    line.end()
}

// Makes a line the one of the kind `shard` of one whose index is read. All characters of the key stand there as they are.
fn set_line(line: &mut String, key: &str, length: u64, info: &IndexInfo) -> Result<(), AllocError> {
    line.clear();
    line.push_str("{\"kind\":\"shard\",\"key\":\"")?;
    line.push_str(key)?;
    line.push_str("\",\"bytes\":")?;
    let counts = [
        (length, ",\"present\":"),
        (info.present, ",\"absent\":"),
        (info.absent, ",\"dead\":"),
        (info.dead, "}\n"),
    ];
    push_counts(line, &counts)
}

// Whether all characters of a key stand as they are in a text of JSON: letters and digits, and the separators of keys.
fn is_plain(key: &str) -> bool {
    key.bytes().all(|byte| byte.is_ascii_alphanumeric() || matches!(byte, b'/' | b'.'))
}

// Writes a line of the kind `shard` of any shard.
fn write_any_shard(out: &mut Output, key: &str, shard: &ShardInfo) -> io::Result<()> {
    let mut line = JsonLine::new(out, "shard")?;
    line.text("key", key)?;
    line.number("bytes", shard.length)?;
    match &shard.index {
        Ok(info) => line.each(&[
            ("present", info.present),
            ("absent", info.absent),
            ("dead", info.dead),
        ])?,
        Err(refusal) => put_refusal(&mut line, refusal)?,
    }
    line.end()
}

/// Writes a line of the kind `shard`, by a line in memory that the next one has again.
pub fn write_shard(
    out: &mut Output,
    line: &mut String,
    key: &str,
    shard: &ShardInfo,
) -> io::Result<()> {
    match &shard.index {
        Ok(info) if is_plain(key) => {
            set_line(line, key, shard.length, info)?;
            out.write_all(line.as_bytes())
        }
        _ => write_any_shard(out, key, shard),
    }
}

/// Writes a line of the kind `sum`.
pub fn write_sums(out: &mut Output, sums: &Sums) -> io::Result<()> {
    let mut line = JsonLine::new(out, "sum")?;
    line.each(&[
        ("shards", sums.shards),
        ("bytes", sums.bytes),
        ("present", sums.present),
        ("absent", sums.absent),
        ("dead", sums.dead),
        ("refused", sums.refused),
    ])?;
    line.end()
}
