// What an array on disk holds, and its shards.
use crate::codec_lines::write_codecs;
use crate::index_info::{index_info, index_range};
use crate::info_pieces::{KnownShards, known_shards};
use crate::json;
use array_cli::{
    Array, Ending, IndexDecoder, Output, Place, Progress, Refusal, Shard, ShardFile, Stop, Workers,
    write_folder, write_folder_lines, written,
};
use array_fields::{ChunkKeys, KeyEncoding};
use array_folder::{ChunkFile, ChunkFiles, Counted, FolderFiles, IndexInfo, Listing, info_of};
use array_grid::{write_cell_line, write_numbers};
use array_metadata::{ArrayCodec, ArrayMetadata};
use parts_errors::CodecError;
use std::alloc::{AllocError, Global};
use std::io;
use std::io::Write;
use std::thread::Threads;
use storage_handles::BytesPartialDecoderTraits;

/// What is known of a shard that is there.
#[derive(Drop)]
pub struct ShardInfo {
    pub length: u64,
    /// What its index says, or why it is refused.
    pub index: Result<IndexInfo, Refusal>,
}

/// What is known of all shards.
#[derive(Clone, Copy)]
pub struct Sums {
    pub shards: u64,
    pub bytes: u64,
    pub present: u64,
    pub absent: u64,
    pub dead: u64,
    pub refused: u64,
}

// The longest index, in bytes, that is read at once.
const LONGEST_AT_ONCE: u64 = 65_536;

// What the index of a shard says, which has these bytes, or why it is refused.
fn index_of(
    array: &Array<'_>,
    indexes: &IndexDecoder<'_>,
    shard: &Shard<'_>,
    bytes: &[u8],
    length: u64,
) -> Result<Result<IndexInfo, Refusal>, Stop> {
    match index_info(array, indexes, bytes, length) {
        Ok(info) => Ok(Ok(info)),
        Err(CodecError::OutOfMemory) => Err(Stop::OutOfMemory),
        Err(error) => Ok(Err(array.refusal_at(shard, error, Place::opening(&error))?)),
    }
}

// What is known of a shard, whose index is read at once; nothing where its file is gone.
fn read_at_once(
    array: &Array<'_>,
    indexes: &IndexDecoder<'_>,
    shard: &Shard<'_>,
    files: &mut FolderFiles<'_>,
) -> Result<Option<ShardInfo>, Stop> {
    let range = index_range(array.codec.index_location(), indexes.size());
    match files.read(shard.key, range) {
        Ok(Some((length, bytes))) => {
            let index = index_of(array, indexes, shard, bytes, length)?;
            Ok(Some(ShardInfo { length, index }))
        }
        Ok(None) => Ok(None),
        Err(error) => Err(Stop::system(array.alloc(), shard.key, error)),
    }
}

// The length of the shard in a file and what its index says, which has a size and is read in pieces; nothing where there is no file.
fn info_in_pieces<'a>(
    array: &Array<'a>,
    size: u64,
    file: &mut ShardFile<'a>,
) -> Result<Option<(u64, Result<IndexInfo, CodecError>)>, CodecError> {
    let Some(length) = file.len()? else {
        return Ok(None);
    };
    let (codec, shape) = (array.codec, &array.metadata.encoded);
    let info = match codec.read_index(array.alloc(), file, length, shape) {
        Ok(mut index) => info_of(&mut index.numbers, codec.index_location(), size, length),
        Err(error) => Err(error),
    };
    Ok(Some((length, info)))
}

// What is known of a shard in a file, which has a length and whose index says this or is refused so.
fn known<'a>(
    array: &Array<'a>,
    shard: &Shard<'_>,
    file: &ShardFile<'a>,
    length: u64,
    read: Result<IndexInfo, CodecError>,
) -> Result<ShardInfo, Stop> {
    let index = match read {
        Ok(info) => Ok(info),
        Err(error) => Err(array.refusal(shard, file, error, Place::opening(&error))?),
    };
    Ok(ShardInfo { length, index })
}

// What is known of a shard, whose index has a size and is read in pieces; nothing where its file is gone.
fn read_in_pieces(
    array: &Array<'_>,
    shard: &Shard<'_>,
    size: u64,
) -> Result<Option<ShardInfo>, Stop> {
    let mut file = array.file(shard.key)?;
    match info_in_pieces(array, size, &mut file) {
        Ok(Some((length, read))) => Ok(Some(known(array, shard, &file, length, read)?)),
        Ok(None) => Ok(None),
        Err(error) => Err(array.stop(shard, &file, error, Place::Shard)),
    }
}

// What is known of the shard in a file; nothing where the file is gone.
fn read_info(
    array: &Array<'_>,
    indexes: &IndexDecoder<'_>,
    chunk: &ChunkFile,
    files: &mut FolderFiles<'_>,
) -> Result<Option<ShardInfo>, Stop> {
    let shard = Shard::in_file(chunk);
    let size = indexes.size();
    if size > LONGEST_AT_ONCE {
        read_in_pieces(array, &shard, size)
    } else {
        read_at_once(array, indexes, &shard, files)
    }
}

/// What is known of the shards in these files; nothing of one whose file is gone. Of each only the index is read. Refused, in this order, as
/// `Stop::Codec` where the index has no fixed size, and as `Stop::System` where the folder or a file is not read.
pub fn read_infos(array: &Array<'_>, chunks: &[ChunkFile]) -> Result<Vec<Option<ShardInfo>>, Stop> {
    let indexes = array.codec.indexes(array.alloc(), &array.subchunks)?;
    let mut shards: Vec<Option<ShardInfo>> = Vec::with_capacity(array.alloc(), chunks.len())?;
    let mut files = FolderFiles::new(array.alloc(), array.rt, array.path)?;
    for chunk in chunks {
        shards.push(read_info(array, &indexes, chunk, &mut files)?)?;
    }
    Ok(shards)
}

impl Sums {
    // Adds a shard.
    fn add(&mut self, shard: &ShardInfo) {
        self.shards = self.shards.saturating_add(1);
        self.bytes = self.bytes.saturating_add(shard.length);
        match &shard.index {
            Ok(info) => {
                self.present = self.present.saturating_add(info.present);
                self.absent = self.absent.saturating_add(info.absent);
                self.dead = self.dead.saturating_add(info.dead);
            }
            Err(_) => self.refused = self.refused.saturating_add(1),
        }
    }

    // What is known of all these shards.
    fn of(shards: &[Option<ShardInfo>]) -> Sums {
        let mut sums = Sums {
            shards: 0,
            bytes: 0,
            present: 0,
            absent: 0,
            dead: 0,
            refused: 0,
        };
        for shard in shards {
            if let Some(shard) = shard {
                sums.add(shard);
            }
        }
        sums
    }
}

// Writes what the metadata says of elements.
fn write_type(out: &mut Output, metadata: &ArrayMetadata) -> io::Result<()> {
    if let Some(text) = &metadata.type_text {
        let (data_type, fill_value) = (&text.data_type, &text.fill_value);
        return writeln!(out, "data type: {data_type}\nfill value: {fill_value}");
    }
    let element_type = metadata.element_type;
    writeln!(out, "data type: {}", element_type.name())?;
    out.write_all(b"fill value: ")?;
    write_cell_line(out, element_type, metadata.fill_value.as_ne_bytes())
}

// Writes the shape of a subchunk, where there are shards.
fn write_subchunk(out: &mut Output, metadata: &ArrayMetadata) -> io::Result<()> {
    match metadata.codec {
        ArrayCodec::Unsharded(_) => out.write_all(
            b"subchunks: none, since the chunks are no shards\n",
        ),
        _ => write_numbers(out, "subchunks", metadata.subchunk.as_slice()),
    }
}

/// The name of the chunk key encoding, and the separator (Zarr V3 core, "Chunk key encoding").
pub fn key_words(keys: ChunkKeys) -> (&'static str, &'static str) {
    let encoding = match keys.encoding {
        KeyEncoding::Default => "default",
        KeyEncoding::V2 => "v2",
    };
    (encoding, if keys.slashes { "/" } else { "." })
}

// Writes the names of the axes, where there are any, and what the keys of chunks are.
fn write_names(out: &mut Output, metadata: &ArrayMetadata) -> io::Result<()> {
    if let Some(names) = &metadata.dimension_names {
        writeln!(out, "dimension names: {names}")?;
    }
    let (encoding, separator) = key_words(metadata.keys);
    writeln!(out, "keys: {encoding} with {separator}")
}

// Writes what the metadata says.
fn write_metadata(out: &mut Output, alloc: Global, metadata: &ArrayMetadata) -> io::Result<()> {
    write_numbers(out, "shape", &metadata.shape)?;
    write_names(out, metadata)?;
    write_numbers(out, "chunks", metadata.shard.as_slice())?;
    write_subchunk(out, metadata)?;
    write_type(out, metadata)?;
    write_codecs(out, alloc, &metadata.codecs)
}

// Writes the codec for which no subchunk is looked into, if there is one.
fn write_unread(out: &mut Output, unread: Option<String>) -> io::Result<()> {
    match unread {
        Some(name) => writeln!(
            out,
            "no subchunk is looked into: the codec {name} is not served"
        ),
        None => Ok(()),
    }
}

/// Adds numbers to a line, each with words behind it.
pub fn push_counts(line: &mut String, counts: &[(u64, &str)]) -> Result<(), AllocError> {
    for (count, words) in counts {
        line.push_str(itoa::Buffer::new().format(*count))?;
        line.push_str(words)?;
    }
    Ok(())
}

// Makes a line what is known of a shard whose index is read.
fn set_line(line: &mut String, key: &str, length: u64, info: &IndexInfo) -> Result<(), AllocError> {
    line.clear();
    line.push_str(key)?;
    line.push_str(": ")?;
    let counts = [
        (length, " bytes, "),
        (info.present, " present, "),
        (info.absent, " absent, "),
        (info.dead, " dead bytes\n"),
    ];
    push_counts(line, &counts)
}

/// Writes what is known of a shard, by a line in memory that the next one has again.
pub fn write_shard(
    out: &mut Output,
    line: &mut String,
    key: &str,
    shard: &ShardInfo,
) -> io::Result<()> {
    match &shard.index {
        Ok(info) => {
            set_line(line, key, shard.length, info)?;
            out.write_all(line.as_bytes())
        }
        Err(refusal) => {
            let (length, reason) = (shard.length, refusal.reason());
            writeln!(out, "{key}: {length} bytes, refused: {reason}")
        }
    }
}

// Writes a line for each shard.
fn write_shards(
    out: &mut Output,
    alloc: Global,
    files: &ChunkFiles,
    shards: &[Option<ShardInfo>],
) -> io::Result<()> {
    let mut line = String::new(alloc);
    for (file, shard) in files.chunks.iter().zip(shards) {
        if let Some(shard) = shard {
            write_shard(out, &mut line, &file.key, shard)?;
        }
    }
    Ok(())
}

// Writes what is known of all shards.
fn write_sums(out: &mut Output, sums: &Sums) -> io::Result<()> {
    let Sums {
        shards,
        bytes,
        present,
        absent,
        dead,
        refused,
    } = *sums;
    let shards = Counted(shards, "shard");
    write!(
        out,
        "{shards}: {bytes} bytes, {present} present, {absent} absent, {dead} dead bytes"
    )?;
    match refused {
        0 => writeln!(out),
        _ => writeln!(out, "; {refused} refused"),
    }
}

// Writes how many shards there are, of how many there could be.
fn write_count(out: &mut Output, array: &Array<'_>, shards: u64) -> io::Result<()> {
    let possible = array.grid.count(array.alloc())?;
    writeln!(out, "shards: {shards} of {possible}")
}

// Writes what the metadata says, how many shards are there, a line for each, what else stands in the folder, and the sums.
fn write_info(
    out: &mut Output,
    array: &Array<'_>,
    files: &ChunkFiles,
    shards: &[Option<ShardInfo>],
    sums: &Sums,
) -> io::Result<()> {
    write_metadata(out, array.alloc(), array.metadata)?;
    write_unread(out, array.unread()?)?;
    write_count(out, array, sums.shards)?;
    write_shards(out, array.alloc(), files, shards)?;
    write_folder(array, out, files)?;
    write_sums(out, sums)
}

// Writes a line of JSON for each shard.
fn write_shard_lines(
    out: &mut Output,
    alloc: Global,
    files: &ChunkFiles,
    shards: &[Option<ShardInfo>],
) -> io::Result<()> {
    let mut line = String::new(alloc);
    for (file, shard) in files.chunks.iter().zip(shards) {
        if let Some(shard) = shard {
            json::write_shard(out, &mut line, &file.key, shard)?;
        }
    }
    Ok(())
}

// Writes what the metadata says as a line of JSON.
fn write_array_line(out: &mut Output, array: &Array<'_>) -> io::Result<()> {
    let possible = array.grid.count(array.alloc())?;
    let unread = array.unread()?;
    let unread = unread.as_ref().map(String::as_str);
    json::write_array(out, array.metadata, &possible, unread)
}

// Writes the same as lines of JSON.
fn write_info_lines(
    out: &mut Output,
    array: &Array<'_>,
    files: &ChunkFiles,
    shards: &[Option<ShardInfo>],
    sums: &Sums,
) -> io::Result<()> {
    write_array_line(out, array)?;
    write_shard_lines(out, array.alloc(), files, shards)?;
    write_folder_lines(out, files)?;
    json::write_sums(out, sums)
}

// Writes what the metadata says, and what is known of these shards.
fn write_known(
    out: &mut Output,
    array: &Array<'_>,
    known: &KnownShards,
    sums: &Sums,
    is_json: bool,
) -> io::Result<()> {
    let KnownShards { files, shards } = known;
    if is_json {
        write_info_lines(out, array, files, shards, sums)
    } else {
        write_info(out, array, files, shards, sums)
    }
}

/// Writes what the metadata says, and what is known of the shards that are there, of which threads read the index; a shard that is
/// refused has a line that says why. Refused, in this order, as `known_shards` is, and as `Stop::Output` or `Stop::Closed` where the answer is
/// not taken.
pub fn info_of_array<T: Threads + Sync>(
    array: &Array<'_>,
    listing: &Listing,
    workers: &Workers<'_, T>,
    out: &mut Output,
    progress: &mut Progress,
) -> Result<Ending, Stop> {
    let known = known_shards(array, &listing.part, workers, progress)?;
    progress.clear();
    let sums = Sums::of(&known.shards);
    let ending = if sums.refused == 0 {
        Ending::Done
    } else {
        Ending::Refused
    };
    let wrote = write_known(out, array, &known, &sums, listing.is_json);
    written(wrote, ending)?;
    Ok(ending)
}
