// What stands in an array's folder: the shard that has a key, and what is no shard.
use crate::arrays::{Array, Shard};
use crate::output::Output;
use crate::stop::Stop;
use array_fields::{JsonLine, escaped};
use array_folder::{ChunkFiles, age_of};
use std::io;
use std::io::Write;

/// The shard of an array that has a key, among the files of its chunks. Refused as `Stop::NoShard` where none has it.
pub fn shard_of<'s>(
    array: &Array<'_>,
    files: &'s ChunkFiles,
    key: &str,
) -> Result<Shard<'s>, Stop> {
    for file in files.chunks.iter() {
        if file.key.as_str() == key {
            return Ok(Shard::in_file(file));
        }
    }
    Err(Stop::NoShard(escaped(array.alloc(), key)?))
}

// Writes a line for the new file with a key, which stands beside a shard.
fn write_replacing(array: &Array<'_>, out: &mut Output, key: &str) -> io::Result<()> {
    let age = age_of(array.rt, &array.path_of(key)?);
    writeln!(
        out,
        "{key}{age}: a compaction writes it, or was stopped and left it; if none runs, remove it"
    )
}

/// Writes what stands in an array's folder besides its shards: a line for each new file that stands beside a shard, and how
/// many other files there are. Refused as the writer refuses.
pub fn write_folder(array: &Array<'_>, out: &mut Output, files: &ChunkFiles) -> io::Result<()> {
    for key in files.replacing.iter() {
        write_replacing(array, out, key)?;
    }
    match files.others {
        0 => Ok(()),
        1 => writeln!(out, "1 file is no chunk of this array"),
        others => writeln!(out, "{others} files are no chunks of this array"),
    }
}

// Writes a line of the kind `new_file`.
fn write_new_file(out: &mut Output, key: &str) -> io::Result<()> {
    let mut line = JsonLine::new(out, "new_file")?;
    line.text("key", key)?;
    line.end()
}

/// Writes a line of the kind `new_file` for each new file beside a shard, and one of the kind `other_files` where others stand there.
pub fn write_folder_lines(out: &mut Output, files: &ChunkFiles) -> io::Result<()> {
    for key in files.replacing.iter() {
        write_new_file(out, key)?;
    }
    if files.others == 0 {
        return Ok(());
    }
    let mut line = JsonLine::new(out, "other_files")?;
    line.number("count", files.others)?;
    line.end()
}
