// Where the subchunks of one shard lie in its file.
use crate::info::{ShardInfo, write_shard};
use crate::json;
use array_cli::{Array, Ending, Output, Place, Shard, ShardFile, Stop, shard_of, written};
use array_fields::{JsonLine, escaped};
use array_folder::{DeadBytes, IndexInfo, index_interval, info_of, slice_of};
use parts_errors::CodecError;
use parts_row_major::unravel_index;
use sharding_format::ShardingIndexLocation;
use std::alloc::Global;
use std::io;
use std::io::Write;
use storage_handles::BytesPartialDecoderTraits;

// What the index of a shard says: its numbers, as they stand there and sorted.
#[derive(Drop)]
struct Layout {
    numbers: Vec<u64>,
    sorted: Vec<u64>,
    info: IndexInfo,
    // where the index stands
    index: (u64, u64),
    // how long the file is
    length: u64,
}

impl Layout {
    // What an index of these numbers and this size says, of a shard in a file of a length.
    fn new(
        alloc: Global,
        numbers: Vec<u64>,
        location: ShardingIndexLocation,
        size: u64,
        length: u64,
    ) -> Result<Self, CodecError> {
        let mut sorted = Vec::from_slice(alloc, &numbers)?;
        let info = info_of(&mut sorted, location, size, length)?;
        Ok(Layout {
            numbers,
            sorted,
            info,
            index: index_interval(location, size, length),
            length,
        })
    }

    // What is known of the shard.
    fn known(&self) -> ShardInfo {
        ShardInfo {
            length: self.length,
            index: Ok(self.info),
        }
    }

    // The bytes of the file, of which the dead ones are asked for.
    fn dead_bytes(&self) -> DeadBytes<'_> {
        DeadBytes::new(&self.sorted, self.info.present, self.index, self.length)
    }
}

// Where the subchunks of the shard in a file lie, whose index has a size; `None` where there is no file.
fn layout_of<'a>(
    array: &Array<'a>,
    size: u64,
    file: &mut ShardFile<'a>,
) -> Result<Option<Layout>, CodecError> {
    let Some(length) = file.len()? else {
        return Ok(None);
    };
    let (alloc, codec) = (array.alloc(), array.codec);
    let index = codec.read_index(alloc, file, length, &array.metadata.encoded)?;
    let layout = Layout::new(alloc, index.numbers, codec.index_location(), size, length)?;
    Ok(Some(layout))
}

// Where the subchunks of a shard lie, whose index has a size.
fn layout_of_shard(array: &Array<'_>, shard: &Shard<'_>, size: u64) -> Result<Layout, Stop> {
    let mut file = array.file(shard.key)?;
    match layout_of(array, size, &mut file) {
        Ok(Some(layout)) => Ok(layout),
        Ok(None) => Err(Stop::NoShard(escaped(array.alloc(), shard.key)?)),
        Err(error) => Err(array.stop(shard, &file, error, Place::opening(&error))),
    }
}

// Where the subchunks of the shard lie that has a key, and whose index has a size.
fn layout_of_key(array: &Array<'_>, size: u64, key: &str) -> Result<Layout, Stop> {
    let files = array.files()?;
    let shard = shard_of(array, &files, key)?;
    layout_of_shard(array, &shard, size)
}

// Writes what bytes a line is of, from a start to before an end.
fn write_bytes(out: &mut Output, name: &str, (start, end): (u64, u64)) -> io::Result<()> {
    write!(out, "{name:>8}")?;
    for number in [start, end.saturating_sub(start), end] {
        write!(out, "  {number:>14}")?;
    }
    Ok(())
}

// Writes a line for a subchunk that lies at these bytes.
fn write_subchunk(
    out: &mut Output,
    alloc: Global,
    number: u64,
    bytes: (u64, u64),
    subchunks: &[u64],
) -> io::Result<()> {
    write_bytes(out, &format!(in alloc; "{number}")?, bytes)?;
    let mut before = "  ";
    if let Some(coordinates) = unravel_index(alloc, number, subchunks)? {
        for coordinate in &coordinates {
            write!(out, "{before}{coordinate}")?;
            before = ",";
        }
    }
    out.write_all(b"\n")
}

// Writes a line for each subchunk that is present.
fn write_subchunks(
    out: &mut Output,
    alloc: Global,
    layout: &Layout,
    subchunks: &[u64],
) -> io::Result<()> {
    for (number, entry) in layout.numbers.chunks(2).enumerate() {
        if let [offset, size] = entry
            && let Some(bytes) = slice_of(*offset, *size, layout.length)
        {
            write_subchunk(out, alloc, number as u64, bytes, subchunks)?;
        }
    }
    Ok(())
}

// Writes a line for each range of dead bytes.
fn write_dead(out: &mut Output, mut bytes: DeadBytes<'_>) -> io::Result<()> {
    for _ in 0..bytes.steps() {
        let (start, end) = bytes.pass();
        if start < end {
            write_bytes(out, "dead", (start, end))?;
            out.write_all(b"\n")?;
        }
    }
    Ok(())
}

// Writes a line of JSON for a range of bytes, which has a number if it is a subchunk.
fn write_range_line(
    out: &mut Output,
    kind: &str,
    (start, end): (u64, u64),
    number: Option<u64>,
) -> io::Result<()> {
    let mut line = JsonLine::new(out, kind)?;
    if let Some(number) = number {
        line.number("number", number)?;
    }
    line.each(&[("offset", start), ("size", end.saturating_sub(start))])?;
    line.end()
}

// Writes a line of JSON for each subchunk that is present.
fn write_subchunk_lines(out: &mut Output, layout: &Layout) -> io::Result<()> {
    for (number, entry) in layout.numbers.chunks(2).enumerate() {
        if let [offset, size] = entry
            && let Some(bytes) = slice_of(*offset, *size, layout.length)
        {
            write_range_line(out, "subchunk", bytes, Some(number as u64))?;
        }
    }
    Ok(())
}

// Writes a line of JSON for each range of dead bytes.
fn write_dead_lines(out: &mut Output, mut bytes: DeadBytes<'_>) -> io::Result<()> {
    for _ in 0..bytes.steps() {
        let (start, end) = bytes.pass();
        if start < end {
            write_range_line(out, "dead", (start, end), None)?;
        }
    }
    Ok(())
}

// Writes what the index of a shard says, as lines of JSON.
fn write_layout_lines(
    out: &mut Output,
    alloc: Global,
    key: &str,
    layout: &Layout,
) -> io::Result<()> {
    json::write_shard(out, &mut String::new(alloc), key, &layout.known())?;
    write_subchunk_lines(out, layout)?;
    write_range_line(out, "index", layout.index, None)?;
    write_dead_lines(out, layout.dead_bytes())
}

// Writes what the index of a shard says, as a table.
fn write_layout(
    out: &mut Output,
    alloc: Global,
    key: &str,
    layout: &Layout,
    subchunks: &[u64],
) -> io::Result<()> {
    write_shard(out, &mut String::new(alloc), key, &layout.known())?;
    out.write_all(b"subchunk          offset            size             end  coordinates\n")?;
    write_subchunks(out, alloc, layout, subchunks)?;
    write_bytes(out, "index", layout.index)?;
    out.write_all(b"\n")?;
    write_dead(out, layout.dead_bytes())
}

/// Writes which bytes of a shard, by its key, each subchunk that is present takes, which ones its index, and which are dead. Only the
/// index is read. Refused, in this order, as `Stop::Codec` where the index has no fixed size, as `Stop::System` where the folder is not
/// read, as `Stop::NoShard` where no shard has the key, as `Stop::System` or `Stop::Refused` where its index is not read, and as
/// `Stop::Output` or `Stop::Closed` where the answer is not taken.
pub fn info_of_shard(
    array: &Array<'_>,
    key: &str,
    is_json: bool,
    out: &mut Output,
) -> Result<Ending, Stop> {
    let size = array.codec.indexes(array.alloc(), &array.subchunks)?.size();
    let layout = layout_of_key(array, size, key)?;
    let wrote = if is_json {
        write_layout_lines(out, array.alloc(), key, &layout)
    } else {
        write_layout(out, array.alloc(), key, &layout, array.subchunks.as_slice())
    };
    written(wrote, Ending::Done)?;
    Ok(Ending::Done)
}
