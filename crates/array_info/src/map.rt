// A map of an array's shards, or of the subchunks of one shard.
use crate::info::ShardInfo;
use crate::info_pieces::known_shards;
use array_cli::{
    Array, Ending, OpenShard, Output, Place, Progress, Shard, ShardFile, Stop, Workers,
    check_subchunk, shard_of, written,
};
use array_fields::escaped;
use array_folder::{
    ChunkFiles, Drawn, Mark, ShardMap, SliceOrder, save_bytes, write_array_map,
    write_array_picture, write_shard_map, write_shard_picture,
};
use array_grid::ListPart;
use parts_errors::CodecError;
use parts_row_major::{ravel_indices, unravel_index};
use parts_subsets::ChunkShape;
use sharding_format::SubchunkWriteOrder;
use sharding_layout::SubchunkSequence;
use std::alloc::{AllocError, Global};
use std::thread::Threads;
use storage_handles::{ByteRange, BytesPartialDecoderTraits};

// How many places a map has at most.
const MOST_PLACES: u64 = 65_536;

// How many places a grid has, where a map of it is drawn.
fn places_of(counts: &[u64]) -> Result<u64, Stop> {
    let mut places = 1u64;
    for count in counts {
        places = places.saturating_mul(*count);
    }
    if places > MOST_PLACES {
        return Err(Stop::TooManyPlaces { most: MOST_PLACES });
    }
    Ok(places)
}

// The first byte of a slice, and the one behind its last.
fn bytes_of(range: ByteRange) -> (u64, u64) {
    match range {
        ByteRange::FromStart(offset, size) => { (offset, offset.saturating_add(size.unwrap_or(0))) }
        ByteRange::Suffix(size) => (0, size),
    }
}

// How a command ends that found this.
fn ending_of(marks: &[Mark]) -> Ending {
    if marks.contains(&Mark::Refused) {
        Ending::Refused
    } else {
        Ending::Done
    }
}

// What a subchunk is that has a slice: refused where it does not decode. Refused where it could not be read.
fn mark_of(decoded: Result<bool, CodecError>) -> Result<Mark, CodecError> {
    match decoded {
        Ok(_) => Ok(Mark::Present),
        Err(error) if matches!(error, CodecError::Fault | CodecError::OutOfMemory) => Err(error),
        Err(_) => Ok(Mark::Refused),
    }
}

// A subchunk of a shard that is open: where its slice lies, and whether it decodes where its codec is served.
fn drawn_at<'a>(
    array: &Array<'a>,
    opened: &mut OpenShard<'a>,
    number: u64,
    subchunk: &[u64],
) -> Result<Drawn, CodecError> {
    match opened.byte_range(subchunk) {
        Ok(Some(range)) => {
            let is_index_alone = array.metadata.unread.is_some();
            let decoded = check_subchunk(array, is_index_alone, opened, number);
            Ok(Drawn {
                mark: mark_of(decoded)?,
                bytes: Some(bytes_of(range)),
            })
        }
        Ok(None) => Ok(Drawn::without_bytes(Mark::Absent)),
        Err(CodecError::BadIndexEntry { .. }) => Ok(Drawn::without_bytes(Mark::Refused)),
        Err(error) => Err(error),
    }
}

// Adds the subchunk of a shard that has a number.
fn draw_next<'a>(
    array: &Array<'a>,
    opened: &mut OpenShard<'a>,
    number: u64,
    drawn: &mut Vec<Drawn>,
) -> Result<(), CodecError> {
    let alloc = array.alloc();
    if let Some(subchunk) = unravel_index(alloc, number, array.subchunks.as_slice())? {
        drawn.push(drawn_at(array, opened, number, &subchunk)?)?;
    }
    Ok(())
}

// The subchunks of a shard that is open.
fn draw_each<'a>(
    array: &Array<'a>,
    opened: &mut OpenShard<'a>,
    count: u64,
    progress: &mut Progress,
) -> Result<Vec<Drawn>, CodecError> {
    let mut drawn: Vec<Drawn> = Vec::new(array.alloc());
    for number in 0..count {
        progress.step(number, count);
        draw_next(array, opened, number, &mut drawn)?;
    }
    Ok(drawn)
}

// Whether slices begin in the file in the order of a sequence of subchunks.
fn follows(drawn: &[Drawn], sequence: &SubchunkSequence) -> bool {
    let mut reached = 0;
    for position in 0..sequence.len() {
        let number = sequence.number_at(position);
        if let Some(
            Drawn {
                mark: _,
                bytes: Some((start, _)),
            },
        ) = drawn.get(number as usize)
        {
            if *start < reached {
                return false;
            }
            reached = *start;
        }
    }
    true
}

// Whether the slices of a shard begin in the file in an order.
fn is_in_order(
    alloc: Global,
    drawn: &[Drawn],
    subchunks: &ChunkShape,
    order: SubchunkWriteOrder,
) -> Result<bool, AllocError> {
    match subchunks.num_elements() {
        Some(count) => {
            let sequence = SubchunkSequence::new(alloc, order, subchunks, count)?;
            Ok(follows(drawn, &sequence))
        }
        None => Ok(false),
    }
}

// The order in which the slices of a shard lie in its file.
fn order_of(
    alloc: Global,
    drawn: &[Drawn],
    subchunks: &ChunkShape,
) -> Result<SliceOrder, AllocError> {
    if is_in_order(alloc, drawn, subchunks, SubchunkWriteOrder::C)? {
        return Ok(SliceOrder::RowMajor);
    }
    if is_in_order(alloc, drawn, subchunks, SubchunkWriteOrder::Morton)? {
        return Ok(SliceOrder::Morton);
    }
    Ok(SliceOrder::Another)
}

// The map of a shard that is open.
fn map_of<'a>(
    array: &Array<'a>,
    opened: &mut OpenShard<'a>,
    length: u64,
    count: u64,
    progress: &mut Progress,
) -> Result<ShardMap, CodecError> {
    let alloc = array.alloc();
    let index = array
        .codec
        .index_interval(alloc, length, &array.metadata.encoded)?;
    let subchunks = draw_each(array, opened, count, progress)?;
    let order = order_of(alloc, &subchunks, &array.subchunks)?;
    Ok(ShardMap {
        length,
        index: (index.offset, index.offset.saturating_add(index.size)),
        subchunks,
        order,
    })
}

// The length of the file of a shard, which is there.
fn length_of<'a>(
    array: &Array<'a>,
    shard: &Shard<'_>,
    file: &mut ShardFile<'a>,
) -> Result<u64, Stop> {
    match file.len() {
        Ok(Some(length)) => Ok(length),
        Ok(None) => Err(Stop::NoShard(escaped(array.alloc(), shard.key)?)),
        Err(error) => Err(array.stop(shard, file, error, Place::Shard)),
    }
}

// The map of the shard in a file, which has as many subchunks.
fn map_of_file<'a>(
    array: &Array<'a>,
    shard: &Shard<'_>,
    mut file: ShardFile<'a>,
    count: u64,
    progress: &mut Progress,
) -> Result<ShardMap, Stop> {
    let length = length_of(array, shard, &mut file)?;
    let mut opened = array.opened(shard, file)?;
    let map = map_of(array, &mut opened, length, count, progress);
    let file = opened.close();
    match map {
        Ok(map) => Ok(map),
        Err(error) => Err(array.stop(shard, &file, error, Place::Shard)),
    }
}

// The map of the shard that has a key, which has as many subchunks.
fn map_of_key(
    array: &Array<'_>,
    key: &str,
    count: u64,
    progress: &mut Progress,
) -> Result<ShardMap, Stop> {
    let files = array.files()?;
    let shard = shard_of(array, &files, key)?;
    map_of_file(array, &shard, array.file(shard.key)?, count, progress)
}

// Saves a picture of a shard in a file.
fn save_shard_picture(
    array: &Array<'_>,
    path: &str,
    key: &str,
    map: &ShardMap,
    out: &mut Output,
) -> Result<(), Stop> {
    let mut picture: Vec<u8> = Vec::new(array.alloc());
    write_shard_picture(&mut picture, key, map, array.subchunks.as_slice())?;
    Ok(save_bytes(array.rt, path, &picture, out)?)
}

// Draws a map of a shard, as text or as a picture in a file.
fn draw_shard(
    array: &Array<'_>,
    key: &str,
    map: &ShardMap,
    svg: Option<&str>,
    out: &mut Output,
) -> Result<Ending, Stop> {
    let ending = ending_of(&map.marks(array.alloc())?);
    if let Some(path) = svg {
        save_shard_picture(array, path, key, map, out)?;
        return Ok(ending);
    }
    let wrote = write_shard_map(out, array.alloc(), key, map, array.subchunks.as_slice());
    written(wrote, ending)?;
    Ok(ending)
}

/// Draws the subchunks of a shard by its key, and the bytes of its file: as text, or as a picture in a file of the format SVG. Each
/// subchunk that is present is decoded, where its codec is served. Refused, in this order, as `Stop::TooManyPlaces` where a shard has
/// more than 65,536 subchunks, as `Stop::System` where the folder is not read, as `Stop::NoShard` where no shard has the key, as
/// `Stop::System` or `Stop::Refused` where its index is not read, and where the drawing is not taken.
pub fn map_shard(
    array: &Array<'_>,
    key: &str,
    svg: Option<&str>,
    out: &mut Output,
    progress: &mut Progress,
) -> Result<Ending, Stop> {
    let count = places_of(array.subchunks.as_slice())?;
    let map = map_of_key(array, key, count, progress)?;
    progress.clear();
    draw_shard(array, key, &map, svg, out)
}

// What stands at each place of the chunk grid.
fn marks_of(
    array: &Array<'_>,
    files: &ChunkFiles,
    shards: &[Option<ShardInfo>],
    places: u64,
) -> Result<Vec<Mark>, AllocError> {
    let mut marks = vec![in array.alloc(); Mark::Absent; places as usize]?;
    for (file, shard) in files.chunks.iter().zip(shards) {
        let number = ravel_indices(&file.coordinates, array.grid.counts());
        if let (Some(shard), Some(number)) = (shard, number)
            && let Some(mark) = marks.get_mut(number as usize)
        {
            *mark = match &shard.index {
                Ok(_) => Mark::Present,
                Err(_) => Mark::Refused,
            };
        }
    }
    Ok(marks)
}

// Saves a picture of an array in a file.
fn save_array_picture(
    array: &Array<'_>,
    path: &str,
    marks: &[Mark],
    out: &mut Output,
) -> Result<(), Stop> {
    let mut picture: Vec<u8> = Vec::new(array.alloc());
    write_array_picture(&mut picture, marks, array.grid.counts())?;
    Ok(save_bytes(array.rt, path, &picture, out)?)
}

// Draws a map of an array, as text or as a picture in a file.
fn draw_array(
    array: &Array<'_>,
    marks: &[Mark],
    svg: Option<&str>,
    out: &mut Output,
) -> Result<Ending, Stop> {
    let ending = ending_of(marks);
    match svg {
        Some(path) => save_array_picture(array, path, marks, out)?,
        None => written(write_array_map(out, marks, array.grid.counts()), ending)?,
    }
    Ok(ending)
}

/// Draws which shards of an array are there, and which have an index that is refused, as text or as a picture in a file of the format
/// SVG. Refused, in this order, as `Stop::TooManyPlaces` where there could be more than 65,536 shards, and as `info` is.
pub fn map_array<T: Threads + Sync>(
    array: &Array<'_>,
    svg: Option<&str>,
    workers: &Workers<'_, T>,
    out: &mut Output,
    progress: &mut Progress,
) -> Result<Ending, Stop> {
    let places = places_of(array.grid.counts())?;
    let known = known_shards(array, &ListPart::whole(), workers, progress)?;
    progress.clear();
    let marks = marks_of(array, &known.files, &known.shards, places)?;
    draw_array(array, &marks, svg, out)
}
