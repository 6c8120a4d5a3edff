// An array laid out anew in another folder.
use array_cli::{Array, Ending, Output, Progress, Stop, Workers, described, elements_of, written};
use array_creation::{
    LayoutWords, begin_folder, chunk_of_array, encoded_varying, end_folder, moved_subset,
    new_document, order_of, put_file, test_served,
};
use array_folder::Counted;
use array_grid::{
    ShardWork, SubsetCells, SubsetElements, piece_length, piece_of, run_in_parallel, subset_of,
};
use array_metadata::ArrayMetadata;
use array_reading::{chunks_of, files_of, read_silently, why_refused};
use parts_arrays::DataTypeSize;
use parts_errors::CodecError;
use parts_subsets::ArraySubset;
use sharding_format::SubchunkWriteOrder;
use std::fs;
use std::io::Write;
use std::thread::Threads;

// How many chunks a thread makes at a time at most: their elements are read into the same cells.
const CHUNKS_OF_A_PIECE: usize = 4;

// A new array: the folder in which its shards are made, its metadata, and where the subset of the old array starts whose elements it has.
#[derive(Clone, Copy)]
struct NewArray<'n> {
    folder: &'n str,
    metadata: &'n ArrayMetadata,
    origin: &'n [u64],
}

// What was written.
#[derive(Clone, Copy)]
struct Written {
    shards: u64,
    bytes: u64,
}

impl Written {
    // Nothing.
    fn nothing() -> Self {
        Written {
            shards: 0,
            bytes: 0,
        }
    }

    // More was written.
    fn add(&mut self, other: Written) {
        self.shards = self.shards.saturating_add(other.shards);
        self.bytes = self.bytes.saturating_add(other.bytes);
    }
}

// The subset of the old array whose elements lie in the chunk at these coordinates of a new one; `None` where there is none.
fn old_elements(
    old: &Array<'_>,
    new: &NewArray<'_>,
    coordinates: &[u64],
) -> Result<Option<ArraySubset>, Stop> {
    let NewArray {
        metadata,
        origin,
        ..
    } = *new;
    match elements_of(old.alloc(), coordinates, &metadata.shard, &metadata.shape)? {
        Some(part) => Ok(moved_subset(old.alloc(), origin, &part)?),
        None => Ok(None),
    }
}

// The bytes of the chunk at these coordinates of a new array, whose elements have one size and are read into cells that are there; `None`
// where it has no file. Both arrays have elements in one byte order: `new_document` keeps it where the codecs do not turn them.
fn encoded_sized(
    old: &Array<'_>,
    new: &NewArray<'_>,
    coordinates: &[u64],
    cells: &mut SubsetCells,
) -> Result<Option<Vec<u8>>, Stop> {
    let (alloc, metadata) = (old.alloc(), new.metadata);
    let files = files_of(old)?;
    let error = match chunk_of_array(alloc, &files, new.origin, coordinates, metadata, cells) {
        Ok(chunk) => return Ok(chunk),
        Err(error) => error,
    };
    match old_elements(old, new, coordinates)? {
        Some(requested) => Err(why_refused(old, &requested, error)),
        None => Ok(None),
    }
}

// The bytes of the chunk at these coordinates of a new array, whose elements have lengths of their own; `None` where it has no file.
fn encoded_varying_at(
    old: &Array<'_>,
    new: &NewArray<'_>,
    coordinates: &[u64],
) -> Result<Option<Vec<u8>>, Stop> {
    let Some(requested) = old_elements(old, new, coordinates)? else {
        return Ok(None);
    };
    match read_silently(old, &requested)? {
        SubsetElements::Varying(found) => {
            Ok(encoded_varying(old.rt, requested.shape(), &found, new.metadata)?)
        }
        SubsetElements::Sized(_) => Err(CodecError::WrongElementKind.into()),
    }
}

// The bytes of the chunk at these coordinates of a new array, with the elements that the old one has there; `None` where it has no file.
fn new_chunk(
    old: &Array<'_>,
    new: &NewArray<'_>,
    coordinates: &[u64],
    cells: &mut SubsetCells,
) -> Result<Option<Vec<u8>>, Stop> {
    match new.metadata.data_type.size() {
        DataTypeSize::Fixed(_) => encoded_sized(old, new, coordinates, cells),
        DataTypeSize::Variable => encoded_varying_at(old, new, coordinates),
    }
}

// Makes the chunk at these coordinates of a new array, and says how many bytes it has; `None` where it has no file.
fn put_chunk(
    old: &Array<'_>,
    new: &NewArray<'_>,
    coordinates: &[u64],
    cells: &mut SubsetCells,
) -> Result<Option<u64>, Stop> {
    let Some(bytes) = new_chunk(old, new, coordinates, cells)? else {
        return Ok(None);
    };
    let key = new.metadata.keys.key_of(old.alloc(), coordinates)?;
    put_file(old.rt, new.folder, &key, &bytes)?;
    Ok(Some(bytes.len() as u64))
}

// Makes chunks of a new array, one after the other, as far as none is refused.
fn put_each(old: &Array<'_>, new: &NewArray<'_>, chunks: &[Vec<u64>]) -> Result<Written, Stop> {
    let mut sum = Written::nothing();
    let mut cells = SubsetCells::none(old.alloc())?;
    for coordinates in chunks {
        if let Some(bytes) = put_chunk(old, new, coordinates, &mut cells)? {
            sum.add(Written { shards: 1, bytes });
        }
    }
    Ok(sum)
}

// Chunks of a new array, in pieces of as many chunks.
#[derive(Drop)]
struct ChunkPieces<'s, 'n> {
    old: &'s Array<'s>,
    new: &'s NewArray<'n>,
    chunks: &'s [Vec<u64>],
    in_piece: usize,
}

impl ShardWork for ChunkPieces<'_, '_> {
    type Answer = Result<Written, Stop>;

    // no contract says what files give
    ghost gives = { λ pieces number made. Unit {0} };

    fn run(&self, number: u64) -> Result<Written, Stop> {
        let chunks = piece_of(self.chunks, number, self.in_piece);
        put_each(self.old, self.new, chunks)
    }
}

// Makes pieces of chunks, each by a thread of its own, and adds what was made, as far as none is refused.
fn put_pieces<T: Threads + Sync>(
    workers: &Workers<'_, T>,
    pieces: &ChunkPieces<'_, '_>,
    sum: &mut Written,
) -> Result<(), Stop> {
    let old = pieces.old;
    let count = pieces.chunks.len().div_ceil(pieces.in_piece.max(1));
    for made in run_in_parallel(workers.threads, old.alloc(), count, pieces)? {
        sum.add(made?);
    }
    Ok(())
}

// Makes the chunks of a new array that have these coordinates, by threads that have a piece each at a time.
fn put_all<'s, T: Threads + Sync>(
    old: &'s Array<'s>,
    new: &'s NewArray<'_>,
    chunks: &'s [Vec<u64>],
    workers: &Workers<'_, T>,
    progress: &mut Progress,
) -> Result<Written, Stop> {
    let mut sum = Written::nothing();
    let in_piece = piece_length(chunks.len(), workers.jobs, CHUNKS_OF_A_PIECE);
    let at_once = in_piece.saturating_mul(workers.jobs).max(1);
    for (number, some) in chunks.chunks(at_once).enumerate() {
        progress.step(number.saturating_mul(at_once) as u64, chunks.len() as u64);
        let pieces = ChunkPieces {
            old,
            new,
            chunks: some,
            in_piece,
        };
        put_pieces(workers, &pieces, &mut sum)?;
    }
    Ok(sum)
}

// What a new array is to be: of which subset of the old one it has the elements, and its document.
#[derive(Clone, Copy)]
struct Planned<'p> {
    subset: &'p ArraySubset,
    document: &'p str,
}

// Makes a new array in its folder, which is there, and puts it at its path.
fn make_in<T: Threads + Sync>(
    old: &Array<'_>,
    path: &str,
    new: &NewArray<'_>,
    planned: &Planned<'_>,
    workers: &Workers<'_, T>,
    progress: &mut Progress,
) -> Result<Written, Stop> {
    let chunks = chunks_of(old, planned.subset, &new.metadata.shard)?;
    let sum = put_all(&*old, &*new, &chunks, workers, progress)?;
    end_folder(old.rt, path, new.folder, planned.document)?;
    Ok(sum)
}

// Makes a new array in a folder beside its path, and puts it there; where that is refused, nothing is left of it.
fn make<T: Threads + Sync>(
    old: &Array<'_>,
    path: &str,
    metadata: &ArrayMetadata,
    planned: &Planned<'_>,
    workers: &Workers<'_, T>,
    progress: &mut Progress,
) -> Result<Written, Stop> {
    let beside = format!(in old.alloc(); "{path}.partial")?;
    begin_folder(old.rt, path, &beside)?;
    let new = NewArray {
        folder: &beside,
        metadata,
        origin: planned.subset.start(),
    };
    let made = make_in(old, path, &new, planned, workers, progress);
    if made.is_err() {
        let _ = fs::remove_dir_all(old.rt, &beside);
    }
    made
}

// Makes a new array that has this document, where the codecs serve it.
fn make_described<T: Threads + Sync>(
    old: &Array<'_>,
    path: &str,
    planned: &Planned<'_>,
    order: SubchunkWriteOrder,
    workers: &Workers<'_, T>,
    progress: &mut Progress,
) -> Result<Written, Stop> {
    let new = described(old.alloc(), path, planned.document, order)?;
    test_served(old.rt, path, &new)?;
    make(old, path, &new, planned, workers, progress)
}

// Tells what was written.
fn tell(wrote: &Written, out: &mut Output) -> Result<Ending, Stop> {
    let (shards, bytes) = (Counted(wrote.shards, "shard"), wrote.bytes);
    written(writeln!(out, "{shards}: {bytes} bytes"), Ending::Done)?;
    Ok(Ending::Done)
}

/// Makes a new array of the elements of an old one, or of the subset that a word names, laid out in another way, in a folder that is not
/// there yet. It is written beside
/// itself, with `.partial` behind its name, and renamed once it is whole; where anything is refused, nothing is left, and the refusal is
/// that of the first new shard, in the order of their grid, that is refused. Each new shard is read from the old array as one subset, and
/// made by one of the threads. Writes how many shards and bytes it has.
pub fn reshard<T: Threads + Sync>(
    old: &Array<'_>,
    path: &str,
    requested: Option<&str>,
    words: &LayoutWords<'_>,
    workers: &Workers<'_, T>,
    out: &mut Output,
    progress: &mut Progress,
) -> Result<Ending, Stop> {
    old.test_read()?;
    let (alloc, metadata) = (old.alloc(), old.metadata);
    let order = order_of(alloc, words.order)?;
    let subset = subset_of(alloc, requested, &metadata.shape)?.subset;
    let document = new_document(alloc, words, &metadata.text, metadata, subset.shape())?;
    let planned = Planned {
        subset: &subset,
        document: &document,
    };
    let wrote = make_described(old, path, &planned, order, workers, progress)?;
    progress.clear();
    tell(&wrote, out)
}
