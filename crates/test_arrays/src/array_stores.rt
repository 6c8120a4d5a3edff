// A subset that lies in four chunks, of which two are there: three rows of four elements of one byte, in chunks of two rows of two. The
// sharding codec encodes them, by subchunks of one row; the fill value is 9.
use crate::compared::same;
use array_fields::{ChunkKeys, KeyEncoding};
use array_grid::SubsetCells;
use array_metadata::ArrayMetadata;
use array_store::{
    Array, ArrayError, ArrayFormat, MemoryStore, OpenError, Store, WriteError, create_metadata,
    open_metadata, put_metadata,
};
use std::alloc::Global;
use std::borrow::CowSlice;
use std::ops::Range;
use std::process::Abort;
use zarr_codecs::BytesCodec;
use zarr_parts::{ArrayBytes, ArraySubset, ChunkShape, DataType, FillValue};
use zarrs_sharding::{ShardingCodec, ShardingIndexLocation};

type Codec = ShardingCodec<BytesCodec, BytesCodec>;

fn shape_of<R: Abort>(rt: &R, alloc: Global, axes: &[u64]) -> ChunkShape {
    ChunkShape::new(alloc, axes)
        .expect(rt, "refused")
        .expect(rt, "does not fit")
}

// What an array is made of.
struct Scene {
    codec: Codec,
    chunk: ChunkShape,
    fill_value: FillValue,
}

impl Drop for Scene {
    fn drop(self) {
        let Scene {
            codec: _,
            chunk: _,
            fill_value: _,
        } = self;
    }
}

fn scene_of<R: Abort>(rt: &R, alloc: Global) -> Scene {
    let (subchunk, little) = (shape_of(rt, alloc, &[1, 2]), BytesCodec::little());
    Scene {
        codec: ShardingCodec::new(subchunk, little, little, ShardingIndexLocation::End),
        chunk: shape_of(rt, alloc, &[2, 2]),
        fill_value: FillValue::from_number(alloc, 9u8).expect(rt, "refused"),
    }
}

impl Scene {
    // The array, of which no chunk is there.
    fn array(&self, alloc: Global) -> Array<'_, MemoryStore, Codec> {
        Array {
            store: MemoryStore::new(alloc),
            codec: &self.codec,
            format: ArrayFormat {
                shape: &[3, 4],
                chunk: &self.chunk,
                data_type: &DataType::UInt8,
                fill_value: &self.fill_value,
                keys: ChunkKeys {
                    encoding: KeyEncoding::Default,
                    slashes: true,
                },
            },
        }
    }
}

// Writes the elements of a chunk.
fn write<R: Abort>(
    rt: &R,
    alloc: Global,
    array: &mut Array<'_, MemoryStore, Codec>,
    coordinates: &[u64],
    elements: &[u8],
) {
    let elements = ArrayBytes::new_flen(CowSlice::Borrowed(elements), 1).expect(
        rt,
        "one byte each",
    );
    array
        .write_chunk(alloc, coordinates, &elements)
        .expect(rt, "refused");
}

// The subset of the last two rows and the columns 1 and 2, which meets all four chunks.
fn middle<R: Abort>(rt: &R, alloc: Global) -> ArraySubset {
    ArraySubset::from_ranges(alloc, &[1..3, 1..3]).expect(rt, "refused")
}

// The cells of the subset that is the first element alone.
fn first_cell<R: Abort>(
    rt: &R,
    alloc: Global,
    array: &Array<'_, MemoryStore, Codec>,
) -> SubsetCells {
    let first = ArraySubset::from_ranges(alloc, &[0..1, 0..1]).expect(rt, "refused");
    array.read(alloc, &first).expect(rt, "refused")
}

// Ends the test where a subset has other elements, also where they are read into cells of another subset.
fn read_back<R: Abort>(
    rt: &R,
    alloc: Global,
    array: &Array<'_, MemoryStore, Codec>,
    subset: &ArraySubset,
    want: &[u8],
) {
    let cells = array.read(alloc, subset).expect(rt, "refused");
    same(rt, cells.bytes(), want);
    let mut room = first_cell(rt, alloc, array);
    array
        .read_into(alloc, subset, &mut room)
        .expect(rt, "refused");
    same(rt, room.bytes(), want);
}

// Writes the chunks at (0, 0) and (1, 1).
fn write_two<R: Abort>(rt: &R, alloc: Global, array: &mut Array<'_, MemoryStore, Codec>) {
    write(rt, alloc, array, &[0, 0], &[1, 2, 3, 4]);
    write(rt, alloc, array, &[1, 1], &[5, 6, 7, 8]);
}

// Ends the test where the object of a chunk is there, or is not, as it should be, or another subset is read.
fn check_middle<R: Abort>(
    rt: &R,
    alloc: Global,
    array: &Array<'_, MemoryStore, Codec>,
    is_there: bool,
    want: &[u8],
) {
    same(rt, array.store.get("c/1/1").is_some(), is_there);
    read_back(rt, alloc, array, &middle(rt, alloc), want);
}

// Reads a subset, and reads it once more without one of the chunks.
fn read_and_erase<R: Abort>(rt: &R, alloc: Global, array: &mut Array<'_, MemoryStore, Codec>) {
    write_two(rt, alloc, array);
    check_middle(rt, alloc, array, true, &[4, 9, 9, 5]);
    array.erase_chunk(alloc, &[1, 1]).expect(rt, "refused");
    check_middle(rt, alloc, array, false, &[4, 9, 9, 9]);
}

#[test]
fn a_subset_is_read_from_each_chunk_that_it_meets(rt: HostRuntime) {
    let scene = scene_of(&rt, rt.alloc());
    read_and_erase(&rt, rt.alloc(), &mut scene.array(rt.alloc()));
}

// Writes four elements into a subset, as an array answers.
fn write_four<R: Abort>(
    rt: &R,
    alloc: Global,
    array: &mut Array<'_, MemoryStore, Codec>,
    subset: &ArraySubset,
) -> Result<(), WriteError> {
    let new = [10u8, 11, 12, 13];
    let elements = ArrayBytes::new_flen(CowSlice::Borrowed(&new), 1).expect(rt, "one byte each");
    array.write(alloc, subset, &elements)
}

// Ends the test where the elements of a subset, by its ranges, are others.
fn check_range<R: Abort>(
    rt: &R,
    alloc: Global,
    array: &Array<'_, MemoryStore, Codec>,
    ranges: &[Range<u64>],
    want: &[u8],
) {
    let subset = ArraySubset::from_ranges(alloc, ranges).expect(rt, "refused");
    read_back(rt, alloc, array, &subset, want);
}

// Writes a subset, and reads all.
fn write_and_read<R: Abort>(rt: &R, alloc: Global, array: &mut Array<'_, MemoryStore, Codec>) {
    write_two(rt, alloc, array);
    same(
        rt,
        write_four(rt, alloc, array, &middle(rt, alloc)).is_ok(),
        true,
    );
    let want = [1, 2, 9, 9, 3, 10, 11, 9, 9, 12, 13, 6];
    check_range(rt, alloc, array, &[0..3, 0..4], &want);
}

#[test]
fn a_subset_is_written_into_each_chunk_that_it_meets(rt: HostRuntime) {
    let scene = scene_of(&rt, rt.alloc());
    write_and_read(&rt, rt.alloc(), &mut scene.array(rt.alloc()));
}

// Puts bytes as the object of a key.
fn put<R: Abort>(
    rt: &R,
    alloc: Global,
    array: &mut Array<'_, MemoryStore, Codec>,
    key: &str,
    bytes: &[u8],
) {
    let bytes = bytes.to_vec(alloc).expect(rt, "refused");
    array.store.put(alloc, key, bytes).expect(rt, "refused");
}

// Ends the test where a write is not refused at the third chunk, or lists others than those before.
fn check_refused<R: Abort>(rt: &R, wrote: Result<(), WriteError>) {
    let stop = wrote.expect_err(rt, "not refused");
    same(rt, stop.written.as_slice(), [0u64, 1].as_slice());
    assert!(rt; matches!(&stop.error, ArrayError::Chunk { key, .. } if key.as_str() == "c/1/0"));
}

// Writes over a chunk that is damaged, and reads the chunks before it and behind it.
fn write_over_damage<R: Abort>(rt: &R, alloc: Global, array: &mut Array<'_, MemoryStore, Codec>) {
    write_two(rt, alloc, array);
    put(rt, alloc, array, "c/1/0", &[0]);
    check_refused(rt, write_four(rt, alloc, array, &middle(rt, alloc)));
    let first = [1, 2, 9, 9, 3, 10, 11, 9];
    check_range(rt, alloc, array, &[0..2, 0..4], &first);
    check_range(rt, alloc, array, &[2..3, 2..4], &[5, 6]);
}

// Writes all of a chunk that is damaged, and reads it with the chunk behind it.
fn write_all_of_damaged<R: Abort>(
    rt: &R,
    alloc: Global,
    array: &mut Array<'_, MemoryStore, Codec>,
) {
    put(rt, alloc, array, "c/0/0", &[0]);
    let whole = ArraySubset::from_ranges(alloc, &[0..2, 0..2]).expect(rt, "refused");
    same(rt, write_four(rt, alloc, array, &whole).is_ok(), true);
    check_range(
        rt,
        alloc,
        array,
        &[0..2, 0..4],
        &[10, 11, 9, 9, 12, 13, 9, 9],
    );
}

#[test]
fn all_of_a_damaged_chunk_is_written_anew(rt: HostRuntime) {
    let scene = scene_of(&rt, rt.alloc());
    write_all_of_damaged(&rt, rt.alloc(), &mut scene.array(rt.alloc()));
}

#[test]
fn a_refused_write_lists_the_chunks_before(rt: HostRuntime) {
    let scene = scene_of(&rt, rt.alloc());
    write_over_damage(&rt, rt.alloc(), &mut scene.array(rt.alloc()));
}

// A shard of two subchunks of two elements, with three dead bytes between; and compacted, by hand.
const LOOSE: &[u8] = &[
    1, 2, 7, 7, 7, 3, 4, 0, 0, 0, 0, 0, 0, 0, 0, 2, 0, 0, 0, 0, 0, 0, 0, 5, 0, 0, 0, 0, 0, 0, 0, 2,
    0, 0, 0, 0, 0, 0, 0,
];

const COMPACT: &[u8] = &[
    1, 2, 3, 4, 0, 0, 0, 0, 0, 0, 0, 0, 2, 0, 0, 0, 0, 0, 0, 0, 2, 0, 0, 0, 0, 0, 0, 0, 2, 0, 0, 0,
    0, 0, 0, 0,
];

// Compacts a chunk of a column, and says whether it was made anew.
fn compacted<R: Abort>(
    rt: &R,
    alloc: Global,
    array: &mut Array<'_, MemoryStore, Codec>,
    column: u64,
) -> bool {
    let changed = array.compact_chunk(alloc, &[0, column]);
    changed.expect(rt, "refused")
}

// Compacts a chunk that is not compact, the same once more, and one that is absent.
fn compact_three<R: Abort>(rt: &R, alloc: Global, array: &mut Array<'_, MemoryStore, Codec>) {
    put(rt, alloc, array, "c/0/1", LOOSE);
    for (column, want) in [(1, true), (1, false), (0, false)] {
        same(rt, compacted(rt, alloc, array, column), want);
        same(rt, array.store.get("c/0/1"), Some(COMPACT));
    }
    check_range(rt, alloc, array, &[0..2, 1..4], &[9, 1, 2, 9, 3, 4]);
}

#[test]
fn a_chunk_is_compacted_where_it_is_there_and_not_compact(rt: HostRuntime) {
    let scene = scene_of(&rt, rt.alloc());
    compact_three(&rt, rt.alloc(), &mut scene.array(rt.alloc()));
}

// The metadata of an array, with a member that need not be understood.
const TEXT: &str =
    r#"{"zarr_format": 3, "node_type": "array", "shape": [3], "data_type": "uint8", "fill_value": 9,
    "chunk_grid": {"name": "regular", "configuration": {"chunk_shape": [2]}}, "chunk_key_encoding": {"name": "default"},
    "codecs": [{"name": "bytes"}], "attributes": {"unit": "m"}, "later": {"must_understand": false}}"#;

// The metadata of a new array with this text.
fn opened<R: Abort>(rt: &R, alloc: Global) -> ArrayMetadata {
    let mut store = MemoryStore::new(alloc);
    create_metadata(alloc, &mut store, TEXT).expect(rt, "refused");
    open_metadata(alloc, &store).expect(rt, "refused")
}

// Ends the test where metadata is not written as this text, or written where some stands already.
fn check_written<R: Abort>(rt: &R, alloc: Global, metadata: &ArrayMetadata) {
    let mut store = MemoryStore::new(alloc);
    put_metadata(alloc, &mut store, metadata).expect(rt, "refused");
    assert_eq!(rt; store.get("zarr.json"), Some(TEXT.as_bytes()));
    let refused = put_metadata(alloc, &mut store, metadata);
    assert!(rt; matches!(refused, Err(OpenError::Present)));
}

#[test]
fn metadata_is_written_as_it_was_read(rt: HostRuntime) {
    let metadata = opened(&rt, rt.alloc());
    check_written(&rt, rt.alloc(), &metadata);
}
