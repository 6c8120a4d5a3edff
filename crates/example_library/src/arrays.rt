// Arrays in folders: two are made, one without shards and one with, and a subset of the first is written into the second.

use array_folder::ChunkFiles;
use array_grid::SubsetCells;
use array_store::{Array, FileStore, create_metadata, open_metadata};
use std::alloc::{AllocError, Global};
use std::ops::Range;
use zarr_parts::{ArrayBytes, ArraySubset, CodecError};

// The `zarr.json` of an array of 4 by 6 numbers whose chunks have 2 by 3.
const PLAIN: &str =
    r#"{"zarr_format": 3, "node_type": "array", "shape": [4, 6], "data_type": "uint16", "fill_value": 0,
    "chunk_grid": {"name": "regular", "configuration": {"chunk_shape": [2, 3]}},
    "chunk_key_encoding": {"name": "default"},
    "codecs": [{"name": "bytes", "configuration": {"endian": "big"}}, {"name": "gzip", "configuration": {"level": 5}}]}"#;

// And of one with a single shard, whose subchunks have 2 by 2.
const SHARDED: &str =
    r#"{"zarr_format": 3, "node_type": "array", "shape": [4, 6], "data_type": "uint16", "fill_value": 0,
    "chunk_grid": {"name": "regular", "configuration": {"chunk_shape": [4, 6]}},
    "chunk_key_encoding": {"name": "default"},
    "codecs": [{"name": "sharding_indexed", "configuration": {"chunk_shape": [2, 2],
        "codecs": [{"name": "bytes", "configuration": {"endian": "little"}}],
        "index_codecs": [{"name": "bytes", "configuration": {"endian": "little"}}, {"name": "crc32c"}]}}]}"#;

// The elements of a subset of the array in a folder.
fn read(rt: &HostRuntime, folder: &str, subset: &ArraySubset) -> anyhow::Result<SubsetCells> {
    let alloc = rt.alloc();
    let store = FileStore::new(alloc, rt, folder)?;
    let metadata = open_metadata(alloc, &store)?;
    Ok(Array::of(store, &metadata).read(alloc, subset)?)
}

// Writes elements into a subset of the array in a folder.
fn write(
    rt: &HostRuntime,
    folder: &str,
    subset: &ArraySubset,
    elements: &ArrayBytes,
) -> anyhow::Result<()> {
    let alloc = rt.alloc();
    let store = FileStore::new(alloc, rt, folder)?;
    let metadata = open_metadata(alloc, &store)?;
    Ok(Array::of(store, &metadata).write(alloc, subset, elements)?)
}

// Writes a subset of the array in one folder into the array of the same shape and type in another.
fn copy_subset(rt: &HostRuntime, from: &str, to: &str, subset: &ArraySubset) -> anyhow::Result<()> {
    let elements = read(rt, from, subset)?;
    write(rt, to, subset, &elements.array())
}

// Makes an array of this metadata in a folder.
fn create(rt: &HostRuntime, folder: &str, text: &str) -> anyhow::Result<()> {
    let mut store = FileStore::new(rt.alloc(), rt, folder)?;
    create_metadata(rt.alloc(), &mut store, text)?;
    Ok(())
}

// Makes an array of this metadata in a folder, and writes numbers into a subset.
fn make(
    rt: &HostRuntime,
    folder: &str,
    text: &str,
    subset: &ArraySubset,
    numbers: &[u16],
) -> anyhow::Result<()> {
    create(rt, folder, text)?;
    let elements = ArrayBytes::from_numbers(rt.alloc(), numbers)?;
    write(rt, folder, subset, &elements)
}

// Prints the numbers of a subset of the array in a folder.
fn print(rt: &HostRuntime, folder: &str, subset: &ArraySubset) -> anyhow::Result<()> {
    let elements = read(rt, folder, subset)?;
    let numbers: Vec<u16> = elements.array().to_numbers(rt.alloc())?;
    println!(rt; "{numbers:?}")?;
    Ok(())
}

fn print_keys(rt: &HostRuntime, files: &ChunkFiles) -> anyhow::Result<()> {
    for chunk in &files.chunks {
        println!(rt; "{}", chunk.key)?;
    }
    Ok(())
}

// Prints the key of each chunk of the array in a folder that has a file.
fn list(rt: &HostRuntime, folder: &str) -> anyhow::Result<()> {
    let alloc = rt.alloc();
    let store = FileStore::new(alloc, rt, folder)?;
    let metadata = open_metadata(alloc, &store)?;
    print_keys(rt, &Array::of(store, &metadata).chunks(alloc)?)
}

fn subset(alloc: Global, rows: Range<u64>, columns: Range<u64>) -> Result<ArraySubset, CodecError> {
    ArraySubset::from_ranges(alloc, &[rows, columns])
}

fn all_numbers(alloc: Global) -> Result<Vec<u16>, AllocError> {
    (0..24u16).collect(alloc)
}

// Makes the first array, of the numbers 0 to 23.
fn make_plain(rt: &HostRuntime) -> anyhow::Result<()> {
    let whole = subset(rt.alloc(), 0..4, 0..6)?;
    make(rt, "plain", PLAIN, &whole, &all_numbers(rt.alloc())?)
}

// Makes the second one, of two numbers and fill values.
fn make_sharded(rt: &HostRuntime) -> anyhow::Result<()> {
    let corner = subset(rt.alloc(), 0..1, 0..2)?;
    make(rt, "sharded", SHARDED, &corner, &[100, 101])
}

// Writes a subset of the first array into the second.
fn copy_middle(rt: &HostRuntime) -> anyhow::Result<()> {
    let middle = subset(rt.alloc(), 1..3, 2..5)?;
    copy_subset(rt, "plain", "sharded", &middle)
}

// Prints rows of the second array.
fn print_rows(rt: &HostRuntime) -> anyhow::Result<()> {
    let rows = subset(rt.alloc(), 0..3, 0..6)?;
    print(rt, "sharded", &rows)
}

// Prints rows of the second array, once a subset of the first was written into it, and the keys of its chunks.
pub fn print_copy(rt: &HostRuntime) -> anyhow::Result<()> {
    make_plain(rt)?;
    make_sharded(rt)?;
    copy_middle(rt)?;
    print_rows(rt)?;
    list(rt, "sharded")
}
