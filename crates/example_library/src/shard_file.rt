// A shard that is a file: written, read in part, written in part, compacted and erased.

use crate::shards::{File, Session, Shards, length_of, read, write};
use std::alloc::{AllocError, Global};
use std::ops::Range;
use zarr_parts::CodecError;

fn file(rt: &HostRuntime) -> Result<File, AllocError> {
    File::new(rt.alloc(), rt.clone()?, "folder/c/0/0")
}

// A session over the shard's file.
fn opened<'a>(rt: &HostRuntime, shards: &'a Shards) -> Result<Session<'a>, CodecError> {
    match shards.open(rt.alloc(), file(rt)?) {
        Ok(session) => Ok(session),
        Err((_file, error)) => Err(error),
    }
}

// Writes numbers to a subset, in a session of its own.
fn store(
    rt: &HostRuntime,
    shards: &Shards,
    ranges: [Range<u64>; 2],
    numbers: &[u16],
) -> Result<(), CodecError> {
    let mut session = opened(rt, shards)?;
    write(rt.alloc(), &mut session, ranges, numbers)
}

// Prints a subset of the shard, read in a session of its own, and the length of its file.
fn show(rt: &HostRuntime, shards: &Shards, ranges: [Range<u64>; 2]) -> anyhow::Result<()> {
    let mut session = opened(rt, shards)?;
    let numbers = read(rt.alloc(), &mut session, ranges)?;
    let length = length_of(session.close())?;
    println!(rt; "{numbers:?} of {length:?} bytes")?;
    Ok(())
}

fn all_numbers(alloc: Global) -> Result<Vec<u16>, AllocError> {
    (0..64u16).collect(alloc)
}

// Writes all elements of the shard.
fn store_all(rt: &HostRuntime, shards: &Shards) -> Result<(), CodecError> {
    let numbers = all_numbers(rt.alloc())?;
    store(rt, shards, [0..8, 0..8], &numbers)
}

// Prints whether the shard had dead bytes, which it has no longer.
fn compact(rt: &HostRuntime, shards: &Shards) -> anyhow::Result<()> {
    let mut file = file(rt)?;
    let compacted = shards.compact(rt.alloc(), &mut file)?;
    println!(rt; "compacted: {compacted}")?;
    Ok(())
}

// Erases the shard.
fn erase(rt: &HostRuntime, shards: &Shards) -> Result<(), CodecError> {
    opened(rt, shards)?.erase()
}

fn run(rt: &HostRuntime, shards: &Shards) -> anyhow::Result<()> {
    store_all(rt, shards)?;
    show(rt, shards, [1..3, 3..6])?;
    store(rt, shards, [0..1, 0..2], &[100, 101])?;
    show(rt, shards, [0..1, 0..5])?;
    compact(rt, shards)?;
    show(rt, shards, [0..1, 0..5])?;
    erase(rt, shards)?;
    show(rt, shards, [7..8, 6..8])
}

// Prints what becomes of the shard.
pub fn print_steps(rt: &HostRuntime) -> anyhow::Result<()> {
    let shards = Shards::new(rt.alloc())?;
    run(rt, &shards)
}
