// A compact shard that is written in the place of a shard's file.
use array_cli::{Array, Output, Place, Shard, ShardFile, Stop};
use array_folder::{begin, tell_owner};
use parts_errors::CodecError;
use sharding_format::ShardingIndexLocation;
use sharding_layout::CompactionPlan;
use std::alloc::Global;
use std::io;
use std::io::Write;
use storage_files::Replacement;
use storage_handles::{ByteRange, BytesPartialDecoderTraits, read_range};

// How many bytes of a slice are held at once.
const PIECE: usize = 1_048_576;

// Why a compact shard is not written: what was said of the old file, or of the new one.
#[derive(Clone, Copy)]
enum Failure {
    Old(CodecError),
    New(io::Error),
}

impl From<CodecError> for Failure {
    fn from(error: CodecError) -> Failure {
        Failure::Old(error)
    }
}

impl From<io::Error> for Failure {
    fn from(error: io::Error) -> Failure {
        Failure::New(error)
    }
}

// Appends bytes of an old file to the new one.
fn copy_piece<H: BytesPartialDecoderTraits>(
    alloc: Global,
    old: &mut H,
    offset: u64,
    size: u64,
    new: &mut Replacement<&HostRuntime>,
) -> Result<(), Failure> {
    let mut room: Vec<u8> = Vec::new(alloc);
    let range = ByteRange::FromStart(offset, Some(size));
    let Some(bytes) = read_range(old, &mut room, alloc, range)? else {
        return Err(Failure::Old(CodecError::Fault));
    };
    Ok(new.write(bytes)?)
}

// Appends a slice of an old file to the new one.
fn copy_slice<H: BytesPartialDecoderTraits>(
    alloc: Global,
    old: &mut H,
    offset: u64,
    size: u64,
    new: &mut Replacement<&HostRuntime>,
) -> Result<(), Failure> {
    for done in (0..size).step_by(PIECE) {
        let piece = size.saturating_sub(done).min(PIECE as u64);
        copy_piece(alloc, old, offset.saturating_add(done), piece, new)?;
    }
    Ok(())
}

// Appends the slices of a plan to the new file.
fn copy_slices<H: BytesPartialDecoderTraits>(
    alloc: Global,
    old: &mut H,
    plan: &CompactionPlan,
    new: &mut Replacement<&HostRuntime>,
) -> Result<(), Failure> {
    for subchunk in 0..plan.subchunks() {
        if let Some(slice) = plan.slice(subchunk) {
            copy_slice(alloc, old, slice.offset, slice.size, new)?;
        }
    }
    Ok(())
}

// Appends all bytes of an old file to the new one.
fn copy_file<H: BytesPartialDecoderTraits>(
    alloc: Global,
    old: &mut H,
    new: &mut Replacement<&HostRuntime>,
) -> Result<(), Failure> {
    match old.len()? {
        Some(length) => copy_slice(alloc, old, 0, length, new),
        None => Err(Failure::Old(CodecError::Fault)),
    }
}

// Writes what a plan says to the new file; without a plan what the old one has.
fn write_plan<H: BytesPartialDecoderTraits>(
    alloc: Global,
    old: &mut H,
    plan: Option<&CompactionPlan>,
    new: &mut Replacement<&HostRuntime>,
) -> Result<(), Failure> {
    let Some(plan) = plan else {
        return copy_file(alloc, old, new);
    };
    match plan.index_location() {
        ShardingIndexLocation::Start => {
            new.write(plan.index())?;
            copy_slices(alloc, old, plan, new)
        }
        ShardingIndexLocation::End => {
            copy_slices(alloc, old, plan, new)?;
            Ok(new.write(plan.index())?)
        }
    }
}

// Writes what a plan says, or without a plan what the old file has, to the new file, and puts it in its place. Where that is refused,
// what stood there stands.
fn carry_out<H: BytesPartialDecoderTraits>(
    alloc: Global,
    old: &mut H,
    plan: Option<&CompactionPlan>,
    mut new: Replacement<&HostRuntime>,
) -> Result<(), Failure> {
    match write_plan(alloc, old, plan, &mut new) {
        Ok(()) => Ok(new.finish()?),
        Err(failure) => {
            new.abandon();
            Err(failure)
        }
    }
}

// Why a shard was not replaced.
fn stop_of<'a>(
    array: &Array<'a>,
    shard: &Shard<'_>,
    old: &ShardFile<'a>,
    beside: &str,
    failure: Failure,
) -> Stop {
    match failure {
        Failure::Old(error) => array.stop(shard, old, error, Place::Shard),
        Failure::New(error) => Stop::system(array.alloc(), beside, error),
    }
}

/// Puts what a plan says, or without a plan the shard as it is, at a path, by a new file that stands at the path `beside` until it is
/// whole; or says that a file stands there already.
pub fn replace<'a>(
    array: &Array<'a>,
    shard: &Shard<'_>,
    old: &mut ShardFile<'a>,
    (path, beside): (&str, &str),
    plan: Option<&CompactionPlan>,
    out: &mut Output,
) -> Result<bool, Stop> {
    let Some(new) = begin(array.rt, path, beside)? else {
        return Ok(false);
    };
    // a line that nobody reads stops nothing
    let _ = tell_owner(out, shard.key, &new);
    match carry_out(array.alloc(), old, plan, new) {
        Ok(()) => Ok(true),
        Err(failure) => Err(stop_of(array, shard, old, beside, failure)),
    }
}
