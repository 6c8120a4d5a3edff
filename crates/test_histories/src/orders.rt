// Commands and replies as plain data, and runs of them.
use shard_sessions::{Command, CommandRun, Reply, run_commands};
use std::alloc::Global;
use std::process::Abort;
use zarr_codecs::{ArrayToBytesCodecTraits, MemoryHandle};
use zarr_parts::{
    ArrayBytes, ArraySubset, ChunkShape, CodecError, Coordinates, DataType, FillValue,
};
use zarrs_sharding::ShardingCodec;

// A command on a shard of one axis, whose elements are bytes.
pub(crate) enum Order {
    Write(u64, u64, &'static [u8]),
    Read(u64, u64),
    ReadCells(&'static [u64]),
    Erase,
    Compact,
    Reopen,
}

// What a command is to reply.
#[derive(Clone, Copy)]
pub(crate) enum Answer {
    Done,
    Cells(&'static [u8]),
    Compacted(bool),
    Refused(CodecError),
}

pub(crate) fn shape_of<R: Abort>(rt: &R, alloc: Global, axes: &[u64]) -> ChunkShape {
    ChunkShape::new(alloc, axes)
        .expect(rt, "refused")
        .expect(rt, "does not fit")
}

pub(crate) fn subset_of<R: Abort>(rt: &R, alloc: Global, start: u64, end: u64) -> ArraySubset {
    ArraySubset::new_with_ranges(alloc, &[start..end])
        .expect(rt, "refused")
        .expect(rt, "does not fit")
}

fn coordinates_of<R: Abort>(rt: &R, alloc: Global, numbers: &[u64]) -> Coordinates {
    let flat = numbers.to_vec(alloc).expect(rt, "refused");
    Coordinates::new(1, numbers.len() as u64, flat).expect(rt, "does not fit")
}

pub(crate) fn write_of<R: Abort>(
    rt: &R,
    alloc: Global,
    start: u64,
    end: u64,
    cells: &[u8],
) -> Command {
    let subset = subset_of(rt, alloc, start, end);
    let bytes = ArrayBytes::from_numbers(alloc, cells).expect(rt, "refused");
    Command::Write { subset, bytes }
}

fn command_of<R: Abort>(rt: &R, alloc: Global, order: &Order) -> Command {
    match order {
        Order::Write(start, end, cells) => write_of(rt, alloc, *start, *end, cells),
        Order::Read(start, end) => {
            let subset = subset_of(rt, alloc, *start, *end);
            Command::Read { subset }
        }
        Order::ReadCells(numbers) => {
            let coordinates = coordinates_of(rt, alloc, numbers);
            Command::ReadCells { coordinates }
        }
        Order::Erase => Command::Erase,
        Order::Compact => Command::Compact,
        Order::Reopen => Command::Reopen,
    }
}

pub(crate) fn commands_of<R: Abort>(rt: &R, alloc: Global, orders: &[Order]) -> Vec<Command> {
    let mut commands = Vec::new(alloc);
    for order in orders {
        commands
            .push(command_of(rt, alloc, order))
            .expect(rt, "refused");
    }
    commands
}

fn says(reply: &Reply, answer: &Answer) -> bool {
    match (reply, answer) {
        (Reply::Done, Answer::Done) => true,
        (Reply::Cells(found), Answer::Cells(wanted)) => found.fixed_bytes() == Some(*wanted),
        (Reply::Compacted(found), Answer::Compacted(wanted)) => *found == *wanted,
        (Reply::Refused(found), Answer::Refused(wanted)) => *found == *wanted,
        _ => false,
    }
}

// Whether the replies are these, one for each.
pub(crate) fn say(replies: &[Reply], answers: &[Answer]) -> bool {
    if replies.len() != answers.len() {
        return false;
    }
    let mut same = true;
    for (reply, answer) in replies.iter().zip(answers.iter()) {
        same = same && says(reply, answer);
    }
    same
}

// A run on a shard of so many bytes, with the fill value 0.
pub(crate) fn run<I: ArrayToBytesCodecTraits, X: ArrayToBytesCodecTraits, R: Abort>(
    rt: &R,
    alloc: Global,
    codec: &ShardingCodec<I, X>,
    cells: u64,
    object: Option<Vec<u8>>,
    commands: &[Command],
) -> CommandRun<MemoryHandle> {
    let shape = shape_of(rt, alloc, &[cells]);
    let fill = FillValue::from_number(alloc, 0u8).expect(rt, "refused");
    let handle = MemoryHandle::new(object);
    run_commands(
        alloc,
        codec,
        handle,
        &shape,
        &DataType::UInt8,
        &fill,
        commands,
    )
}
