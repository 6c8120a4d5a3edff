// Runs of commands.
use crate::shard::{Answer, Shard};
use crate::worked::is_object;
use shard_sessions::{Command, CommandRun, Reply, run_commands};
use std::alloc::Global;
use zarr_codecs::{ArrayToBytesCodecTraits, MemoryHandle};
use zarr_parts::{ArrayBytes, ArraySubset, CodecError, DataType};

#[derive(Clone, Copy)]
enum Order {
    Write,
    Read,
    Compact,
    ReadListed,
    Erase,
    Reopen,
}

use Order::{Compact, Erase, Read, ReadListed, Reopen, Write};

const ORDERS: [Order; 7] = [Write, Read, Compact, ReadListed, Erase, Read, Reopen];

fn write_of<I: ArrayToBytesCodecTraits>(
    alloc: Global,
    shard: &Shard<I>,
) -> Result<Command, CodecError> {
    Ok(Command::Write {
        subset: ArraySubset::from_ranges(alloc, shard.worked.first.subset)?,
        bytes: ArrayBytes::from_numbers(alloc, shard.worked.first.elements)?,
    })
}

fn command_of<I: ArrayToBytesCodecTraits>(
    alloc: Global,
    shard: &Shard<I>,
    order: Order,
) -> Result<Command, CodecError> {
    match order {
        Write => write_of(alloc, shard),
        Read => {
            let subset = shard.requested.whole.try_clone(alloc)?;
            Ok(Command::Read { subset })
        }
        ReadListed => {
            let coordinates = shard.requested.listed.try_clone(alloc)?;
            Ok(Command::ReadCells { coordinates })
        }
        Compact => Ok(Command::Compact),
        Erase => Ok(Command::Erase),
        Reopen => Ok(Command::Reopen),
    }
}

fn commands_of<I: ArrayToBytesCodecTraits>(
    alloc: Global,
    shard: &Shard<I>,
) -> Result<Vec<Command>, CodecError> {
    let mut commands = Vec::with_capacity(alloc, ORDERS.len())?;
    for order in ORDERS.iter() {
        commands.push(command_of(alloc, shard, *order)?)?;
    }
    Ok(commands)
}

// What a run has made of the object.
#[derive(Clone, Copy, PartialEq, Eq)]
enum Stage {
    New,
    Written,
    Compacted,
    Erased,
}

impl Stage {
    fn elements<I: ArrayToBytesCodecTraits>(self, shard: &Shard<I>) -> &'static [u8] {
        match self {
            Stage::New => shard.worked.elements,
            Stage::Written | Stage::Compacted => shard.worked.first.left,
            Stage::Erased => shard.worked.erased,
        }
    }

    fn is_left<I: ArrayToBytesCodecTraits>(
        self,
        shard: &Shard<I>,
        object: &Option<Vec<u8>>,
    ) -> bool {
        match self {
            Stage::New => is_object(object, shard.worked.object),
            Stage::Written => is_object(object, shard.worked.first_written),
            Stage::Compacted => is_object(object, shard.worked.first_compact),
            Stage::Erased => object.is_none(),
        }
    }

    // The stage after a compaction that tells whether it rewrote the object.
    fn compacted<I: ArrayToBytesCodecTraits>(
        self,
        shard: &Shard<I>,
        rewrote: bool,
    ) -> Option<Stage> {
        if rewrote != (shard.worked.first_gains && self == Stage::Written) {
            return None;
        }
        if rewrote {
            Some(Stage::Compacted)
        } else {
            Some(self)
        }
    }

    // The stage after a command with a reply, where this may reply so.
    fn next<I: ArrayToBytesCodecTraits>(
        self,
        shard: &Shard<I>,
        order: Order,
        reply: &Reply,
    ) -> Option<Stage> {
        match (order, reply) {
            (_, Reply::Refused(CodecError::OutOfMemory)) | (Reopen, Reply::Done) => Some(self),
            (Write, Reply::Done) => Some(Stage::Written),
            (Erase, Reply::Done) => Some(Stage::Erased),
            (Compact, Reply::Compacted(rewrote)) => self.compacted(shard, *rewrote),
            (Read, Reply::Cells(read)) if read.fixed_bytes() == Some(self.elements(shard)) => {
                Some(self)
            }
            (ReadListed, Reply::Cells(read))
                if read.fixed_bytes() == Some(shard.worked.listed_elements) => { Some(self) }
            _ => None,
        }
    }
}

fn stage_after<I: ArrayToBytesCodecTraits>(shard: &Shard<I>, replies: &[Reply]) -> Option<Stage> {
    let mut stage = Stage::New;
    for (order, reply) in ORDERS.iter().zip(replies.iter()) {
        stage = stage.next(shard, *order, reply)?;
    }
    Some(stage)
}

fn count_refused(replies: &[Reply]) -> usize {
    let mut count: usize = 0;
    for reply in replies {
        if let Reply::Refused(_) = reply {
            count = count.saturating_add(1);
        }
    }
    count
}

// How a run ended: whole, without memory in a reply or as why it stopped, or otherwise.
#[derive(Clone, Copy, PartialEq, Eq)]
enum Ended {
    Whole,
    Refused,
    Otherwise,
}

// By the refused replies, whether each command has its reply, and why the run stopped.
fn how_ended(refused: usize, is_full: bool, stop: Option<CodecError>) -> Ended {
    match (refused, is_full, stop) {
        (0, true, None) => Ended::Whole,
        (1, true, None) | (0, _, Some(CodecError::OutOfMemory)) => Ended::Refused,
        _ => Ended::Otherwise,
    }
}

// The object is the one that the replies leave.
fn judged<I: ArrayToBytesCodecTraits>(shard: &Shard<I>, run: CommandRun<MemoryHandle>) -> Ended {
    let CommandRun {
        handle,
        replies,
        stop,
    } = run;
    let Some(stage) = stage_after(shard, &replies) else {
        return Ended::Otherwise;
    };
    if !stage.is_left(shard, &handle.into_inner()) {
        return Ended::Otherwise;
    }
    how_ended(count_refused(&replies), replies.len() == ORDERS.len(), stop)
}

fn run_once<I: ArrayToBytesCodecTraits>(
    alloc: Global,
    shard: &Shard<I>,
    commands: &[Command],
) -> Result<Ended, CodecError> {
    let object = again!(shard.object.clone())?;
    let run = run_commands(
        alloc,
        &shard.codec,
        MemoryHandle::new(Some(object)),
        &shard.shape,
        &DataType::UInt8,
        &shard.fill,
        commands,
    );
    Ok(judged(shard, run))
}

// A run that found no memory is made once more, over the object that it started with.
pub(crate) fn run<I: ArrayToBytesCodecTraits>(alloc: Global, shard: &Shard<I>) -> Answer {
    let commands = again!(commands_of(alloc, shard))?;
    let ended = match run_once(alloc, shard, &commands)? {
        Ended::Refused => run_once(alloc, shard, &commands)?,
        ended => ended,
    };
    Ok(ended == Ended::Whole)
}
