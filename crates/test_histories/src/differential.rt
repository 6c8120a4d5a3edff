// Five hundred commands from a fixed generator, beside a plain list of cells.
ghost use Rattle.std.specs.Prelude.{◌≤◌};

use crate::compared::same;
use crate::orders::{run, shape_of, subset_of, write_of};
use shard_sessions::{Command, Reply};
use std::alloc::Global;
use std::process::Abort;
use zarr_codecs::{ArrayToBytesCodecTraits, BytesCodec};
use zarrs_sharding::ShardingIndexLocation::{End, Start};
use zarrs_sharding::{ShardingCodec, ShardingIndexLocation};

// The next number of the generator, whose constants are those of Knuth's MMIX.
fn next(seed: u64) -> u64 {
    seed.wrapping_mul(6364136223846793005)
        .wrapping_add(1442695040888963407)
}

// A start and an end among sixteen cells, from a number.
fn range_of(number: u64) -> (u64, u64)
    ensures { result.0 ≤ result.1 }
{
    let one = (number / 65_536) % 17;
    let other = (number / 16_777_216) % 17;
    if one <= other {
        (one, other)
    } else {
        (other, one)
    }
}

// The element that a write puts into its cells: for every third number the fill value.
fn value_of(number: u64) -> u8 {
    if number % 3 == 0 {
        0
    } else {
        (number / 256 % 256) as u8
    }
}

fn overwrite(cells: &mut [u8], start: u64, end: u64, value: u8) {
    for at in start..end {
        if let Some(cell) = cells.get_mut(at as usize) {
            *cell = value;
        }
    }
}

fn part_of<R: Abort>(rt: &R, alloc: Global, cells: &[u8], start: u64, end: u64) -> Vec<u8> {
    let mut part = Vec::new(alloc);
    for at in start..end {
        if let Some(cell) = cells.get(at as usize) {
            part.push(*cell).expect(rt, "refused");
        }
    }
    part
}

// A command, and what it is to read.
type ArraySpecRef = (Command, Option<Vec<u8>>);

fn write_from<R: Abort>(rt: &R, alloc: Global, number: u64, cells: &mut [u8]) -> ArraySpecRef {
    let (start, end) = range_of(number);
    let value = value_of(number);
    overwrite(cells, start, end, value);
    let update = vec![in alloc; value; (end - start) as usize].expect(rt, "refused");
    let command = write_of(rt, alloc, start, end, &update);
    (command, None)
}

fn read_from<R: Abort>(rt: &R, alloc: Global, number: u64, cells: &[u8]) -> ArraySpecRef {
    let (start, end) = range_of(number);
    let subset = subset_of(rt, alloc, start, end);
    let part = part_of(rt, alloc, cells, start, end);
    (Command::Read { subset }, Some(part))
}

// The command of a number, which changes the cells, and what it is to read.
fn command_of<R: Abort>(rt: &R, alloc: Global, number: u64, cells: &mut [u8]) -> ArraySpecRef {
    match (number / 4_294_967_296) % 16 {
        0 | 1 => (Command::Compact, None),
        2 | 3 => (Command::Reopen, None),
        4 => {
            overwrite(cells, 0, 16, 0);
            (Command::Erase, None)
        }
        5..=9 => read_from(rt, alloc, number, cells),
        _ => write_from(rt, alloc, number, cells),
    }
}

fn agrees(reply: &Reply, wanted: &Option<Vec<u8>>) -> bool {
    match (reply, wanted) {
        (Reply::Cells(found), Some(cells)) => found.fixed_bytes() == Some(cells.as_slice()),
        (Reply::Done, None) => true,
        (Reply::Compacted(_), None) => true,
        _ => false,
    }
}

// Five hundred commands, and what each is to read.
fn requested<R: Abort>(rt: &R, alloc: Global) -> (Vec<Command>, Vec<Option<Vec<u8>>>) {
    let mut cells = [0u8; 16];
    let mut commands = Vec::new(alloc);
    let mut wanted = Vec::new(alloc);
    let mut number = 1;
    for _ in 0..500 {
        number = next(number);
        let (command, read) = command_of(rt, alloc, number, &mut cells);
        commands.push(command).expect(rt, "refused");
        wanted.push(read).expect(rt, "refused");
    }
    (commands, wanted)
}

// How many of the replies of a run of these are those of the plain list.
fn agreed<I: ArrayToBytesCodecTraits, X: ArrayToBytesCodecTraits, R: Abort>(
    rt: &R,
    alloc: Global,
    codec: &ShardingCodec<I, X>,
) -> usize {
    let (commands, wanted) = requested(rt, alloc);
    let ended = run(rt, alloc, codec, 16, None, &commands);
    let pairs = ended.replies.iter().zip(wanted.iter());
    pairs.filter(|(reply, read)| agrees(reply, read)).count()
}

fn plain<R: Abort>(
    rt: &R,
    alloc: Global,
    location: ShardingIndexLocation,
) -> ShardingCodec<BytesCodec, BytesCodec> {
    let little = BytesCodec::little();
    let sub = shape_of(rt, alloc, &[4]);
    ShardingCodec::new(sub, little, little, location)
}

fn agreed_plain<R: Abort>(rt: &R, alloc: Global, location: ShardingIndexLocation) -> usize {
    let codec = plain(rt, alloc, location);
    agreed(rt, alloc, &codec)
}

// The same of shards in shards.
fn agreed_nested<R: Abort>(rt: &R, alloc: Global, location: ShardingIndexLocation) -> usize {
    let inner = plain(rt, alloc, location);
    let sub = shape_of(rt, alloc, &[8]);
    let codec = ShardingCodec::new(sub, inner, BytesCodec::little(), location);
    agreed(rt, alloc, &codec)
}

#[test]
fn a_long_run_reads_what_a_plain_list_has(rt: HostRuntime) {
    for location in [End, Start] {
        same(&rt, agreed_plain(&rt, rt.alloc(), location), 500);
        same(&rt, agreed_nested(&rt, rt.alloc(), location), 500);
    }
}
