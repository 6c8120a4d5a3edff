// Calls of the library over three shards that are worked by hand. A call that finds no memory leaves all as it was, and is made once
// more: so the same lines are printed, whichever allocation is refused. An input that begins with a 1 leaves those calls out that
// take no memory: the program makes as many allocations then.
#![tactic(auto)]

ghost use Rattle.std.specs.Prelude.{◌≡◌, Some};
ghost use Rattle.parts_arrays.specs.ArraySpec.{array_spec};
ghost use Rattle.parts_arrays.specs.declared.data_type.DataType.TheVariants.{UInt8};

// A call, made once more where it found no memory.
macro_rules! again {
    ($call:expr) => {
        match $call.map_err(zarr_parts::CodecError::from) {
            Err(zarr_parts::CodecError::OutOfMemory) => {
                $call.map_err(zarr_parts::CodecError::from)
            }
            answer => answer,
        }
    };
}

mod configuration;
mod decoder;
mod record;
mod run;
mod session;
mod shard;
mod shared;
mod whole;
mod worked;

use crate::configuration::is_configured;
use crate::shard::{Answer, Shard};
use shard_sessions::Naming;
use std::alloc::Global;
use std::io::{self, Read};
use std::marker::Brand;
use std::sync::Wait;
use zarr_codecs::{ArrayToBytesCodecTraits, BytesCodec};
use zarr_parts::CodecError;

// The calls on each shard, in this order.
const CALLS: [&str; 14] = [
    "encode",
    "decode",
    "decode into a target",
    "compact",
    "compact a new object",
    "reshard",
    "decoder",
    "reads of a session",
    "writes of a session",
    "erasure by a session",
    "shared session",
    "erasure by a shared session",
    "run of commands",
    "recorded session",
];

// How each of these calls is answered.
fn answers<I: ArrayToBytesCodecTraits, J: Naming<I, BytesCodec>, R: Wait>(
    rt: &R,
    alloc: Global,
    shard: &Shard<I>,
    is_whole: bool,
) -> [Answer; 14]
    requires codec_named { Some shard.now.codec ≡ J.codec }
    requires spec_named { array_spec shard.now.shape UInt8 shard.now.fill ≡ J.array_spec }
{
    [
        whole::encode(alloc, shard),
        whole::decode(alloc, shard),
        whole::decode_into(alloc, shard),
        whole::compact(alloc, shard),
        whole::compact_new(alloc, shard),
        whole::resharded(alloc, shard),
        decoder::decoder(alloc, shard, is_whole),
        session::read(alloc, shard),
        session::write(alloc, shard),
        session::erase(alloc, shard, is_whole),
        shared::shared(rt, alloc, shard),
        shared::erase(rt, alloc, shard, is_whole),
        run::run(alloc, shard),
        record::record::<I, J, R>(rt, alloc, shard, is_whole),
    ]
}

type Answers = Result<[Answer; 14], CodecError>;

fn at_the_start<R: Wait>(rt: &R, alloc: Global, is_whole: bool) -> Answers {
    let shard = again!(shard::index_at_start(alloc))?;
    Ok(answers::<_, Brand, _>(rt, alloc, &shard, is_whole))
}

fn at_the_end<R: Wait>(rt: &R, alloc: Global, is_whole: bool) -> Answers {
    let shard = again!(shard::index_at_end(alloc))?;
    Ok(answers::<_, Brand, _>(rt, alloc, &shard, is_whole))
}

fn nested<R: Wait>(rt: &R, alloc: Global, is_whole: bool) -> Answers {
    let shard = again!(shard::shards_of_shards(alloc))?;
    Ok(answers::<_, Brand, _>(rt, alloc, &shard, is_whole))
}

// As many allocations as the input has bytes, which are given back: so the one that is refused comes the earlier behind them.
// Whether the input leaves all calls in.
fn take_first<R: Read>(alloc: Global, reader: &mut R) -> io::Result<bool> {
    let mut input = [0u8; 1024];
    let count = reader.read(&mut input)?;
    for byte in input.iter().take(count) {
        let _ = vec![in alloc; *byte; 1];
    }
    Ok(input[0] != 1)
}

fn tell_one(rt: &HostRuntime, shard: &str, call: &str, answer: Answer) -> io::Result<()> {
    match answer {
        Ok(true) => println!(rt; "{shard}, {call}: as expected"),
        Ok(false) => println!(rt; "{shard}, {call}: another answer"),
        Err(error) => println!(rt; "{shard}, {call}: {error}"),
    }
}

fn tell(rt: &HostRuntime, shard: &str, answers: &[Answer]) -> io::Result<()> {
    for (call, answer) in CALLS.iter().zip(answers.iter()) {
        tell_one(rt, shard, call, *answer)?;
    }
    Ok(())
}

fn main(rt: HostRuntime) -> anyhow::Result<()> {
    let alloc = rt.alloc();
    let is_whole = take_first(alloc, &mut rt.stdin())?;
    tell(
        &rt,
        "index at the start",
        &at_the_start(&rt, alloc, is_whole)?,
    )?;
    tell(&rt, "index at the end", &at_the_end(&rt, alloc, is_whole)?)?;
    tell(&rt, "nested", &nested(&rt, alloc, is_whole)?)?;
    tell_one(
        &rt,
        "index at the start",
        "configuration",
        Ok(is_configured(alloc)),
    )?;
    Ok(())
}
