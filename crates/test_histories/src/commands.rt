// Whole runs, with the object that each leaves.
use crate::compared::same;
use crate::orders::Answer::{Cells, Compacted, Done, Refused};
use crate::orders::Order::{Compact, Erase, Read, ReadCells, Reopen, Write};
use crate::orders::{Answer, Order, commands_of, run, say, shape_of};
use shard_sessions::{Command, CommandRun};
use std::alloc::Global;
use std::process::Abort;
use zarr_codecs::{BytesCodec, MemoryHandle};
use zarr_parts::CodecError;
use zarrs_sharding::{ShardingCodec, ShardingIndexLocation};

const ABSENT: u64 = u64::MAX;

// The data part of an object, and the numbers of the index after it; or no object.
type Object = Option<(&'static [u8], &'static [u64])>;

// A run on a shard of so many bytes in subchunks of two: the object before, the commands and their replies, the object after,
// and why it stops.
#[derive(Drop)]
struct Row {
    cells: u64,
    before: Object,
    orders: &'static [Order],
    answers: &'static [Answer],
    after: Object,
    stop: Option<CodecError>,
}

const ROWS: [Row; 6] = [
    Row {
        cells: 4,
        before: None,
        orders: &[
            Write(1, 2, &[7]),
            Read(0, 4),
            Erase,
            Read(0, 4),
            Compact,
            Reopen,
        ],
        answers: &[
            Done,
            Cells(&[0, 7, 0, 0]),
            Done,
            Cells(&[0, 0, 0, 0]),
            Compacted(false),
            Done,
        ],
        after: None,
        stop: None,
    },
    Row {
        cells: 8,
        before: Some((&[1, 2, 3, 4, 5, 6, 7, 8], &[0, 2, 2, 2, 4, 2, 6, 2])),
        orders: &[
            Write(4, 8, &[0, 0, 0, 0]),
            Write(4, 6, &[9, 9]),
            Compact,
            Read(0, 8),
            Compact,
        ],
        answers: &[
            Done,
            Done,
            Compacted(true),
            Cells(&[1, 2, 3, 4, 9, 9, 0, 0]),
            Compacted(false),
        ],
        after: Some((&[1, 2, 3, 4, 9, 9], &[0, 2, 2, 2, 4, 2, ABSENT, ABSENT])),
        stop: None,
    },
    Row {
        cells: 4,
        before: None,
        orders: &[Read(3, 5), Write(0, 2, &[1]), Read(0, 4)],
        answers: &[
            Refused(CodecError::OutOfBounds),
            Refused(CodecError::InvalidNumberOfElements),
            Cells(&[0, 0, 0, 0]),
        ],
        after: None,
        stop: None,
    },
    Row {
        cells: 4,
        before: Some((&[5, 6], &[0, 2, ABSENT, 5])),
        orders: &[Read(0, 2), Erase],
        answers: &[],
        after: Some((&[5, 6], &[0, 2, ABSENT, 5])),
        stop: Some(CodecError::BadIndexEntry { number: 1 }),
    },
    Row {
        cells: 4,
        before: Some((&[5, 6], &[0, 2, 0, 2])),
        orders: &[Write(2, 3, &[9]), Read(0, 4)],
        answers: &[Done, Cells(&[5, 6, 9, 6])],
        after: Some((&[5, 6, 9, 6], &[0, 2, 2, 2])),
        stop: None,
    },
    Row {
        cells: 4,
        before: Some((&[5, 6], &[0, 2, ABSENT, ABSENT])),
        orders: &[ReadCells(&[1, 3, 1]), ReadCells(&[4])],
        answers: &[Cells(&[6, 0, 6]), Refused(CodecError::OutOfBounds)],
        after: Some((&[5, 6], &[0, 2, ABSENT, ABSENT])),
        stop: None,
    },
];

fn rows() -> [Row; 6] {
    ROWS
}

fn object_of<R: Abort>(rt: &R, alloc: Global, object: &Object) -> Option<Vec<u8>> {
    let Some((data, numbers)) = object else {
        return None;
    };
    let mut bytes = data.to_vec(alloc).expect(rt, "refused");
    for number in numbers.iter() {
        bytes
            .extend_from_slice(&number.to_le_bytes())
            .expect(rt, "refused");
    }
    Some(bytes)
}

// Whether a run replies as the row says, the object then, and why it stops.
type Found = (bool, Option<Vec<u8>>, Option<CodecError>);

fn codec<R: Abort>(rt: &R, alloc: Global) -> ShardingCodec<BytesCodec, BytesCodec> {
    let little = BytesCodec::little();
    let sub = shape_of(rt, alloc, &[2]);
    ShardingCodec::new(sub, little, little, ShardingIndexLocation::End)
}

fn ended<R: Abort>(
    rt: &R,
    alloc: Global,
    row: &Row,
    commands: &[Command],
) -> CommandRun<MemoryHandle> {
    let codec = codec(rt, alloc);
    let before = object_of(rt, alloc, &row.before);
    run(rt, alloc, &codec, row.cells, before, commands)
}

fn found<R: Abort>(rt: &R, alloc: Global, row: &Row) -> Result<Found, CodecError> {
    let commands = commands_of(rt, alloc, row.orders);
    let ended = ended(rt, alloc, row, &commands);
    let same = say(&ended.replies, row.answers);
    Ok((same, ended.handle.into_inner(), ended.stop))
}

fn wanted<R: Abort>(rt: &R, alloc: Global, row: &Row) -> Result<Found, CodecError> {
    Ok((true, object_of(rt, alloc, &row.after), row.stop))
}

#[test]
fn runs_reply_and_leave_the_object_as_they_say(rt: HostRuntime) {
    for row in rows().iter() {
        same(
            &rt,
            found(&rt, rt.alloc(), row),
            wanted(&rt, rt.alloc(), row),
        );
    }
}
