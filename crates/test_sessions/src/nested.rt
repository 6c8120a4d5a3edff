// Writes into a shard whose subchunks are shards: four cells of one byte, in two of two.
use crate::compared::same;
use crate::shards::{ABSENT, are_cells, object_of, shape_of, write};
use std::alloc::Global;
use std::ops::Range;
use std::process::Abort;
use zarr_codecs::{BytesCodec, MemoryHandle};
use zarr_parts::{ChunkShape, CodecError, CodecOptions, DataType, FillValue};
use zarrs_sharding::ShardingIndexLocation::End;
use zarrs_sharding::{ShardState, ShardingCodec};

type Inner = ShardingCodec<BytesCodec, BytesCodec>;

type Session<'a> = ShardState<'a, Inner, BytesCodec, MemoryHandle>;

fn codec<R: Abort>(rt: &R, alloc: Global) -> ShardingCodec<Inner, BytesCodec> {
    let little = BytesCodec::little();
    let inner = ShardingCodec::new(shape_of(rt, alloc, &[1]), little, little, End);
    ShardingCodec::new(shape_of(rt, alloc, &[2]), inner, little, End)
}

// A codec, and what it is asked to serve.
struct Nests {
    codec: ShardingCodec<Inner, BytesCodec>,
    shape: ChunkShape,
    fill: FillValue,
}

impl Drop for Nests {
    fn drop(self) {
        let Nests {
            codec: _,
            shape: _,
            fill: _,
        } = self;
    }
}

impl Nests {
    fn new<R: Abort>(rt: &R, alloc: Global) -> Self {
        Nests {
            codec: codec(rt, alloc),
            shape: shape_of(rt, alloc, &[4]),
            fill: FillValue::from_number(alloc, 0u8).expect(rt, "memory"),
        }
    }

    fn open<R: Abort>(&self, rt: &R, alloc: Global, object: Option<Vec<u8>>) -> Session<'_> {
        let opened = self.codec.open_state(
            alloc,
            MemoryHandle::new(object),
            &self.shape,
            &DataType::UInt8,
            &self.fill,
            &CodecOptions::default(),
        );
        opened.ok().expect(rt, "a session")
    }
}

// How a write over a range of an object is refused, and the object then.
type Found = (Option<CodecError>, Option<Vec<u8>>);

fn written<R: Abort>(
    rt: &R,
    alloc: Global,
    object: Option<Vec<u8>>,
    range: Range<u64>,
    cells: &[u8],
) -> Found {
    let nests = Nests::new(rt, alloc);
    let mut session = nests.open(rt, alloc, object);
    let refusal = write(rt, alloc, &mut session, range, cells).err();
    (refusal, session.close().into_inner())
}

// The object of two inner shards, each of one stored byte: of cells 0, 5, 6, 0.
fn two_stored<R: Abort>(rt: &R, alloc: Global) -> Vec<u8> {
    let mut slices = object_of(rt, alloc, End, &[5], [ABSENT, ABSENT, 0, 1]);
    let second = object_of(rt, alloc, End, &[6], [0, 1, ABSENT, ABSENT]);
    slices.extend_from_slice(&second).expect(rt, "memory");
    object_of(rt, alloc, End, &slices, [0, 33, 33, 33])
}

// A write into no object makes both, and they are read back.
#[test]
fn a_shard_in_a_shard_is_written(rt: HostRuntime) {
    let alloc = rt.alloc();
    let found = written(&rt, alloc, None, 1..3, &[5, 6]);
    same(&rt, found, (None, Some(two_stored(&rt, alloc))));
    let nests = Nests::new(&rt, alloc);
    let object = Some(two_stored(&rt, alloc));
    let mut session = nests.open(&rt, alloc, object);
    let are_read = are_cells(&rt, alloc, &mut session, 0..4, &[0, 5, 6, 0]);
    same(&rt, are_read, true);
}

// An object whose first subchunk is a shard of these bytes and pairs, and whose second is absent.
fn one_stored<R: Abort>(rt: &R, alloc: Global, bytes: &[u8], index: [u64; 4]) -> Vec<u8> {
    let inner = object_of(rt, alloc, End, bytes, index);
    let index = [0, inner.len() as u64, ABSENT, ABSENT];
    object_of(rt, alloc, End, &inner, index)
}

// Of such an object with the byte 1, whose first inner pair has this size.
fn written_over<R: Abort>(
    rt: &R,
    alloc: Global,
    size: u64,
    range: Range<u64>,
    cells: &[u8],
) -> Found {
    let object = one_stored(rt, alloc, &[1], [0, size, ABSENT, ABSENT]);
    written(rt, alloc, Some(object), range, cells)
}

// The size in the first inner pair, the cells that are written over a range, and their refusal; the bytes and the pairs then.
type Row = (
    u64,
    Range<u64>,
    &'static [u8],
    Option<CodecError>,
    &'static [u8],
    [u64; 4],
);

// A pair that ends outside the inner shard, though inside the object, damages it: it is read where it is not covered, and only then.
#[test]
fn an_inner_shard_is_read_where_it_is_not_covered(rt: HostRuntime) {
    const ROWS: &[Row] = &[
        (1, 1..2, &[3], None, &[1, 3], [0, 1, 1, 1]),
        (34, 0..2, &[9, 9], None, &[9, 9], [0, 1, 1, 1]),
        (
            34,
            0..1,
            &[9],
            Some(CodecError::Damaged),
            &[1],
            [0, 34, ABSENT, ABSENT],
        ),
    ];
    for (size, range, cells, refusal, bytes, index) in ROWS {
        let found = written_over(&rt, rt.alloc(), *size, range.start..range.end, cells);
        let object = one_stored(&rt, rt.alloc(), bytes, *index);
        same(&rt, found, (*refusal, Some(object)));
    }
}
