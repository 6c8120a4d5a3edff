// The grid of subchunks, the subset of each, and the sizes of what is stored.
use crate::compared::{same, same_at};
use crate::shards::{done, fill_of, plain, shape_of};
use std::alloc::Global;
use std::process::Abort;
use zarr_codecs::{ArrayToBytesCodecTraits, BytesRepresentation};
use zarr_parts::{ArraySubset, ChunkShape, CodecError, DataType};
use zarrs_sharding::{ShardingIndexLocation, calculate_chunks_per_shard, sharding_index_shape};

// The grid of the subchunks of a shard.
fn grid_of<R: Abort>(rt: &R, alloc: Global, shape: &[u64], sub: &[u64]) -> ChunkShape {
    let shape = shape_of(rt, alloc, shape);
    calculate_chunks_per_shard(alloc, &shape, &shape_of(rt, alloc, sub)).expect(rt, "refused")
}

// Whether the index of a shard has this shape.
fn is_index_shape<R: Abort>(
    rt: &R,
    alloc: Global,
    shape: &[u64],
    sub: &[u64],
    want: &[u64],
) -> bool {
    let grid = grid_of(rt, alloc, shape, sub);
    sharding_index_shape(alloc, &grid)
        .expect(rt, "refused")
        .as_slice()
        == want
}

// An index has two numbers for each subchunk of the grid.
#[test]
fn a_shard_has_a_grid_and_an_index(rt: HostRuntime) {
    let found = is_index_shape(&rt, rt.alloc(), &[4, 4], &[2, 2], &[2, 2, 2]);
    same(&rt, found, true);
}

// The subset of a subchunk of a grid.
fn chunk_subset<R: Abort>(
    rt: &R,
    alloc: Global,
    number: u64,
    grid: &[u64],
    sub: &[u64],
) -> Result<Option<ArraySubset>, CodecError> {
    let codec = plain(rt, alloc, sub, ShardingIndexLocation::End);
    codec.chunk_index_to_subset(alloc, number, &shape_of(rt, alloc, grid))
}

// Whether a subchunk starts at this cell and has the subchunks' shape, or there is none of the number.
fn is_subset<R: Abort>(
    rt: &R,
    alloc: Global,
    number: u64,
    grid: &[u64],
    sub: &[u64],
    start: Option<&[u64]>,
) -> bool {
    match chunk_subset(rt, alloc, number, grid, sub).expect(rt, "refused") {
        Some(found) => start == Some(found.start()) && found.shape() == sub,
        None => start.is_none(),
    }
}

// Subchunks are numbered in row-major order.
#[test]
fn a_subchunk_has_a_subset(rt: HostRuntime) {
    let rows: [(u64, &[u64], &[u64], Option<&[u64]>); 8] = [
        (0, &[2, 3], &[4, 5], Some(&[0, 0])),
        (1, &[2, 3], &[4, 5], Some(&[0, 5])),
        (2, &[2, 3], &[4, 5], Some(&[0, 10])),
        (3, &[2, 3], &[4, 5], Some(&[4, 0])),
        (5, &[2, 3], &[4, 5], Some(&[4, 10])),
        (6, &[2, 3], &[4, 5], None),
        (1, &[2, 2], &[2, 2], Some(&[0, 2])),
        (4, &[2, 2], &[2, 2], None),
    ];
    for (number, grid, sub, start) in rows {
        let found = is_subset(&rt, rt.alloc(), number, grid, sub, start);
        same_at(&rt, number, found, true);
    }
}

// The number of axes is tested before the sizes of the subsets.
#[test]
fn a_subset_is_refused_in_order(rt: HostRuntime) {
    let many = [1u64 << 32, 1 << 32].as_slice();
    let unequal = Err(CodecError::IncompatibleDimensionality);
    let large = Err(CodecError::TooLarge);
    let rows: [(u64, &[u64], &[u64], Result<(), CodecError>); 6] = [
        (0, many, &[1], unequal),
        (0, many, &[1, 1], large),
        (1, &[2], &[1 << 63], large),
        (3, &[4], &[1 << 63], large),
        (0, &[2], &[1 << 63], Ok(())),
        (2, &[2], &[1 << 63], Ok(())),
    ];
    for (number, grid, sub, want) in rows {
        let answer = done(chunk_subset(&rt, rt.alloc(), number, grid, sub));
        same_at(&rt, (number, grid, sub), answer, want);
    }
}

// The least and the most workers that can share the work on a shard.
fn workers_of<R: Abort>(
    rt: &R,
    alloc: Global,
    shape: &[u64],
    sub: &[u64],
) -> Result<(usize, usize), CodecError> {
    let codec = plain(rt, alloc, sub, ShardingIndexLocation::End);
    let told = codec.recommended_concurrency(&shape_of(rt, alloc, shape), &DataType::UInt16)?;
    Ok((told.min(), told.max()))
}

// A worker can take each subchunk, where all can be counted.
#[test]
fn workers_can_share_as_many_subchunks(rt: HostRuntime) {
    let many = [1u64 << 32, 1 << 32].as_slice();
    for (shape, sub, want) in [
        ([4u64, 6].as_slice(), [2u64, 2].as_slice(), Ok((1, 6))),
        (&[], &[], Ok((1, 1))),
        (many, &[2, 1], Ok((1, 1 << 63))),
        (many, &[1, 1], Err(CodecError::TooLarge)),
        (many, &[3, 1], Err(CodecError::InvalidSubchunkShape)),
        (many, &[3], Err(CodecError::IncompatibleDimensionality)),
    ] {
        let workers = workers_of(&rt, rt.alloc(), shape, sub);
        same_at(&rt, (shape, sub), workers, want);
    }
}

// What is told of the encodings of cells of two bytes.
fn told<R: Abort>(rt: &R, alloc: Global) -> BytesRepresentation {
    let codec = plain(rt, alloc, &[2, 2], ShardingIndexLocation::End);
    let shape = shape_of(rt, alloc, &[4, 4]);
    codec
        .encoded_representation(
            alloc,
            &shape,
            &DataType::UInt16,
            &fill_of(rt, alloc, &[0, 0]),
        )
        .expect(rt, "refused")
}

// An encoding is no longer than all subchunks and the index.
#[test]
fn an_encoding_has_a_greatest_length(rt: HostRuntime) {
    same(
        &rt,
        told(&rt, rt.alloc()),
        BytesRepresentation::BoundedSize(96),
    );
}
