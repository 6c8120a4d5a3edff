// Arrays that are encoded anew by another codec.
use crate::compared::{same, same_at};
use crate::hostile::shards::{Case, Plain, around, case_of, in_squares, said, shape_of, squares};
use std::alloc::Global;
use std::process::Abort;
use test_helpers::{HostileObject, hostile_table, object_of};
use zarr_codecs::BytesCodec;
use zarr_parts::{ChunkShape, CodecError, DataType, FillValue};
use zarrs_sharding::ShardingIndexLocation::End;
use zarrs_sharding::{
    ArraySpecRef, ShardingCodec, SubchunkWriteOrder, decode_after_reshard, reshard,
    reshard_functional,
};

type Resharded = Result<Vec<u8>, CodecError>;

// An object as a shard with this number of elements in a subchunk.
fn resharded_to<R: Abort>(rt: &R, alloc: Global, case: &Case, sub: u64) -> Resharded {
    let to = around(rt, alloc, sub, BytesCodec::little(), End);
    let from = &case.shards;
    reshard(
        alloc,
        &from.codec,
        &to,
        &case.object,
        &from.shape,
        &DataType::UInt8,
        &from.fill,
    )
}

// The elements as the one subchunk of a shard, or their refusal.
fn one_subchunk<R: Abort>(rt: &R, alloc: Global, hostile: &HostileObject) -> Resharded {
    match hostile.elements {
        Ok(elements) => Ok(object_of(alloc, false, elements, &[0, 4]).expect(rt, "memory")),
        Err(error) => Err(error),
    }
}

// Bytes that the old codec refuses are refused as it refuses to decode them, after the tests of the new codec.
#[test]
fn they_are_resharded(rt: HostRuntime) {
    let alloc = rt.alloc();
    for hostile in hostile_table().iter() {
        let case = case_of(&rt, alloc, hostile);
        let found = resharded_to(&rt, alloc, &case, 4);
        let want = one_subchunk(&rt, alloc, hostile);
        same_at(&rt, hostile.name, found, want);
        let unserved = resharded_to(&rt, alloc, &case, 3).err();
        let refusal = Some(CodecError::InvalidSubchunkShape);
        same_at(&rt, hostile.name, unserved, refusal);
    }
}

// The codecs of 4 by 4 elements in four squares, and in two halves of two columns each; and what they are asked to serve.
struct Both {
    squares: Plain,
    halves: Plain,
    shape: ChunkShape,
    fill: FillValue,
}

impl Drop for Both {
    fn drop(self) {
        let Both {
            squares: _,
            halves: _,
            shape: _,
            fill: _,
        } = self;
    }
}

// The codec of 4 by 4 elements in halves, whose index is after them.
fn halves<R: Abort>(rt: &R, alloc: Global) -> Plain {
    let (little, sub) = (BytesCodec::little(), shape_of(rt, alloc, &[4, 2]));
    ShardingCodec::new(sub, little, little, End)
}

fn codecs<R: Abort>(rt: &R, alloc: Global) -> Both {
    Both {
        squares: squares(rt, alloc),
        halves: halves(rt, alloc),
        shape: shape_of(rt, alloc, &[4, 4]),
        fill: FillValue::from_number(alloc, 255u8).expect(rt, "memory"),
    }
}

// The shard of 0 to 15 in halves.
fn in_halves<R: Abort>(rt: &R, alloc: Global) -> Vec<u8> {
    let slices = [0, 1, 4, 5, 8, 9, 12, 13, 2, 3, 6, 7, 10, 11, 14, 15];
    object_of(alloc, false, &slices, &[0, 8, 8, 8]).expect(rt, "memory")
}

// Squares as halves, whose codec has one encoding of each array.
fn halved<R: Abort>(rt: &R, alloc: Global, both: &Both, object: &[u8]) -> Resharded {
    let to = halves(rt, alloc).with_subchunk_write_order(SubchunkWriteOrder::C);
    let (from, bytes) = (&both.squares, &DataType::UInt8);
    reshard_functional(alloc, from, &to, object, &both.shape, bytes, &both.fill)
}

#[test]
fn squares_become_halves(rt: HostRuntime) {
    let alloc = rt.alloc();
    let both = codecs(&rt, alloc);
    let squares = in_squares(&rt, alloc);
    let found = halved(&rt, alloc, &both, &squares);
    same(&rt, found, Ok(in_halves(&rt, alloc)));
}

#[test]
fn halves_become_squares(rt: HostRuntime) {
    let alloc = rt.alloc();
    let both = codecs(&rt, alloc);
    let Both { shape, fill, .. } = &both;
    let (from, to, bytes) = (&both.halves, &both.squares, &DataType::UInt8);
    let halves = in_halves(&rt, alloc);
    let found = reshard(alloc, from, to, &halves, shape, bytes, fill);
    same(&rt, found, Ok(in_squares(&rt, alloc)));
}

#[test]
fn what_is_resharded_decodes_to_the_same(rt: HostRuntime) {
    let alloc = rt.alloc();
    let both = codecs(&rt, alloc);
    let Both { shape, fill, .. } = &both;
    let (from, to, bytes) = (&both.squares, &both.halves, &DataType::UInt8);
    let object = in_squares(&rt, alloc);
    let resharded = reshard(alloc, from, to, &object, shape, bytes, fill);
    let halves = resharded.expect(&rt, "halves");
    let spec = ArraySpecRef {
        shape,
        data_type: bytes,
        fill_value: fill,
    };
    let found = decode_after_reshard(alloc, from, to, &object, &halves, &spec);
    let want = [0, 1, 2, 3, 4, 5, 6, 7, 8, 9, 10, 11, 12, 13, 14, 15];
    same(&rt, said(&found), Ok(want.as_slice()));
}
