// Whole shards: decoded, also in parallel and into a target, and compacted.
use crate::compared::same_at;
use crate::hostile::shards::{Case, case_of, over, said};
use std::alloc::Global;
use std::process::Abort;
use test_helpers::{HostileObject, hostile_table};
use zarr_parts::CodecError;

#[test]
fn they_are_decoded(rt: HostRuntime) {
    for hostile in hostile_table().iter() {
        let Case { object, shards } = case_of(&rt, rt.alloc(), hostile);
        let found = shards.decoded(rt.alloc(), &object);
        same_at(&rt, hostile.name, said(&found), hostile.elements);
    }
}

#[test]
fn they_are_decoded_by_workers(rt: HostRuntime) {
    for hostile in hostile_table().iter() {
        let Case { object, shards } = case_of(&rt, rt.alloc(), hostile);
        for workers in [1, 2, 4] {
            let found = shards.decoded_by_workers(&rt, rt.alloc(), &object, workers);
            same_at(&rt, (hostile.name, workers), said(&found), hostile.elements);
        }
    }
}

// A refused decoding leaves the target as it was.
#[test]
fn they_are_decoded_into_a_target(rt: HostRuntime) {
    for hostile in hostile_table().iter() {
        let case = case_of(&rt, rt.alloc(), hostile);
        let mut bytes = [77; 4];
        let answer = case.decode_over(&rt, rt.alloc(), &mut bytes);
        let found = (answer, bytes.as_slice());
        same_at(&rt, hostile.name, found, over(hostile.elements, &[77; 4]));
    }
}

#[test]
fn their_indices_are_read(rt: HostRuntime) {
    for hostile in hostile_table().iter() {
        let case = case_of(&rt, rt.alloc(), hostile);
        let found = case.index(&rt, rt.alloc()).expect(&rt, "an index");
        let want = hostile.stored.index.as_slice();
        same_at(&rt, hostile.name, found.as_slice(), want);
    }
}

type Compacted = Result<Option<Vec<u8>>, CodecError>;

fn wanted<R: Abort>(rt: &R, alloc: Global, hostile: &HostileObject) -> Compacted {
    match &hostile.compacted {
        Ok(Some(stored)) => {
            let object = stored.object(alloc, hostile.at_start);
            Ok(Some(object.expect(rt, "memory")))
        }
        Ok(None) => Ok(None),
        Err(error) => Err(*error),
    }
}

#[test]
fn they_are_compacted(rt: HostRuntime) {
    let alloc = rt.alloc();
    for hostile in hostile_table().iter() {
        let Case { object, shards } = case_of(&rt, alloc, hostile);
        let found = shards.compacted(alloc, &object);
        same_at(&rt, hostile.name, found, wanted(&rt, alloc, hostile));
    }
}
