// Lengths of variable elements, which are added up before any memory is asked.
use crate::compared::{same, same_at};
use sharding_gather::check_lengths;
use std::alloc::{AllocError, Global};
use std::process::Abort;
use zarr_parts::{ArrayBuilder, ArrayBytes, CodecError, DataTypeSize};

// So many subchunks that are absent.
fn absent(alloc: Global, many: usize) -> Result<Vec<Option<ArrayBytes<'static>>>, AllocError> {
    let mut subchunks = Vec::new(alloc);
    for _ in 0..many {
        subchunks.push(None)?;
    }
    Ok(subchunks)
}

// The lengths of so many absent subchunks together.
fn checked(alloc: Global, many: usize, places: u64, fill: &[u8]) -> Result<u64, CodecError> {
    let subchunks = absent(alloc, many)?;
    check_lengths(&subchunks, places, DataTypeSize::Variable, fill)
}

#[test]
fn lengths_past_64_bits_are_refused(rt: HostRuntime) {
    for (many, fill, wanted) in [
        (1, b"ab".as_slice(), Err(CodecError::TooLarge)),
        (2, b"a", Err(CodecError::TooLarge)),
        (1, b"a", Ok(1 << 63)),
    ] {
        same_at(
            &rt,
            (many, fill),
            checked(rt.alloc(), many, 1 << 63, fill),
            wanted,
        );
    }
}

// The lengths of three elements and of an absent subchunk together.
fn checked_elements<R: Abort>(rt: &R, alloc: Global) -> u64 {
    let mut cells = ArrayBuilder::new(alloc, DataTypeSize::Variable).expect(rt, "refused");
    cells.push(b"ab").expect(rt, "refused");
    cells.push(b"").expect(rt, "refused");
    cells.push(b"c").expect(rt, "refused");
    let mut subchunks = absent(alloc, 1).expect(rt, "refused");
    subchunks.push(Some(cells.finish())).expect(rt, "refused");
    check_lengths(&subchunks, 3, DataTypeSize::Variable, b"ab").expect(rt, "refused")
}

#[test]
fn lengths_of_64_bits_are_served(rt: HostRuntime) {
    same(&rt, checked_elements(&rt, rt.alloc()), 9);
}
