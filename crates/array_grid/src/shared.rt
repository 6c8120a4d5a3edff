// The elements that a part of a subset and a subchunk of its shard both have.
use crate::parts::ShardPart;
use parts_subsets::ArraySubset;
use std::alloc::{AllocError, Global};

/// The elements that a part of a subset and a subchunk of its shard both have: where they lie in the shard, and where in the subset.
#[derive(Drop)]
pub struct SharedElements {
    pub in_shard: ArraySubset,
    pub in_subset: ArraySubset,
}

// An axis of what a part and a subchunk share: the first element in the shard, how many there are, and the first one in the subset.
#[derive(Clone, Copy)]
struct SharedAxis {
    in_shard: u64,
    count: u64,
    in_subset: u64,
}

// What a part and a subchunk share along an axis, of which the subchunk has elements from `first` on, and the part from `start` on, which
// lies at `target` in the subset. `None` where they share none.
fn shared_axis(
    (first, size): (u64, u64),
    (start, count): (u64, u64),
    target: u64,
) -> Option<SharedAxis> {
    let low = first.max(start);
    let high = first.saturating_add(size).min(start.saturating_add(count));
    let count = high.checked_sub(low)?;
    if count == 0 {
        return None;
    }
    Some(SharedAxis {
        in_shard: low,
        count,
        in_subset: target.saturating_add(low.saturating_sub(start)),
    })
}

/// What a part of a subset and the subchunk of its shard at these coordinates share; `None` where that is nothing.
pub fn shared_elements(
    alloc: Global,
    part: &ShardPart,
    subchunk: &[u64],
    shape: &[u64],
) -> Result<Option<SharedElements>, AllocError> {
    let (mut starts, mut targets) = (Vec::new(alloc), Vec::new(alloc));
    let mut counts = Vec::new(alloc);
    let parts = part.in_shard.start().iter().zip(part.in_shard.shape());
    let axes = subchunk
        .iter()
        .zip(shape)
        .zip(parts.zip(part.in_subset.start()));
    for ((place, size), ((start, count), target)) in axes {
        let first = place.saturating_mul(*size);
        let Some(axis) = shared_axis((first, *size), (*start, *count), *target) else {
            return Ok(None);
        };
        starts.push(axis.in_shard)?;
        counts.push(axis.count)?;
        targets.push(axis.in_subset)?;
    }
    subsets_of(alloc, starts, targets, counts)
}

// The two subsets that begin at these elements, of as many along each axis as are counted.
fn subsets_of(
    alloc: Global,
    starts: Vec<u64>,
    targets: Vec<u64>,
    counts: Vec<u64>,
) -> Result<Option<SharedElements>, AllocError> {
    let again = Vec::from_slice(alloc, &counts)?;
    let in_shard = ArraySubset::new_with_start_shape(starts, counts);
    let in_subset = ArraySubset::new_with_start_shape(targets, again);
    match (in_shard, in_subset) {
        (Some(in_shard), Some(in_subset)) => Ok(Some(SharedElements {
            in_shard,
            in_subset,
        })),
        _ => Ok(None),
    }
}
