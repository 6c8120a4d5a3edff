// Subsets that are read band by band, so that memory stays that of a band.
use parts_row_major::unravel_index;
use parts_subsets::{ArraySubset, ChunkShape};
use std::alloc::{AllocError, Global};

/// A subset that is cut into bands along one of its axes, and before that axis at each index: the elements of the bands, one behind the
/// other, are those of the subset in row-major order.
#[derive(Drop)]
pub struct Bands<'a> {
    subset: &'a ArraySubset,
    cut: Cut,
}

// The axis along which a subset is cut, and how many indices of it a band has.
#[derive(Clone, Copy)]
struct Cut {
    axis: usize,
    step: u64,
}

// How many bytes the elements of one index of an axis have.
fn bytes_of_index(shape: &[u64], axis: usize, element_size: u64) -> u64 {
    let mut bytes = element_size;
    for count in shape.iter().skip(axis).skip(1) {
        bytes = bytes.saturating_mul(*count);
    }
    bytes.max(1)
}

// As many indices of an axis as there is room for: whole rows of shards, else whole rows of subchunks, of which there is at least one.
fn step_of(room: u64, shard: u64, subchunk: u64) -> u64 {
    let row = if shard <= room { shard } else { subchunk };
    let rows = room.checked_div(row).unwrap_or(1).max(1);
    rows.saturating_mul(row).max(1)
}

// Where a subset is cut into bands of at most some bytes: along the first axis of which a row of subchunks has no more. No subchunk lies in
// two bands, so an axis before that one has a single index, or subchunks of one.
fn cut_of(
    shape: &[u64],
    shard: &ChunkShape,
    subchunk: &ChunkShape,
    element_size: u64,
    most_bytes: u64,
) -> Cut {
    let mut cut = Cut { axis: 0, step: 1 };
    let chunks = shard.as_slice().iter().zip(subchunk.as_slice());
    for (axis, (count, (shard, subchunk))) in shape.iter().zip(chunks).enumerate() {
        let room = most_bytes / bytes_of_index(shape, axis, element_size).max(1);
        cut = Cut {
            axis,
            step: step_of(room, *shard, *subchunk),
        };
        if *subchunk <= room || (*subchunk > 1 && *count > 1) {
            break;
        }
    }
    cut
}

impl<'a> Bands<'a> {
    /// The bands of a subset of an array, whose shards and subchunks have these shapes and whose elements have a size in bytes: each has at
    /// most `most_bytes`, or is one row of subchunks. A subset without axes is one band, and so is one without elements.
    pub fn new(
        subset: &'a ArraySubset,
        shard: &ChunkShape,
        subchunk: &ChunkShape,
        element_size: u64,
        most_bytes: u64,
    ) -> Self {
        let shape = subset.shape();
        let is_empty = shape.iter().any(|count| *count == 0);
        let cut = if is_empty {
            Cut {
                axis: 0,
                step: u64::MAX,
            }
        } else {
            cut_of(shape, shard, subchunk, element_size, most_bytes)
        };
        Bands { subset, cut }
    }

    // Where the axis that is cut begins and ends, and where the first band would begin if it were whole.
    fn axis(&self) -> (u64, u64, u64) {
        let Cut { axis, step } = self.cut;
        match (self.subset.start().get(axis), self.subset.shape().get(axis)) {
            (Some(start), Some(count)) => {
                let before = start.checked_rem(step).unwrap_or(0);
                let end = start.saturating_add(*count);
                (*start, end, start.saturating_sub(before))
            }
            _ => (0, 1, 0),
        }
    }

    // How many bands there are at each index of the axes before the one that is cut, at least one.
    fn along(&self) -> u64 {
        let (_, end, whole_start) = self.axis();
        let length = end.saturating_sub(whole_start);
        length.div_ceil(self.cut.step.max(1)).max(1)
    }

    /// How many bands there are, at least one.
    pub fn len(&self) -> u64 {
        let mut bands = self.along();
        for count in self.subset.shape().iter().take(self.cut.axis) {
            bands = bands.saturating_mul(*count);
        }
        bands
    }

    /// How many bytes the elements of a band have at most.
    pub fn most_bytes(&self, element_size: u64) -> u64 {
        let Cut { axis, step } = self.cut;
        let shape = self.subset.shape();
        let count = shape.get(axis).copied().unwrap_or(1);
        bytes_of_index(shape, axis, element_size).saturating_mul(step.min(count))
    }

    // Has a band begin and end where the one with a number among those at the same indices does.
    fn cut_axis(&self, number: u64, starts: &mut [u64], counts: &mut [u64]) {
        let Cut { axis, step } = self.cut;
        let (start, end, whole_start) = self.axis();
        let from = whole_start.saturating_add(number.saturating_mul(step));
        let to = from.saturating_add(step).min(end);
        let from = from.max(start);
        if let (Some(first), Some(count)) = (starts.get_mut(axis), counts.get_mut(axis)) {
            *first = from;
            *count = to.saturating_sub(from);
        }
    }

    /// The band of a number, counted from 0; nothing past the last one.
    pub fn band(&self, alloc: Global, number: u64) -> Result<Option<ArraySubset>, AllocError> {
        let along = self.along();
        let shape = self.subset.shape();
        let before = &shape[..self.cut.axis.min(shape.len())];
        let row = number.checked_div(along).unwrap_or(0);
        let Some(indices) = unravel_index(alloc, row, before)? else {
            return Ok(None);
        };
        let mut starts = Vec::from_slice(alloc, self.subset.start())?;
        let mut counts = Vec::from_slice(alloc, shape)?;
        for ((start, count), index) in starts.iter_mut().zip(counts.iter_mut()).zip(&indices) {
            *start = start.saturating_add(*index);
            *count = 1;
        }
        self.cut_axis(
            number.checked_rem(along).unwrap_or(0),
            &mut starts,
            &mut counts,
        );
        Ok(ArraySubset::new_with_start_shape(starts, counts))
    }
}
