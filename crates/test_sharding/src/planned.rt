// Reads carried out as their plans say, of shards of elements of one byte whose inner codec is `bytes` and whose fill value is 0.
use crate::chances::Chance;
use crate::shards::shape_of;
use sharding_format::Slot;
use sharding_plans::{IndexNumbers, Part, PlannedShard, ReadPart, fill_part, put_part};
use std::alloc::Global;
use std::process::Abort;
use zarr_parts::{ArraySubset, ChunkShape, CodecError};

// The grid of a shard.
pub(crate) struct Layout {
    grid: PlannedShard,
    subchunk_shape: ChunkShape,
}

impl Drop for Layout {
    fn drop(self) {
        let Layout {
            grid: _,
            subchunk_shape: _,
        } = self;
    }
}

// The bytes of a shard, and the numbers of its index.
#[derive(Clone, Copy)]
pub(crate) struct Object<'a> {
    pub(crate) bytes: &'a [u8],
    pub(crate) numbers: &'a [u64],
}

impl Layout {
    pub(crate) fn new<R: Abort>(rt: &R, alloc: Global, shape: &[u64], sub: &[u64]) -> Self {
        let grid = PlannedShard::new(alloc, shape_of(rt, alloc, shape), shape_of(rt, alloc, sub));
        Layout {
            grid: grid.expect(rt, "refused"),
            subchunk_shape: shape_of(rt, alloc, sub),
        }
    }

    // Puts a part into an answer, as it is stored.
    fn put(
        &self,
        answer: &mut [u8],
        subset: &ArraySubset,
        part: &ReadPart,
        bytes: &[u8],
    ) -> Result<(), CodecError> {
        let into = Part {
            shape: subset.shape(),
            subset: &part.overlap.in_subset,
        };
        let from = Part {
            shape: self.subchunk_shape.as_slice(),
            subset: &part.overlap.in_subchunk,
        };
        match part.slot {
            Slot::InRange { offset, size } => {
                let slice = bytes.get(offset as usize..offset.saturating_add(size) as usize);
                put_part(answer, &into, slice.unwrap_or(&[]), &from, 1)
            }
            Slot::Absent | Slot::Bad => fill_part(answer, &into, &[0]),
        }
    }

    // The elements of a subset, whose subchunks are decoded in an order by chance.
    pub(crate) fn read<R: Abort>(
        &self,
        rt: &R,
        alloc: Global,
        object: &Object,
        subset: &ArraySubset,
        chance: &mut Chance,
    ) -> Result<Vec<u8>, CodecError> {
        let index = IndexNumbers {
            len: object.bytes.len() as u64,
            numbers: object.numbers,
        };
        let plan = self.grid.plan_read(alloc, &index, subset)?;
        let size = subset.num_elements().unwrap_or(0) as usize;
        let mut answer = vec![in alloc; 77u8; size].expect(rt, "refused");
        for j in chance.order(rt, alloc, plan.parts.len()).iter() {
            if let Some(part) = plan.parts.get(*j) {
                self.put(&mut answer, subset, part, object.bytes)?;
            }
        }
        Ok(answer)
    }
}
