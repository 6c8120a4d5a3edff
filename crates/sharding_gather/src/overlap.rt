// Where a subset and a subchunk that it touches meet.
ghost use Rattle.std.specs.Prelude.{◌≡◌, ◌+◌, ◌-◌, ◌^◌, ◌<◌, max, min, IfOk, IfErr, length};
ghost use Rattle.parts_row_major.specs.Numbering.{count_of};
ghost use Rattle.parts_row_major.specs.Subsets.{IsSubset, LiesIn};
ghost use Rattle.parts_subsets.specs.Overlaps.{overlap_of, relative_subset};
ghost use Rattle.parts_subsets.specs.Grid.{Divides, grid_of, grid_subset};
ghost use Rattle.parts_subsets.specs.Touched.{Touches};
ghost use Rattle.parts_errors.specs.declared.error.CodecError.TheVariants.{OutOfMemory};
ghost use Rattle.sharding_gather.specs.SubchunkOverlaps.{IsSubchunkOverlap};

use parts_errors::CodecError;
use parts_row_major::number_along;
use parts_subsets::{ArraySubset, Axes, ChunkShape};
use std::alloc::{AllocError, Global};

/// The cells that a subset and a subchunk both have, seen from the subchunk's start and from the subset's.
#[derive(Drop)]
pub struct SubchunkOverlap {
    pub in_subchunk: ArraySubset,
    pub in_subset: ArraySubset,
}

// What a subset and a subchunk both have along an axis: the first as either counts it, and how many there are.
#[derive(Clone, Copy)]
pub(crate) struct Span {
    pub in_subchunk: u64,
    pub in_subset: u64,
    pub len: u64,
}

// What a subset and a subchunk both have along each axis.
#[derive(Drop)]
struct Spans {
    in_subchunk: Axes,
    in_subset: Axes,
    lengths: Axes,
}

// What a range of a subset and one of a subchunk both have.
pub(crate) fn span_of(start: u64, len: u64, origin: u64, part: u64) -> Span
    requires fits { start + len < 2 ^ 64 }
    requires part_fits { origin + part < 2 ^ 64 }
    ensures in_subchunk { result.in_subchunk ≡ max start origin - origin }
    ensures in_subset { result.in_subset ≡ max start origin - start }
    ensures len { result.len ≡ min (start + len) (origin + part) - max start origin }
{
    let first = start.max(origin);
    let end = (start + len).min(origin + part);
    Span {
        in_subchunk: first - origin,
        in_subset: first - start,
        len: end.saturating_sub(first),
    }
}

// What a subset and a subchunk of a grid both have.
fn spans_of(
    alloc: Global,
    number: u64,
    start: &[u64],
    len: &[u64],
    grid: &[u64],
    sub: &[u64],
) -> Result<Spans, AllocError>
    requires well_formed { IsSubset start.now len.now }
    requires below { number < count_of grid.now }
    requires axes { length start.now ≡ length sub.now }
    requires grid_axes { length grid.now ≡ length sub.now }
    requires fits { IsSubset (grid_subset grid.now sub.now number).start sub.now }
    ensures in_subchunk { let other = grid_subset grid.now sub.now number in let both = overlap_of (record { start = start.now; shape = len.now }) other in
        IfOk result (λ spans. record { start = spans.in_subchunk.items; shape = spans.lengths.items } ≡ relative_subset both other.start) }
    ensures in_subset { let other = grid_subset grid.now sub.now number in let both = overlap_of (record { start = start.now; shape = len.now }) other in
        IfOk result (λ spans. record { start = spans.in_subset.items; shape = spans.lengths.items } ≡ relative_subset both start.now) }
{
    let mut in_subchunk = Axes::new(alloc);
    let mut in_subset = Axes::new(alloc);
    let mut lengths = Axes::new(alloc);
    for axis in 0..sub.len() {
        let origin = number_along(number, grid, axis) * sub[axis];
        let span = span_of(start[axis], len[axis], origin, sub[axis]);
        in_subchunk.push(span.in_subchunk)?;
        in_subset.push(span.in_subset)?;
        lengths.push(span.len)?;
    }
    Ok(Spans {
        in_subchunk,
        in_subset,
        lengths,
    })
}

/// Where a subset meets a subchunk that it touches. Refused only as out of memory.
pub fn subchunk_overlap(
    alloc: Global,
    number: u64,
    subset: &ArraySubset,
    grid: &ChunkShape,
    shape: &ChunkShape,
    sub: &ChunkShape,
) -> Result<SubchunkOverlap, CodecError>
    requires fits { count_of shape.now < 2 ^ 64 }
    requires divides { Divides sub.now shape.now }
    requires grid { grid.now ≡ grid_of shape.now sub.now }
    requires inside { LiesIn subset.now shape.now }
    requires below { number < count_of grid.now }
    requires touches { Touches shape.now sub.now subset.now number }
    ensures refused { IfErr result (λ e. e ≡ OutOfMemory) }
    ensures meets { IfOk result (λ overlap. IsSubchunkOverlap shape.now sub.now subset.now number overlap.in_subchunk overlap.in_subset) }
{
    let _axes = shape.as_slice();
    let Spans {
        in_subchunk,
        in_subset,
        lengths,
    } = spans_of(
        alloc,
        number,
        subset.start(),
        subset.shape(),
        grid.as_slice(),
        sub.as_slice(),
    )?;
    let same_lengths = Axes::from_slice(alloc, &lengths)?;
    let Some(in_subchunk) = ArraySubset::new_with_axes(in_subchunk, same_lengths) else {
        unreachable!()
    };
    let Some(in_subset) = ArraySubset::new_with_axes(in_subset, lengths) else {
        unreachable!()
    };
    Ok(SubchunkOverlap {
        in_subchunk,
        in_subset,
    })
}
