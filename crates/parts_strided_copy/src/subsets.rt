// A subset of elements, copied from one array into a subset of another.
ghost use Rattle.std.specs.Prelude.{◌≡◌, ◌*◌, ◌<◌, length};
ghost use Rattle.parts_row_major.specs.Numbering.{count_of};
ghost use Rattle.parts_row_major.specs.Subsets.{number_in, IsSubset, IsServed};
ghost use Rattle.parts_row_major.specs.Pieces.{piece, IsUpdated};
ghost use Rattle.parts_row_major.specs.Runs.{AreSubsetRows};

use crate::rows::{Rows, copy_rows};
use parts_subsets::{ArraySubset, SubsetRows};

// The rows of two subsets of as many elements, each subset in an array of its own: how many elements a run and how many runs a set has,
// how many sets there are, and how far apart the runs of a set begin in either array.
#[derive(Clone, Copy)]
struct BothRows {
    run: u64,
    rows: u64,
    sets: u64,
    into: u64,
    from: u64,
}

// The rows of a subset whose runs lie end to end in the other.
fn rows_end_to_end(set: SubsetRows) -> BothRows
    ensures { result ≡ record { run = set.run; rows = set.rows; sets = set.sets; into = set.run; from = set.run } }
{
    BothRows {
        run: set.run,
        rows: set.rows,
        sets: set.sets,
        into: set.run,
        from: set.run,
    }
}

// Rows that both subsets have: those of the one whose runs are the shorter ones, which lie end to end in the runs of the other.
// Subsets of one shape always have such rows; others go element by element.
fn both_rows(into: &ArraySubset, shape: &[u64], from: &ArraySubset, other: &[u64]) -> BothRows
    requires served { IsServed into.now shape.now }
    requires other_served { IsServed from.now other.now }
    requires same { count_of from.now.shape ≡ count_of into.now.shape }
    ensures into { AreSubsetRows into.now shape.now result.run result.rows result.into result.sets }
    ensures from { AreSubsetRows from.now other.now result.run result.rows result.from result.sets }
    ensures well_formed { IsSubset into.now.start into.now.shape }
    ensures other_well_formed { IsSubset from.now.start from.now.shape }
{
    let a = into.rows_in(shape);
    let b = from.rows_in(other);
    let one = SubsetRows {
        run: 1,
        rows: 1,
        stride: 1,
        sets: 0,
    };
    if a.sets == 0 || b.sets == 0 {
        return rows_end_to_end(one);
    }
    let (of_a, of_b) = (a.rows * a.run, b.rows * b.run);
    if a.run == b.run && a.rows == b.rows {
        let both = rows_end_to_end(a);
        return BothRows {
            into: a.stride,
            from: b.stride,
            ..both
        };
    }
    if a.run % of_b == 0 {
        let both = rows_end_to_end(b);
        return BothRows {
            from: b.stride,
            ..both
        };
    }
    if b.run % of_a == 0 {
        let both = rows_end_to_end(a);
        return BothRows {
            into: a.stride,
            ..both
        };
    }
    rows_end_to_end(SubsetRows {
        sets: a.sets * of_a,
        ..one
    })
}

/// Copies the elements at the points of a subset of one array to the points of a subset of another, which has as many, both in row-major
/// order. Takes no memory.
pub fn copy_subset(
    output: &mut [u8],
    size: usize,
    into: &ArraySubset,
    shape: &[u64],
    update: &[u8],
    from: &ArraySubset,
    other: &[u64],
)
    requires some { 0 < size }
    requires served { IsServed into.now shape.now }
    requires other_served { IsServed from.now other.now }
    requires same { count_of from.now.shape ≡ count_of into.now.shape }
    requires whole { length output.old ≡ count_of shape.now * size }
    requires whole_update { length update.now ≡ count_of other.now * size }
    ensures { IsUpdated (count_of into.now.shape) (number_in into.now shape.now) (piece size output.old)
        (λ k. piece size update.now (number_in from.now other.now k)) (piece size output.new) }
{
    let set = both_rows(into, shape, from, other);
    let each = set.rows * set.run;
    let mut starts = into.set_starts(shape, each, set.sets);
    let mut others = from.set_starts(other, each, set.sets);
    for q in 0..set.sets {
        let to = Rows {
            first: starts.next_start() as usize,
            stride: set.into as usize,
        };
        let taken = Rows {
            first: others.next_start() as usize,
            stride: set.from as usize,
        };
        copy_rows(
            output,
            size,
            to,
            update,
            taken,
            set.rows as usize,
            set.run as usize,
        );
    }
}
