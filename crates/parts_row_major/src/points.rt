// Where a subset's points lie in an array.
ghost use Rattle.std.specs.Prelude.{◌≡◌, ℕ, ◌+◌, ◌*◌, ◌^◌, ◌<◌, ◌≤◌, List, length};
ghost use Rattle.parts_row_major.specs.Numbering.{count_of};
ghost use Rattle.parts_row_major.specs.Subsets.{IsSubset, IsServed, LiesIn, number_in};

use crate::numbering::count;

/// The number in an array of a shape of a subset's point with the number `i`. Takes no memory.
pub fn number_of_point(start: &[u64], len: &[u64], i: u64, shape: &[u64]) -> u64
    requires well_formed { IsSubset start.now len.now }
    requires inside { LiesIn (record { start = start.now; shape = len.now }) shape.now }
    requires below { i < count_of len.now }
    requires fits { count_of shape.now < 2 ^ 64 }
    ensures value { result ≡ number_in (record { start = start.now; shape = len.now }) shape.now i }
    ensures below { result < count_of shape.now }
{
    let mut rest = i;
    let mut stride = 1;
    let mut number = 0;
    for axis in (0..shape.len()).rev() {
        let index = start[axis] + rest % len[axis];
        number += index * stride;
        rest /= len[axis];
        stride *= shape[axis];
    }
    number
}

/// How many points a subset has that lies in a shape whose count fits 64 bits. Takes no memory.
pub fn points_in(start: &[u64], len: &[u64], shape: &[u64]) -> u64
    requires well_formed { IsSubset start.now len.now }
    requires served { IsServed (record { start = start.now; shape = len.now }) shape.now }
    ensures { result ≡ count_of len.now }
{
    count(len).unwrap()
}
