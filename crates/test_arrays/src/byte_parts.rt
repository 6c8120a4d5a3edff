// Elements in the other byte order; the numbers are counted by hand.
use crate::compared::same;
use array_codecs::reversed_parts;

#[test]
fn parts_are_reversed(rt: HostRuntime) {
    let reversed = reversed_parts(rt.alloc(), &[1, 2, 3, 4], 2).expect(&rt, "refused");
    same(&rt, reversed.as_slice(), [2, 1, 4, 3].as_slice());
}
