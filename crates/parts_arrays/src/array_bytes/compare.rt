// When two arrays are equal: by their kind and elements, whether borrowed or owned.
ghost use Rattle.std.specs.Prelude.{◌≡◌, IsTrue, ◌↔◌};
ghost use Rattle.std.proofs.Common.{rules};
ghost use Rattle.std.specs.Cmp.Rules.{comparing};
ghost use Rattle.parts_arrays.specs.Arrays.{held_layout, same_array};

use super::{ArrayBytes, Held};

// Whether elements lie among their bytes in one way.
fn same_layout(a: &Held, b: &Held) -> bool
    ensures { IsTrue result ↔ (held_layout a.now ≡ held_layout b.now) }
{
    match (a, b) {
        (Held::Fixed(a), Held::Fixed(b)) => a == b,
        (Held::Variable(a), Held::Variable(b)) => a == b,
        _ => false,
    }
}

impl PartialEq for ArrayBytes<'_> {
    ghost eq = { same_array };

    ghost laws = { Prim.search (comparing, rules) depth 9 };

    fn eq(&self, other: &Self) -> bool {
        same_layout(&self.held, &other.held) && self.bytes.as_slice() == other.bytes.as_slice()
    }
}

impl Eq for ArrayBytes<'_> {
    ghost laws = { Prim.search (comparing, rules) depth 9 };
}
