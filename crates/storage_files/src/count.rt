// A count that only clauses read.
ghost use Rattle.std.specs.Prelude.{◌≡◌, ℕ, ◌+◌};
ghost use Rattle.std.specs.Borrow.{ftrue};

use std::marker::{Model, PhantomData};

// A count with no upper bound. It takes no memory.
#[derive(Drop)]
pub struct Count {
    marker: PhantomData<u8>,
    pub ghost value: { ℕ },
}

impl Model for Count {
    ghost also_owns = { λ _. ftrue };
}

impl Count {
    // A count of 0.
    pub fn new() -> Count
        ensures { result.value ≡ 0 }
    {
        Count {
            marker: PhantomData,
        }
    }

    // Counts one more.
    pub fn raise(&mut self)
        ensures { self.new.value ≡ self.old.value + 1 }
    {}
}
