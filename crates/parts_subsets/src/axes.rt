// The numbers of a shape or of a subset, one for each axis.
ghost use Rattle.std.specs.Prelude.{◌≡◌, [], ◌∷◌, ◌++◌, IfOk, OnOk, length, replicate};

use std::alloc::{AllocError, Global};
use std::fmt;
use std::marker::Model;
use std::ops::DerefSlice;

/// One number for each axis: up to four in the value itself, more of them in memory of their own.
pub struct Axes {
    few: [u64; 4],
    // how many of the few are held
    len: usize,
    // all numbers, or none where they are few
    many: Vec<u64>,
}

impl Drop for Axes {
    fn drop(self) {
        let Axes {
            few: _,
            len: _,
            many: _,
        } = self;
    }
}

impl Model for Axes {
    ghost use Rattle.std.specs.Prelude.{◌≤◌};
    ghost use Rattle.parts_subsets.specs.Axes.{Numbers, numbers_held};

    ghost Value = { Numbers };

    ghost view = { λ axes. record { items = numbers_held axes.few axes.len axes.many.items } };

    ghost invariant = { λ axes. axes.len ≤ 4 };
}

impl DerefSlice for Axes {
    type Elem = u64;

    ghost deref_gives = { λ axes numbers. numbers ≡ axes.items };

    fn deref(&self) -> &[u64] {
        self.as_slice()
    }
}

impl fmt::Debug for Axes {
    fn fmt<W: fmt::Write>(&self, f: &mut fmt::Formatter<W>) -> fmt::Result {
        f.debug_list().entries(self.as_slice()).finish()
    }
}

impl Axes {
    /// No axes. Takes no memory.
    pub fn new(alloc: Global) -> Self
        ensures { result.items ≡ [] }
    {
        Axes::from_vec(Vec::new(alloc))
    }

    /// The numbers of a vector, which is kept.
    pub fn from_vec(many: Vec<u64>) -> Self
        ensures { result.items ≡ many.items }
    {
        Axes {
            few: [0; 4],
            len: 0,
            many,
        }
    }

    /// The numbers of a slice. Refused only as out of memory, and only where they are more than four.
    pub fn from_slice(alloc: Global, numbers: &[u64]) -> Result<Self, AllocError>
        ensures { IfOk result (λ axes. axes.items ≡ numbers.now) }
    {
        let len = numbers.len();
        if len > 4 {
            return Ok(Axes::from_vec(Vec::from_slice(alloc, numbers)?));
        }
        let mut few = [0; 4];
        few[..len].copy_from_slice(numbers);
        let many = Vec::new(alloc);
        Ok(Axes { few, len, many })
    }

    /// The same number for each of so many axes. Refused only as out of memory, and only where they are more than four.
    pub fn from_elem(alloc: Global, number: u64, len: usize) -> Result<Self, AllocError>
        ensures { IfOk result (λ axes. axes.items ≡ replicate len number) }
    {
        if len > 4 {
            return Ok(Axes::from_vec(Vec::from_elem(alloc, number, len)?));
        }
        let many = Vec::new(alloc);
        Ok(Axes {
            few: [number; 4],
            len,
            many,
        })
    }

    /// The numbers in order of the axes.
    pub fn as_slice(&self) -> &[u64]
        ensures { result.now ≡ self.now.items }
    {
        if self.many.is_empty() {
            &self.few[..self.len]
        } else {
            &self.many
        }
    }

    /// How many axes there are.
    pub fn len(&self) -> usize
        ensures { result ≡ length self.now.items }
    {
        self.as_slice().len()
    }

    /// Adds a number for one more axis. Refused only as out of memory, and only past four.
    pub fn push(&mut self, number: u64) -> Result<(), AllocError>
        ensures ok { OnOk result (self.new.items ≡ self.old.items ++ number ∷ []) }
    {
        if !self.many.is_empty() {
            self.many.push(number)?;
            return Ok(());
        }
        if self.len < 4 {
            self.few[self.len] = number;
            self.len += 1;
            return Ok(());
        }
        self.many.extend_from_slice(&self.few)?;
        self.many.push(number)?;
        Ok(())
    }
}
