// The elements with given numbers.
ghost use Rattle.std.specs.Prelude.{◌≡◌, ◌<◌, IfOk, All, length, map};
ghost use Rattle.parts_arrays.specs.Arrays.{element_of};

use super::{ArrayBuilder, ArrayBytes};
use std::alloc::{AllocError, Global};

impl ArrayBytes<'_> {
    /// The elements with these row-major numbers, in this order, duplicates kept. Each number is below `len`.
    /// Refused only as out of memory.
    pub fn extract_numbers(
        &self,
        alloc: Global,
        numbers: &[u64],
    ) -> Result<ArrayBytes<'static>, AllocError>
        requires below { All (λ number. number < length self.now.elements) numbers.now }
        ensures { IfOk result (λ part. part ≡ record { kind = self.now.kind; elements = map (element_of self.now) numbers.now }) }
    {
        let mut builder = ArrayBuilder::new(alloc, self.kind())?;
        for number in numbers {
            builder.push(self.element(*number as usize))?;
        }
        Ok(builder.finish())
    }
}
