// How many chunks an array has.
use std::alloc::{AllocError, Global};

/// The chunk grid of an array: how many chunks there are along each axis. The last one may reach beyond the array.
#[derive(Debug, Drop)]
pub struct ChunkGrid {
    counts: Vec<u64>,
}

// Multiplies a number, of which these are the decimal digits, the last one first.
fn multiply(digits: &mut Vec<u8>, factor: u64) -> Result<(), AllocError> {
    // never more than a factor of 64 bits, so that no sum wraps
    let mut carry = 0u128;
    for digit in digits.iter_mut() {
        let product = u128::from(*digit)
            .wrapping_mul(u128::from(factor))
            .wrapping_add(carry);
        *digit = (product % 10) as u8;
        carry = product / 10;
    }
    for _ in 0..20 {
        if carry == 0 {
            break;
        }
        digits.push((carry % 10) as u8)?;
        carry /= 10;
    }
    Ok(())
}

impl ChunkGrid {
    /// The chunk grid of an array of a shape, whose chunks have a shape of as many axes.
    pub fn new(alloc: Global, shape: &[u64], chunk: &[u64]) -> Result<Self, AllocError> {
        let mut counts: Vec<u64> = Vec::new(alloc);
        for (elements, size) in shape.iter().zip(chunk) {
            counts.push(elements.div_ceil((*size).max(1)))?;
        }
        Ok(ChunkGrid { counts })
    }

    /// How many chunks there are along each axis.
    pub fn counts(&self) -> &[u64] {
        &self.counts
    }

    /// How many chunks there are, in decimal digits. No number of them is too large.
    pub fn count(&self, alloc: Global) -> Result<String, AllocError> {
        if self.counts.contains(&0) {
            return String::from_str(alloc, "0");
        }
        let mut digits = vec![in alloc; 1u8]?;
        for count in self.counts.iter() {
            multiply(&mut digits, *count)?;
        }
        let mut text = String::new(alloc);
        for digit in digits.iter().rev() {
            text.push(char::from(b'0'.wrapping_add(*digit)))?;
        }
        Ok(text)
    }
}
