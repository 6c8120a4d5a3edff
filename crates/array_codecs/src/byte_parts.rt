// Bytes in parts, each of which stands in reverse.
ghost use Rattle.std.specs.Prelude.{◌≡◌, ◌<◌, IfOk, slice_index};
ghost use Rattle.array_codecs.specs.ReversedParts.{mirrored, parts_reversed};

use std::alloc::{AllocError, Global};

// The byte that comes to a place where each part of a size is reversed.
fn mirrored_byte(bytes: &[u8], size: usize, i: usize) -> u8
    requires { 0 < size }
    ensures { result ≡ slice_index bytes.now (mirrored size i) }
{
    let place = (i - i % size).saturating_add(size - 1 - i % size);
    bytes.get(place).copied().unwrap_or(0)
}

/// Bytes in parts of a size, each in reverse: as elements of this size in the other byte order.
pub fn reversed_parts(alloc: Global, bytes: &[u8], size: usize) -> Result<Vec<u8>, AllocError>
    requires { 0 < size }
    ensures { IfOk result (λ reversed. reversed.items ≡ parts_reversed size bytes.now) }
{
    let mut reversed = Vec::with_capacity(alloc, bytes.len())?;
    for i in 0..bytes.len() {
        reversed.push(mirrored_byte(bytes, size, i))?;
    }
    Ok(reversed)
}
