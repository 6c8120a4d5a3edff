// The keys of the chunks of an array.
ghost use Rattle.std.specs.Prelude.{◌≡◌, ◌++◌, IfOk, OnOk, string_bytes};
ghost use Rattle.array_fields.specs.ChunkKeys.{chunk_key, key_with, behind_separators, separator_of};
ghost use Rattle.parts_errors.specs.Words.{Bytes};

use std::alloc::{AllocError, Global};

/// How a chunk's key is made (Zarr V3 core, "Chunk key encoding").
#[derive(Debug, Clone, Copy, PartialEq, Eq)]
pub enum KeyEncoding {
    /// `c`, and behind it each coordinate behind a separator.
    Default,
    /// The coordinates with a separator between; `0` where there are none.
    V2,
}

/// The keys of the chunks of an array.
#[derive(Debug, Clone, Copy, PartialEq, Eq)]
pub struct ChunkKeys {
    pub encoding: KeyEncoding,
    /// Whether the separator is `/`; else it is `.`.
    pub slashes: bool,
}

// Writes numbers at the end of a text, each behind a separator.
fn push_numbers(
    alloc: Global,
    key: &mut String,
    separator: &str,
    numbers: &[u64],
) -> Result<(), AllocError>
    ensures { OnOk result (string_bytes key.new ≡ string_bytes key.old ++ behind_separators separator.now numbers.now) }
{
    for number in numbers {
        key.push_str(separator)?;
        key.push_str(format!(in alloc; "{number}")?.as_str())?;
    }
    Ok(())
}

// What a key begins with, and the coordinates that are left to write.
fn begun<'c>(
    alloc: Global,
    encoding: KeyEncoding,
    coordinates: &'c [u64],
) -> Result<(String, &'c [u64]), AllocError>
    ensures { IfOk result (λ begun. (separator : Bytes) → string_bytes begun.0 ++ behind_separators separator begun.1.now ≡ key_with encoding separator coordinates.entry.now) }
{
    match (encoding, coordinates.split_first()) {
        (KeyEncoding::Default, _) => Ok((String::from_str(alloc, "c")?, coordinates)),
        (KeyEncoding::V2, None) => Ok((String::from_str(alloc, "0")?, coordinates)),
        (KeyEncoding::V2, Some((first, rest))) => Ok((format!(in alloc; "{first}")?, rest)),
    }
}

impl ChunkKeys {
    // The separator of coordinates.
    fn separator(&self) -> &'static str
        ensures { result.now ≡ separator_of self.now.slashes }
    {
        if self.slashes { "/" } else { "." }
    }

    /// The key of the chunk with these coordinates in the chunk grid: `c/0/1`, `c.0.1`, `0/1` or `0.1`; without axes `c` or `0`.
    pub fn key_of(&self, alloc: Global, coordinates: &[u64]) -> Result<String, AllocError>
        ensures { IfOk result (λ key. string_bytes key ≡ chunk_key self.now coordinates.now) }
    {
        let (mut key, rest) = begun(alloc, self.encoding, coordinates)?;
        push_numbers(alloc, &mut key, self.separator(), rest)?;
        Ok(key)
    }
}
