// Subsets as they stand on a command line.
ghost use Rattle.std.specs.Prelude.{◌≡◌, IfOk, List, length, map};
ghost use Rattle.parts_row_major.specs.Subsets.{subset_of_ranges, LiesIn};
ghost use Rattle.array_grid.specs.Subsets.{is_coordinate, spread, each_picked};
ghost use Rattle.array_grid.specs.declared.words.Word.{Word};

use crate::parsing::parse;
use crate::picking::{Requested, resolve};
use std::alloc::{AllocError, AllocFailed, Global};
use thiserror::Error;

/// Why a subset is refused.
#[derive(Debug, Drop, Error)]
pub enum SubsetError {
    /// A growth was refused.
    #[error("out of memory")]
    OutOfMemory,
    /// A word is none: the word, escaped for a terminal, and its column in the text, of which the first character has column 1.
    #[error("a subset has a word for each axis, as in 0..2,3:5,-1, and \"{word}\" at column {column} is none")]
    Malformed { word: String, column: usize },
    /// The ellipsis stands more than once.
    #[error("\"...\" stands more than once")]
    Ellipses,
    /// It names more axes than there are.
    #[error("the subset names {requested} axes, and the array has {axes}")]
    Axes { requested: usize, axes: usize },
    /// It passes the array of this shape.
    #[error("the subset passes the array, whose shape is {0:?}")]
    Outside(Vec<u64>),
    /// A range starts past its end in the array of this shape.
    #[error("a range starts past its end, in an array whose shape is {0:?}")]
    Backwards(Vec<u64>),
}

impl From<AllocError> for SubsetError {
    ghost use Rattle.std.specs.Prelude.{◌≡◌};
    ghost use Rattle.array_grid.specs.declared.subsets.SubsetError.TheVariants.{OutOfMemory};

    ghost from_gives = { λ _ error. error ≡ OutOfMemory };

    fn from(_error: AllocError) -> SubsetError {
        SubsetError::OutOfMemory
    }
}

impl<T: Drop> From<AllocFailed<T>> for SubsetError {
    ghost use Rattle.std.specs.Prelude.{◌≡◌};
    ghost use Rattle.array_grid.specs.declared.subsets.SubsetError.TheVariants.{OutOfMemory};

    ghost from_gives = { λ _ error. error ≡ OutOfMemory };

    fn from(_error: AllocFailed<T>) -> SubsetError {
        SubsetError::OutOfMemory
    }
}

/// The subset of an array of a shape that a text as `0..2,-1` names, or the whole array: what the words of the text pick of the axes,
/// which stand for as many axes as `resolve` says. Refused as `parse` and `resolve` say.
pub fn subset_of(alloc: Global, text: Option<&str>, shape: &[u64]) -> Result<Requested, SubsetError>
    ensures named { IfOk result (λ found. (words : List Word) × (found.subset ≡ subset_of_ranges (each_picked (spread words (length shape.now)) shape.now)) × (found.dropped.items ≡ map is_coordinate (spread words (length shape.now)))) }
    ensures inside { IfOk result (λ found. LiesIn found.subset shape.now) }
{
    match text {
        Some(text) => resolve(alloc, &parse(alloc, text)?, shape),
        None => resolve(alloc, &[], shape),
    }
}
