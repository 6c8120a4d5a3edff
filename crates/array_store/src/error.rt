// Why a call on an array is refused, and where.
use parts_errors::CodecError;
use std::alloc::AllocError;
use thiserror::Error;

/// Why a call on an array is refused.
#[derive(Debug, Drop, Error)]
pub enum ArrayError {
    /// The subset, the array itself, or memory.
    #[error("{0}")]
    Whole(CodecError),
    /// A chunk, by its key.
    #[error("{key}: {error}")]
    Chunk { key: String, error: CodecError },
}

/// Why a write of a subset is refused, and how far it came.
#[derive(Debug, Drop, Error)]
#[error("{error}")]
pub struct WriteError {
    /// The chunks that were written before, by their numbers in the chunk grid: the first of those that the subset meets, ascending.
    pub written: Vec<u64>,
    pub error: ArrayError,
}

impl From<CodecError> for ArrayError {
    ghost use Rattle.std.specs.Prelude.{◌≡◌};
    ghost use Rattle.array_store.specs.declared.error.ArrayError.TheVariants.{Whole};

    ghost from_gives = { λ error refusal. refusal ≡ Whole error };

    fn from(error: CodecError) -> ArrayError {
        ArrayError::Whole(error)
    }
}

impl From<AllocError> for ArrayError {
    ghost use Rattle.std.specs.Prelude.{◌≡◌};
    ghost use Rattle.parts_errors.specs.declared.error.CodecError.TheVariants.{OutOfMemory};
    ghost use Rattle.array_store.specs.declared.error.ArrayError.TheVariants.{Whole};

    ghost from_gives = { λ _ refusal. refusal ≡ Whole OutOfMemory };

    fn from(_error: AllocError) -> ArrayError {
        ArrayError::Whole(CodecError::OutOfMemory)
    }
}
