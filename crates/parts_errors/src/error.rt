// The reasons to refuse a call.
ghost use Rattle.std.specs.Prelude.{◌≡◌};
ghost use Rattle.parts_errors.specs.Errors.{error_number, error_name};

use std::alloc::{AllocError, AllocFailed};
use std::error::Error;
use std::fmt;

/// Why a call was refused. The numbers are those that `shard_tool` prints.
#[derive(Debug, Clone, Copy, PartialEq, Eq)]
pub enum CodecError {
    /// 1: a growth was refused.
    OutOfMemory,
    /// 2: a count passes `u64::MAX`, a size passes `usize::MAX`, or an object would reach it.
    TooLarge,
    /// 3: numbers of axes differ.
    IncompatibleDimensionality,
    /// 4: a coordinate, a subset's end, a range or an interval lies outside.
    OutOfBounds,
    /// 5: another number of elements than asked.
    InvalidNumberOfElements,
    /// 6: the shape is not divided evenly into subchunks.
    InvalidSubchunkShape,
    /// 7: an object is shorter than its index.
    ShardTooShort,
    /// 8: the index codec's output is not of fixed size.
    VariableIndexSize,
    /// 9: a bad pair of the index, by its subchunk's number.
    BadIndexEntry { number: u64 },
    /// 10: a type that the codec does not serve.
    UnsupportedDataType,
    /// 11: the fill value does not fit the fixed type.
    BadFillValue,
    /// 12: fixed for variable elements, variable for fixed, or another element size.
    WrongElementKind,
    /// 13: a write by another indexer than a subset.
    UnsupportedIndexer,
    /// 14: an encoder refused the elements.
    CannotEncode,
    /// 15: stored bytes that do not decode.
    Damaged,
    /// 16: the handle failed.
    Fault,
    /// 17: a writing call failed before.
    SessionFailed,
}

impl CodecError {
    /// The number of a refusal, 1 to 17.
    pub fn number(&self) -> u8
        ensures { result ≡ error_number self.now }
    {
        match self {
            CodecError::OutOfMemory => 1,
            CodecError::TooLarge => 2,
            CodecError::IncompatibleDimensionality => 3,
            CodecError::OutOfBounds => 4,
            CodecError::InvalidNumberOfElements => 5,
            CodecError::InvalidSubchunkShape => 6,
            CodecError::ShardTooShort => 7,
            CodecError::VariableIndexSize => 8,
            CodecError::BadIndexEntry { number: _ } => 9,
            CodecError::UnsupportedDataType => 10,
            CodecError::BadFillValue => 11,
            CodecError::WrongElementKind => 12,
            CodecError::UnsupportedIndexer => 13,
            CodecError::CannotEncode => 14,
            CodecError::Damaged => 15,
            CodecError::Fault => 16,
            CodecError::SessionFailed => 17,
        }
    }

    /// The name of a refusal; that of a bad pair of the index does not say which.
    pub fn name(&self) -> &'static str
        ensures { result.now ≡ error_name self.now }
    {
        match self {
            CodecError::OutOfMemory => "OutOfMemory",
            CodecError::TooLarge => "TooLarge",
            CodecError::IncompatibleDimensionality => "IncompatibleDimensionality",
            CodecError::OutOfBounds => "OutOfBounds",
            CodecError::InvalidNumberOfElements => "InvalidNumberOfElements",
            CodecError::InvalidSubchunkShape => "InvalidSubchunkShape",
            CodecError::ShardTooShort => "ShardTooShort",
            CodecError::VariableIndexSize => "VariableIndexSize",
            CodecError::BadIndexEntry { number: _ } => "BadIndexEntry",
            CodecError::UnsupportedDataType => "UnsupportedDataType",
            CodecError::BadFillValue => "BadFillValue",
            CodecError::WrongElementKind => "WrongElementKind",
            CodecError::UnsupportedIndexer => "UnsupportedIndexer",
            CodecError::CannotEncode => "CannotEncode",
            CodecError::Damaged => "Damaged",
            CodecError::Fault => "Fault",
            CodecError::SessionFailed => "SessionFailed",
        }
    }
}

impl fmt::Display for CodecError {
    fn fmt<W: fmt::Write>(&self, f: &mut fmt::Formatter<W>) -> fmt::Result {
        match self {
            CodecError::BadIndexEntry { number } => write!(f, "BadIndexEntry {number}"),
            _ => f.write_str(self.name()),
        }
    }
}

impl Error for CodecError {}

impl From<AllocError> for CodecError {
    ghost use Rattle.std.specs.Prelude.{◌≡◌};
    ghost use Rattle.parts_errors.specs.declared.error.CodecError.TheVariants.{OutOfMemory};

    ghost from_gives = { λ _ error. error ≡ OutOfMemory };

    fn from(_error: AllocError) -> CodecError {
        CodecError::OutOfMemory
    }
}

impl<T: Drop> From<AllocFailed<T>> for CodecError {
    ghost use Rattle.std.specs.Prelude.{◌≡◌};
    ghost use Rattle.parts_errors.specs.declared.error.CodecError.TheVariants.{OutOfMemory};

    ghost from_gives = { λ _ error. error ≡ OutOfMemory };

    fn from(_error: AllocFailed<T>) -> CodecError {
        CodecError::OutOfMemory
    }
}
