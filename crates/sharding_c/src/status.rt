// The statuses that calls answer.
ghost use Rattle.std.specs.Prelude.{◌≡◌};
ghost use Rattle.sharding_c.specs.Statuses.{status_of, status_name, told_after, changed_after};

use crate::layout::{Change, Told};
use parts_errors::CodecError;

/// Why a call was refused: as the codec refuses, or as this library alone does.
#[derive(Clone, Copy)]
pub enum Refusal {
    Codec(CodecError),
    /// What is to be written needs room for `room` numbers.
    RoomTooSmall { room: u64 },
    /// The flags of a layout have no meaning.
    BadFlags,
}

impl Refusal {
    /// The status of a refusal: the number of the codec's refusal, 64, or 65.
    pub(crate) fn status(&self) -> u32
        ensures { result ≡ status_of self.now }
    {
        match self {
            Refusal::Codec(error) => error.number() as u32,
            Refusal::RoomTooSmall { room: _ } => 64,
            Refusal::BadFlags => 65,
        }
    }

    /// Tells what a refused call needs.
    pub(crate) fn tell(&self, told: &mut Told)
        ensures { told.new ≡ told_after self.now told.old }
    {
        match self {
            Refusal::RoomTooSmall { room } => told.room = *room,
            _ => {}
        }
    }
}

impl Refusal {
    /// Tells what a refused change needs, or the subchunk whose index entry is bad.
    pub(crate) fn tell_change(&self, change: &mut Change)
        ensures { change.new ≡ changed_after self.now change.old }
    {
        match self {
            Refusal::RoomTooSmall { room } => change.room = *room,
            Refusal::Codec(CodecError::BadIndexEntry { number }) => change.subchunk = *number,
            _ => {}
        }
    }
}

impl From<CodecError> for Refusal {
    ghost use Rattle.std.specs.Prelude.{◌≡◌};
    ghost use Rattle.sharding_c.specs.declared.status.Refusal.TheVariants.{Codec};

    ghost from_gives = { λ error refusal. refusal ≡ Codec error };

    fn from(error: CodecError) -> Refusal {
        Refusal::Codec(error)
    }
}

/// The name of a status.
pub(crate) fn name_of(status: u32) -> &'static str
    ensures { result.now ≡ status_name status }
{
    match status {
        0 => "Ok",
        1 => "OutOfMemory",
        2 => "TooLarge",
        3 => "IncompatibleDimensionality",
        4 => "OutOfBounds",
        5 => "InvalidNumberOfElements",
        6 => "InvalidSubchunkShape",
        7 => "ShardTooShort",
        8 => "VariableIndexSize",
        9 => "BadIndexEntry",
        10 => "UnsupportedDataType",
        11 => "BadFillValue",
        12 => "WrongElementKind",
        13 => "UnsupportedIndexer",
        14 => "CannotEncode",
        15 => "Damaged",
        16 => "Fault",
        17 => "SessionFailed",
        64 => "RoomTooSmall",
        65 => "BadFlags",
        _ => "Unknown",
    }
}
