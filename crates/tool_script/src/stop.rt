// Why a script ends before its input does.
use crate::reason::{Mistake, Reason};
use hex::FromHexError;
use std::alloc::{AllocError, AllocFailed};
use std::io;

/// Why a script ends before its input does.
#[derive(Clone, Copy)]
pub enum Stop<'a> {
    /// A line that is no command's, and why.
    Malformed(Reason<'a>),
    /// A fault of reading or writing, or a growth of the script's own that was refused.
    Failed,
}

impl<'a> Stop<'a> {
    ghost use Rattle.std.specs.Prelude.{◌≡◌, ◌≢◌};
    ghost use Rattle.tool_script.specs.declared.stop.Stop.TheVariants.{Failed};
    ghost use Rattle.tool_script.specs.Script.{status_of};

    /// A line with this mistake, which a text of it shows.
    pub fn malformed(mistake: Mistake, text: &'a [u8]) -> Self
        ensures { result ≢ Failed }
    {
        Stop::Malformed(Reason { mistake, text })
    }

    /// The status that the program ends with.
    pub fn status(self) -> u8
        ensures { result ≡ status_of self.entry }
    {
        match self {
            Stop::Malformed(_) => 2,
            Stop::Failed => 1,
        }
    }
}

impl<'a> From<AllocError> for Stop<'a> {
    ghost use Rattle.std.specs.Prelude.{◌≡◌};
    ghost use Rattle.tool_script.specs.declared.stop.Stop.TheVariants.{Failed};

    ghost from_gives = { λ _ stop. stop ≡ Failed };

    fn from(_error: AllocError) -> Stop<'a> {
        Stop::Failed
    }
}

impl<'a, T: Drop> From<AllocFailed<T>> for Stop<'a> {
    ghost use Rattle.std.specs.Prelude.{◌≡◌};
    ghost use Rattle.tool_script.specs.declared.stop.Stop.TheVariants.{Failed};

    ghost from_gives = { λ _ stop. stop ≡ Failed };

    fn from(_error: AllocFailed<T>) -> Stop<'a> {
        Stop::Failed
    }
}

impl<'a> From<io::Error> for Stop<'a> {
    ghost use Rattle.std.specs.Prelude.{◌≡◌};
    ghost use Rattle.tool_script.specs.declared.stop.Stop.TheVariants.{Failed};

    ghost from_gives = { λ _ stop. stop ≡ Failed };

    fn from(_error: io::Error) -> Stop<'a> {
        Stop::Failed
    }
}

impl<'a> From<FromHexError> for Stop<'a> {
    ghost use Rattle.std.specs.Prelude.{◌≡◌, ◌↔◌};
    ghost use Rattle.hex.specs.declared.error.FromHexError.TheVariants.{OutOfMemory};
    ghost use Rattle.tool_script.specs.declared.stop.Stop.TheVariants.{Failed};

    ghost from_gives = { λ error stop. (stop ≡ Failed) ↔ (error ≡ OutOfMemory) };

    fn from(error: FromHexError) -> Stop<'a> {
        match error {
            FromHexError::OutOfMemory => Stop::Failed,
            _ => Stop::malformed(Mistake::NoBytes, b""),
        }
    }
}
