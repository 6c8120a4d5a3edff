// What becomes of another codec's refusal of stored bytes.
ghost use Rattle.std.specs.Prelude.{◌≡◌};
ghost use Rattle.sharding_format.specs.DecodeRefusals.{stored_refusal};

use parts_errors::CodecError;

/// What becomes of another codec's refusal of stored bytes: refused memory, sizes and faults are passed on, and all else is
/// damage.
pub fn of_stored(error: CodecError) -> CodecError
    ensures { result ≡ stored_refusal error }
{
    match error {
        CodecError::OutOfMemory => CodecError::OutOfMemory,
        CodecError::TooLarge => CodecError::TooLarge,
        CodecError::Fault => CodecError::Fault,
        _ => CodecError::Damaged,
    }
}
