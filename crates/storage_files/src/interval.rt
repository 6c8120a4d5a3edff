// Where a range lies in an object of a known length, and where pieces end.
ghost use Rattle.std.specs.Prelude.{◌≡◌, ◌≤◌, ◌<◌, ◌+◌, ◌^◌, [], IfOk, IfErr, OnOk, length};
ghost use Rattle.storage_handles.specs.Writes.{written_all};
ghost use Rattle.storage_files.specs.Files.{RangeFits, range_interval, IsRequestedSize};
ghost use Rattle.parts_errors.specs.declared.error.CodecError.TheVariants.{OutOfBounds, TooLarge};

use parts_errors::CodecError;
use storage_handles::{ByteRange, Interval};

// The interval of a range in an object of so many bytes. Refused as `OutOfBounds` where the range passes it.
pub fn interval_of(range: ByteRange, length: u64) -> Result<Interval, CodecError>
    ensures fits { OnOk result (RangeFits range length) }
    ensures interval { IfOk result (λ i. i ≡ range_interval range length) }
    ensures requested { IfOk result (λ i. IsRequestedSize range i.size) }
    ensures refused { IfErr result (λ e. (e ≡ OutOfBounds) × (¬ (RangeFits range length))) }
{
    match range {
        ByteRange::FromStart(offset, None) => {
            if offset > length {
                return Err(CodecError::OutOfBounds);
            }
            let size = length - offset;
            Ok(Interval { offset, size })
        }
        ByteRange::FromStart(offset, Some(size)) => {
            if offset > length || size > length - offset {
                return Err(CodecError::OutOfBounds);
            }
            Ok(Interval { offset, size })
        }
        ByteRange::Suffix(size) => {
            if size > length {
                return Err(CodecError::OutOfBounds);
            }
            let offset = length - size;
            Ok(Interval { offset, size })
        }
    }
}

// Where the furthest of the pieces ends. Refused as `TooLarge` where one reaches `u64::MAX`.
pub fn furthest_end(pieces: &[(u64, &[u8])]) -> Result<u64, CodecError>
    ensures end { IfOk result (λ n. n ≡ length (written_all pieces.now [])) }
    ensures too_large { IfErr result (λ e. (e ≡ TooLarge) × (2 ^ 64 ≤ length (written_all pieces.now []) + 1)) }
{
    let mut furthest = 0u64;
    for piece in pieces {
        let size = piece.1.len() as u64;
        if piece.0 >= u64::MAX - size {
            return Err(CodecError::TooLarge);
        }
        furthest = furthest.max(piece.0 + size);
    }
    Ok(furthest)
}
