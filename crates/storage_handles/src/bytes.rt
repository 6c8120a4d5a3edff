// Parts of an object, by bytes.
ghost use Rattle.std.specs.Prelude.{◌≡◌, IfOk, IfErr};
ghost use Rattle.storage_handles.specs.Handles.{range_part, RangeLiesIn, HasRequestedLength, IsOutside};

use parts_errors::CodecError;

/// A part of an object, by bytes.
#[derive(Debug, Clone, Copy, PartialEq, Eq)]
pub enum ByteRange {
    /// From an offset on: so many bytes, or all that follow.
    FromStart(u64, Option<u64>),
    /// The last so many bytes.
    Suffix(u64),
}

/// The bytes of one slice of an object: an offset and a size.
#[derive(Debug, Clone, Copy, PartialEq, Eq)]
pub struct Interval {
    pub offset: u64,
    pub size: u64,
}

/// The bytes of a range of these bytes. Refused as `OutOfBounds` where the range passes them.
pub fn part_of(bytes: &[u8], range: ByteRange) -> Result<&[u8], CodecError>
    ensures part { IfOk result (λ b. RangeLiesIn range bytes.now × (b.now ≡ range_part range bytes.now)) }
    ensures requested { IfOk result (λ b. HasRequestedLength range b.now) }
    ensures outside { IfErr result (IsOutside range bytes.now) }
{
    let length = bytes.len() as u64;
    match range {
        ByteRange::FromStart(offset, None) => {
            if offset > length {
                return Err(CodecError::OutOfBounds);
            }
            Ok(&bytes[offset as usize..])
        }
        ByteRange::FromStart(offset, Some(size)) => {
            if offset > length || size > length - offset {
                return Err(CodecError::OutOfBounds);
            }
            let rest = &bytes[offset as usize..];
            Ok(&rest[..size as usize])
        }
        ByteRange::Suffix(size) => {
            if size > length {
                return Err(CodecError::OutOfBounds);
            }
            Ok(&bytes[(length - size) as usize..])
        }
    }
}
