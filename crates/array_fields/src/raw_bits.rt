// Raw bits in metadata.
ghost use Rattle.std.specs.Prelude.{◌≡◌, Some, IfOk, IfSome, length};
ghost use Rattle.serde_json.specs.View.{view};
ghost use Rattle.array_fields.specs.RawBits.{base64_in, IsRawIn};

use crate::error::MetadataError;
use crate::fields::Placed;
use base64::DecodeAllocError;
use base64::engine::general_purpose::STANDARD;
use std::alloc::{AllocError, Global};

// The bytes that a text is the base64 of.
#[tactic(auto, unfolding(crate::specs::RawBits::base64_in, base64::specs::GeneralPurpose::decoded_of))]
fn base64_bytes(alloc: Global, text: &str) -> Result<Option<Vec<u8>>, AllocError>
    ensures { IfOk result (λ found. IfSome found (λ bytes. base64_in text.now ≡ Some bytes.items)) }
{
    match STANDARD.decode(alloc, text.as_bytes()) {
        Ok(bytes) => Ok(Some(bytes)),
        Err(DecodeAllocError::OutOfMemory) => Err(AllocError),
        Err(_) => Ok(None),
    }
}

// The same numbers, where each is a byte.
fn bytes_of(alloc: Global, numbers: &[u64]) -> Result<Option<Vec<u8>>, AllocError>
    ensures { IfOk result (λ found. IfSome found (λ bytes. bytes.items ≡ numbers.now)) }
{
    let mut bytes = Vec::with_capacity(alloc, numbers.len())?;
    for number in numbers {
        if *number > 255 {
            return Ok(None);
        }
        bytes.push(*number as u8)?;
    }
    Ok(Some(bytes))
}

// The bytes that a value is: a list of them, or their base64. Refused as `BadField` where it is neither a list of whole numbers nor a text.
#[tactic(auto, using(crate::proofs::SaidRawBits::raw_text, crate::proofs::SaidRawBits::raw_list))]
pub(crate) fn said_bytes(alloc: Global, fill: &Placed) -> Result<Option<Vec<u8>>, MetadataError>
    ensures { IfOk result (λ found. IfSome found (λ bytes. IsRawIn (view fill.now.value.now) bytes.items)) }
{
    match fill.value.as_str() {
        Some(text) => Ok(base64_bytes(alloc, text)?),
        None => Ok(bytes_of(alloc, fill.numbers(alloc)?.as_slice())?),
    }
}

/// The bytes that the value of a member is: a list of `size` of them, or their base64 (RFC 4648). `None` where these are not as many, or no
/// bytes; refused as `BadField` where the value is neither a list of whole numbers nor a text.
pub fn raw_bytes(
    alloc: Global,
    fill: &Placed,
    size: usize,
) -> Result<Option<Vec<u8>>, MetadataError>
    ensures size { IfOk result (λ found. IfSome found (λ bytes. length bytes.items ≡ size)) }
    ensures read { IfOk result (λ found. IfSome found (λ bytes. IsRawIn (view fill.now.value.now) bytes.items)) }
{
    match said_bytes(alloc, fill)? {
        Some(bytes) if bytes.len() == size => Ok(Some(bytes)),
        _ => Ok(None),
    }
}
