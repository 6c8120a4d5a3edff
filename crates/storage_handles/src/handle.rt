// Objects that are read in part, through a handle.
ghost use Rattle.std.specs.Prelude.{◌≡◌, IsTrue, IfOk, IfErr, is_some, length};
ghost use Rattle.std.specs.Borrow.{sem};
ghost use Rattle.std.specs.Cow.{cow_slice_items};
ghost use Rattle.std.specs.Option.{option_map};
ghost use Rattle.storage_handles.specs.Handles.{Rests, HandleState, IsRead, HasRead, WasRead, MayFault, RefusesRead, Agrees, refusal, seen};

use crate::bytes::ByteRange;
use parts_errors::CodecError;
use std::alloc::Global;
use std::borrow::CowSlice;

/// An object that is read in part, or none. A handle of a user's own implements `LendsSlice`, which gives it this trait.
pub trait BytesPartialDecoderTraits {
    // what the handle is
    ghost state: { Self → HandleState };

    /// Whether there is an object. Refused only as `Fault`.
    fn exists(&mut self) -> Result<bool, CodecError>
        ensures read { IsRead (state self.old) (state self.new) }
        ensures told { IfOk result (λ there. IsTrue (state self.old).transparent → there ≡ is_some (state self.old).contents) }
        ensures refused { IfErr result (MayFault (state self.old) (state self.new)) };

    /// The object's length in bytes, or `None` where there is no object. Refused only as `Fault`.
    fn len(&mut self) -> Result<Option<u64>, CodecError>
        ensures read { IsRead (state self.old) (state self.new) }
        ensures told { IfOk result (λ n. IsTrue (state self.old).transparent → n ≡ option_map length (state self.old).contents) }
        ensures refused { IfErr result (MayFault (state self.old) (state self.new)) };

    /// How many bytes the handle holds in memory.
    fn size_held(&self) -> usize
        ensures { result ≡ (state self.now).cached };

    /// The bytes of a range, or `None` where there is no object. The answer has the requested length, and may lend bytes
    /// that the handle holds. Refused as `OutOfBounds` where there is an object and the range passes it, or as `Fault`.
    fn partial_decode(
        &mut self,
        alloc: Global,
        range: ByteRange,
    ) -> Result<Option<CowSlice<'_, u8>>, CodecError>
        ensures* read { sem 𝓛 (Rests Self.row self.entry (λ new. HasRead range (state self.old) (state new) (refusal result))) }
        ensures told { IfOk result (λ o. WasRead range (state self.old) (seen (λ b. cow_slice_items b) o)) };

    /// Whether the handle can be read in part. The answer never changes.
    fn supports_partial_decode(&self) -> bool
        ensures { result ≡ (state self.now).supports.decode };
}

// What was lent, with bytes that are owned put into the room.
fn split<'a>(
    read: Result<Option<CowSlice<'a, u8>>, CodecError>,
    room: &'a mut Vec<u8>,
) -> Result<Option<&'a [u8]>, CodecError>
    ensures { Agrees (λ b. cow_slice_items b) (λ b. b.now) read.entry result }
{
    match read {
        Ok(Some(CowSlice::Borrowed(bytes))) => Ok(Some(bytes)),
        Ok(Some(CowSlice::Owned(bytes))) => {
            *room = bytes;
            Ok(Some(room.as_slice()))
        }
        Ok(None) => Ok(None),
        Err(e) => Err(e),
    }
}

/// Reads as `partial_decode`, and lends the bytes: from the handle, or from `room`, which then holds them.
pub fn read_range<'a, H: BytesPartialDecoderTraits>(
    handle: &'a mut H,
    room: &'a mut Vec<u8>,
    alloc: Global,
    range: ByteRange,
) -> Result<Option<&'a [u8]>, CodecError>
    ensures* read { sem 𝓛 (Rests H.row handle.entry (λ new. HasRead range (H.state handle.old) (H.state new) (refusal result))) }
    ensures told { IfOk result (λ o. WasRead range (H.state handle.old) (seen (λ b. b.now) o)) }
{
    split(handle.partial_decode(alloc, range), room)
}

/// Reads as `partial_decode`, and answers a copy.
pub fn copy_range<H: BytesPartialDecoderTraits>(
    handle: &mut H,
    alloc: Global,
    range: ByteRange,
) -> Result<Option<Vec<u8>>, CodecError>
    ensures read { IsRead (H.state handle.old) (H.state handle.new) }
    ensures told { IfOk result (λ o. WasRead range (H.state handle.old) (seen (λ v. v.items) o)) }
    ensures refused { IfErr result (RefusesRead range (H.state handle.old) (H.state handle.new)) }
{
    let mut room = Vec::new(alloc);
    match read_range(handle, &mut room, alloc, range)? {
        Some(bytes) => {
            let copy = Vec::from_slice(alloc, bytes)?;
            Ok(Some(copy))
        }
        None => Ok(None),
    }
}

/// A handle that lends a slice of what it holds or has read. It has `BytesPartialDecoderTraits` by this. An
/// implementation changes its own fields first and makes the slice last, where it answers it.
pub trait LendsSlice {
    // what the handle is
    ghost state: { Self → HandleState };

    /// Whether there is an object. Refused only as `Fault`.
    fn find(&mut self) -> Result<bool, CodecError>
        ensures read { IsRead (state self.old) (state self.new) }
        ensures told { IfOk result (λ there. IsTrue (state self.old).transparent → there ≡ is_some (state self.old).contents) }
        ensures refused { IfErr result (MayFault (state self.old) (state self.new)) };

    /// The object's length in bytes, or `None` where there is no object. Refused only as `Fault`.
    fn measure(&mut self) -> Result<Option<u64>, CodecError>
        ensures read { IsRead (state self.old) (state self.new) }
        ensures told { IfOk result (λ n. IsTrue (state self.old).transparent → n ≡ option_map length (state self.old).contents) }
        ensures refused { IfErr result (MayFault (state self.old) (state self.new)) };

    /// How many bytes the handle holds in memory.
    fn cached_bytes(&self) -> usize
        ensures { result ≡ (state self.now).cached };

    /// The bytes of a range, or `None` where there is no object. The answer has the requested length. Refused as `OutOfBounds`
    /// where there is an object and the range passes it, or as `Fault`.
    fn lend(&mut self, alloc: Global, range: ByteRange) -> Result<Option<&[u8]>, CodecError>
        ensures* read { sem 𝓛 (Rests Self.row self.entry (λ new. HasRead range (state self.old) (state new) (refusal result))) }
        ensures told { IfOk result (λ o. WasRead range (state self.old) (seen (λ b. b.now) o)) };

    /// Whether the handle can be read in part. The answer never changes.
    fn lends_parts(&self) -> bool
        ensures { result ≡ (state self.now).supports.decode };
}

// The same bytes, as a value that may own them.
fn wrap<'a>(
    read: Result<Option<&'a [u8]>, CodecError>,
) -> Result<Option<CowSlice<'a, u8>>, CodecError>
    ensures { Agrees (λ b. b.now) (λ b. cow_slice_items b) read.entry result }
{
    match read {
        Ok(Some(bytes)) => Ok(Some(CowSlice::Borrowed(bytes))),
        Ok(None) => Ok(None),
        Err(e) => Err(e),
    }
}

impl<T: LendsSlice> BytesPartialDecoderTraits for T {
    ghost state = { λ handle. T.state handle };

    fn exists(&mut self) -> Result<bool, CodecError> {
        self.find()
    }

    fn len(&mut self) -> Result<Option<u64>, CodecError> {
        self.measure()
    }

    fn size_held(&self) -> usize {
        self.cached_bytes()
    }

    fn partial_decode(
        &mut self,
        alloc: Global,
        range: ByteRange,
    ) -> Result<Option<CowSlice<'_, u8>>, CodecError> {
        wrap(self.lend(alloc, range))
    }

    fn supports_partial_decode(&self) -> bool {
        self.lends_parts()
    }
}
