// Objects that are also written in part, through a handle.
ghost use Rattle.std.specs.Prelude.{◌≡◌, ◌+◌, ◌^◌, ◌<◌, IsTrue, Some, None, OnOk, IfErr, length};
ghost use Rattle.storage_handles.specs.Handles.{MayFault};
ghost use Rattle.storage_handles.specs.Writes.{IsWriting, RefusesWrite, KeptUnlessFault, written_all, bytes_of};

use crate::handle::BytesPartialDecoderTraits;
use parts_errors::CodecError;
use std::alloc::Global;

/// An object that is also written in part. A handle of a user's own implements `LendsSlice`, and this.
pub trait BytesPartialEncoderTraits: BytesPartialDecoderTraits {
    /// Writes bytes at offsets, in the list's order. It never cuts the object short, fills a gap with zeros, and makes
    /// the object where there was none. Refused as `TooLarge` where the object would reach `usize::MAX` bytes, or as
    /// `Fault`. A refusal that is no fault leaves the object.
    fn partial_encode_many(
        &mut self,
        alloc: Global,
        pieces: &[(u64, &[u8])],
    ) -> Result<(), CodecError>
        ensures writing { IsWriting (Self.state self.old) (Self.state self.new) }
        ensures written { OnOk result (IsTrue (Self.state self.old).transparent → (Self.state self.new).contents ≡ Some (written_all pieces.now (bytes_of (Self.state self.old).contents))) }
        ensures fits { OnOk result (IsTrue (Self.state self.old).transparent → length (written_all pieces.now (bytes_of (Self.state self.old).contents)) + 1 < 2 ^ 64) }
        ensures kept { IfErr result (KeptUnlessFault (Self.state self.old) (Self.state self.new)) }
        ensures refused { let size = length (written_all pieces.now (bytes_of (Self.state self.old).contents)) in
            IfErr result (RefusesWrite size (Self.state self.old) (Self.state self.new)) };

    /// Makes the object these bytes. Refused as `TooLarge` where they reach `usize::MAX`, or as `Fault`. A refusal that
    /// is no fault leaves the object.
    fn replace(&mut self, alloc: Global, bytes: &[u8]) -> Result<(), CodecError>
        ensures writing { IsWriting (Self.state self.old) (Self.state self.new) }
        ensures written { OnOk result (IsTrue (Self.state self.old).transparent → (Self.state self.new).contents ≡ Some bytes.now) }
        ensures fits { OnOk result (IsTrue (Self.state self.old).transparent → length bytes.now + 1 < 2 ^ 64) }
        ensures kept { IfErr result (KeptUnlessFault (Self.state self.old) (Self.state self.new)) }
        ensures refused { IfErr result (RefusesWrite (length bytes.now) (Self.state self.old) (Self.state self.new)) };

    /// Lets the object go. Refused only as `Fault`.
    fn erase(&mut self) -> Result<(), CodecError>
        ensures writing { IsWriting (Self.state self.old) (Self.state self.new) }
        ensures erased { OnOk result (IsTrue (Self.state self.old).transparent → (Self.state self.new).contents ≡ None) }
        ensures kept { IfErr result (KeptUnlessFault (Self.state self.old) (Self.state self.new)) }
        ensures refused { IfErr result (MayFault (Self.state self.old) (Self.state self.new)) };

    /// Whether the handle can be written in part. The answer never changes.
    fn supports_partial_encode(&self) -> bool
        ensures { result ≡ (Self.state self.now).supports.encode };
}
