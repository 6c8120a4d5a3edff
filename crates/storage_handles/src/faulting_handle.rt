// A handle that fails, for tests.
ghost use Rattle.std.specs.Prelude.{◌≡◌, ◌≢◌, ◌-◌, true, Some, None, IfErr, OnOk, length};
ghost use Rattle.std.specs.Option.{option_map, option_map_or};
ghost use Rattle.storage_handles.specs.Handles.{seen, in_memory};
ghost use Rattle.storage_handles.specs.Writes.{fault_count};
ghost use Rattle.parts_errors.specs.declared.error.CodecError.TheVariants.{Fault};

use crate::bytes::ByteRange;
use crate::handle::LendsSlice;
use crate::memory_handle::MemoryHandle;
use crate::writing::BytesPartialEncoderTraits;
use parts_errors::CodecError;
use std::alloc::Global;
use std::marker::Model;

/// An object in memory, or none, behind a handle of which one call fails. Counted are the calls that answer a `Result`:
/// the one with a given number, from 0, does nothing and is refused as `Fault`. It is transparent.
pub struct FaultingHandle {
    handle: MemoryHandle,
    // how many calls come before the one that fails, or none once it has failed
    calls_left: Option<u64>,
}

impl Drop for FaultingHandle {
    fn drop(self) {
        let FaultingHandle {
            handle: _,
            calls_left: _,
        } = self;
    }
}

impl Model for FaultingHandle {
    ghost use Rattle.storage_handles.specs.Writes.{Faulting};

    // the object's bytes, or none; and what is left until the fault
    ghost Value = { Faulting };

    ghost view = { λ handle. record { object = handle.handle; calls_left = handle.calls_left } };
}

impl FaultingHandle {
    /// A handle over these bytes, or over no object, whose call of this number fails.
    pub fn new(object: Option<Vec<u8>>, fails_at: u64) -> Self
        ensures { result ≡ record { object = seen (λ bytes. bytes.items) object; calls_left = Some fails_at } }
    {
        FaultingHandle {
            handle: MemoryHandle::new(object),
            calls_left: Some(fails_at),
        }
    }

    /// The object's bytes, or `None` where there is no object.
    pub fn into_inner(self) -> Option<Vec<u8>>
        ensures { seen (λ bytes. bytes.items) result ≡ self.object }
    {
        let FaultingHandle {
            handle,
            calls_left: _,
        } = self;
        handle.into_inner()
    }

    /// How often a call failed: once, or not yet.
    pub fn faults(&self) -> u64
        ensures { result ≡ fault_count self.now.calls_left }
    {
        match self.calls_left {
            Some(_) => 0,
            None => 1,
        }
    }

    // Counts a call, which may be the one that fails.
    fn count(&mut self) -> Result<(), CodecError>
        ensures object { self.new.object ≡ self.old.object }
        ensures turn { OnOk result ((self.old.calls_left ≢ Some 0) × (self.new.calls_left ≡ option_map (λ calls. calls - 1) self.old.calls_left)) }
        ensures counted { OnOk result (fault_count self.new.calls_left ≡ fault_count self.old.calls_left) }
        ensures failed { IfErr result (λ e. (e ≡ Fault) × (self.old.calls_left ≡ Some 0) × (self.new.calls_left ≡ None)) }
    {
        match self.calls_left {
            Some(0) => {
                self.calls_left = None;
                Err(CodecError::Fault)
            }
            Some(calls) => {
                self.calls_left = Some(calls - 1);
                Ok(())
            }
            None => Ok(()),
        }
    }
}

impl LendsSlice for FaultingHandle {
    ghost state = { λ handle. record (in_memory handle.object) { faults = fault_count handle.calls_left } };

    fn find(&mut self) -> Result<bool, CodecError> {
        self.count()?;
        self.handle.find()
    }

    fn measure(&mut self) -> Result<Option<u64>, CodecError> {
        self.count()?;
        self.handle.measure()
    }

    fn cached_bytes(&self) -> usize {
        self.handle.cached_bytes()
    }

    fn lend(&mut self, alloc: Global, range: ByteRange) -> Result<Option<&[u8]>, CodecError> {
        self.count()?;
        self.handle.lend(alloc, range)
    }

    fn lends_parts(&self) -> bool {
        true
    }
}

impl BytesPartialEncoderTraits for FaultingHandle {
    fn partial_encode_many(
        &mut self,
        alloc: Global,
        pieces: &[(u64, &[u8])],
    ) -> Result<(), CodecError> {
        self.count()?;
        self.handle.partial_encode_many(alloc, pieces)
    }

    fn replace(&mut self, alloc: Global, bytes: &[u8]) -> Result<(), CodecError> {
        self.count()?;
        self.handle.replace(alloc, bytes)
    }

    fn erase(&mut self) -> Result<(), CodecError> {
        self.count()?;
        self.handle.erase()
    }

    fn supports_partial_encode(&self) -> bool {
        true
    }
}
