// Stores of objects by their keys.
ghost use Rattle.std.specs.Prelude.{◌≡◌, None, Some, IsTrue, IfOk, IfErr, OnOk};
ghost use Rattle.parts_errors.specs.declared.error.CodecError.TheVariants.{OutOfMemory};
ghost use Rattle.array_store.specs.Stores.{StoreState, IsOpened, AreKept, IsPutRefusal};

use parts_errors::CodecError;
use std::alloc::Global;
use storage_handles::BytesPartialDecoderTraits;

/// Objects by their keys, as the Zarr V3 core has them ("Abstract store interface"): of each key the bytes of an object, or none.
/// What a call does for one key changes what stands under no other.
pub trait Store {
    /// A handle over the object of a key.
    type Handle: BytesPartialDecoderTraits + Drop;

    // what the store is
    ghost state: { Self → StoreState };

    /// A handle over the object of a key, which need not be there. Refused only as `OutOfMemory`.
    fn open(&self, alloc: Global, key: &str) -> Result<Self::Handle, CodecError>
        ensures opened { IfOk result (λ handle. IsOpened (state self.now) key.now (Self.Handle.state handle)) }
        ensures refused { IfErr result (λ e. e ≡ OutOfMemory) };

    /// As `open`, where the whole object is to be read. By default `open`.
    fn open_whole(&self, alloc: Global, key: &str) -> Result<Self::Handle, CodecError>
        ensures opened { IfOk result (λ handle. IsOpened (state self.now) key.now (Self.Handle.state handle)) }
        ensures refused { IfErr result (λ e. e ≡ OutOfMemory) }
    {
        self.open(alloc, key)
    }

    /// Makes the object of a key these bytes. Refused as `OutOfMemory`, as `TooLarge` where the store takes no object of this
    /// length, or as `Fault`; a refusal that is no fault leaves the object.
    fn put(&mut self, alloc: Global, key: &str, bytes: Vec<u8>) -> Result<(), CodecError>
        ensures others { AreKept (state self.old) (state self.new) key.now }
        ensures put { OnOk result (IsTrue (state self.old).transparent → (state self.new).contents key.now ≡ Some bytes.items) }
        ensures refused { IfErr result (IsPutRefusal (state self.old) (state self.new) key.now) };

    /// Removes the object of a key. Refused as `OutOfMemory` or as `Fault`; a refusal that is no fault leaves the object.
    fn erase(&mut self, alloc: Global, key: &str) -> Result<(), CodecError>
        ensures others { AreKept (state self.old) (state self.new) key.now }
        ensures erased { OnOk result (IsTrue (state self.old).transparent → (state self.new).contents key.now ≡ None) }
        ensures refused { IfErr result (IsPutRefusal (state self.old) (state self.new) key.now) };
}
