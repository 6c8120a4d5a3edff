// What a write does to an object, when all is read and encoded.
ghost use Rattle.std.specs.Prelude.{◌≡◌, ◌^◌, ◌<◌, ◌+◌, IsTrue, IfErr, IfSome, OnOk, length};
ghost use Rattle.storage_handles.specs.Handles.{IsCounted};
ghost use Rattle.storage_handles.specs.Objects.{ObjectRefusals};
ghost use Rattle.storage_handles.specs.Writes.{IsWriting, KeptUnlessFault, bytes_of};
ghost use Rattle.parts_errors.specs.Order.{done, RefusedBy};
ghost use Rattle.sharding_write.specs.steps.Changes.{object_after};

use parts_errors::CodecError;
use std::alloc::Global;
use storage_handles::BytesPartialEncoderTraits;

/// The one writing call of a write.
#[derive(Drop)]
pub enum Change {
    /// No subchunk is stored any more: the object goes.
    Erase,
    /// The shard starts anew: these bytes are the object.
    Replace(Vec<u8>),
    /// New slices at a place, and the index at another.
    Append {
        slices: Vec<u8>,
        write_offset: u64,
        index: Vec<u8>,
        index_offset: u64,
    },
}

/// A write, when all is read and encoded: what becomes of the object, and the object's length and the index's numbers then.
#[derive(Drop)]
pub struct Prepared {
    pub change: Change,
    pub len: u64,
    pub numbers: Vec<u64>,
}

impl Change {
    /// Makes the change by one writing call. Refused as `Fault`, where the handle failed, or `OutOfMemory`; a refusal that is no
    /// fault leaves the object.
    pub fn make<H: BytesPartialEncoderTraits>(
        &self,
        alloc: Global,
        handle: &mut H,
    ) -> Result<(), CodecError>
        requires room { IsTrue (H.state handle.old).transparent → IfSome (object_after self.now (H.state handle.old).contents) (λ bytes. length bytes + 1 < 2 ^ 64) }
        ensures writing { IsWriting (H.state handle.old) (H.state handle.new) }
        ensures made { OnOk result (IsTrue (H.state handle.old).transparent → (H.state handle.new).contents ≡ object_after self.now (H.state handle.old).contents) }
        ensures kept { IfErr result (KeptUnlessFault (H.state handle.old) (H.state handle.new)) }
        ensures fault { IfErr result (IsCounted (H.state handle.old) (H.state handle.new)) }
        ensures refused { IfErr result (RefusedBy (ObjectRefusals (H.state handle.old) (H.state handle.new) done)) }
    {
        match self {
            Change::Erase => handle.erase(),
            Change::Replace(shard) => handle.replace(alloc, shard),
            Change::Append {
                slices,
                write_offset,
                index,
                index_offset,
            } => {
                let pieces = [
                    (*write_offset, slices.as_slice()),
                    (*index_offset, index.as_slice()),
                ];
                handle.partial_encode_many(alloc, &pieces)
            }
        }
    }
}
