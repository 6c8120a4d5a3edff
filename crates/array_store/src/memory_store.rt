// A store in memory.
ghost use Rattle.std.specs.Prelude.{◌≡◌, ◌≤◌, ◌++◌, ◌∷◌, true, [], IfErr, OnOk, OnErr, filter, length, not, option_map, string_bytes, vec_capacity};
ghost use Rattle.std.specs.Str.{bytes_eq};
ghost use Rattle.parts_errors.specs.declared.error.CodecError.TheVariants.{OutOfMemory};
ghost use Rattle.array_store.specs.Stores.{stored_at};

use crate::store::Store;
use parts_errors::CodecError;
use std::alloc::Global;
use std::marker::Model;
use storage_handles::MemoryHandle;

/// An object, and its key.
#[derive(Drop)]
struct StoredObject {
    key: String,
    bytes: Vec<u8>,
}

/// Objects in memory. It is transparent and never fails.
pub struct MemoryStore {
    objects: Vec<StoredObject>,
}

impl Drop for MemoryStore {
    fn drop(self) {
        let MemoryStore { objects: _ } = self;
    }
}

impl Model for MemoryStore {
    ghost use Rattle.std.specs.Prelude.{map, string_bytes};
    ghost use Rattle.array_store.specs.Stores.{ObjectList};

    // the objects, each with its key
    ghost Value = { ObjectList };

    ghost view = { λ store. map (λ object. (string_bytes object.key, object.bytes.items)) store.objects.items };
}

// Removes the objects of a key.
fn forget(objects: &mut Vec<StoredObject>, key: &str)
    ensures left { objects.new.items ≡ filter (λ object. not (bytes_eq (string_bytes object.key) key.now)) objects.old.items }
    ensures fewer { length objects.new.items ≤ length objects.old.items }
    ensures room { vec_capacity objects.new ≡ vec_capacity objects.old }
{
    objects.retain(|object| object.key.as_str() != key);
}

// Puts an object behind others, in place of those of its key.
fn add(objects: &mut Vec<StoredObject>, object: StoredObject) -> Result<(), CodecError>
    ensures added { OnOk result (objects.new.items ≡ filter (λ other. not (bytes_eq (string_bytes other.key) (string_bytes object.key))) objects.old.items ++ object ∷ []) }
    ensures kept { OnErr result (objects.new.items ≡ objects.old.items) }
    ensures refused { IfErr result (λ e. e ≡ OutOfMemory) }
{
    objects.reserve(1)?;
    forget(objects, &object.key);
    let Ok(()) = objects.push(object) else {
        unreachable!()
    };
    Ok(())
}

impl MemoryStore {
    /// A store without objects.
    pub fn new(alloc: Global) -> Self
        ensures { result ≡ [] }
    {
        MemoryStore {
            objects: Vec::new(alloc),
        }
    }

    /// The bytes of the object of a key, or `None` where there is none.
    pub fn get(&self, key: &str) -> Option<&[u8]>
        ensures { option_map (λ bytes. bytes.now) result ≡ stored_at self.now key.now }
    {
        for object in &self.objects {
            if object.key.as_str() == key {
                return Some(object.bytes.as_slice());
            }
        }
        None
    }
}

impl Store for MemoryStore {
    type Handle = MemoryHandle;

    ghost state = { λ store. record { transparent = true; contents = stored_at store } };

    fn open(&self, alloc: Global, key: &str) -> Result<MemoryHandle, CodecError> {
        match self.get(key) {
            Some(bytes) => Ok(MemoryHandle::new(Some(Vec::from_slice(alloc, bytes)?))),
            None => Ok(MemoryHandle::new(None)),
        }
    }

    fn put(&mut self, alloc: Global, key: &str, bytes: Vec<u8>) -> Result<(), CodecError> {
        let object = StoredObject {
            key: String::from_str(alloc, key)?,
            bytes,
        };
        add(&mut self.objects, object)?;
        Ok(())
    }

    fn erase(&mut self, _alloc: Global, key: &str) -> Result<(), CodecError> {
        forget(&mut self.objects, key);
        Ok(())
    }
}
