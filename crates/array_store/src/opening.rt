// The metadata of the array of a store.
ghost use Rattle.std.specs.Prelude.{◌≡◌, Some, None, IsTrue, IfOk, IfErr, OnOk, codes, string_bytes};
ghost use Rattle.array_store.specs.Opening.{IsCreateRefusal, IsMetadataIn, IsOpenRefusal};
ghost use Rattle.array_store.specs.Stores.{AreKept};

use crate::store::Store;
use array_fields::{LONGEST_TEXT, MetadataError};
use array_metadata::ArrayMetadata;
use parts_errors::CodecError;
use std::alloc::{AllocError, Global};
use std::str;
use storage_handles::{ByteRange, BytesPartialDecoderTraits, copy_range};
use thiserror::Error;

// The key of an array's metadata (Zarr V3 core, "Metadata documents").
const KEY: &str = "zarr.json";

/// Why the array of a store is not opened, or not created.
#[derive(Debug, Drop, Error)]
pub enum OpenError {
    /// The store refuses.
    #[error("zarr.json: {0}")]
    Store(CodecError),
    /// The store has no object of the key `zarr.json`.
    #[error("zarr.json: there is none")]
    Absent,
    /// The store has an object of the key `zarr.json` already.
    #[error("zarr.json: there is one already")]
    Present,
    /// The object is no text in UTF-8.
    #[error("zarr.json: the text is not UTF-8")]
    NoText,
    /// The text is not the metadata of an array that is read.
    #[error("{0}")]
    Metadata(MetadataError),
}

impl From<CodecError> for OpenError {
    ghost use Rattle.array_store.specs.declared.opening.OpenError.TheVariants.{Store};

    ghost from_gives = { λ error refusal. refusal ≡ Store error };

    fn from(error: CodecError) -> OpenError {
        OpenError::Store(error)
    }
}

impl From<AllocError> for OpenError {
    ghost use Rattle.parts_errors.specs.declared.error.CodecError.TheVariants.{OutOfMemory};
    ghost use Rattle.array_store.specs.declared.opening.OpenError.TheVariants.{Store};

    ghost from_gives = { λ _ refusal. refusal ≡ Store OutOfMemory };

    fn from(_error: AllocError) -> OpenError {
        OpenError::Store(CodecError::OutOfMemory)
    }
}

impl From<MetadataError> for OpenError {
    ghost use Rattle.array_store.specs.declared.opening.OpenError.TheVariants.{Metadata};

    ghost from_gives = { λ error refusal. refusal ≡ Metadata error };

    fn from(error: MetadataError) -> OpenError {
        OpenError::Metadata(error)
    }
}

// The bytes of the object of the key `zarr.json`.
fn bytes_in<S: Store>(alloc: Global, store: &S) -> Result<Vec<u8>, OpenError>
    ensures read { IfOk result (λ bytes. IsTrue (S.state store.now).transparent → (S.state store.now).contents (codes "zarr.json") ≡ Some bytes.items) }
    ensures refused { IfErr result (IsOpenRefusal (S.state store.now) (codes "zarr.json")) }
{
    let mut handle = store.open(alloc, KEY)?;
    let Some(size) = handle.len()? else {
        return Err(OpenError::Absent);
    };
    if size > LONGEST_TEXT {
        return Err(MetadataError::TooLong(size).into());
    }
    match copy_range(&mut handle, alloc, ByteRange::FromStart(0, Some(size)))? {
        Some(bytes) => Ok(bytes),
        None => Err(OpenError::Absent),
    }
}

/// The metadata of the array of a store: what the object of the key `zarr.json` says (Zarr V3 core, "Array metadata"). Refused, in this
/// order, as `Store` where the store refuses, as `Absent`, as `Metadata` where the object has more than `LONGEST_TEXT` bytes, as `NoText`,
/// and as `Metadata` where `ArrayMetadata::from_text` refuses the text.
pub fn open_metadata<S: Store>(alloc: Global, store: &S) -> Result<ArrayMetadata, OpenError>
    ensures read { IfOk result (λ metadata. IsTrue (S.state store.now).transparent → IsMetadataIn ((S.state store.now).contents (codes "zarr.json")) metadata) }
    ensures refused { IfErr result (IsOpenRefusal (S.state store.now) (codes "zarr.json")) }
{
    let bytes = bytes_in(alloc, store)?;
    let Ok(text) = str::from_utf8(&bytes) else {
        return Err(OpenError::NoText);
    };
    let metadata = ArrayMetadata::from_text(alloc, text)?;
    Ok(metadata)
}

/// Puts the text of metadata under the key `zarr.json` of a store, as it stood in the array that it was read from: from it
/// `ArrayMetadata::from_text` reads what the metadata says, and attributes and members that need not be understood stand there too. So an
/// array is created without chunks, of which every element is the fill value. Refused, in this order, as `Store` where the store refuses,
/// and as `Present`; no other key is touched.
pub fn put_metadata<S: Store>(
    alloc: Global,
    store: &mut S,
    metadata: &ArrayMetadata,
) -> Result<(), OpenError>
    ensures others { AreKept (S.state store.old) (S.state store.new) (codes "zarr.json") }
    ensures absent { OnOk result (IsTrue (S.state store.old).transparent → (S.state store.old).contents (codes "zarr.json") ≡ None) }
    ensures kept { IfErr result (IsCreateRefusal (S.state store.old) (S.state store.new) (codes "zarr.json")) }
    ensures written { OnOk result (IsTrue (S.state store.old).transparent
        → (S.state store.new).contents (codes "zarr.json") ≡ Some (string_bytes metadata.now.text)) }
{
    let mut handle = store.open(alloc, KEY)?;
    if handle.exists()? {
        return Err(OpenError::Present);
    }
    let bytes = Vec::from_slice(alloc, metadata.text.as_bytes())?;
    match store.put(alloc, KEY, bytes) {
        Ok(()) => Ok(()),
        Err(error) => Err(OpenError::Store(error)),
    }
}

/// Creates the array of a store without chunks, of which every element is the fill value: puts the text of its metadata under the key
/// `zarr.json`. Refused, in this order, as `Metadata` where `ArrayMetadata::from_text` refuses the text, as `Store` where the store
/// refuses, and as `Present`; no other key is touched.
pub fn create_metadata<S: Store>(
    alloc: Global,
    store: &mut S,
    text: &str,
) -> Result<ArrayMetadata, OpenError>
    ensures others { AreKept (S.state store.old) (S.state store.new) (codes "zarr.json") }
    ensures absent { OnOk result (IsTrue (S.state store.old).transparent → (S.state store.old).contents (codes "zarr.json") ≡ None) }
    ensures kept { IfErr result (IsCreateRefusal (S.state store.old) (S.state store.new) (codes "zarr.json")) }
    ensures written { IfOk result (λ metadata. IsTrue (S.state store.old).transparent
        → ((S.state store.new).contents (codes "zarr.json") ≡ Some text.now) × IsMetadataIn (Some text.now) metadata) }
{
    let metadata = ArrayMetadata::from_text(alloc, text)?;
    put_metadata(alloc, store, &metadata)?;
    Ok(metadata)
}
