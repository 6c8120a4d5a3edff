// Chunks that are no shards, by what commands do with shards: such a chunk is one subchunk, whose bytes are those of the file.
use crate::grid_shards::whole_of;
use crate::open_shard::test_decoding;
use array_metadata::ArrayMetadata;
use codec_traits::{ArrayToBytesCodecTraits, StoredArray};
use parts_arrays::{ArrayBytes, DataTypeSize, FixedTarget};
use parts_errors::{CodecError, CodecOptions};
use parts_subsets::ArraySubset;
use sharding_format::of_stored;
use std::alloc::{AllocError, Global};
use std::borrow::CowSlice;
use storage_handles::{ByteRange, BytesPartialDecoderTraits, Interval, copy_range};

/// A chunk that is open: its file, and how long that is, or `None` where there is none.
#[derive(Drop)]
pub struct WholeChunk<'a, C, H> {
    codec: &'a C,
    pub(crate) file: H,
    length: Option<u64>,
}

// The bytes of a chunk that is open; `None` where there is no file.
fn bytes_of<C, H: BytesPartialDecoderTraits>(
    alloc: Global,
    chunk: &mut WholeChunk<'_, C, H>,
) -> Result<Option<Vec<u8>>, CodecError> {
    match chunk.length {
        Some(length) => copy_range(
            &mut chunk.file,
            alloc,
            ByteRange::FromStart(0, Some(length)),
        ),
        None => Ok(None),
    }
}

// Puts the elements of a subset of a chunk that is open into a target; fill values where there is no file.
fn read_into<C: ArrayToBytesCodecTraits, H: BytesPartialDecoderTraits>(
    alloc: Global,
    chunk: &mut WholeChunk<'_, C, H>,
    metadata: &ArrayMetadata,
    subset: &ArraySubset,
    target: &mut FixedTarget,
) -> Result<(), CodecError> {
    let Some(size) = chunk.length else {
        return target.fill(&metadata.fill_value);
    };
    let stored = StoredArray {
        interval: Interval { offset: 0, size },
        shape: &metadata.shard,
        data_type: &metadata.data_type,
        fill_value: &metadata.fill_value,
    };
    let options = CodecOptions::default();
    let (codec, file) = (chunk.codec, &mut chunk.file);
    match codec.partial_decode_into(alloc, file, &stored, subset, target, &options) {
        Ok(()) => Ok(()),
        Err(error) => Err(of_stored(error)),
    }
}

// Room for the elements of a subset, which have a size.
fn room_of(alloc: Global, subset: &ArraySubset, size: usize) -> Result<Vec<u8>, CodecError> {
    let Some(count) = subset.num_elements() else {
        return Err(CodecError::TooLarge);
    };
    match count.checked_mul(size as u64) {
        Some(length) => Ok(vec![in alloc; 0u8; length as usize]?),
        None => Err(CodecError::TooLarge),
    }
}

// Reads the elements of a subset of a chunk that is open, which have a size, into room for them.
fn read_elements<C: ArrayToBytesCodecTraits, H: BytesPartialDecoderTraits>(
    alloc: Global,
    chunk: &mut WholeChunk<'_, C, H>,
    metadata: &ArrayMetadata,
    subset: &ArraySubset,
    size: usize,
    room: &mut [u8],
) -> Result<(), CodecError> {
    let whole = whole_of(alloc, subset.shape())?;
    match FixedTarget::new(room, size, subset.shape(), &whole) {
        Some(mut target) => read_into(alloc, chunk, metadata, subset, &mut target),
        None => Err(CodecError::InvalidNumberOfElements),
    }
}

// Elements that have a size and these bytes.
fn sized<'e>(bytes: Vec<u8>, size: usize) -> Result<ArrayBytes<'e>, CodecError> {
    match ArrayBytes::new_flen(CowSlice::Owned(bytes), size) {
        Some(elements) => Ok(elements),
        None => Err(CodecError::WrongElementKind),
    }
}

// Reads the elements of a subset of a chunk that is open, which have a size.
fn read_sized<'e, C: ArrayToBytesCodecTraits, H: BytesPartialDecoderTraits>(
    alloc: Global,
    chunk: &mut WholeChunk<'_, C, H>,
    metadata: &ArrayMetadata,
    subset: &ArraySubset,
    size: usize,
) -> Result<ArrayBytes<'e>, CodecError> {
    let mut bytes = room_of(alloc, subset, size)?;
    read_elements(alloc, chunk, metadata, subset, size, &mut bytes)?;
    sized(bytes, size)
}

// So many fill values, as many as a subset has elements.
fn fill_values<'e>(
    alloc: Global,
    metadata: &ArrayMetadata,
    subset: &ArraySubset,
) -> Result<ArrayBytes<'e>, CodecError> {
    match subset.num_elements() {
        Some(count) => {
            let (data_type, fill_value) = (&metadata.data_type, &metadata.fill_value);
            ArrayBytes::new_fill_value(alloc, data_type, count, fill_value)
        }
        None => Err(CodecError::TooLarge),
    }
}

// Reads the elements of a subset of a chunk that is open, which have lengths of their own; fill values where there is no file.
fn read_varying<'e, C: ArrayToBytesCodecTraits, H: BytesPartialDecoderTraits>(
    alloc: Global,
    chunk: &mut WholeChunk<'_, C, H>,
    metadata: &ArrayMetadata,
    subset: &ArraySubset,
) -> Result<ArrayBytes<'e>, CodecError> {
    let Some(size) = chunk.length else {
        return fill_values(alloc, metadata, subset);
    };
    let interval = Interval { offset: 0, size };
    let read = chunk.codec.partial_decode(
        alloc,
        &mut chunk.file,
        interval,
        &metadata.shard,
        &metadata.data_type,
        &metadata.fill_value,
        subset,
        &CodecOptions::default(),
    );
    match read {
        Ok(found) => Ok(found),
        Err(error) => Err(of_stored(error)),
    }
}

// The numbers of the index that a shard of one subchunk with as many bytes would have.
pub(crate) fn one_entry(alloc: Global, length: u64) -> Result<Vec<u64>, AllocError> {
    Vec::from_slice(alloc, &[0, length])
}

impl<'a, C: ArrayToBytesCodecTraits, H: BytesPartialDecoderTraits> WholeChunk<'a, C, H> {
    // Opens the chunk that a file holds; where it is refused, the file is given back.
    pub(crate) fn open(codec: &'a C, mut file: H) -> Result<Self, (H, CodecError)> {
        match file.len() {
            Ok(length) => Ok(WholeChunk {
                codec,
                file,
                length,
            }),
            Err(error) => Err((file, error)),
        }
    }

    // Reads the elements of a subset.
    pub(crate) fn read_subset<'e>(
        &mut self,
        alloc: Global,
        metadata: &ArrayMetadata,
        subset: &ArraySubset,
    ) -> Result<ArrayBytes<'e>, CodecError> {
        match metadata.data_type.size() {
            DataTypeSize::Fixed(size) => read_sized(alloc, self, metadata, subset, size),
            DataTypeSize::Variable => read_varying(alloc, self, metadata, subset),
        }
    }

    // Where its bytes stand, which are those of the file; `None` where there is none.
    pub(crate) fn byte_range(&self) -> Option<ByteRange> {
        self.length
            .map(|length| ByteRange::FromStart(0, Some(length)))
    }

    // Its bytes as they are stored; `None` where there is no file.
    pub(crate) fn stored_bytes(&mut self, alloc: Global) -> Result<Option<Vec<u8>>, CodecError> {
        bytes_of(alloc, self)
    }

    // Decodes its bytes, and lets the elements go. Says whether there is a file.
    pub(crate) fn test(
        &mut self,
        alloc: Global,
        metadata: &ArrayMetadata,
    ) -> Result<bool, CodecError> {
        match bytes_of(alloc, self)? {
            Some(bytes) => {
                test_decoding(alloc, self.codec, &metadata.shard, metadata, &bytes)?;
                Ok(true)
            }
            None => Ok(false),
        }
    }
}
