// A shard that is open, by what commands do with it.
ghost use Rattle.std.specs.Prelude.{◌≡◌, ◌*◌, IfOk, length};
ghost use Rattle.parts_row_major.specs.Numbering.{count_of};
ghost use Rattle.parts_subsets.specs.Grid.{grid_of};

use crate::shard_codec::ShardFile;
use crate::whole_chunks::WholeChunk;
use array_codecs::ArrangedCodec;
use array_metadata::{ArrayMetadata, IndexCodec, InnerCodec};
use codec_traits::ArrayToBytesCodecTraits;
use parts_arrays::ArrayBytes;
use parts_errors::{CodecError, CodecOptions};
use parts_subsets::{ArraySubset, ChunkShape};
use sharding_codec::{ShardingCodec, ShardingPartialDecoder};
use sharding_format::{ShardIndex, of_stored};
use std::alloc::Global;
use storage_handles::{ByteRange, BytesPartialDecoderTraits, Interval};

/// A shard of the codec `sharding_indexed` that is open.
#[derive(Drop)]
pub struct OpenedShard<
    'a,
    I: ArrayToBytesCodecTraits,
    X: ArrayToBytesCodecTraits,
    H: BytesPartialDecoderTraits,
> {
    decoder: ShardingPartialDecoder<'a, I, X, H>,
    codec: &'a ShardingCodec<I, X>,
}

// Decodes the bytes of an array of a shape, of the elements of this metadata, and lets its elements go.
pub(crate) fn test_decoding<C: ArrayToBytesCodecTraits>(
    alloc: Global,
    codec: &C,
    shape: &ChunkShape,
    metadata: &ArrayMetadata,
    bytes: &[u8],
) -> Result<(), CodecError> {
    let decoded = codec.decode(
        alloc,
        bytes,
        shape,
        &metadata.data_type,
        &metadata.fill_value,
        &CodecOptions::default(),
    );
    match decoded {
        Ok(_) => Ok(()),
        Err(error) => Err(of_stored(error)),
    }
}

// The bytes of a subchunk of a shard that is open.
fn stored_in<I: ArrayToBytesCodecTraits, X: ArrayToBytesCodecTraits, H: BytesPartialDecoderTraits>(
    alloc: Global,
    decoder: &mut ShardingPartialDecoder<'_, I, X, H>,
    subchunk: &[u64],
) -> Result<Option<Vec<u8>>, CodecError> {
    match decoder.retrieve_subchunk_encoded(alloc, subchunk)? {
        Some(bytes) => Ok(Some(bytes.into_owned(alloc)?)),
        None => Ok(None),
    }
}

// Decodes the bytes of a subchunk of a shard that is open.
fn test_in<I: ArrayToBytesCodecTraits, X: ArrayToBytesCodecTraits, H: BytesPartialDecoderTraits>(
    alloc: Global,
    decoder: &mut ShardingPartialDecoder<'_, I, X, H>,
    codec: &ShardingCodec<I, X>,
    metadata: &ArrayMetadata,
    subchunk: &[u64],
) -> Result<bool, CodecError> {
    match decoder.retrieve_subchunk_encoded(alloc, subchunk)? {
        Some(bytes) => {
            test_decoding(alloc, &codec.inner, &codec.subchunk_shape, metadata, &bytes)?;
            Ok(true)
        }
        None => Ok(false),
    }
}

// The index of the shard that is an object of a length.
pub(crate) fn whole_index<I, X: ArrayToBytesCodecTraits, H: BytesPartialDecoderTraits>(
    alloc: Global,
    codec: &ShardingCodec<I, X>,
    shape: &ChunkShape,
    object: &mut H,
    len: u64,
) -> Result<ShardIndex, CodecError>
    ensures { IfOk result (λ index. length index.numbers.items ≡ 2 * count_of (grid_of shape.now codec.now.subchunk_shape)) }
{
    let whole = Interval {
        offset: 0,
        size: len,
    };
    codec.read_index(alloc, object, whole, shape, &CodecOptions::default())
}

impl<
    'a,
    I: ArrayToBytesCodecTraits,
    X: ArrayToBytesCodecTraits,
    H: BytesPartialDecoderTraits,
> OpenedShard<'a, I, X, H> {
    // Opens the shard that a file holds; where it is refused, the file is given back.
    pub(crate) fn open(
        alloc: Global,
        codec: &'a ShardingCodec<I, X>,
        file: H,
        metadata: &ArrayMetadata,
    ) -> Result<Self, (H, CodecError)> {
        let options = CodecOptions::default();
        let opened = codec.partial_decoder(
            alloc,
            file,
            &metadata.encoded,
            &metadata.data_type,
            &metadata.fill_value,
            &options,
        );
        match opened {
            Ok(decoder) => Ok(OpenedShard { decoder, codec }),
            Err(refused) => Err(refused),
        }
    }

    // Reads the elements of a subset.
    fn read_subset<'e>(
        &mut self,
        alloc: Global,
        subset: &ArraySubset,
    ) -> Result<ArrayBytes<'e>, CodecError> {
        self.decoder
            .partial_decode(alloc, subset, &CodecOptions::default())
    }
}

/// A shard that is opened to be read. A subchunk is named by its coordinates among those of the shard.
pub enum OpenShard<'a> {
    Shard(OpenedShard<'a, InnerCodec, IndexCodec, ShardFile<'a>>),
    Chunk(WholeChunk<'a, ArrangedCodec, ShardFile<'a>>),
}

impl Drop for OpenShard<'_> {
    fn drop(self) {
        match self {
            OpenShard::Shard(_) => {}
            OpenShard::Chunk(_) => {}
        }
    }
}

impl<'a> OpenShard<'a> {
    /// Reads the elements of a subset, of an array with this metadata, in row-major order of the subset.
    pub fn read_subset<'e>(
        &mut self,
        alloc: Global,
        metadata: &ArrayMetadata,
        subset: &ArraySubset,
    ) -> Result<ArrayBytes<'e>, CodecError> {
        match self {
            OpenShard::Shard(shard) => shard.read_subset(alloc, subset),
            OpenShard::Chunk(chunk) => chunk.read_subset(alloc, metadata, subset),
        }
    }

    /// Where the bytes of a subchunk stand; `None` where it is absent. Reads nothing.
    pub fn byte_range(&self, subchunk: &[u64]) -> Result<Option<ByteRange>, CodecError> {
        match self {
            OpenShard::Shard(shard) => shard.decoder.subchunk_byte_range(subchunk),
            OpenShard::Chunk(chunk) => Ok(chunk.byte_range()),
        }
    }

    /// The bytes of a subchunk as they are stored; `None` where it is absent.
    pub fn stored_bytes(
        &mut self,
        alloc: Global,
        subchunk: &[u64],
    ) -> Result<Option<Vec<u8>>, CodecError> {
        match self {
            OpenShard::Shard(shard) => stored_in(alloc, &mut shard.decoder, subchunk),
            OpenShard::Chunk(chunk) => chunk.stored_bytes(alloc),
        }
    }

    /// Reads the bytes of a subchunk of an array with this metadata, decodes them, and lets the elements go. Says whether it is present.
    pub fn test_subchunk(
        &mut self,
        alloc: Global,
        metadata: &ArrayMetadata,
        subchunk: &[u64],
    ) -> Result<bool, CodecError> {
        match self {
            OpenShard::Shard(shard) => {
                test_in(alloc, &mut shard.decoder, shard.codec, metadata, subchunk)
            }
            OpenShard::Chunk(chunk) => chunk.test(alloc, metadata),
        }
    }

    /// Gives the file back.
    pub fn close(self) -> ShardFile<'a> {
        match self {
            OpenShard::Shard(shard) => shard.decoder.close(),
            OpenShard::Chunk(chunk) => chunk.file,
        }
    }
}
