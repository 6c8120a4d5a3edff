// The parts of a sharding codec.
ghost use Rattle.std.specs.Prelude.{◌≡◌, Some, IfOk};
ghost use Rattle.codec_vlen.specs.DefaultCodec.{default_codec_of};
ghost use Rattle.std.specs.Arc.{arc_value};
ghost use Rattle.codec_bytes.specs.declared.bytes_codec.Endianness.TheVariants.{Little};
ghost use Rattle.sharding_format.specs.declared.location.ShardingIndexLocation.TheVariants.{End};
ghost use Rattle.sharding_format.specs.declared.order.SubchunkWriteOrder.TheVariants.{Unordered};

use codec_bytes::BytesCodec;
use codec_chains::{ArrayChain, BytesChain};
use codec_vlen::{DefaultArrayToBytesCodec, default_array_to_bytes_codec};
use parts_arrays::DataType;
use parts_subsets::ChunkShape;
use sharding_codec::ShardingCodec;
use sharding_format::ShardingIndexLocation;
use std::alloc::{AllocError, Global};
use std::sync::Arc;

/// A sharding codec in the making: the shape of its subchunks, an inner codec, an index codec, and where the index stands. Each
/// call takes the builder and gives one with a part replaced or wrapped; none is refused, since what a codec does not serve
/// its `check` refuses.
#[derive(Debug, Drop)]
pub struct ShardingCodecBuilder<I, X> {
    /// The shape of each subchunk.
    pub subchunk_shape: ChunkShape,
    /// The codec that encodes each subchunk, with all that wraps it.
    pub inner: I,
    /// The codec that encodes the index, with all that wraps it.
    pub index_codec: X,
    /// Where the index stands.
    pub location: ShardingIndexLocation,
}

impl ShardingCodecBuilder<DefaultArrayToBytesCodec, BytesCodec> {
    /// The default codec of the data type inside, the codec `bytes`, little endian, for the index, and the index at the end.
    pub fn new(subchunk_shape: ChunkShape, data_type: &DataType) -> Self
        ensures { result ≡ record {
          subchunk_shape = subchunk_shape;
          inner = default_codec_of data_type.now;
          index_codec = Some Little;
          location = End;
        } }
    {
        ShardingCodecBuilder {
            subchunk_shape,
            inner: default_array_to_bytes_codec(data_type),
            index_codec: BytesCodec::little(),
            location: ShardingIndexLocation::End,
        }
    }
}

impl<I: Drop, X: Drop> ShardingCodecBuilder<I, X> {
    /// Another inner codec, in place of the one that stands and all that wraps it.
    pub fn array_to_bytes_codec<C>(self, codec: C) -> ShardingCodecBuilder<C, X>
        ensures { result ≡ record { subchunk_shape = self.subchunk_shape; inner = codec; index_codec = self.index_codec; location = self.location } }
    {
        let ShardingCodecBuilder {
            subchunk_shape,
            inner: _,
            index_codec,
            location,
        } = self;
        ShardingCodecBuilder {
            subchunk_shape,
            inner: codec,
            index_codec,
            location,
        }
    }

    /// Another index codec, in place of the one that stands and all that wraps it.
    pub fn index_array_to_bytes_codec<C>(self, codec: C) -> ShardingCodecBuilder<I, C>
        ensures { result ≡ record { subchunk_shape = self.subchunk_shape; inner = self.inner; index_codec = codec; location = self.location } }
    {
        let ShardingCodecBuilder {
            subchunk_shape,
            inner,
            index_codec: _,
            location,
        } = self;
        ShardingCodecBuilder {
            subchunk_shape,
            inner,
            index_codec: codec,
            location,
        }
    }
}

impl<I, X> ShardingCodecBuilder<I, X> {
    /// A codec from bytes to bytes after the inner codec that stands.
    pub fn bytes_to_bytes_codecs<B>(self, codec: B) -> ShardingCodecBuilder<BytesChain<I, B>, X>
        ensures { result ≡ record {
          subchunk_shape = self.subchunk_shape;
          inner = record { array_to_bytes = self.inner; bytes_to_bytes = codec };
          index_codec = self.index_codec;
          location = self.location;
        } }
    {
        let ShardingCodecBuilder {
            subchunk_shape,
            inner,
            index_codec,
            location,
        } = self;
        ShardingCodecBuilder {
            subchunk_shape,
            inner: BytesChain::new(inner, codec),
            index_codec,
            location,
        }
    }

    /// A codec from arrays to arrays before the inner codec that stands.
    pub fn array_to_array_codecs<A>(self, codec: A) -> ShardingCodecBuilder<ArrayChain<A, I>, X>
        ensures { result ≡ record {
          subchunk_shape = self.subchunk_shape;
          inner = record { array_to_array = codec; array_to_bytes = self.inner };
          index_codec = self.index_codec;
          location = self.location;
        } }
    {
        let ShardingCodecBuilder {
            subchunk_shape,
            inner,
            index_codec,
            location,
        } = self;
        ShardingCodecBuilder {
            subchunk_shape,
            inner: ArrayChain::new(codec, inner),
            index_codec,
            location,
        }
    }

    /// A codec from bytes to bytes after the index codec that stands.
    pub fn index_bytes_to_bytes_codecs<B>(
        self,
        codec: B,
    ) -> ShardingCodecBuilder<I, BytesChain<X, B>>
        ensures { result ≡ record {
          subchunk_shape = self.subchunk_shape;
          inner = self.inner;
          index_codec = record { array_to_bytes = self.index_codec; bytes_to_bytes = codec };
          location = self.location;
        } }
    {
        let ShardingCodecBuilder {
            subchunk_shape,
            inner,
            index_codec,
            location,
        } = self;
        ShardingCodecBuilder {
            subchunk_shape,
            inner,
            index_codec: BytesChain::new(index_codec, codec),
            location,
        }
    }

    /// Another place of the index.
    pub fn index_location(self, location: ShardingIndexLocation) -> Self
        ensures { result ≡ record self { location = location } }
    {
        let ShardingCodecBuilder {
            subchunk_shape,
            inner,
            index_codec,
            location: _,
        } = self;
        ShardingCodecBuilder {
            subchunk_shape,
            inner,
            index_codec,
            location,
        }
    }

    /// The codec of these parts, which writes subchunks in the order `Unordered`.
    pub fn build(self) -> ShardingCodec<I, X>
        ensures { result ≡ record {
          subchunk_shape = self.subchunk_shape;
          inner = self.inner;
          index_codec = self.index_codec;
          location = self.location;
          order = Unordered;
        } }
    {
        let ShardingCodecBuilder {
            subchunk_shape,
            inner,
            index_codec,
            location,
        } = self;
        ShardingCodec::new(subchunk_shape, inner, index_codec, location)
    }
}

impl<I: Drop, X: Drop> ShardingCodecBuilder<I, X> {
    /// The codec of these parts, to be shared. Refused only as out of memory; the builder is dropped then.
    pub fn build_arc(self, alloc: Global) -> Result<Arc<ShardingCodec<I, X>>, AllocError>
        ensures { IfOk result (λ shared. arc_value shared ≡ record {
          subchunk_shape = self.subchunk_shape;
          inner = self.inner;
          index_codec = self.index_codec;
          location = self.location;
          order = Unordered;
        }) }
    {
        Ok(Arc::new(alloc, self.build())?)
    }
}
