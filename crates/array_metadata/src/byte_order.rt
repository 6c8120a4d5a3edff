// The byte order of complex numbers, and of texts in UTF-32.
ghost use Rattle.std.specs.Prelude.{◌≡◌};
ghost use Rattle.array_metadata.specs.ByteOrders.{first_order, order_of, arranged_order, subchunks_order, chunks_order, size_if_big, reversed_size};

use crate::array_codec::ArrayCodec;
use crate::inner_codec::InnerCodec;
use array_codecs::{ArrangedCodec, ElementCodec};
use array_fields::ElementType;
use codec_bytes::Endianness;
use codec_chains::EitherCodec;
use codec_vlen::DefaultArrayToBytesCodec;

// The byte order of the first codec of elements.
fn first_order(codec: &DefaultArrayToBytesCodec) -> Option<Endianness>
    ensures { result ≡ first_order codec.now }
{
    match codec {
        DefaultArrayToBytesCodec::Bytes(bytes) => bytes.endianness(),
        DefaultArrayToBytesCodec::Vlen(_) => None,
    }
}

// The byte order of the codec of elements.
fn order_of(codec: &ElementCodec) -> Option<Endianness>
    ensures { result ≡ order_of codec.now }
{
    match codec {
        ElementCodec::Alone(codec) => first_order(codec),
        ElementCodec::Chain(chain) => first_order(&chain.array_to_bytes),
    }
}

// The byte order of the codec of elements inside a shard.
fn arranged_order(codec: &ArrangedCodec) -> Option<Endianness>
    ensures { result ≡ arranged_order codec.now }
{
    match codec {
        EitherCodec::First(elements) => order_of(elements),
        EitherCodec::Second(transposed) => order_of(&transposed.codec),
    }
}

// The byte order of the codec of subchunks, where they are looked into.
fn subchunks_order(codec: &InnerCodec) -> Option<Endianness>
    ensures { result ≡ subchunks_order codec.now }
{
    match codec {
        InnerCodec::Elements(elements) => arranged_order(elements),
        InnerCodec::Shards(shards) => arranged_order(&shards.inner),
        InnerCodec::Opaque(_) => None,
    }
}

// The byte order of the codec of chunks, where it is known.
fn chunks_order(codec: &ArrayCodec) -> Option<Endianness>
    ensures { result ≡ chunks_order codec.now }
{
    match codec {
        ArrayCodec::Sharded(shards) => subchunks_order(&shards.inner),
        ArrayCodec::Transposed(transposed) => subchunks_order(&transposed.codec.inner),
        ArrayCodec::Unsharded(elements) => arranged_order(elements),
    }
}

// A size, where the order is most significant byte first.
fn size_if_big(size: usize, order: Option<Endianness>) -> Option<usize>
    ensures { result ≡ size_if_big size order }
{
    match order {
        Some(Endianness::Big) => Some(size),
        Some(Endianness::Little) | None => None,
    }
}

// How many bytes each part has of elements whose parts are stored most significant byte first, by the order of the codec.
fn size_of_parts(element_type: ElementType, order: Option<Endianness>) -> Option<usize>
    ensures { result ≡ reversed_size element_type order }
{
    match element_type {
        ElementType::Complex(format) => size_if_big(format.size(), order),
        ElementType::Utf32(_) => size_if_big(4, order),
        ElementType::Number(_) | ElementType::Float(_) | ElementType::RawBits(_) => None,
        ElementType::DateTime64 | ElementType::TimeDelta64 | ElementType::Unread(_) => None,
        ElementType::Utf8 | ElementType::Binary | ElementType::NullTerminated(_) => None,
    }
}

/// How many bytes each part has of elements whose parts the codecs give most significant byte first: of complex numbers and of texts in
/// UTF-32 that are stored so. `None` where elements come least significant byte first.
pub fn reversed_size(element_type: ElementType, codec: &ArrayCodec) -> Option<usize>
    ensures { result ≡ reversed_size element_type (chunks_order codec.now) }
{
    size_of_parts(element_type, chunks_order(codec))
}
