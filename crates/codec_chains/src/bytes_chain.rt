// A codec with a codec from bytes to bytes after it.
ghost use Rattle.std.specs.Prelude.{◌≡◌, Some, IsSome, IfOk, IfErr, map};
ghost use Rattle.std.specs.Cow.{cow_slice_items};
ghost use Rattle.parts_errors.specs.Order.{◌or◌then◌, done, RefusedBy};
ghost use Rattle.parts_errors.specs.declared.error.CodecError.TheVariants.{OutOfMemory, Damaged};
ghost use Rattle.parts_arrays.specs.ArraySpec.{array_spec, IsArrayOf};
ghost use Rattle.parts_arrays.specs.Types.{size_of};
ghost use Rattle.codec_traits.specs.Refusals.{MayRefuseDecode};
ghost use Rattle.codec_traits.specs.declared.representation.BytesRepresentation.TheVariants.{FixedSize};
ghost use Rattle.codec_chains.specs.Chains.{inner_bytes, chain_bytes};

use crate::bytes_to_bytes::{BytesToBytesCodecTraits, FunctionalBytesCodec};
use codec_traits::{
    ArrayToBytesCodecTraits, BytesRepresentation, FunctionalCodec, RecommendedConcurrency,
};
use parts_arrays::{ArrayBytes, DataType, FillValue};
use parts_errors::{CodecError, CodecOptions};
use parts_subsets::{ChunkShape, Indexer, check_selection};
use std::alloc::Global;
use std::borrow::CowSlice;
use storage_handles::{
    ByteRange, BytesPartialDecoderTraits, Interval, SliceHandle, check_interval, read_range,
};

/// A codec from arrays to bytes with a codec from bytes to bytes after it, which encodes its bytes once more. It serves
/// what `C` serves.
#[derive(Debug, Drop)]
pub struct BytesChain<C, B> {
    /// The codec from arrays to bytes, which is the first to encode.
    pub array_to_bytes: C,
    /// The codec from bytes to bytes after it.
    pub bytes_to_bytes: B,
}

impl<C, B> BytesChain<C, B> {
    /// The first codec with the second one behind it.
    pub fn new(array_to_bytes: C, bytes_to_bytes: B) -> Self
        ensures { result ≡ record { array_to_bytes = array_to_bytes; bytes_to_bytes = bytes_to_bytes } }
    {
        BytesChain {
            array_to_bytes,
            bytes_to_bytes,
        }
    }
}

// How long the encodings of a codec are, or `None` where no number can say it. Refused only as `OutOfMemory`.
fn told_representation<C: ArrayToBytesCodecTraits>(
    codec: &C,
    alloc: Global,
    shape: &ChunkShape,
    data_type: &DataType,
    fill_value: &FillValue,
) -> Result<Option<BytesRepresentation>, CodecError>
    requires { (C.meaning codec.now (array_spec shape.now data_type.now fill_value.now)).serves }
    ensures told { let m = C.meaning codec.now (array_spec shape.now data_type.now fill_value.now) in
        IfOk result (λ told. told ≡ m.representation) }
    ensures refused { IfErr result (λ e. e ≡ OutOfMemory) }
{
    match codec.encoded_representation(alloc, shape, data_type, fill_value) {
        Ok(told) => Ok(Some(told)),
        Err(CodecError::TooLarge) => Ok(None),
        Err(error) => Err(error),
    }
}

// The bytes that these are an encoding of, which must have this length. Refused as `Damaged` where these are no encoding, or
// one of bytes of another length.
fn decode_sized<'a, B: BytesToBytesCodecTraits>(
    codec: &B,
    alloc: Global,
    bytes: &'a [u8],
    size: u64,
) -> Result<CowSlice<'a, u8>, CodecError>
    ensures decoded { IfOk result (λ inner. inner_bytes (Some (FixedSize size)) ((B.coding codec.now).decoding bytes.now) ≡ Some (cow_slice_items inner)) }
    ensures refused { IfErr result (RefusedBy (
        IsSome (inner_bytes (Some (FixedSize size)) ((B.coding codec.now).decoding bytes.now)) or Damaged then
        done)) }
{
    let inner = codec.decode_within(alloc, bytes, size as usize)?;
    if inner.len() as u64 != size {
        return Err(CodecError::Damaged);
    }
    Ok(inner)
}

// The bytes that these are an encoding of, which must have the fixed length that is known of them, if any. Refused as
// `Damaged` where these are no encoding, or one of bytes of another length.
#[tactic(auto, unfolding(crate::specs::Chains::inner_bytes))]
fn decode_told<'a, B: BytesToBytesCodecTraits>(
    codec: &B,
    alloc: Global,
    bytes: &'a [u8],
    told: Option<BytesRepresentation>,
) -> Result<CowSlice<'a, u8>, CodecError>
    ensures decoded { IfOk result (λ inner. inner_bytes told ((B.coding codec.now).decoding bytes.now) ≡ Some (cow_slice_items inner)) }
    ensures refused { IfErr result (RefusedBy (
        IsSome (inner_bytes told ((B.coding codec.now).decoding bytes.now)) or Damaged then
        done)) }
{
    let Some(BytesRepresentation::FixedSize(size)) = told else {
        return codec.decode(alloc, bytes);
    };
    decode_sized(codec, alloc, bytes, size)
}

// The bytes that the first codec wrote, by the second one. Where the first tells a fixed length, no more bytes are decoded.
// Refused as `Damaged` where these are no encoding of the second, or one of bytes of another length.
fn decode_bytes<'a, C: ArrayToBytesCodecTraits, B: BytesToBytesCodecTraits>(
    chain: &BytesChain<C, B>,
    alloc: Global,
    bytes: &'a [u8],
    shape: &ChunkShape,
    data_type: &DataType,
    fill_value: &FillValue,
) -> Result<CowSlice<'a, u8>, CodecError>
    requires { (C.meaning chain.now.array_to_bytes (array_spec shape.now data_type.now fill_value.now)).serves }
    ensures decoded { let m = C.meaning chain.now.array_to_bytes (array_spec shape.now data_type.now fill_value.now) in
        IfOk result (λ inner. chain_bytes (B.coding chain.now.bytes_to_bytes) m bytes.now ≡ Some (cow_slice_items inner)) }
    ensures refused { let m = C.meaning chain.now.array_to_bytes (array_spec shape.now data_type.now fill_value.now) in
        IfErr result (RefusedBy (
        IsSome (chain_bytes (B.coding chain.now.bytes_to_bytes) m bytes.now) or Damaged then
        done)) }
{
    let told = told_representation(&chain.array_to_bytes, alloc, shape, data_type, fill_value)?;
    decode_told(&chain.bytes_to_bytes, alloc, bytes, told)
}

// Decodes bytes that it lets go, to an array with bytes of its own.
fn decode_owned<C: ArrayToBytesCodecTraits>(
    codec: &C,
    alloc: Global,
    bytes: Vec<u8>,
    shape: &ChunkShape,
    data_type: &DataType,
    fill_value: &FillValue,
    options: &CodecOptions,
) -> Result<ArrayBytes<'static>, CodecError>
    requires { (C.meaning codec.now (array_spec shape.now data_type.now fill_value.now)).serves }
    ensures array { let g = array_spec shape.now data_type.now fill_value.now in
        IfOk result (λ array. (array.kind ≡ size_of data_type.now) × IsArrayOf g array.elements) }
    ensures cells { let m = C.meaning codec.now (array_spec shape.now data_type.now fill_value.now) in
        IfOk result (λ array. m.cells bytes.items ≡ map Some array.elements) }
    ensures lawful { let m = C.meaning codec.now (array_spec shape.now data_type.now fill_value.now) in
        IfErr result (MayRefuseDecode (m.cells bytes.items)) }
    ensures refused { let m = C.meaning codec.now (array_spec shape.now data_type.now fill_value.now) in
        IfErr result (RefusedBy (m.decode_refusals bytes.items)) }
{
    let array = codec.decode(alloc, &bytes, shape, data_type, fill_value, options)?;
    let owned = array.into_owned(alloc)?;
    Ok(owned)
}

// Decodes bytes that are lent on or owned.
fn decode_inner<'a, C: ArrayToBytesCodecTraits>(
    codec: &C,
    alloc: Global,
    inner: CowSlice<'a, u8>,
    shape: &ChunkShape,
    data_type: &DataType,
    fill_value: &FillValue,
    options: &CodecOptions,
) -> Result<ArrayBytes<'a>, CodecError>
    requires { (C.meaning codec.now (array_spec shape.now data_type.now fill_value.now)).serves }
    ensures array { let g = array_spec shape.now data_type.now fill_value.now in
        IfOk result (λ array. (array.kind ≡ size_of data_type.now) × IsArrayOf g array.elements) }
    ensures cells { let m = C.meaning codec.now (array_spec shape.now data_type.now fill_value.now) in
        IfOk result (λ array. m.cells (cow_slice_items inner.entry) ≡ map Some array.elements) }
    ensures lawful { let m = C.meaning codec.now (array_spec shape.now data_type.now fill_value.now) in
        IfErr result (MayRefuseDecode (m.cells (cow_slice_items inner.entry))) }
    ensures refused { let m = C.meaning codec.now (array_spec shape.now data_type.now fill_value.now) in
        IfErr result (RefusedBy (m.decode_refusals (cow_slice_items inner.entry))) }
{
    match inner {
        CowSlice::Borrowed(bytes) => {
            codec.decode(alloc, bytes, shape, data_type, fill_value, options)
        }
        CowSlice::Owned(bytes) => {
            decode_owned(codec, alloc, bytes, shape, data_type, fill_value, options)
        }
    }
}

impl<C: ArrayToBytesCodecTraits, B: BytesToBytesCodecTraits> ArrayToBytesCodecTraits
    for BytesChain<C, B> {
    ghost use Rattle.codec_chains.specs.Chains.{chain_meaning};
    ghost use Rattle.codec_chains.specs.ChainLaws.{chain_lawful};

    ghost meaning = { λ s g. chain_meaning (B.coding s.bytes_to_bytes) (C.meaning s.array_to_bytes g) g };

    ghost concurrency = { λ s shape. C.concurrency s.array_to_bytes shape };

    ghost lawful = { λ s g. chain_lawful (B.coding s.bytes_to_bytes) (C.meaning s.array_to_bytes g) g
        (B.invertible s.bytes_to_bytes) (B.bounded s.bytes_to_bytes) (C.lawful s.array_to_bytes g) };

    ghost concurrency_faultless = { λ s shape e h. C.concurrency_faultless s.array_to_bytes shape e h };

    /// Refused as `check` of the first codec.
    fn check(
        &self,
        alloc: Global,
        shape: &ChunkShape,
        data_type: &DataType,
        fill_value: &FillValue,
    ) -> Result<(), CodecError> {
        self.array_to_bytes
            .check(alloc, shape, data_type, fill_value)
    }

    /// Encodes by the first codec, and its bytes by the second. Refused as `encode` of the first codec, then as `TooLarge`
    /// only where some encoding by the second passes `usize::MAX`; or as `OutOfMemory`.
    fn encode(
        &self,
        alloc: Global,
        bytes: &ArrayBytes,
        shape: &ChunkShape,
        data_type: &DataType,
        fill_value: &FillValue,
        options: &CodecOptions,
    ) -> Result<Vec<u8>, CodecError> {
        let inner = self
            .array_to_bytes
            .encode(alloc, bytes, shape, data_type, fill_value, options)?;
        let encoded = self.bytes_to_bytes.encode(alloc, &inner)?;
        Ok(encoded)
    }

    /// Decodes by the second codec, and its bytes by the first. Where the first tells a fixed length, the second decodes no
    /// more bytes. Refused as `check` refuses, then as `Damaged` where the bytes are no encoding of the second, or one of
    /// another length than the first tells, then as `decode` of the first.
    fn decode<'a>(
        &self,
        alloc: Global,
        bytes: &'a [u8],
        shape: &ChunkShape,
        data_type: &DataType,
        fill_value: &FillValue,
        options: &CodecOptions,
    ) -> Result<ArrayBytes<'a>, CodecError> {
        self.array_to_bytes
            .check(alloc, shape, data_type, fill_value)?;
        let _axes = shape.as_slice();
        let inner = decode_bytes(self, alloc, bytes, shape, data_type, fill_value)?;
        decode_inner(
            &self.array_to_bytes,
            alloc,
            inner,
            shape,
            data_type,
            fill_value,
            options,
        )
    }

    /// As many as the first codec tells, and refused as it refuses.
    fn recommended_concurrency(
        &self,
        shape: &ChunkShape,
        data_type: &DataType,
    ) -> Result<RecommendedConcurrency, CodecError> {
        self.array_to_bytes
            .recommended_concurrency(shape, data_type)
    }

    /// How long encodings are by the second codec, of bytes that are as long as the first one tells. Refused as the first
    /// codec refuses.
    fn encoded_representation(
        &self,
        alloc: Global,
        shape: &ChunkShape,
        data_type: &DataType,
        fill_value: &FillValue,
    ) -> Result<BytesRepresentation, CodecError> {
        let inner = self
            .array_to_bytes
            .encoded_representation(alloc, shape, data_type, fill_value)?;
        Ok(self.bytes_to_bytes.encoded_representation(inner))
    }

    /// Reads the whole interval, and by the first codec the requested cells of the bytes that the second decodes, as `decode`
    /// does. Refused as the trait says, then as `Damaged` where the bytes are no encoding of the second codec, or one of
    /// another length than the first tells, then as the first refuses these bytes.
    fn partial_decode<H: BytesPartialDecoderTraits, N: Indexer>(
        &self,
        alloc: Global,
        handle: &mut H,
        interval: Interval,
        shape: &ChunkShape,
        data_type: &DataType,
        fill_value: &FillValue,
        indexer: &N,
        options: &CodecOptions,
    ) -> Result<ArrayBytes<'static>, CodecError> {
        self.array_to_bytes
            .check(alloc, shape, data_type, fill_value)?;
        let _axes = shape.as_slice();
        let _ = check_selection(indexer, shape)?;
        check_interval(handle, interval)?;
        let mut room = Vec::new(alloc);
        let range = ByteRange::FromStart(interval.offset, Some(interval.size));
        let Some(bytes) = read_range(handle, &mut room, alloc, range)? else {
            return Err(CodecError::OutOfBounds);
        };
        let inner = decode_bytes(self, alloc, bytes, shape, data_type, fill_value)?;
        let whole = Interval {
            offset: 0,
            size: inner.len() as u64,
        };
        let mut inner_handle = SliceHandle::new(&inner);
        let cells = self.array_to_bytes.partial_decode(
            alloc,
            &mut inner_handle,
            whole,
            shape,
            data_type,
            fill_value,
            indexer,
            options,
        )?;
        Ok(cells)
    }
}

impl<C: FunctionalCodec, B: FunctionalBytesCodec> FunctionalCodec for BytesChain<C, B> {
    ghost use Rattle.std.specs.Prelude.{◌&&◌};
    ghost use Rattle.std.proofs.lemmas.Bool.{and_parts};
    ghost use Rattle.codec_chains.specs.ChainLaws.{chained_encoding};

    ghost functional = { λ s. C.functional s.array_to_bytes && B.functional s.bytes_to_bytes };

    ghost encoding = { λ s g elements. B.encoding s.bytes_to_bytes (C.encoding s.array_to_bytes g elements) };

    /// Where both codecs are.
    fn is_functional(&self) -> bool {
        self.array_to_bytes.is_functional() && self.bytes_to_bytes.is_functional()
    }

    ghost one_encoding = { λ s g elements b functional serves array written.
        let both = and_parts (C.functional s.array_to_bytes) (B.functional s.bytes_to_bytes) functional in
        chained_encoding _ (B.coding s.bytes_to_bytes) (B.encoding s.bytes_to_bytes) elements b (C.encoding s.array_to_bytes g elements) written
        (λ inner h. C.one_encoding s.array_to_bytes g elements inner both.0 serves array h)
        (λ inner encoded h. B.one_encoding s.bytes_to_bytes inner encoded both.1 h) };
}
