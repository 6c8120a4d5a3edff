// Chunks that are encoded.
ghost use Rattle.std.specs.Prelude.{◌≡◌, ◌⊎◌, IfOk, IfErr, IfSome, OnOk};
ghost use Rattle.parts_errors.specs.Order.{◌or_as◌then◌, RefusedBy};
ghost use Rattle.parts_arrays.specs.ArraySpec.{array_spec, IsArrayOf};
ghost use Rattle.parts_arrays.specs.Types.{size_of};
ghost use Rattle.storage_handles.specs.Handles.{seen};
ghost use Rattle.codec_traits.specs.Refusals.{RefusesUnserved};
ghost use Rattle.sharding_format.specs.Encoding.{IsAllFill};
ghost use Rattle.array_cli.specs.ChunkRefusals.{HasRoom, FitAtStart, IsChunkRefusal};
ghost use Rattle.array_cli.specs.NewChunks.{IsStored, IsStoredChunk};

use crate::padded::padded_chunk;
use array_metadata::ArrayMetadata;
use codec_traits::ArrayToBytesCodecTraits;
use parts_arrays::ArrayBytes;
use parts_errors::{CodecError, CodecOptions};
use std::alloc::Global;

/// The bytes of a chunk that has these elements, in row-major order, or `None` exactly where each of them is the fill value: then it has no
/// file (Zarr V3 core, "Chunk keys"). Refused as the codec's `encode` refuses, and only where not all are.
pub fn encode_chunk<C: ArrayToBytesCodecTraits>(
    alloc: Global,
    codec: &C,
    elements: &ArrayBytes,
    metadata: &ArrayMetadata,
) -> Result<Option<Vec<u8>>, CodecError>
    ensures stored { let m = C.meaning codec.now (array_spec metadata.now.shard metadata.now.data_type metadata.now.fill_value) in
        IfOk result (λ chunk. IsStored m.written metadata.now.fill_value elements.now.elements (seen (λ bytes. bytes.items) chunk)) }
    ensures serves { let m = C.meaning codec.now (array_spec metadata.now.shard metadata.now.data_type metadata.now.fill_value) in
        IfOk result (λ chunk. IfSome chunk (λ bytes. m.serves)) }
    ensures array { let g = array_spec metadata.now.shard metadata.now.data_type metadata.now.fill_value in
        IfOk result (λ chunk. IfSome chunk (λ bytes. (elements.now.kind ≡ size_of g.data_type) × IsArrayOf g elements.now.elements)) }
    ensures not_fill { IfErr result (λ e. ¬ (IsAllFill metadata.now.fill_value elements.now.elements)) }
    ensures refused { let m = C.meaning codec.now (array_spec metadata.now.shard metadata.now.data_type metadata.now.fill_value) in
        IfErr result (RefusedBy (
        m.serves or_as RefusesUnserved m then
        m.encode_refusals elements.now)) }
{
    if elements.is_fill_value(&metadata.fill_value) {
        return Ok(None);
    }
    let (shard, data_type) = (&metadata.shard, &metadata.data_type);
    let options = CodecOptions::default();
    let bytes = codec.encode(
        alloc,
        elements,
        shard,
        data_type,
        &metadata.fill_value,
        &options,
    )?;
    Ok(Some(bytes))
}

/// The bytes of a chunk at whose start elements stand that have a shape, and which has fill values behind them, as a chunk that reaches past
/// the end of the array (Zarr V3 core, "Regular grids"); `None` as `encode_chunk` says. Refused as `padded_chunk` refuses, and then as
/// `encode_chunk`.
pub fn encode_padded<C: ArrayToBytesCodecTraits>(
    alloc: Global,
    codec: &C,
    shape: &[u64],
    elements: &ArrayBytes,
    metadata: &ArrayMetadata,
) -> Result<Option<Vec<u8>>, CodecError>
    ensures stored { let m = C.meaning codec.now (array_spec metadata.now.shard metadata.now.data_type metadata.now.fill_value) in
        IfOk result (λ chunk. IsStoredChunk m.written metadata.now.fill_value shape.now metadata.now.shard elements.now (seen (λ bytes. bytes.items) chunk)) }
    ensures serves { let m = C.meaning codec.now (array_spec metadata.now.shard metadata.now.data_type metadata.now.fill_value) in
        IfOk result (λ chunk. IfSome chunk (λ bytes. m.serves)) }
    ensures passed { let fill = metadata.now.fill_value in let chunk = metadata.now.shard in
        OnOk result ((shape.now ≡ chunk) ⊎ (HasRoom chunk fill × FitAtStart fill shape.now chunk elements.now)) }
    ensures refused { let m = C.meaning codec.now (array_spec metadata.now.shard metadata.now.data_type metadata.now.fill_value) in
        IfErr result (IsChunkRefusal m metadata.now.fill_value shape.now metadata.now.shard elements.now) }
{
    let whole = metadata.shard.as_slice();
    if shape == whole {
        let chunk = encode_chunk(alloc, codec, elements, metadata)?;
        return Ok(chunk);
    }
    let cells = padded_chunk(alloc, whole, &metadata.fill_value, shape, elements)?;
    let padded = cells.array();
    let chunk = encode_chunk(alloc, codec, &padded, metadata)?;
    Ok(chunk)
}
