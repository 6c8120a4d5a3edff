// How the chunks of an array are cut into subchunks.
ghost use Rattle.std.specs.Prelude.{◌≡◌, ℕ, List, IfOk, OnOk, IsTrue, length};
ghost use Rattle.array_metadata.specs.ArrayCodecs.{encoded_of, subchunk_of, HasAxes};
ghost use Rattle.parts_subsets.specs.Grid.{Divides};

use crate::array_codec::ArrayCodec;
use crate::codecs::ShardsCodec;
use crate::inner_codec::InnerCodec;
use array_fields::MetadataError;
use codec_metadata::PluginCreateError;
use parts_subsets::ChunkShape;
use std::alloc::{AllocError, Global};

// Whether subchunks divide a shape with as many axes evenly.
fn divides(shape: &ChunkShape, part: &ChunkShape) -> bool
    ensures { IsTrue result → Divides part.now shape.now }
{
    let (shape, part) = (shape.as_slice(), part.as_slice());
    if shape.len() != part.len() {
        return false;
    }
    for axis in 0..shape.len() {
        if shape[axis] % part[axis] != 0 {
            return false;
        }
    }
    true
}

// Tests that subchunks divide a shard evenly. Refused as `BadField` with both shapes.
fn test_division(
    alloc: Global,
    place: &str,
    shard: &ChunkShape,
    subchunk: &ChunkShape,
) -> Result<(), MetadataError>
    ensures { OnOk result (Divides subchunk.now shard.now) }
{
    if divides(shard, subchunk) {
        return Ok(());
    }
    let (shard, subchunk) = (shard.as_slice(), subchunk.as_slice());
    let sentence = format!(in alloc;
        "subchunks of the shape {subchunk:?} do not divide a shard of the shape {shard:?} evenly"
    )?;
    let error = PluginCreateError::bad_field(alloc, "chunk_shape");
    Err(MetadataError::refused(alloc, error, place, sentence.as_str()))
}

// Tests that subchunks divide shards evenly, and those of a subchunk that is a shard this. Refused as `BadField`.
fn test_shards(alloc: Global, shard: &ChunkShape, codec: &ShardsCodec) -> Result<(), MetadataError>
    ensures { OnOk result (Divides codec.now.subchunk_shape shard.now) }
{
    let place = "codecs[0].configuration.chunk_shape";
    test_division(alloc, place, shard, &codec.subchunk_shape)?;
    match &codec.inner {
        InnerCodec::Shards(inner) => {
            let place = "codecs[0].configuration.codecs[0].configuration.chunk_shape";
            test_division(alloc, place, &codec.subchunk_shape, &inner.subchunk_shape)
        }
        _ => Ok(()),
    }
}

// Tests that subchunks divide the chunks of an array evenly, in the shape in which these are cut. Refused as `BadField`.
fn test_subchunks(
    alloc: Global,
    encoded: &ChunkShape,
    codec: &ArrayCodec,
) -> Result<(), MetadataError>
    ensures { OnOk result ((chunk : List ℕ) → encoded_of codec.now chunk ≡ encoded.now → Divides (subchunk_of codec.now chunk) encoded.now) }
{
    match codec {
        ArrayCodec::Sharded(shards) => test_shards(alloc, encoded, shards),
        ArrayCodec::Transposed(transposed) => {
            let place = "codecs[1].configuration.chunk_shape";
            test_division(alloc, place, encoded, &transposed.codec.subchunk_shape)
        }
        ArrayCodec::Unsharded(_) => test_division(alloc, "codecs", encoded, encoded),
    }
}

// The shape in which chunks with a codec are cut into subchunks.
fn encoded_of(
    alloc: Global,
    codec: &ArrayCodec,
    chunk: &ChunkShape,
) -> Result<ChunkShape, AllocError>
    requires axes { HasAxes (length chunk.now) codec.now }
    ensures shape { IfOk result (λ shape. shape ≡ encoded_of codec.now chunk.now) }
    ensures axes { IfOk result (λ shape. length shape ≡ length chunk.now) }
{
    match codec {
        ArrayCodec::Transposed(transposed) => transposed.order.transposed_shape(alloc, chunk),
        ArrayCodec::Sharded(_) | ArrayCodec::Unsharded(_) => chunk.try_clone(alloc),
    }
}

// The shape of a subchunk of chunks with a codec.
fn subchunk_of(
    alloc: Global,
    codec: &ArrayCodec,
    chunk: &ChunkShape,
) -> Result<ChunkShape, AllocError>
    ensures { IfOk result (λ shape. shape ≡ subchunk_of codec.now chunk.now) }
{
    match codec {
        ArrayCodec::Sharded(shards) => shards.subchunk_shape.try_clone(alloc),
        ArrayCodec::Transposed(transposed) => transposed.codec.subchunk_shape.try_clone(alloc),
        ArrayCodec::Unsharded(_) => chunk.try_clone(alloc),
    }
}

// How a codec cuts the chunks of an array: the shape in which they are cut, and that of a subchunk.
#[derive(Drop)]
pub(crate) struct Cut {
    pub(crate) encoded: ChunkShape,
    pub(crate) subchunk: ChunkShape,
}

// How a codec cuts chunks of a shape. Refused as `BadField` where subchunks do not divide them evenly.
pub(crate) fn cut_of(
    alloc: Global,
    codec: &ArrayCodec,
    chunk: &ChunkShape,
) -> Result<Cut, MetadataError>
    requires axes { HasAxes (length chunk.now) codec.now }
    ensures encoded { IfOk result (λ cut. encoded_of codec.now chunk.now ≡ cut.encoded) }
    ensures encoded_axes { IfOk result (λ cut. length cut.encoded ≡ length chunk.now) }
    ensures divides { IfOk result (λ cut. Divides cut.subchunk cut.encoded) }
    ensures axes { IfOk result (λ cut. length cut.subchunk ≡ length chunk.now) }
    ensures subchunk { IfOk result (λ cut. subchunk_of codec.now chunk.now ≡ cut.subchunk) }
{
    let encoded = encoded_of(alloc, codec, chunk)?;
    test_subchunks(alloc, &encoded, codec)?;
    let subchunk = subchunk_of(alloc, codec, chunk)?;
    Ok(Cut { encoded, subchunk })
}
