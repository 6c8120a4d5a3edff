// What the codecs of a shard tell of it.
ghost use Rattle.std.specs.Prelude.{◌≡◌, Some, IsSome, IfOk, IfErr, OnOk};
ghost use Rattle.parts_errors.specs.Order.{◌or◌then◌, ◌or_as◌then◌, done, RefusedBy};
ghost use Rattle.parts_errors.specs.declared.error.CodecError.TheVariants.{TooLarge};
ghost use Rattle.parts_row_major.specs.Numbering.{count_of};
ghost use Rattle.parts_subsets.specs.Grid.{grid_of};
ghost use Rattle.codec_traits.specs.Refusals.{RefusesUnserved};
ghost use Rattle.sharding_format.specs.Grids.{IsCut, ConcurrencyRefusals};
ghost use Rattle.sharding_format.specs.Serves.{subchunk_spec, shard_representation};
ghost use Rattle.sharding_index.specs.steps.Plans.{spec_of};

use codec_traits::{ArrayToBytesCodecTraits, BytesRepresentation, RecommendedConcurrency};
use parts_errors::CodecError;
use parts_subsets::ChunkShape;
use sharding_format::{ArraySpecRef, count_subchunks};
use std::alloc::Global;

/// What the inner codec tells of the length of a subchunk's encoding. Refused as its `check` refuses, and as `TooLarge` where no
/// number can say it.
pub fn told_of_subchunks<I: ArrayToBytesCodecTraits>(
    alloc: Global,
    inner: &I,
    subchunk_shape: &ChunkShape,
    spec: &ArraySpecRef,
) -> Result<BytesRepresentation, CodecError>
    ensures told { let m = I.meaning inner.now (subchunk_spec subchunk_shape.now (spec_of spec.now)) in
        IfOk result (λ told. m.representation ≡ Some told) }
    ensures refused { let m = I.meaning inner.now (subchunk_spec subchunk_shape.now (spec_of spec.now)) in
        IfErr result (RefusedBy (
        m.serves or_as RefusesUnserved m then
        IsSome m.representation or TooLarge then
        done)) }
{
    inner.encoded_representation(alloc, subchunk_shape, spec.data_type, spec.fill_value)
}

/// How long encodings of a shard are, by what is told of its subchunks, of which there are so many, and by the size of its index:
/// no more than all of these together. Refused as `TooLarge` where no number can say it.
pub fn shard_bound(
    told: BytesRepresentation,
    subchunks: u64,
    index_size: u64,
) -> Result<BytesRepresentation, CodecError>
    ensures bound { IfOk result (λ bound. shard_representation (Some told) subchunks index_size ≡ Some bound) }
    ensures refused { IfErr result (IsSome (shard_representation (Some told) subchunks index_size) or TooLarge then done) }
{
    let size = match told {
        BytesRepresentation::FixedSize(size) => size,
        BytesRepresentation::BoundedSize(size) => size,
        BytesRepresentation::UnboundedSize => return Ok(BytesRepresentation::UnboundedSize),
    };
    let Some(all) = subchunks.checked_mul(size) else {
        return Err(CodecError::TooLarge);
    };
    let Some(total) = all.checked_add(index_size) else {
        return Err(CodecError::TooLarge);
    };
    Ok(BytesRepresentation::BoundedSize(total))
}

/// As many workers as there are subchunks. Refused, in this order, as `IncompatibleDimensionality`, as `InvalidSubchunkShape`, and
/// as `TooLarge` where no number can say how many these are.
pub fn recommended_workers(
    shape: &ChunkShape,
    subchunk_shape: &ChunkShape,
) -> Result<RecommendedConcurrency, CodecError>
    ensures served { OnOk result (IsCut shape.now subchunk_shape.now) }
    ensures workers { IfOk result (λ told. told ≡ count_of (grid_of shape.now subchunk_shape.now)) }
    ensures refused { IfErr result (ConcurrencyRefusals shape.now subchunk_shape.now) }
{
    let subchunks = count_subchunks(shape.as_slice(), subchunk_shape.as_slice())?;
    Ok(RecommendedConcurrency::new_maximum(subchunks as usize))
}
