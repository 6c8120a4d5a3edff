// A whole shard, decoded.
ghost use Rattle.std.specs.Prelude.{◌≡◌, Some, IfOk, IfErr, map};
ghost use Rattle.parts_errors.specs.Order.{RefusedBy};
ghost use Rattle.parts_subsets.specs.Grid.{grid_of};
ghost use Rattle.parts_arrays.specs.ArraySpec.{IsArrayOf};
ghost use Rattle.parts_arrays.specs.Types.{size_of};
ghost use Rattle.sharding_format.specs.Cells.{shard_cells};
ghost use Rattle.sharding_format.specs.Serves.{ShardServes};
ghost use Rattle.sharding_format.specs.DecodeRefusals.{DecodeRefusals};
ghost use Rattle.sharding_index.specs.Indexes.{index_meaning};
ghost use Rattle.sharding_index.specs.steps.Plans.{IsPlan};
ghost use Rattle.sharding_subchunks.specs.steps.Inner.{inner_meaning};
ghost use Rattle.sharding_engine.specs.steps.Shards.{whole_spec, OfEachOrder};

use codec_traits::ArrayToBytesCodecTraits;
use parts_arrays::ArrayBytes;
use parts_errors::CodecError;
use parts_subsets::ChunkShape;
use sharding_gather::gathered;
use sharding_index::{IndexCodec, Plan};
use sharding_layout::elements_in_row;
use sharding_subchunks::{HeldShard, Subchunks};
use std::alloc::Global;

/// The elements of a shard that is served: straight from the bytes where subchunks follow one another and their elements stand in
/// these; where elements have one size and subchunks do not follow one another, each decoded to where it lies; else gathered.
/// Refused, in this order, as `ShardTooShort`, as `Damaged` where the index does not decode, as the lowest refused subchunk is
/// (`BadIndexEntry` with its number, `Damaged`, `TooLarge`), and as `TooLarge` where the elements' lengths pass `usize::MAX`; or as
/// `OutOfMemory`.
pub fn decode_shard<'a, 's, I: ArrayToBytesCodecTraits, X: ArrayToBytesCodecTraits>(
    alloc: Global,
    subchunks: &'s Subchunks<'s, I>,
    index_codec: &IndexCodec<'_, X>,
    bytes: &'a [u8],
    shape: &'s ChunkShape,
    plan: &Plan,
) -> Result<ArrayBytes<'a>, CodecError>
    requires serves { let index = index_meaning X.meaning index_codec.now.codec.now (grid_of shape.now subchunks.now.shape.now) in
        ShardServes (inner_meaning I.meaning subchunks.now) index subchunks.now.shape.now (whole_spec subchunks.now shape.now) }
    requires plan { IsPlan (index_meaning X.meaning index_codec.now.codec.now) shape.now subchunks.now.shape.now plan.now }
    ensures array { IfOk result (λ array. (array.kind ≡ size_of subchunks.now.data_type.now) × IsArrayOf (whole_spec subchunks.now shape.now) array.elements) }
    ensures cells { let inner = inner_meaning I.meaning subchunks.now in
        let index = index_meaning X.meaning index_codec.now.codec.now (grid_of shape.now subchunks.now.shape.now) in
        OfEachOrder subchunks.now shape.now index_codec.now.location index (λ l.
        IfOk result (λ array. shard_cells inner.cells index.cells l bytes.now ≡ map Some array.elements)) }
    ensures refused { let inner = inner_meaning I.meaning subchunks.now in
        let index = index_meaning X.meaning index_codec.now.codec.now (grid_of shape.now subchunks.now.shape.now) in
        OfEachOrder subchunks.now shape.now index_codec.now.location index (λ l.
        IfErr result (RefusedBy (DecodeRefusals inner index l bytes.now))) }
{
    let index = index_codec.decode(alloc, bytes, &plan.index, subchunks.options)?;
    let held = HeldShard {
        subchunks: &*subchunks,
        bytes,
        index: &index,
        shape: &*shape,
        cells: plan.cells,
    };
    let rows = held.decode_rows(alloc)?;
    if let Some(straight) = rows {
        return Ok(straight);
    }
    if subchunks.has_room(plan.cells) && elements_in_row(shape, subchunks.shape).is_none() {
        let whole = held.decode_whole(alloc)?;
        return Ok(whole);
    }
    let decoded = subchunks.decode(alloc, bytes, &index)?;
    let array = gathered(
        alloc,
        &decoded,
        plan.cells,
        shape,
        subchunks.shape,
        subchunks.data_type.size(),
        subchunks.fill_value.as_ne_bytes(),
    )?;
    Ok(array)
}
