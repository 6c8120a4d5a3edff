// Subchunks of a shard, decoded in parallel.
ghost use Rattle.std.specs.Prelude.{◌≡◌, ◌<◌, ◌/◌, ℕ, Some, None, IfOk, IfErr, length, slice_index_or};
ghost use Rattle.parts_errors.specs.Order.{done, RefusedBy};
ghost use Rattle.sharding_format.specs.Index.{slot_at};
ghost use Rattle.sharding_format.specs.DecodeRefusals.{RefusesSubchunk, SubchunkRefusals};
ghost use Rattle.sharding_format.specs.steps.Decoding.{IsDecoded};
ghost use Rattle.sharding_subchunks.specs.steps.Inner.{spec_of_subchunks, inner_meaning};

use crate::gate::Gate;
use crate::numbered::in_order;
use crate::threads::by_number;
use codec_traits::ArrayToBytesCodecTraits;
use parts_arrays::ArrayBytes;
use parts_errors::CodecError;
use sharding_format::ShardIndex;
use sharding_subchunks::Subchunks;
use std::alloc::Global;
use std::thread::Threads;

/// As `Subchunks::decode`, in parallel, each of which passes the gate first. Whichever worker is first, the refusal is that of the
/// lowest refused subchunk.
pub(crate) fn decode_subchunks<
    'a,
    R: Threads + Sync,
    I: ArrayToBytesCodecTraits + Sync,
    G: Gate + Sync,
>(
    rt: &R,
    alloc: Global,
    subchunks: &Subchunks<I>,
    bytes: &'a [u8],
    index: &ShardIndex,
    gate: &G,
) -> Result<Vec<Option<ArrayBytes<'a>>>, CodecError>
    requires serves { (inner_meaning I.meaning subchunks.now).serves }
    requires len { index.now.len ≡ length bytes.now }
    ensures counted { IfOk result (λ found. length found.items ≡ length index.now.numbers.items / 2) }
    ensures decoded { let inner = inner_meaning I.meaning subchunks.now in
        IfOk result (λ found. (k : ℕ) → k < length found.items
        → IsDecoded inner.cells (spec_of_subchunks subchunks.now) bytes.now (slot_at (length bytes.now) index.now.numbers.items k) (slice_index_or found.items k None)) }
    ensures refused { let inner = inner_meaning I.meaning subchunks.now in
        IfErr result (RefusedBy (SubchunkRefusals inner.decode_refusals inner.cells bytes.now (Some index.now.numbers.items) (length index.now.numbers.items / 2) done)) }
{
    let results = by_number(
        rt,
        alloc,
        index.subchunks() as u64,
        |number: u64| -> Result<Option<ArrayBytes>, CodecError>
            requires { (number < length index.now.numbers.items / 2) × (index.now.len ≡ length bytes.now) × (inner_meaning I.meaning subchunks.now).serves }
            ensures decoded { let inner = inner_meaning I.meaning subchunks.entry.now in
                IfOk result (IsDecoded inner.cells (spec_of_subchunks subchunks.entry.now) bytes.entry.now (slot_at (length bytes.entry.now) index.entry.now.numbers.items number)) }
            ensures refused { let inner = inner_meaning I.meaning subchunks.entry.now in
                IfErr result (RefusedBy (RefusesSubchunk inner.decode_refusals inner.cells bytes.entry.now (slot_at (length bytes.entry.now) index.entry.now.numbers.items number) number)) }
        {
            gate.pass(number);
            subchunks.decode_slot(alloc, bytes, number, index.slot(number as usize))
        },
    )?;
    let found = in_order(alloc, results)?;
    Ok(found)
}
