// Subchunks of an array, encoded in parallel and laid end to end in an order.
ghost use Rattle.std.specs.Prelude.{◌≡◌, IfOk, IfErr, IsPermutation, length};
ghost use Rattle.std.specs.List.{range_with_len};
ghost use Rattle.parts_errors.specs.declared.error.CodecError.TheVariants.{OutOfMemory};
ghost use Rattle.parts_errors.specs.Order.{done, RefusedBy};
ghost use Rattle.parts_row_major.specs.Numbering.{count_of};
ghost use Rattle.parts_subsets.specs.Grid.{subchunk};
ghost use Rattle.sharding_format.specs.Encoding.{IsStored};
ghost use Rattle.sharding_format.specs.Laying.{IsStoredInOrder};
ghost use Rattle.sharding_format.specs.EncodeRefusals.{RefusesToStore, StoreRefusals};
ghost use Rattle.sharding_layout.specs.steps.Cutting.{CanBeCut};
ghost use Rattle.sharding_subchunks.specs.steps.Inner.{spec_of_subchunks, inner_meaning};
ghost use Rattle.sharding_workers.specs.steps.Storing.{CanStore, AreStored};

use crate::gate::Gate;
use crate::numbered::in_order;
use crate::threads::by_number;
use codec_traits::ArrayToBytesCodecTraits;
use parts_errors::CodecError;
use sharding_layout::{CutArray, StoredSlices, SubchunkSequence, absent_slots, placed};
use sharding_subchunks::{Stored, Subchunks};
use std::alloc::Global;
use std::thread::Threads;

// What is stored of the subchunks of an array, one after the other in the order of a sequence.
fn stored_in_sequence<I: ArrayToBytesCodecTraits>(
    alloc: Global,
    stored: &[Stored],
    sequence: &SubchunkSequence,
    _subchunks: &Subchunks<I>,
    _cut: &CutArray,
) -> Result<StoredSlices, CodecError>
    requires order { IsPermutation (range_with_len 0 (length stored.now)) sequence.now }
    requires stored { AreStored (inner_meaning I.meaning _subchunks.now).written _subchunks.now.fill_value.now _cut.now.shape.now _subchunks.now.shape.now _cut.now.array.now.elements stored.now }
    ensures stored_slices { IfOk result (λ stored_slices. IsStoredInOrder (inner_meaning I.meaning _subchunks.now).written _subchunks.now.fill_value.now _cut.now.shape.now
        _subchunks.now.shape.now _cut.now.array.now.elements stored_slices.bytes.items stored_slices.slots.items sequence.now (length stored.now)) }
    ensures refused { IfErr result (λ e. e ≡ OutOfMemory) }
{
    let mut bytes: Vec<u8> = Vec::new(alloc);
    let mut slots = absent_slots(alloc, stored.len())?;
    for position in 0..stored.len() {
        let number = sequence.number_at(position as u64) as usize;
        let part = &stored[number];
        let slot = placed(part.present, bytes.len() as u64, part.bytes.len() as u64);
        bytes.extend_from_slice(&part.bytes)?;
        slots[number] = slot;
    }
    Ok(StoredSlices { bytes, slots })
}

/// As `Subchunks::store_all_after`, the data part alone: in parallel, each of which passes the gate first. Whichever worker is first,
/// the slices lie in the order of the sequence, and the refusal is that of the lowest refused subchunk.
pub(crate) fn lay_out_subchunks<
    R: Threads + Sync,
    I: ArrayToBytesCodecTraits + Sync,
    G: Gate + Sync,
>(
    rt: &R,
    alloc: Global,
    subchunks: &Subchunks<I>,
    cut: &CutArray,
    sequence: &SubchunkSequence,
    gate: &G,
) -> Result<StoredSlices, CodecError>
    requires serves { (inner_meaning I.meaning subchunks.now).serves }
    requires cut { CanBeCut (spec_of_subchunks subchunks.now) cut.now }
    requires order { IsPermutation (range_with_len 0 (count_of cut.now.grid.now)) sequence.now }
    ensures stored_slices { let inner = inner_meaning I.meaning subchunks.now in
        IfOk result (λ stored_slices. IsStoredInOrder inner.written subchunks.now.fill_value.now cut.now.shape.now subchunks.now.shape.now cut.now.array.now.elements
        stored_slices.bytes.items stored_slices.slots.items sequence.now (count_of cut.now.grid.now)) }
    ensures refused { let inner = inner_meaning I.meaning subchunks.now in
        IfErr result (RefusedBy (StoreRefusals inner subchunks.now.fill_value.now
        (subchunk cut.now.shape.now subchunks.now.shape.now cut.now.array.now.elements) (count_of cut.now.grid.now) done)) }
{
    let results = by_number(
        rt,
        alloc,
        sequence.len(),
        |number: u64| -> Result<Stored, CodecError>
            requires { CanStore I.meaning subchunks.now cut.now number }
            ensures stored { let inner = inner_meaning I.meaning subchunks.entry.now in
                IfOk result (λ stored. IsStored inner.written subchunks.entry.now.fill_value.now
                (subchunk cut.entry.now.shape.now subchunks.entry.now.shape.now cut.entry.now.array.now.elements number) stored.present stored.bytes.items) }
            ensures refused { let inner = inner_meaning I.meaning subchunks.entry.now in
                IfErr result (RefusedBy (RefusesToStore inner.encodable inner.fits subchunks.entry.now.fill_value.now
                (subchunk cut.entry.now.shape.now subchunks.entry.now.shape.now cut.entry.now.array.now.elements number))) }
        {
            gate.pass(number);
            subchunks.stored_at(alloc, cut, number)
        },
    )?;
    let stored = in_order(alloc, results)?;
    let stored_slices = stored_in_sequence(alloc, &stored, sequence, subchunks, cut)?;
    Ok(stored_slices)
}
