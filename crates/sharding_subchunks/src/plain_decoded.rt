// Subchunks whose elements stand in a shard as they are in memory, decoded straight from its bytes.
ghost use Rattle.std.specs.Prelude.{◌≡◌, ◌≢◌, ◌+◌, ◌*◌, ◌^◌, ◌<◌, ◌≤◌, ◌++◌, [], IfOk, IfErr, IfSome, OnOk, ℕ, length, replicate};
ghost use Rattle.std.specs.List.{concat};
ghost use Rattle.parts_row_major.specs.Numbering.{count_of};
ghost use Rattle.parts_subsets.specs.Grid.{Divides, grid_of, cell_number};
ghost use Rattle.parts_arrays.specs.ArraySpec.{array_spec};
ghost use Rattle.parts_arrays.specs.Types.{size_of};
ghost use Rattle.parts_errors.specs.declared.error.CodecError.TheVariants.{OutOfMemory};
ghost use Rattle.sharding_format.specs.steps.Decoding.{FitsSlot};
ghost use Rattle.sharding_subchunks.specs.steps.Inner.{inner_meaning};
ghost use Rattle.sharding_subchunks.specs.steps.DecodedRows.{IsPlainSlot, plain_bytes, bytes_of_run, AreRowsOfShard, AreGathered};

use crate::held_shard::HeldShard;
use codec_traits::ArrayToBytesCodecTraits;
use parts_arrays::{ArrayBytes, repeated};
use parts_errors::CodecError;
use parts_subsets::ChunkShape;
use sharding_format::{ShardIndex, Slot};
use sharding_layout::elements_in_run;
use std::alloc::{AllocError, Global};
use std::borrow::CowSlice;

// What each subchunk has: its fill value, how many places, and how many bytes their elements have together.
#[derive(Clone, Copy)]
struct PlainSubchunk<'a> {
    fill: &'a [u8],
    positions: usize,
    size: usize,
}

// Neighbouring bytes of a shard.
#[derive(Clone, Copy)]
struct Run {
    from: usize,
    len: usize,
}

// Adds the bytes of a run behind others.
fn push_run(bytes: &mut Vec<u8>, shard: &[u8], run: Run) -> Result<(), AllocError>
    requires { run.from + run.len ≤ length shard.now }
    ensures { OnOk result (bytes.new.items ≡ bytes.old.items ++ bytes_of_run shard.now run) }
{
    bytes.extend_from_slice(&shard[run.from..run.from + run.len])
}

// Makes the fill value for each place of a subchunk, end to end, where it isn't made yet.
fn make_blank(
    alloc: Global,
    blank: &mut Vec<u8>,
    subchunk: &PlainSubchunk,
) -> Result<(), AllocError>
    requires fits { subchunk.now.positions * length subchunk.now.fill.now < 2 ^ 64 }
    requires blank { blank.old.items ≢ [] → blank.old.items ≡ concat (replicate subchunk.now.positions subchunk.now.fill.now) }
    ensures { OnOk result (blank.new.items ≡ concat (replicate subchunk.now.positions subchunk.now.fill.now)) }
{
    if blank.is_empty() {
        let all = repeated(alloc, subchunk.positions, subchunk.fill)?;
        *blank = all;
    }
    Ok(())
}

// Adds the elements of the subchunk that a slot names behind bytes and a run of the shard that is still to be added to them. Answers
// the run that is then still to be added, or nothing where the slot is bad or names another number of bytes.
fn add_slot(
    alloc: Global,
    bytes: &mut Vec<u8>,
    blank: &mut Vec<u8>,
    shard: &[u8],
    run: Run,
    slot: Slot,
    subchunk: &PlainSubchunk,
) -> Result<Option<Run>, AllocError>
    requires run { run.from + run.len ≤ length shard.now }
    requires slot { FitsSlot (length shard.now) slot }
    requires fits { subchunk.now.positions * length subchunk.now.fill.now < 2 ^ 64 }
    requires blank { blank.old.items ≢ [] → blank.old.items ≡ concat (replicate subchunk.now.positions subchunk.now.fill.now) }
    ensures plain { IfOk result (λ answer. IfSome answer (λ more. IsPlainSlot (length shard.now) subchunk.now.size slot)) }
    ensures run { IfOk result (λ answer. IfSome answer (λ more. more.from + more.len ≤ length shard.now)) }
    ensures added { IfOk result (λ answer. IfSome answer (λ more. bytes.new.items ++ bytes_of_run shard.now more
        ≡ (bytes.old.items ++ bytes_of_run shard.now run) ++ plain_bytes subchunk.now.fill.now subchunk.now.positions shard.now slot)) }
    ensures blank { OnOk result (blank.new.items ≢ [] → blank.new.items ≡ concat (replicate subchunk.now.positions subchunk.now.fill.now)) }
{
    match slot {
        Slot::InRange { offset, size } => {
            let from = offset as usize;
            let len = size as usize;
            if len != subchunk.size {
                return Ok(None);
            }
            if from == run.from + run.len {
                return Ok(Some(Run {
                    from: run.from,
                    len: run.len + len,
                }));
            }
            push_run(bytes, shard, run)?;
            Ok(Some(Run { from, len }))
        }
        Slot::Absent => {
            push_run(bytes, shard, run)?;
            make_blank(alloc, blank, subchunk)?;
            bytes.extend_from_slice(blank)?;
            Ok(Some(Run { from: 0, len: 0 }))
        }
        Slot::Bad => Ok(None),
    }
}

// The bytes of a shard's elements where each subchunk is one run of them: the subchunks end to end. Nothing where a slot is bad or
// names another number of bytes than each subchunk has.
fn rows(
    alloc: Global,
    shard: &[u8],
    index: &ShardIndex,
    subchunk: &PlainSubchunk,
    _shape: &ChunkShape,
    _sub: &ChunkShape,
) -> Result<Option<Vec<u8>>, AllocError>
    requires len { index.now.len ≡ length shard.now }
    requires counted { length index.now.numbers.items ≡ 2 * count_of (grid_of _shape.now _sub.now) }
    requires positions { subchunk.now.positions ≡ count_of _sub.now }
    requires size { subchunk.now.size ≡ count_of _sub.now * length subchunk.now.fill.now }
    requires fits { count_of _shape.now * length subchunk.now.fill.now < 2 ^ 64 }
    requires divides { Divides _sub.now _shape.now }
    requires some { 0 < count_of _shape.now }
    requires runs { (k p : ℕ) → p < count_of _sub.now → cell_number _shape.now _sub.now k p ≡ k * count_of _sub.now + p }
    ensures { IfOk result (λ answer. IfSome answer (λ bytes.
        AreRowsOfShard subchunk.now.fill.now _shape.now _sub.now shard.now index.now.numbers.items subchunk.now.size bytes.items)) }
{
    let mut bytes = Vec::with_capacity(alloc, index.subchunks() * subchunk.size)?;
    let mut blank = Vec::new(alloc);
    let mut run = Run { from: 0, len: 0 };
    for k in 0..index.subchunks() {
        let slot = index.slot(k);
        let added = add_slot(alloc, &mut bytes, &mut blank, shard, run, slot, subchunk)?;
        let Some(more) = added else {
            return Ok(None);
        };
        run = more;
    }
    push_run(&mut bytes, shard, run)?;
    Ok(Some(bytes))
}

impl<I: ArrayToBytesCodecTraits> HeldShard<'_, '_, I> {
    /// The elements of a shard straight from its bytes: where the inner codec stores elements as they are in memory, subchunks follow
    /// one another in the shape, and each that is there has as many bytes as it must have. Nothing where that isn't so. Refused only as
    /// out of memory.
    pub fn decode_rows(&self, alloc: Global) -> Result<Option<ArrayBytes<'static>>, CodecError>
        requires some { 0 < count_of (grid_of self.now.shape.now self.now.subchunks.now.shape.now) }
        requires positions { 0 < count_of self.now.subchunks.now.shape.now }
        ensures kind { IfOk result (λ answer. IfSome answer (λ array. array.kind ≡ size_of self.now.subchunks.now.data_type.now)) }
        ensures gathered { let s = self.now.subchunks.now in let inner = inner_meaning I.meaning s in
            let g = array_spec self.now.shape.now s.data_type.now s.fill_value.now in
            IfOk result (λ answer. IfSome answer (λ array.
            AreGathered inner.cells g s.shape.now self.now.bytes.now self.now.index.now.numbers.items array.elements)) }
        ensures refused { IfErr result (λ e. e ≡ OutOfMemory) }
    {
        let inner = self.subchunks;
        let (shape, sub) = (self.shape, inner.shape);
        let Some(positions) = elements_in_run(shape, sub) else {
            return Ok(None);
        };
        let plain = inner
            .codec
            .plain_size(sub, inner.data_type, inner.fill_value);
        let Some(size) = plain else {
            return Ok(None);
        };
        let fill = inner.fill_value.as_ne_bytes();
        if self.cells.checked_mul(fill.len() as u64).is_none() {
            return Ok(None);
        }
        let subchunk = PlainSubchunk {
            fill,
            positions: positions as usize,
            size: size as usize,
        };
        let Some(all) = rows(alloc, self.bytes, self.index, &subchunk, shape, sub)? else {
            return Ok(None);
        };
        match ArrayBytes::new_flen(CowSlice::Owned(all), fill.len()) {
            Some(array) => Ok(Some(array)),
            None => unreachable!(),
        }
    }
}
