// The numbers of the index of a shard, by its subchunks.
ghost use Rattle.std.specs.Prelude.{◌≡◌, ◌+◌, ◌*◌, ◌/◌, ◌<◌, ℕ, IsTrue, length, slice_index};
ghost use Rattle.std.specs.List.{All};
ghost use Rattle.sharding_format.specs.Index.{slot_at};
ghost use Rattle.sharding_format.specs.steps.Decoding.{FitsSlot, IsOfSize};
ghost use Rattle.sharding_format.specs.declared.slot.Slot.TheVariants.{Absent};

use crate::slot::{Slot, slot_of};

/// The index of a shard of so many bytes: two numbers for each subchunk, in row-major order, its offset and its size.
#[derive(Drop)]
pub struct ShardIndex {
    pub len: u64,
    pub numbers: Vec<u64>,
}

// Whether a subchunk is absent, or its slice has this length.
fn is_of_size(slot: Slot, size: u64) -> bool
    ensures { IsTrue result → IsOfSize size slot }
{
    match slot {
        Slot::Absent => true,
        Slot::InRange {
            offset: _,
            size: len,
        } => len == size,
        Slot::Bad => false,
    }
}

impl ShardIndex {
    /// How many subchunks the index has an entry of.
    pub fn subchunks(&self) -> usize
        ensures { result ≡ length self.now.numbers.items / 2 }
    {
        self.numbers.len() / 2
    }

    /// What the entry of a subchunk says.
    #[tactic(auto, unfolding(crate::specs::Index::slot_at))]
    pub fn slot(&self, subchunk: usize) -> Slot
        requires { 2 * subchunk + 1 < length self.now.numbers.items }
        ensures slot { result ≡ slot_at self.now.len self.now.numbers.items subchunk }
        ensures fits { FitsSlot self.now.len result }
    {
        slot_of(
            self.len,
            self.numbers[2 * subchunk],
            self.numbers[2 * subchunk + 1],
        )
    }

    /// Whether some subchunk is absent.
    pub fn any_absent(&self) -> bool
        ensures { (k : ℕ) → k < length self.now.numbers.items / 2 → slot_at self.now.len self.now.numbers.items k ≡ Absent → IsTrue result }
    {
        for k in 0..self.subchunks() {
            if self.slot(k) == Slot::Absent {
                return true;
            }
        }
        false
    }

    /// Whether one of these subchunks is absent.
    pub fn any_absent_of(&self, subchunks: &[u64]) -> bool
        requires { All (λ k. 2 * k + 1 < length self.now.numbers.items) subchunks.now }
        ensures { (j : ℕ) → j < length subchunks.now → slot_at self.now.len self.now.numbers.items (slice_index subchunks.now j) ≡ Absent → IsTrue result }
    {
        for j in 0..subchunks.len() {
            if self.slot(subchunks[j] as usize) == Slot::Absent {
                return true;
            }
        }
        false
    }

    /// Whether each subchunk is absent, or its slice has this length.
    pub fn has_slices_of(&self, size: u64) -> bool
        ensures { IsTrue result → (k : ℕ) → k < length self.now.numbers.items / 2 → IsOfSize size (slot_at self.now.len self.now.numbers.items k) }
    {
        for k in 0..self.subchunks() {
            if !is_of_size(self.slot(k), size) {
                return false;
            }
        }
        true
    }
}
