// In which order the subchunks of a shard are written, and where their slices go: laid end to end, and packed.
#![tactic(auto)]

mod compact;
mod covered;
mod laying;
mod morton;
mod offsets;
mod packing;
mod plan;
mod runs;
mod sequence;
mod storing;

pub use compact::compacted;
pub use covered::is_whole;
pub use laying::{
    CutArray, StoredSlices, absent_slots, elements_in_row, gather_subchunk, joined_shard, placed,
    room_for_next,
};
pub use offsets::{CachedIndex, fresh_offset, index_offset, length_after, offset_after, slot_in};
pub use packing::{compact_size, packed_numbers, push_slices};
pub use plan::{CompactionPlan, plan_compaction, plan_compaction_of_index};
pub use runs::elements_in_run;
pub use sequence::SubchunkSequence;
pub use storing::{is_blank, push_rows, slot_after, store_after, stored_row, zeros_after};
