// Reads and writes of a shard as plans: which stored subchunks a subset takes, and where each of their elements goes; which slices are fetched
// together; and where slices go in a write, in a compaction and in a whole shard. Nothing is read, decoded or stored here: the caller fetches
// and decodes, in any order, encodes, and stores.
#![tactic(auto)]

mod chunks;
mod fetches;
mod grid;
mod listed;
mod packed;
mod put;
mod read_plan;
mod write_plan;

pub use chunks::{PlannedArray, whole_axes};
pub use fetches::{fetch_of, plan_fetches};
pub use grid::{IndexNumbers, PlannedShard};
pub use listed::{ListedPlan, listed_law};
pub use packed::{IndexPlace, PackedShard, compaction_law, encode_law, lay_out_law};
pub use put::{Part, fill_part, put_law, put_part};
pub use read_plan::{ReadPart, ReadPlan};
pub use write_plan::{Outcome, WritePlan, write_law};
