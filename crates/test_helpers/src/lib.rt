// What tests share: codecs that turn elements around, and objects that nobody wrote as a shard.
#![tactic(auto)]

mod hostile_objects;
mod inverted;
mod marked;
mod packed;
mod unbounded;

pub use hostile_objects::{ABSENT, HostileObject, Stored, Wanted, hostile_table, object_of};
pub use inverted::InvertedCodec;
pub use marked::MarkedCodec;
pub use packed::PackedCodec;
pub use unbounded::UnboundedCodec;
