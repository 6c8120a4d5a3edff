// Sessions of the sharding codec that threads share, with a history of what was done and receipts of it; and what users name of sessions
// that are run by commands, and of reshards.
#![tactic(auto)]

mod calls;
mod closing;
mod encoder;
mod naming;
mod receipts;
mod seat;
mod shard;

pub use calls::{record_erase, record_read, record_write};
pub use closing::{CloseError, Closed};
pub use encoder::{RecordedPartialEncoder, recorded};
pub use naming::Naming;
pub use seat::Seat;
pub use session_runs::{Command, CommandRun, Event, Receipt, Reply, read_back, run_commands};
pub use shard::RecordedShard;
pub use zarrs_sharding::{decode_after_reshard, reshard, reshard_functional};
