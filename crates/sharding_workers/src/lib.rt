// What threads do: work on numbered pieces, in the order of the numbers; shards in parallel, each subchunk in a thread by its
// number, and put together in their order; and a session behind a lock, with what is told of it without the lock.
#![tactic(auto)]

mod decoded;
mod encoded;
mod gate;
mod numbered;
mod session_lock;
mod threads;
mod whole;

pub use gate::{Gate, NoGate};
pub use numbered::in_order;
pub use session_lock::SessionLock;
pub use whole::{decode_by_workers, encode_by_workers};
