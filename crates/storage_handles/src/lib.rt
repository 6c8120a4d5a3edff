// Objects of bytes, and the handles that read and write them in part.
#![tactic(auto)]

mod bytes;
mod counting_handle;
mod faulting_handle;
mod handle;
mod interval;
mod memory_handle;
mod writing;

pub use bytes::{ByteRange, Interval, part_of};
pub use counting_handle::CountingHandle;
pub use faulting_handle::FaultingHandle;
pub use handle::{BytesPartialDecoderTraits, LendsSlice, copy_range, read_range};
pub use interval::check_interval;
pub use memory_handle::{MemoryHandle, SliceHandle};
pub use writing::BytesPartialEncoderTraits;
