// The laws of codecs from arrays to bytes.
#![tactic(auto)]

mod codec;
mod concurrency;
mod functional;
mod laws;
mod representation;
mod requested;
mod stored;
mod target;

pub use codec::ArrayToBytesCodecTraits;
pub use concurrency::RecommendedConcurrency;
pub use functional::FunctionalCodec;
pub use laws::{decode_after_encode, read_after_decode};
pub use representation::BytesRepresentation;
pub use requested::{put_requested, requested_elements};
pub use stored::StoredArray;
pub use target::check_target;
