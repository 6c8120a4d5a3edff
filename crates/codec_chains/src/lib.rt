// A codec from arrays to bytes with a codec from arrays to arrays before it, or one from bytes to bytes behind it; a codec that
// is one of two; and what a codec means that compresses.
#![tactic(auto)]

mod array_chain;
mod array_to_array;
mod bytes_chain;
mod bytes_to_bytes;
mod either_codec;

pub use array_chain::ArrayChain;
pub use array_to_array::ArrayToArrayCodecTraits;
pub use bytes_chain::BytesChain;
pub use bytes_to_bytes::{BytesToBytesCodecTraits, FunctionalBytesCodec};
pub use either_codec::EitherCodec;
