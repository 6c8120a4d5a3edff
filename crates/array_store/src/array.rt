// An array over a store.
ghost use Rattle.std.specs.Prelude.{◌≡◌};

use crate::format::ArrayFormat;
use array_metadata::{ArrayCodec, ArrayMetadata};

/// An array whose chunks are objects of a store, by their keys; the codec encodes them. Elements have one size.
#[derive(Drop)]
pub struct Array<'a, S, C> {
    pub store: S,
    pub codec: &'a C,
    pub format: ArrayFormat<'a>,
}

impl<'a, S> Array<'a, S, ArrayCodec> {
    /// The array of a store, which has this metadata.
    pub fn of(store: S, metadata: &'a ArrayMetadata) -> Self
        ensures store { result.store ≡ store }
        ensures codec { result.codec.now ≡ metadata.entry.now.codec }
        ensures shape { result.format.shape.now ≡ metadata.entry.now.shape.items }
        ensures chunk { result.format.chunk.now ≡ metadata.entry.now.shard }
        ensures data_type { result.format.data_type.now ≡ metadata.entry.now.data_type }
        ensures fill_value { result.format.fill_value.now ≡ metadata.entry.now.fill_value }
        ensures keys { result.format.keys ≡ metadata.entry.now.keys }
    {
        Array {
            store,
            codec: &metadata.codec,
            format: ArrayFormat::of(metadata),
        }
    }
}
