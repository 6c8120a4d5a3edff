// What the metadata of an array says of a codec, in JSON: read and written.
#![tactic(auto)]

mod bytes_metadata;
mod error;
mod laws;
mod members;
mod named_codec;

pub use error::PluginCreateError;
pub use laws::create_after_metadata;
pub use members::{MemberTest, test_members};
pub use named_codec::{CodecTraitsV3, metadata_name};
