// Why calls are refused, and the options of a call: what every crate speaks of.
#![tactic(auto)]

mod error;
mod options;

pub use error::CodecError;
pub use options::{CodecOptions, CodecSpecificOptions};
