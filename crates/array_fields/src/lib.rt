// The values of an array's metadata: what stands under which key of a JSON text, where, and why metadata is refused; the keys of chunks;
// a stranger's text on a terminal, which is short, and nothing in it acts; and lines of JSON that are written.
#![tactic(auto)]

mod element_types;
mod error;
mod escape;
mod fields;
mod fill;
mod fixed_texts;
mod floats;
mod json;
mod json_line;
mod kept;
mod key_encodings;
mod keys;
mod members;
mod printed;
mod raw_bits;

pub use element_types::{ElementType, element_type_in, unread_type};
pub use error::{LONGEST_TEXT, MetadataError};
pub use escape::{escaped, escaped_whole};
pub use fields::Placed;
pub use fill::fill_value_in;
pub use floats::{FloatFormat, half_to_f32};
pub use json::value_in;
pub use json_line::{JsonLine, write_json_character, write_json_numbers, write_json_text};
pub use kept::{KeptText, TypeText, kept_text};
pub use key_encodings::keys_in;
pub use keys::{ChunkKeys, KeyEncoding};
pub use members::{MOST_AXES, axes_in, test_array, test_understood};
pub use printed::is_printed;
pub use raw_bits::raw_bytes;
