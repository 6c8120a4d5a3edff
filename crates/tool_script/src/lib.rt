// Scripts: lines of text that make shards, encode, decode, compact and reshard them, and tell their index and bytes.
#![tactic(auto)]

mod answer;
mod codec;
mod command;
mod configure;
mod element_type;
mod elements;
mod explain;
mod parse;
mod pieces;
mod print;
mod reason;
mod script;
mod selections;
mod shard;
mod stop;
mod tool;

pub use element_type::{ElementType, NumberType};
pub use elements::{array_of, bytes_array_of, fill_value_of, number_of};
pub use explain::{Sink, write_reason};
pub use parse::{number_mistake, parse_bytes, parse_number, parse_numbers};
pub use pieces::Pieces;
pub use reason::{Mistake, Reason};
pub use script::{MAX_INPUT, MAX_READS, read_input, run_script, run_script_explained};
pub use selections::{next_word, parse_coordinates, parse_subset};
pub use stop::Stop;
