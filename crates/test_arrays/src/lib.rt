// Tests of arrays on disk: their metadata and their shards, subsets on a command line, and files of NumPy's format; of arrays over a
// store; and of scripts: what is said of lines that are refused, and readers and writers that fail.
#![tactic(auto)]

#[cfg(test)]
mod array_stores;
#[cfg(test)]
mod byte_parts;
#[cfg(test)]
mod compared;
#[cfg(test)]
mod escapes;
#[cfg(test)]
mod examples;
#[cfg(test)]
mod limits;
#[cfg(test)]
mod list_parts;
#[cfg(test)]
mod metadata;
#[cfg(test)]
mod npy;
#[cfg(test)]
mod refused;
#[cfg(test)]
mod script_faults;
#[cfg(test)]
mod script_messages;
#[cfg(test)]
mod shards;
#[cfg(test)]
mod subsets;
#[cfg(test)]
mod transposes;
