// Tests of the handles, the codecs, their metadata, and the configuration of the sharding codec, over their public calls alone.
#![tactic(auto)]

#[cfg(test)]
mod bytes_codec;
#[cfg(test)]
mod chains;
#[cfg(test)]
mod compared;
#[cfg(test)]
mod counting;
#[cfg(test)]
mod examples;
#[cfg(test)]
mod faults;
#[cfg(test)]
mod gzip;
#[cfg(test)]
mod handles;
#[cfg(test)]
mod inverted;
#[cfg(test)]
mod laws;
#[cfg(test)]
mod lists;
#[cfg(test)]
mod metadata_accepted;
#[cfg(test)]
mod metadata_building;
#[cfg(test)]
mod metadata_errors;
#[cfg(test)]
mod metadata_examples;
#[cfg(test)]
mod metadata_laws;
#[cfg(test)]
mod metadata_refused;
#[cfg(test)]
mod pairs;
#[cfg(test)]
mod reads;
#[cfg(test)]
mod reads_into;
#[cfg(test)]
mod targets;
#[cfg(test)]
mod variable;
#[cfg(test)]
mod writes;
#[cfg(test)]
mod zlib;
#[cfg(test)]
mod zstd;
#[cfg(test)]
mod zstd_written;
