// Tests of shards that are held open for reading and writing, of whole shards in parallel, and of objects that nobody wrote
// as a shard, over their public calls alone.
#![tactic(auto)]

#[cfg(test)]
mod compared;
#[cfg(test)]
mod faults;
#[cfg(test)]
mod gates;
#[cfg(test)]
mod hostile;
#[cfg(test)]
mod laws;
#[cfg(test)]
mod locked;
#[cfg(test)]
mod morton;
#[cfg(test)]
mod nested;
#[cfg(test)]
mod opening;
#[cfg(test)]
mod reopened;
#[cfg(test)]
mod round_trips;
#[cfg(test)]
mod sessions;
#[cfg(test)]
mod shards;
#[cfg(test)]
mod whole_shards;
#[cfg(test)]
mod workers;
#[cfg(test)]
mod writing;
