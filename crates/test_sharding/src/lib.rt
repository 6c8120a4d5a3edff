// Tests of the sharding codec, over its public calls alone. What a script can say of it stands in tests/scripts.
#![tactic(auto)]

#[cfg(test)]
mod chains;
#[cfg(test)]
mod chances;
#[cfg(test)]
mod compared;
#[cfg(test)]
mod counting;
#[cfg(test)]
mod decoders;
#[cfg(test)]
mod fresh;
#[cfg(test)]
mod grids;
#[cfg(test)]
mod laws;
#[cfg(test)]
mod lengths;
#[cfg(test)]
mod nested;
#[cfg(test)]
mod options;
#[cfg(test)]
mod planned;
#[cfg(test)]
mod planned_reads;
#[cfg(test)]
mod plans;
#[cfg(test)]
mod reads;
#[cfg(test)]
mod refusals;
#[cfg(test)]
mod shards;
