// Objects that nobody wrote as a shard, by each call that meets them, and few calls on others. The objects stand in
// test_helpers.

mod cut;
mod decoders;
mod nested;
mod reshards;
mod sessions;
mod shards;
mod told;
mod whole;
