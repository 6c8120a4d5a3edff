/// Where the index stands in a shard (`index_location` of the Zarr V3 codec `sharding_indexed`).
#[derive(Debug, Clone, Copy, PartialEq, Eq)]
pub enum ShardingIndexLocation {
    /// Before the subchunks.
    Start,
    /// Behind the subchunks.
    End,
}

impl Default for ShardingIndexLocation {
    ghost use Rattle.std.specs.Prelude.{◌≡◌};
    ghost use Rattle.sharding_format.specs.declared.location.ShardingIndexLocation.TheVariants.{End};

    ghost is_default = { λ location. location ≡ End };

    /// Behind the subchunks.
    fn default() -> Self {
        ShardingIndexLocation::End
    }
}
