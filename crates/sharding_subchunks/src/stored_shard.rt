// A shard that stands in an interval of an object, by its index.
ghost use Rattle.std.specs.Prelude.{◌≡◌, ◌+◌, ◌*◌, ◌^◌, ◌<◌, length};
ghost use Rattle.parts_row_major.specs.Numbering.{count_of};
ghost use Rattle.parts_subsets.specs.Grid.{Divides, grid_of};
ghost use Rattle.parts_arrays.specs.Types.{size_of, HasElements, FitsKind};
ghost use Rattle.sharding_subchunks.specs.ShardLaws.{divides-prop, fits_kind-prop};

use crate::subchunks::Subchunks;
use parts_subsets::ChunkShape;
use sharding_format::ShardIndex;
use storage_handles::Interval;

/// A shard that stands in an interval of an object, by its index: its subchunks, where it stands, what its index says, its shape, how
/// many cells the shape has, and how many subchunks there are along each axis.
#[derive(Drop)]
pub struct StoredShard<'a, I> {
    pub subchunks: Subchunks<'a, I>,
    pub interval: Interval,
    pub index: &'a ShardIndex,
    pub shape: &'a ChunkShape,
    pub cells: u64,
    pub grid: &'a ChunkShape,
    pub ghost room: { interval.offset + interval.size < 2 ^ 64 },
    pub ghost len: { index.now.len ≡ interval.size },
    pub ghost indexed: { length index.now.numbers.items ≡ 2 * count_of (grid_of shape.now subchunks.shape.now) },
    pub ghost counted: { cells ≡ count_of shape.now },
    pub ghost cut: { grid.now ≡ grid_of shape.now subchunks.shape.now },
    pub ghost fits: { count_of shape.now < 2 ^ 64 },
    pub ghost divides: { Divides subchunks.shape.now shape.now } by { divides-prop subchunks.shape.now shape.now },
    pub ghost supported: { HasElements subchunks.data_type.now },
    pub ghost fill: { FitsKind (size_of subchunks.data_type.now) subchunks.fill_value.now } by { fits_kind-prop (size_of subchunks.data_type.now) subchunks.fill_value.now },
}
