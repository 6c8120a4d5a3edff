// A whole shard whose bytes are held in memory, by its index.
ghost use Rattle.std.specs.Prelude.{◌≡◌, ◌*◌, ◌^◌, ◌<◌, length};
ghost use Rattle.parts_row_major.specs.Numbering.{count_of};
ghost use Rattle.parts_subsets.specs.Grid.{Divides, grid_of};
ghost use Rattle.sharding_subchunks.specs.ShardLaws.{divides-prop};

use crate::subchunks::Subchunks;
use parts_subsets::ChunkShape;
use sharding_format::ShardIndex;

/// A whole shard whose bytes are held in memory, by its index: its subchunks, its bytes, what its index says, its shape and how many
/// cells the shape has.
#[derive(Drop)]
pub struct HeldShard<'a, 'b, I> {
    pub subchunks: &'a Subchunks<'a, I>,
    pub bytes: &'b [u8],
    pub index: &'a ShardIndex,
    pub shape: &'a ChunkShape,
    pub cells: u64,
    pub ghost len: { index.now.len ≡ length bytes.now },
    pub ghost indexed: { length index.now.numbers.items ≡ 2 * count_of (grid_of shape.now subchunks.now.shape.now) },
    pub ghost counted: { cells ≡ count_of shape.now },
    pub ghost fits: { count_of shape.now < 2 ^ 64 },
    pub ghost divides: { Divides subchunks.now.shape.now shape.now } by { divides-prop subchunks.now.shape.now shape.now },
}
