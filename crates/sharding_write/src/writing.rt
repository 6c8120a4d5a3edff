// What a write is about: a shard's codecs, what is known of its shape, and the update.
ghost use Rattle.std.specs.Prelude.{◌≡◌, ◌^◌, ◌<◌, All, length};
ghost use Rattle.parts_row_major.specs.Numbering.{AllPositive, count_of};
ghost use Rattle.parts_row_major.specs.Subsets.{IsSubset};
ghost use Rattle.parts_subsets.specs.Grid.{Divides, grid_of};
ghost use Rattle.parts_arrays.specs.Types.{size_of, HasElements, FitsKind};
ghost use Rattle.sharding_subchunks.specs.ShardLaws.{divides-prop, fits_kind-prop};
ghost use Rattle.sharding_write.specs.Invariants.{all_fit_kind-prop, is_subset-prop};

use parts_arrays::ArrayBytes;
use parts_subsets::{ArraySubset, ChunkShape};
use sharding_format::Slot;
use sharding_index::{IndexCodec, IndexPlan};
use sharding_subchunks::Subchunks;

/// What a write into a shard is about: its subchunks by their codec, its index by the index codec, what is known of the index
/// before it is looked at, the shape of the shard, and how many cells a subchunk has. The subchunks divide the shape, whose cells
/// can be counted, and the fill value is one element of a type that has some.
#[derive(Drop)]
pub struct Writing<'a, I, X> {
    pub subchunks: Subchunks<'a, I>,
    pub index_codec: IndexCodec<'a, X>,
    pub plan: &'a IndexPlan,
    pub shape: &'a ChunkShape,
    pub positions: u64,
    pub ghost positive: { AllPositive shape.now },
    pub ghost fits: { count_of shape.now < 2 ^ 64 },
    pub ghost divides: { Divides subchunks.shape.now shape.now } by { divides-prop subchunks.shape.now shape.now },
    pub ghost grid: { plan.now.grid ≡ grid_of shape.now subchunks.shape.now },
    pub ghost supported: { HasElements subchunks.data_type.now },
    pub ghost fill: { FitsKind (size_of subchunks.data_type.now) subchunks.fill_value.now } by { fits_kind-prop (size_of subchunks.data_type.now) subchunks.fill_value.now },
    pub ghost counted: { positions ≡ count_of subchunks.shape.now },
}

/// A subset of a shard's cells, and the elements that are written over them: one for each cell of the subset, in row-major order.
#[derive(Drop)]
pub struct Update<'a, 'b> {
    pub subset: &'a ArraySubset,
    pub elements: &'a ArrayBytes<'b>,
    pub ghost well_formed: { IsSubset subset.now.start subset.now.shape } by { is_subset-prop subset.now.start subset.now.shape },
    pub ghost fitting: { All (FitsKind elements.now.kind) elements.now.elements } by { all_fit_kind-prop elements.now.kind elements.now.elements },
    pub ghost counted: { length elements.now.elements ≡ count_of subset.now.shape },
}

/// A subchunk by its number, and what its entry in the old index says.
#[derive(Clone, Copy)]
pub struct OldEntry {
    pub number: u64,
    pub slot: Slot,
}
