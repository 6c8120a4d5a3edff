// Asked cells by the subchunks in which they lie.
ghost use Rattle.std.specs.Prelude.{◌≡◌, ◌<◌, ◌↔◌, ℕ, [], IfOk, length, map, replicate, slice_index};
ghost use Rattle.std.specs.List.{All, Contains};
ghost use Rattle.std.specs.List.Sorted.{IsStrictlyIncreasing};
ghost use Rattle.parts_row_major.specs.Numbering.{AllPositive, count_of};
ghost use Rattle.parts_subsets.specs.Grid.{Divides, grid_of, subchunk_number, position_number};
ghost use Rattle.sharding_gather.specs.steps.Grouping.{lists_of, AreGrouped};
ghost use Rattle.sharding_format.specs.ReadRefusals.{points_at};

use parts_row_major::number_along;
use parts_subsets::{ArraySubset, ChunkShape, Indexer, Located, locate};
use std::alloc::{AllocError, Global};
use std::marker::Model;

/// Where an asked cell stands: in which group, and at which place of its group.
#[derive(Clone, Copy)]
pub struct Standing {
    pub group: usize,
    pub rank: usize,
}

/// Asked cells by the subchunks in which they lie.
#[derive(Drop)]
pub struct Grouping {
    /// The numbers of these subchunks, ascending.
    pub subchunks: Vec<u64>,
    /// For each of them the places of its requested cells, in their order.
    pub positions: Vec<Vec<u64>>,
    /// For each requested cell where it stands.
    pub standings: Vec<Standing>,
}

/// Some places of a subchunk, by their row-major numbers, as what a read asks of the subchunk.
#[derive(Drop)]
pub struct Positions<'a> {
    sub: &'a ChunkShape,
    numbers: &'a [u64],
}

impl<'a> Model for Positions<'a> {
    ghost use Rattle.std.specs.Prelude.{◌<◌};
    ghost use Rattle.std.specs.List.{All};
    ghost use Rattle.parts_row_major.specs.Numbering.{count_of};
    ghost use Rattle.parts_subsets.specs.Selections.{Points};
    ghost use Rattle.sharding_format.specs.ReadRefusals.{points_at};

    // their coordinates
    ghost Value = { Points };

    ghost view = { λ positions. points_at positions.sub.now positions.numbers.now };

    ghost invariant = { λ positions. All (λ number. number < count_of positions.sub.now) positions.numbers.now };
}

impl<'a> Positions<'a> {
    /// The places with these numbers, in this order.
    pub fn new(sub: &'a ChunkShape, numbers: &'a [u64]) -> Positions<'a>
        requires { All (λ number. number < count_of sub.now) numbers.now }
        ensures { result ≡ points_at sub.now numbers.now }
    {
        Positions { sub, numbers }
    }
}

impl<'a> Indexer for Positions<'a> {
    ghost use Rattle.parts_subsets.specs.Selections.{listed_selection};

    ghost selection = { listed_selection };

    ghost matches_subset = { λ list. tt };

    fn dimensionality(&self) -> usize {
        self.sub.as_slice().len()
    }

    fn len(&self) -> Option<u64> {
        Some(self.numbers.len() as u64)
    }

    fn index_at(&self, i: u64, axis: usize) -> u64 {
        let numbers = self.numbers;
        number_along(numbers[i as usize], self.sub.as_slice(), axis)
    }

    fn as_array_subset(&self) -> Option<&ArraySubset> {
        None
    }
}

// Where the cells with these row-major numbers lie.
fn located_all(
    alloc: Global,
    numbers: &[u64],
    cells: u64,
    subchunks: u64,
    shape: &[u64],
    sub: &[u64],
) -> Result<Vec<Located>, AllocError>
    requires inside { All (λ number. number < count_of shape.now) numbers.now }
    requires shape { AllPositive shape.now }
    requires sub { AllPositive sub.now }
    requires divides { Divides sub.now shape.now }
    requires cells { cells ≡ count_of shape.now }
    requires subchunks { subchunks ≡ count_of (grid_of shape.now sub.now) }
    ensures subchunks { IfOk result (λ located. map (λ cell. cell.subchunk) located.items ≡ map (subchunk_number shape.now sub.now) numbers.now) }
    ensures positions { IfOk result (λ located. map (λ cell. cell.position) located.items ≡ map (position_number shape.now sub.now) numbers.now) }
{
    let positions = cells / subchunks;
    let mut located = Vec::with_capacity(alloc, numbers.len())?;
    for number in numbers {
        let cell = locate(*number, cells, subchunks, positions, shape, sub);
        located.push(cell)?;
    }
    Ok(located)
}

// The subchunks in which cells lie, ascending, each once.
fn used_subchunks(alloc: Global, located: &[Located]) -> Result<Vec<u64>, AllocError>
    ensures rising { IfOk result (λ used. IsStrictlyIncreasing used.items) }
    ensures members { IfOk result (λ used. (k : ℕ) → Contains used.items k ↔ Contains (map (λ cell. cell.subchunk) located.now) k) }
{
    let mut used: Vec<u64> = located.iter().map(|cell| cell.subchunk).collect(alloc)?;
    used.sort_unstable();
    used.dedup();
    Ok(used)
}

// The group of a subchunk: where its number stands among those that are used.
fn group_of(used: &[u64], subchunk: u64) -> usize
    requires rising { IsStrictlyIncreasing used.now }
    requires member { Contains used.now subchunk }
    ensures below { result < length used.now }
    ensures found { slice_index used.now result ≡ subchunk }
{
    match used.binary_search(&subchunk) {
        Ok(group) => group,
        Err(_) => unreachable!(),
    }
}

// So many lists with nothing in them.
fn empty_lists(alloc: Global, many: usize) -> Result<Vec<Vec<u64>>, AllocError>
    ensures { IfOk result (λ lists. map (λ list. list.items) lists.items ≡ replicate many []) }
{
    let mut lists = Vec::with_capacity(alloc, many)?;
    for _ in 0..many {
        lists.push(Vec::new(alloc))?;
    }
    Ok(lists)
}

/// Groups the cells with these row-major numbers by their subchunks. The counts are those of the shape's cells and of its
/// subchunks. Takes memory by the number of requested cells alone.
pub fn grouped(
    alloc: Global,
    numbers: &[u64],
    cells: u64,
    subchunks: u64,
    shape: &[u64],
    sub: &[u64],
) -> Result<Grouping, AllocError>
    requires inside { All (λ number. number < count_of shape.now) numbers.now }
    requires shape { AllPositive shape.now }
    requires sub { AllPositive sub.now }
    requires divides { Divides sub.now shape.now }
    requires cells { cells ≡ count_of shape.now }
    requires subchunks { subchunks ≡ count_of (grid_of shape.now sub.now) }
    ensures grouped { IfOk result (AreGrouped shape.now sub.now numbers.now) }
    ensures below { IfOk result (λ groups. All (λ k. k < count_of (grid_of shape.now sub.now)) groups.subchunks.items) }
    ensures positions_below { IfOk result (λ groups. All (All (λ position. position < count_of sub.now)) (lists_of groups)) }
{
    let located = located_all(alloc, numbers, cells, subchunks, shape, sub)?;
    let used = used_subchunks(alloc, &located)?;
    let mut positions = empty_lists(alloc, used.len())?;
    let mut standings = Vec::with_capacity(alloc, located.len())?;
    for cell in &located {
        let group = group_of(&used, cell.subchunk);
        let list = &mut positions[group];
        standings.push(Standing {
            group,
            rank: list.len(),
        })?;
        list.push(cell.position)?;
    }
    Ok(Grouping {
        subchunks: used,
        positions,
        standings,
    })
}
