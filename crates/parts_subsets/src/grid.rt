// Where the cells of a shape lie in the grid of subchunks that it is cut into.
ghost use Rattle.std.specs.Prelude.{◌≡◌, ◌<◌, ◌↔◌, IsTrue, length, drop};
ghost use Rattle.parts_row_major.specs.Numbering.{AllPositive, count_of};
ghost use Rattle.parts_subsets.specs.Grid.{Divides, grid_of, subchunk_number, position_number};

/// Where a cell lies.
#[derive(Debug, Clone, Copy, PartialEq, Eq)]
pub struct Located {
    /// The row-major number of its subchunk in the grid.
    pub subchunk: u64,
    /// The row-major number of its place in the subchunk.
    pub position: u64,
}

/// Where the cell of a shape with a row-major number lies, where `sub`, the shape of a subchunk, divides the
/// shape evenly (Zarr V3 `sharding_indexed`, "chunk_shape"). The counts are those of the shape's cells, of its
/// subchunks and of a subchunk's places. Takes no memory.
pub fn locate(
    number: u64,
    cells: u64,
    subchunks: u64,
    positions: u64,
    shape: &[u64],
    sub: &[u64],
) -> Located
    requires inside { number < count_of shape.now }
    requires shape { AllPositive shape.now }
    requires sub { AllPositive sub.now }
    requires divides { Divides sub.now shape.now }
    requires cells { cells ≡ count_of shape.now }
    requires subchunks { subchunks ≡ count_of (grid_of shape.now sub.now) }
    requires positions { positions ≡ count_of sub.now }
    ensures subchunk { result.subchunk ≡ subchunk_number shape.now sub.now number }
    ensures position { result.position ≡ position_number shape.now sub.now number }
    ensures subchunk_below { result.subchunk < count_of (grid_of shape.now sub.now) }
    ensures position_below { result.position < count_of sub.now }
{
    match shape {
        [] => Located {
            subchunk: 0,
            position: 0,
        },
        [axis, shape @ ..] => match sub {
            [] => unreachable!(),
            [part, sub @ ..] => {
                let cells = cells / *axis;
                let subchunks = subchunks / (*axis / *part);
                let positions = positions / *part;
                let rest = locate(number % cells, cells, subchunks, positions, shape, sub);
                let index = number / cells;
                let subchunk = index / *part * subchunks + rest.subchunk;
                let position = index % *part * positions + rest.position;
                Located { subchunk, position }
            }
        },
    }
}

// Whether two lists of axes are one.
fn are_same(axes: &[u64], others: &[u64]) -> bool
    ensures { IsTrue result ↔ (axes.now ≡ others.now) }
{
    axes == others
}

/// Whether the subchunks of a shape follow one another in it, each one run of its elements: all axes but the first are whole
/// in the subchunk shape. Takes no memory.
pub fn subchunks_follow(shape: &[u64], sub: &[u64]) -> bool
    ensures { IsTrue result → (0 < length shape.now) × (drop 1 shape.now ≡ drop 1 sub.now) }
{
    if shape.len() == 0 || sub.len() == 0 {
        return false;
    }
    are_same(&shape[1..], &sub[1..])
}
