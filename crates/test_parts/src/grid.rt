// Where cells lie in the grid of subchunks, and the law of the grid.
use crate::compared::same_at;
use zarr_parts::{Located, grid_law, locate};

const CELLS: [(u64, u64); 16] = [
    (0, 0),
    (0, 1),
    (1, 0),
    (1, 1),
    (0, 2),
    (0, 3),
    (1, 2),
    (1, 3),
    (2, 0),
    (2, 1),
    (3, 0),
    (3, 1),
    (2, 2),
    (2, 3),
    (3, 2),
    (3, 3),
];

#[test]
fn each_cell_has_one_position(rt: HostRuntime) {
    for number in 0..16 {
        let (subchunk, position) = CELLS[number];
        let found = locate(number as u64, 16, 4, 4, &[4, 4], &[2, 2]);
        same_at(&rt, number, found, Located { subchunk, position });
    }
}

#[test]
fn the_law_of_the_grid_can_be_called(_rt: HostRuntime) {
    grid_law(&[4, 4], &[2, 2]);
}
