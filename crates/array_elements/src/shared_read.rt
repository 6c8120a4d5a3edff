// The elements of a subset of an array that threads share.
use array_cli::{Array, Stop, Workers};
use array_grid::{Bands, SubsetCells};
use array_reading::read_into_cells;
use parts_subsets::ArraySubset;
use std::thread;
use std::thread::Threads;

/// A band of a subset, and its elements, which have one size.
#[derive(Drop)]
pub struct BandRead {
    // none past the last one
    pub band: Option<ArraySubset>,
    pub cells: SubsetCells,
    // why it was not read, if it was not
    pub stop: Option<Stop>,
}

// Reads the band of a number to where the one before lies in memory.
fn read_next(
    array: &Array<'_>,
    bands: &Bands<'_>,
    number: u64,
    read: &mut BandRead,
) -> Result<(), Stop> {
    read.band = bands.band(array.alloc(), number)?;
    let Some(band) = &read.band else {
        return Ok(());
    };
    read_into_cells(array, band, &mut read.cells)
}

/// Reads bands of a subset from a number on, whose elements have one size, each by a thread of its own to where the one before lies in
/// memory. A band that is refused has the refusal that `read_array` has.
pub fn read_side_by_side<T: Threads + Sync>(
    array: &Array<'_>,
    workers: &Workers<'_, T>,
    bands: &Bands<'_>,
    first: u64,
    reads: &mut [BandRead],
) {
    let read = |number: usize, read: &mut BandRead| {
        let number = first.saturating_add(number as u64);
        read.stop = read_next(array, bands, number, read).err();
    };
    let threads = reads.len().max(1);
    thread::for_each_mut(workers.threads, reads, threads, &read)
}
