// Elements that are written as they are read, band by band.
use crate::shared_read::{BandRead, read_side_by_side};
use array_cli::{Array, Ending, Output, Progress, Stop, Workers, written};
use array_fields::ElementType;
use array_grid::{
    Bands, SubsetCells, SubsetElements, TextRows, VaryingCells, begin_json, end_json, is_text,
    write_json_cell, write_json_cells,
};
use array_metadata::ArrayMetadata;
use array_reading::read_array;
use parts_arrays::DataTypeSize;
use parts_errors::CodecError;
use parts_row_major::unravel_index;
use parts_subsets::ArraySubset;
use std::alloc::Global;
use std::io;
use std::io::Write;
use std::thread::Threads;

// The most bytes of elements that are read.
const MOST_BYTES: u64 = 1 << 40;

// How many bytes a band has at least and at most, unless a row of subchunks has more, and how many bands a subset is cut into between.
const SHORTEST_BAND: u64 = 1024 * 1024;

const LONGEST_BAND: u64 = 12 * 1024 * 1024;

const BANDS: u64 = 16;

// How many bytes the bands have together that are read at a time, unless one has more.
const BYTES_AT_ONCE: u64 = 48 * 1024 * 1024;

/// How cells are written.
#[derive(Clone, Copy)]
pub enum Form {
    Text,
    Json,
    Raw,
}

/// How elements are read.
#[derive(Drop)]
pub struct Reading<'t, T> {
    /// Whether what is refused has fill values.
    pub fills: bool,
    /// By which threads.
    pub workers: &'t Workers<'t, T>,
}

/// Where the elements of a subset go.
pub trait Sink {
    /// Takes the bytes of the next elements, least significant byte first, which have one size, of a command that ends so as far as it has
    /// come.
    fn put(&mut self, bytes: &[u8], ending: Ending) -> Result<(), Stop>;

    /// Takes the next elements, which have lengths of their own.
    fn put_varying(&mut self, cells: &VaryingCells, ending: Ending) -> Result<(), Stop>;

    /// Whether an element that is a text is shown as one.
    fn shows_text(&self) -> bool;
}

// How many bytes the elements of a subset have, each of a size; at most 2^64 - 1.
fn bytes_of(subset: &ArraySubset, size: u64) -> u64 {
    if subset.shape().iter().any(|count| *count == 0) {
        return 0;
    }
    let mut bytes = size;
    for count in subset.shape() {
        bytes = bytes.saturating_mul(*count);
    }
    bytes
}

// The coordinates of the element of a subset with a number, as a subset names them.
fn coordinates_of(alloc: Global, subset: &ArraySubset, number: u64) -> Result<String, Stop> {
    let mut name = String::new(alloc);
    if let Some(steps) = unravel_index(alloc, number, subset.shape())? {
        for (start, step) in subset.start().iter().zip(&steps) {
            let before = if name.is_empty() { "" } else { "," };
            write!(name, "{before}{}", start.saturating_add(*step))?;
        }
    }
    Ok(name)
}

// Whether the elements of an array are texts.
fn are_texts(array: &Array<'_>) -> bool {
    array.metadata.element_type.encoding().is_some()
}

// Tests that an element of a band, with a number, is the text that its type says it is. Refused as `Stop::NoUtf8` and `Stop::NoUtf32`.
fn test_text(
    array: &Array<'_>,
    band: &ArraySubset,
    number: usize,
    element: &[u8],
) -> Result<(), Stop> {
    let element_type = array.metadata.element_type;
    if is_text(element_type, element) {
        return Ok(());
    }
    let coordinates = coordinates_of(array.alloc(), band, number as u64)?;
    match element_type {
        ElementType::Utf32(_) => Err(Stop::NoUtf32(coordinates)),
        _ => Err(Stop::NoUtf8(coordinates)),
    }
}

// Tests the elements of a band that have lengths of their own, where they are texts. Refused as `test_text` refuses the first one that is
// none.
fn test_varying(array: &Array<'_>, band: &ArraySubset, cells: &VaryingCells) -> Result<(), Stop> {
    if !are_texts(array) {
        return Ok(());
    }
    for number in 0..cells.len() {
        test_text(array, band, number, cells.element(number))?;
    }
    Ok(())
}

// Tests the elements of a band that have one size, where they are texts. Refused as `test_text` refuses the first one that is none.
fn test_sized(array: &Array<'_>, band: &ArraySubset, elements: &[u8]) -> Result<(), Stop> {
    if !are_texts(array) {
        return Ok(());
    }
    let size = array.metadata.fill_value.as_ne_bytes().len().max(1);
    for (number, element) in elements.chunks(size).enumerate() {
        test_text(array, band, number, element)?;
    }
    Ok(())
}

// Hands on the elements of a band, which have one size, as the codecs gave them.
fn put_sized<S: Sink>(
    array: &Array<'_>,
    band: &ArraySubset,
    bytes: &[u8],
    ending: Ending,
    sink: &mut S,
) -> Result<(), Stop> {
    let elements = array.least_first(bytes)?;
    if sink.shows_text() {
        test_sized(array, band, &elements)?;
    }
    sink.put(&elements, ending)
}

// How many bytes an element has; where that varies, by how many memory is shared out.
fn element_size(metadata: &ArrayMetadata) -> u64 {
    match metadata.data_type.size() {
        DataTypeSize::Fixed(size) => size as u64,
        DataTypeSize::Variable => 16,
    }
}

// How many bytes a band has at most of a subset whose elements have together `bytes`, unless a row of subchunks has more. That is the same for any
// number of threads, and so is what is refused.
fn longest_band(bytes: u64) -> u64 {
    (bytes / BANDS).clamp(SHORTEST_BAND, LONGEST_BAND)
}

// Room for the bands that threads read at a time: for one each, as far as all together have no more bytes than are held.
fn room_of_bands(
    alloc: Global,
    bands: &Bands<'_>,
    size: u64,
    jobs: usize,
) -> Result<Vec<BandRead>, Stop> {
    let most = BYTES_AT_ONCE / bands.most_bytes(size).max(1);
    let count = most.min(jobs as u64).min(bands.len()).max(1);
    let mut reads = Vec::new(alloc);
    for _ in 0..count {
        let read = BandRead {
            band: None,
            cells: SubsetCells::none(alloc)?,
            stop: None,
        };
        reads.push(read)?;
    }
    Ok(reads)
}

// Hands on the bands that threads have read, as far as none is refused.
fn put_bands<S: Sink>(array: &Array<'_>, reads: &mut [BandRead], sink: &mut S) -> Result<(), Stop> {
    for read in reads {
        if let Some(stop) = read.stop.take() {
            return Err(stop);
        }
        if let Some(band) = &read.band {
            put_sized(array, band, read.cells.bytes(), Ending::Done, sink)?;
        }
    }
    Ok(())
}

// Reads the elements of a subset, which have one size, some bands at a time, each by a thread of its own to where it is handed on from.
fn read_sized<S: Sink, T: Threads + Sync>(
    array: &Array<'_>,
    subset: &ArraySubset,
    workers: &Workers<'_, T>,
    sink: &mut S,
    progress: &mut Progress,
) -> Result<Ending, Stop> {
    let ArrayMetadata {
        shard,
        subchunk,
        ..
    } = array.metadata;
    let size = element_size(array.metadata);
    let longest = longest_band(bytes_of(subset, size));
    let bands = Bands::new(subset, shard, subchunk, size, longest);
    let mut reads = room_of_bands(array.alloc(), &bands, size, workers.jobs)?;
    let at_once = (reads.len() as u64).max(1);
    for number in 0..bands.len().div_ceil(at_once) {
        let first = number.saturating_mul(at_once);
        progress.step(first, bands.len());
        read_side_by_side(array, workers, &bands, first, &mut reads);
        progress.clear();
        put_bands(array, &mut reads, sink)?;
    }
    Ok(Ending::Done)
}

// Hands on the elements of a band, of a command that ends so as far as it has come.
fn put_elements<S: Sink>(
    array: &Array<'_>,
    band: &ArraySubset,
    elements: &SubsetElements,
    ending: Ending,
    sink: &mut S,
) -> Result<(), Stop> {
    match elements {
        SubsetElements::Sized(cells) => put_sized(array, band, cells.bytes(), ending, sink),
        SubsetElements::Varying(cells) => {
            test_varying(array, band, cells)?;
            sink.put_varying(cells, ending)
        }
    }
}

// Reads the elements of a subset by one thread, those of a row of shards at a time, with fill values for what is refused if `fills`.
fn read_rows<S: Sink>(
    array: &Array<'_>,
    subset: &ArraySubset,
    fills: bool,
    sink: &mut S,
    progress: &mut Progress,
) -> Result<Ending, Stop> {
    let (shard, size) = (&array.metadata.shard, element_size(array.metadata));
    let bands = Bands::new(subset, shard, shard, size, LONGEST_BAND);
    let mut ending = Ending::Done;
    for number in 0..bands.len() {
        progress.begin_part(number, bands.len());
        let Some(band) = bands.band(array.alloc(), number)? else {
            return Err(CodecError::OutOfBounds.into());
        };
        let (elements, ended) = read_array(array, &band, fills, progress)?;
        if ended != Ending::Done {
            ending = ended;
        }
        progress.clear();
        put_elements(array, &band, &elements, ending, sink)?;
    }
    Ok(ending)
}

/// Reads the elements of a subset, with fill values for what is refused if `fills`, and hands them on, in row-major order: those of some bands
/// at a time, so that memory is that of these. Refused as `Stop::TooLarge` where they have more than 2^40 bytes, and as `read_array` refuses
/// the first band that is refused, and as `test_text` where a text that is shown is none; then the bands before are handed on.
pub fn read_bands<S: Sink, T: Threads + Sync>(
    array: &Array<'_>,
    subset: &ArraySubset,
    reading: &Reading<'_, T>,
    sink: &mut S,
    progress: &mut Progress,
) -> Result<Ending, Stop> {
    if bytes_of(subset, element_size(array.metadata)) > MOST_BYTES {
        return Err(Stop::TooLarge);
    }
    if reading.fills || array.metadata.data_type.size() == DataTypeSize::Variable {
        read_rows(array, subset, reading.fills, sink, progress)
    } else {
        read_sized(array, subset, reading.workers, sink, progress)
    }
}

// Elements that are written to an answer in a form.
#[derive(Drop)]
struct Printed<'o> {
    out: &'o mut Output,
    form: Form,
    element_type: ElementType,
    rows: TextRows,
    // whether none is written yet
    is_first: bool,
}

impl Printed<'_> {
    // Writes the next elements.
    fn write(&mut self, bytes: &[u8]) -> io::Result<()> {
        match self.form {
            Form::Text => self.rows.write(self.out, self.element_type, bytes),
            Form::Raw => self.out.write_all(bytes),
            Form::Json => {
                if self.is_first {
                    begin_json(self.out)?;
                }
                write_json_cells(self.out, self.element_type, bytes, self.is_first)
            }
        }
    }
}

impl Printed<'_> {
    // Writes the next element, which has a length of its own.
    fn write_varying(&mut self, element: &[u8]) -> io::Result<()> {
        match self.form {
            Form::Text => self.rows.write_cell(self.out, self.element_type, element),
            Form::Raw => self.out.write_all(element),
            Form::Json => {
                if !self.is_first {
                    self.out.write_all(b",")?;
                }
                write_json_cell(self.out, self.element_type, element)
            }
        }
    }

    // Writes the next elements, which have lengths of their own.
    fn write_all_varying(&mut self, cells: &VaryingCells) -> io::Result<()> {
        if self.is_first && matches!(self.form, Form::Json) {
            begin_json(self.out)?;
        }
        for number in 0..cells.len() {
            self.write_varying(cells.element(number))?;
            self.is_first = false;
        }
        Ok(())
    }
}

impl Sink for Printed<'_> {
    fn put(&mut self, bytes: &[u8], ending: Ending) -> Result<(), Stop> {
        let wrote = self.write(bytes);
        self.is_first = false;
        written(wrote, ending)
    }

    fn put_varying(&mut self, cells: &VaryingCells, ending: Ending) -> Result<(), Stop> {
        written(self.write_all_varying(cells), ending)
    }

    fn shows_text(&self) -> bool {
        !matches!(self.form, Form::Raw)
    }
}

/// Reads the elements of a subset, and writes them in a form to an answer.
pub fn print_subset<T: Threads + Sync>(
    array: &Array<'_>,
    subset: &ArraySubset,
    form: Form,
    reading: &Reading<'_, T>,
    out: &mut Output,
    progress: &mut Progress,
) -> Result<Ending, Stop> {
    let element_type = array.metadata.element_type;
    let mut printed = Printed {
        out,
        form,
        element_type,
        rows: TextRows::new(subset.shape()),
        is_first: true,
    };
    let ending = read_bands(array, subset, reading, &mut printed, progress)?;
    if matches!(form, Form::Json) {
        written(end_json(printed.out, element_type, subset.shape()), ending)?;
    }
    Ok(ending)
}
