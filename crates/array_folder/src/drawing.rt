// Maps as text.
use std::alloc::{AllocError, Global};
use std::io;
use std::io::Write;

/// What stands at a place of a grid.
#[derive(Clone, Copy, PartialEq, Eq)]
pub enum Mark {
    /// A shard whose index is sound, or a subchunk that decodes or whose codec is not served.
    Present,
    /// No shard, or no slice: all elements are the fill value.
    Absent,
    /// What is refused.
    Refused,
}

/// A subchunk of a shard: what it is, and the first byte of its slice and the one behind the last, if it has one.
#[derive(Clone, Copy)]
pub struct Drawn {
    pub mark: Mark,
    pub bytes: Option<(u64, u64)>,
}

/// In which order of subchunks the slices of a shard lie in its file.
#[derive(Clone, Copy)]
pub enum SliceOrder {
    RowMajor,
    Morton,
    Another,
}

/// What the file of a shard holds.
#[derive(Drop)]
pub struct ShardMap {
    /// How many bytes it has.
    pub length: u64,
    /// The first byte of the index, and the one behind its last.
    pub index: (u64, u64),
    /// The subchunks by their row-major number.
    pub subchunks: Vec<Drawn>,
    pub order: SliceOrder,
}

// How many marks a bar has.
const COLUMNS: u64 = 64;

// What a mark of a bar is for bytes that no index entry names, and for those of the index.
const DEAD: u8 = b'-';

const INDEX: u8 = b'=';

// The marks of slices, from the lowest number of a subchunk on.
const DIGITS: &[u8] = b"0123456789abcdefghijklmnopqrstuvwxyz";

impl Mark {
    // As text.
    fn character(self) -> u8 {
        match self {
            Mark::Present => b'#',
            Mark::Absent => b'.',
            Mark::Refused => b'x',
        }
    }
}

impl SliceOrder {
    /// As words behind "slices".
    pub fn words(self) -> &'static str {
        match self {
            SliceOrder::RowMajor => "in row-major order",
            SliceOrder::Morton => "in Morton order",
            SliceOrder::Another => "in another order",
        }
    }
}

impl Drawn {
    /// A subchunk that has no slice.
    pub fn without_bytes(mark: Mark) -> Self {
        Drawn { mark, bytes: None }
    }
}

impl ShardMap {
    /// What each subchunk is.
    pub fn marks(&self, alloc: Global) -> Result<Vec<Mark>, AllocError> {
        let mut marks: Vec<Mark> = Vec::new(alloc);
        for drawn in self.subchunks.iter() {
            marks.push(drawn.mark)?;
        }
        Ok(marks)
    }

    // How many subchunks have a mark.
    fn count(&self, mark: Mark) -> u64 {
        let mut count = 0u64;
        for drawn in self.subchunks.iter() {
            if drawn.mark == mark {
                count = count.saturating_add(1);
            }
        }
        count
    }

    // The mark of a subchunk's slice in a bar.
    fn digit(&self, number: usize) -> u8 {
        let count = self.subchunks.len().max(DIGITS.len());
        let place = number.saturating_mul(DIGITS.len()).checked_div(count);
        place
            .and_then(|place| DIGITS.get(place))
            .copied()
            .unwrap_or(b'z')
    }
}

/// How many marks stand on a line, and how many lines make a plane, in a map of a grid with these counts.
pub fn rows_of(counts: &[u64]) -> (u64, u64) {
    match counts {
        [] => (1, 1),
        [row] => (*row, 1),
        [.., rows, row] => (*row, *rows),
    }
}

// Whether a number is a multiple of a count.
fn is_multiple(number: u64, count: u64) -> bool {
    number.checked_rem(count) == Some(0)
}

// Writes what stands behind the mark of this number: the end of a row, and an empty line behind a plane but the last one.
fn write_break<W: Write>(out: &mut W, number: u64, of: u64, counts: &[u64]) -> io::Result<()> {
    let (row, rows) = rows_of(counts);
    if !is_multiple(number, row) {
        return Ok(());
    }
    out.write_all(b"\n")?;
    if number < of && is_multiple(number, row.saturating_mul(rows)) && counts.len() > 2 {
        out.write_all(b"\n")?;
    }
    Ok(())
}

// Writes a map's first line, which says what its marks are.
const LEGEND: &[u8] = b"# present, . absent, x refused\n";

// Writes a mark for each place of a grid, a row of the last axis a line.
fn write_marks<W: Write>(out: &mut W, marks: &[Mark], counts: &[u64]) -> io::Result<()> {
    let mut number = 0u64;
    for mark in marks {
        out.write_all(&[mark.character()])?;
        number = number.saturating_add(1);
        write_break(out, number, marks.len() as u64, counts)?;
    }
    Ok(())
}

/// Writes which shards of an array are there.
pub fn write_array_map<W: Write>(out: &mut W, marks: &[Mark], counts: &[u64]) -> io::Result<()> {
    out.write_all(LEGEND)?;
    write_marks(out, marks, counts)
}

// The column of a bar that has a byte of a file of a length.
fn column_of(byte: u64, length: u64) -> usize {
    let place = (byte as u128)
        .saturating_mul(COLUMNS as u128)
        .checked_div(length as u128);
    place.unwrap_or(0).min(COLUMNS as u128) as usize
}

// Puts a mark into each column of a bar in which one of these bytes begins, or which one fills, of a file of a length.
fn paint(bar: &mut [u8], (start, end): (u64, u64), length: u64, mark: u8) {
    if start >= end {
        return;
    }
    let last = column_of(end.saturating_sub(1), length);
    let behind = last.saturating_add(1).max(column_of(end, length));
    for column in column_of(start, length)..behind {
        if let Some(place) = bar.get_mut(column) {
            *place = mark;
        }
    }
}

// The bytes of a shard's file as a bar: the index, and slices in the order in which they lie.
fn bar_of(map: &ShardMap) -> [u8; 64] {
    let mut bar = [DEAD; 64];
    for (number, drawn) in map.subchunks.iter().enumerate() {
        if let Some(bytes) = drawn.bytes {
            paint(&mut bar, bytes, map.length, map.digit(number));
        }
    }
    paint(&mut bar, map.index, map.length, INDEX);
    bar
}

// Writes how many subchunks are present, absent and refused, and in which order their slices lie.
fn write_counts<W: Write>(out: &mut W, key: &str, map: &ShardMap) -> io::Result<()> {
    let present = map.count(Mark::Present);
    let absent = map.count(Mark::Absent);
    let refused = map.count(Mark::Refused);
    let (length, order) = (map.length, map.order.words());
    writeln!(
        out,
        "{key}: {length} bytes, {present} present, {absent} absent, {refused} refused; slices {order}"
    )
}

/// Writes the subchunks of a shard in their grid, and the bytes of its file as a bar.
pub fn write_shard_map<W: Write>(
    out: &mut W,
    alloc: Global,
    key: &str,
    map: &ShardMap,
    counts: &[u64],
) -> io::Result<()> {
    write_counts(out, key, map)?;
    out.write_all(LEGEND)?;
    write_marks(out, &map.marks(alloc)?, counts)?;
    out.write_all(b"0 to z slices by subchunk, = index, - dead\n")?;
    out.write_all(&bar_of(map))?;
    out.write_all(b"\n")
}
