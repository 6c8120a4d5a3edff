// Maps as pictures, in the format SVG.
use crate::drawing::{Mark, ShardMap, rows_of};
use std::io;
use std::io::Write;

// The side of a square, the room around what is drawn, and the height and the length of a bar.
const SIDE: u64 = 16;

const MARGIN: u64 = 12;

const BAR: u64 = 28;

const LENGTH: u64 = 768;

// A rectangle of a picture, by its left upper corner.
#[derive(Clone, Copy)]
struct Rectangle {
    x: u64,
    y: u64,
    width: u64,
    height: u64,
}

// The color of what is refused, of the index, of dead bytes, and of what is absent.
const REFUSED: u32 = 0xd62728;

const INDEX: u32 = 0x555555;

const DEAD: u32 = 0xf0c9c9;

const ABSENT: u32 = 0xffffff;

// The number on the way from one to another that is this part of the way.
fn between(from: u64, to: u64, part: u64, of: u64) -> u64 {
    let gone = from.saturating_sub(to).saturating_mul(part).checked_div(of);
    from.saturating_sub(gone.unwrap_or(0))
}

// The color of a subchunk, from light to dark in the order of their numbers.
fn shade(number: u64, of: u64) -> u32 {
    let last = of.saturating_sub(1);
    let red = between(0xb8, 0x08, number, last);
    let green = between(0xd8, 0x30, number, last);
    let blue = between(0xf4, 0x6b, number, last);
    let color = red
        .saturating_mul(0x1_0000)
        .saturating_add(green.saturating_mul(0x100))
        .saturating_add(blue);
    color.min(0xff_ffff) as u32
}

// Begins a picture of a size.
fn begin<W: Write>(out: &mut W, width: u64, height: u64) -> io::Result<()> {
    writeln!(
        out,
        "<svg xmlns=\"http://www.w3.org/2000/svg\" width=\"{width}\" height=\"{height}\" font-family=\"monospace\" font-size=\"12\">"
    )?;
    writeln!(
        out,
        "<rect width=\"{width}\" height=\"{height}\" fill=\"#ffffff\"/>"
    )
}

// Writes a rectangle in a color.
fn write_rectangle<W: Write>(out: &mut W, at: Rectangle, color: u32) -> io::Result<()> {
    let Rectangle {
        x,
        y,
        width,
        height,
    } = at;
    writeln!(
        out,
        "<rect x=\"{x}\" y=\"{y}\" width=\"{width}\" height=\"{height}\" fill=\"#{color:06x}\" stroke=\"#999999\" stroke-width=\"0.5\"/>"
    )
}

// Writes words, of which the first begins at a place on a line. They have no character that XML knows otherwise.
fn write_words<W: Write>(out: &mut W, y: u64, words: &str) -> io::Result<()> {
    writeln!(out, "<text x=\"{MARGIN}\" y=\"{y}\">{words}</text>")
}

// How many squares stand side by side, how many lines of them a plane has, and how many planes there are, of a grid.
fn planes_of(counts: &[u64], places: u64) -> (u64, u64, u64) {
    let (row, rows) = rows_of(counts);
    let planes = places.checked_div(row.saturating_mul(rows)).unwrap_or(0);
    (row, rows, planes)
}

// How high a grid is: its lines, and half a square behind each plane.
fn height_of(counts: &[u64], places: u64) -> u64 {
    let (_, rows, planes) = planes_of(counts, places);
    let lines = planes.saturating_mul(rows).saturating_mul(SIDE);
    lines.saturating_add(planes.saturating_mul(SIDE / 2))
}

// Where the square of a place of a grid lies, which begins at a height.
fn square_at(number: u64, counts: &[u64], y: u64) -> Rectangle {
    let (row, rows, _) = planes_of(counts, 0);
    let column = number.checked_rem(row).unwrap_or(0);
    let line = number.checked_div(row).unwrap_or(0);
    let plane = line.checked_div(rows).unwrap_or(0);
    Rectangle {
        x: MARGIN.saturating_add(column.saturating_mul(SIDE)),
        y: y.saturating_add(line.saturating_mul(SIDE))
            .saturating_add(plane.saturating_mul(SIDE / 2)),
        width: SIDE,
        height: SIDE,
    }
}

// How wide a picture is of a grid.
fn width_of(counts: &[u64]) -> u64 {
    let (row, _, _) = planes_of(counts, 0);
    let squares = row.saturating_mul(SIDE);
    squares.max(LENGTH).saturating_add(2 * MARGIN)
}

// The color of a mark at the place with a number, of as many places.
fn color_of(mark: Mark, number: u64, of: u64) -> u32 {
    match mark {
        Mark::Present => shade(number, of),
        Mark::Absent => ABSENT,
        Mark::Refused => REFUSED,
    }
}

/// Draws which shards of an array are there: a square for each place of the chunk grid.
pub fn write_array_picture<W: Write>(
    out: &mut W,
    marks: &[Mark],
    counts: &[u64],
) -> io::Result<()> {
    let places = marks.len() as u64;
    let top = 2 * MARGIN + SIDE;
    let height = top
        .saturating_add(height_of(counts, places))
        .saturating_add(MARGIN);
    begin(out, width_of(counts), height)?;
    write_words(
        out,
        MARGIN + SIDE,
        "shards: blue present, white absent, red refused",
    )?;
    for (number, mark) in marks.iter().enumerate() {
        let number = number as u64;
        let color = color_of(*mark, number, 1);
        write_rectangle(out, square_at(number, counts, top), color)?;
    }
    out.write_all(b"</svg>\n")
}

// How far along a bar a byte of a file of a length lies.
fn along(byte: u64, length: u64) -> u64 {
    let place = (byte as u128)
        .saturating_mul(LENGTH as u128)
        .checked_div(length as u128);
    place.unwrap_or(0).min(LENGTH as u128) as u64
}

// Where bytes of a file of a length lie on a bar at a height.
fn bar_at((start, end): (u64, u64), length: u64, y: u64) -> Rectangle {
    let (first, last) = (along(start, length), along(end, length));
    Rectangle {
        x: MARGIN.saturating_add(first),
        y,
        width: last.saturating_sub(first).max(1),
        height: BAR,
    }
}

// Draws the subchunks of a shard as squares, from a height on.
fn write_squares<W: Write>(
    out: &mut W,
    map: &ShardMap,
    counts: &[u64],
    top: u64,
) -> io::Result<()> {
    let of = map.subchunks.len() as u64;
    for (number, drawn) in map.subchunks.iter().enumerate() {
        let number = number as u64;
        let color = color_of(drawn.mark, number, of);
        write_rectangle(out, square_at(number, counts, top), color)?;
    }
    Ok(())
}

// Draws the bytes of a shard's file as a bar at a height.
fn write_bar<W: Write>(out: &mut W, map: &ShardMap, y: u64) -> io::Result<()> {
    let of = map.subchunks.len() as u64;
    write_rectangle(out, bar_at((0, map.length), map.length, y), DEAD)?;
    for (number, drawn) in map.subchunks.iter().enumerate() {
        if let Some(bytes) = drawn.bytes {
            let color = color_of(drawn.mark, number as u64, of);
            write_rectangle(out, bar_at(bytes, map.length, y), color)?;
        }
    }
    write_rectangle(out, bar_at(map.index, map.length, y), INDEX)
}

/// Draws the subchunks of a shard in their grid, and below it the bytes of its file: slices in the color of their subchunk, from light
/// to dark by number, the index gray, and dead bytes pink.
pub fn write_shard_picture<W: Write>(
    out: &mut W,
    key: &str,
    map: &ShardMap,
    counts: &[u64],
) -> io::Result<()> {
    let of = map.subchunks.len() as u64;
    let top = 2 * MARGIN + SIDE;
    let bar = top
        .saturating_add(height_of(counts, of))
        .saturating_add(SIDE);
    let bottom = bar.saturating_add(BAR).saturating_add(2 * SIDE);
    begin(out, width_of(counts), bottom.saturating_add(SIDE))?;
    let (length, order) = (map.length, map.order.words());
    write!(out, "<text x=\"{MARGIN}\" y=\"28\">")?;
    writeln!(out, "{key}: {length} bytes, slices {order}</text>")?;
    write_squares(out, map, counts, top)?;
    write_bar(out, map, bar)?;
    let words =
        "blue: slices, light to dark by subchunk; white: absent; red: refused; gray: index; pink: dead";
    write_words(out, bottom, words)?;
    out.write_all(b"</svg>\n")
}
