// Cells as text and as JSON.
ghost use Rattle.std.specs.Prelude.{◌<◌};

use crate::quoted::{write_null_terminated, write_quoted, write_utf32};
use array_fields::{ElementType, FloatFormat, half_to_f32, write_json_numbers};
use parts_arrays::{DataType, DataTypeSize};
use std::io;
use std::io::Write;
use std::num::{f32_from_bits_with_nan, f64_from_bits_with_nan};

// What a cell holds. A byte of a `bool` that is not 0 is true.
#[derive(Clone, Copy)]
enum Cell {
    Bool(bool),
    Signed(i64),
    Unsigned(u64),
    Single(f32),
    Double(f64),
}

// Whether the numbers of a type may be negative.
fn is_signed(data_type: DataType) -> bool {
    matches!(
        data_type,
        DataType::Int8 | DataType::Int16 | DataType::Int32 | DataType::Int64
    )
}

// Eight bytes: those of an element, least significant first, and behind them the same byte.
fn widened(element: &[u8], filler: u8) -> [u8; 8] {
    let mut wide = [filler; 8];
    for (place, byte) in wide.iter_mut().zip(element) {
        *place = *byte;
    }
    wide
}

// The float that bits are: one of sixteen bits as the same number of more.
fn float_of(format: FloatFormat, bits: u64) -> Cell {
    match format {
        FloatFormat::Float16 => Cell::Single(half_to_f32((bits % 0x1_0000) as u16)),
        FloatFormat::BFloat16 => {
            Cell::Single(f32_from_bits_with_nan((bits % 0x1_0000 * 0x1_0000) as u32))
        }
        FloatFormat::Float32 => Cell::Single(f32_from_bits_with_nan((bits % 0x1_0000_0000) as u32)),
        FloatFormat::Float64 => Cell::Double(f64_from_bits_with_nan(bits)),
    }
}

// The name of a float that is not finite.
fn word_of(is_positive: bool, is_negative: bool) -> &'static str {
    if is_positive {
        "Infinity"
    } else if is_negative {
        "-Infinity"
    } else {
        "NaN"
    }
}

impl Cell {
    // The cell that the bytes of a `bool` or a whole number are.
    fn number(data_type: DataType, element: &[u8]) -> Self {
        if data_type == DataType::Bool {
            return Cell::Bool(element.iter().any(|byte| *byte != 0));
        }
        if !is_signed(data_type) {
            return Cell::Unsigned(u64::from_le_bytes(widened(element, 0)));
        }
        let is_negative = element.last().is_some_and(|byte| *byte >= 128);
        let filler = if is_negative { 255 } else { 0 };
        Cell::Signed(i64::from_le_bytes(widened(element, filler)))
    }

    // The cell that an element is of a type whose elements are one number.
    fn of(element_type: ElementType, element: &[u8]) -> Self {
        match element_type {
            ElementType::Float(format) => {
                float_of(format, u64::from_le_bytes(widened(element, 0)))
            }
            _ => Cell::number(element_type.carrier(), element),
        }
    }

    // As text, where `true` is 1 and `false` is 0, and words stand between quotes.
    fn write_with<W: Write>(&self, out: &mut W, quote: &str) -> io::Result<()> {
        match self {
            Cell::Bool(is_true) => write!(out, "{}", *is_true as u8),
            Cell::Signed(number) => write!(out, "{number}"),
            Cell::Unsigned(number) => write!(out, "{number}"),
            Cell::Single(x) if x.is_finite() => {
                out.write_all(ryu::Buffer::new().format_finite(*x).as_bytes())
            }
            Cell::Double(x) if x.is_finite() => {
                out.write_all(ryu::Buffer::new().format_finite(*x).as_bytes())
            }
            Cell::Single(x) => write!(out, "{quote}{}{quote}", word_of(*x > 0.0, *x < 0.0)),
            Cell::Double(x) => write!(out, "{quote}{}{quote}", word_of(*x > 0.0, *x < 0.0)),
        }
    }

    // As text.
    fn write<W: Write>(&self, out: &mut W) -> io::Result<()> {
        self.write_with(out, "")
    }

    // As JSON, where a `bool` is `true` or `false`, and a float that has no digits a string.
    fn write_json<W: Write>(&self, out: &mut W) -> io::Result<()> {
        match self {
            Cell::Bool(true) => out.write_all(b"true"),
            Cell::Bool(false) => out.write_all(b"false"),
            number => number.write_with(out, "\""),
        }
    }
}

// Writes an element as text; words stand between quotes where it is JSON.
fn write_number<W: Write>(
    out: &mut W,
    element_type: ElementType,
    element: &[u8],
    is_json: bool,
) -> io::Result<()> {
    let cell = Cell::of(element_type, element);
    if is_json {
        cell.write_json(out)
    } else {
        cell.write(out)
    }
}

// Writes a complex number, as a list of both parts.
fn write_complex<W: Write>(
    out: &mut W,
    format: FloatFormat,
    element: &[u8],
    is_json: bool,
) -> io::Result<()> {
    let (real, imaginary) = element.split_at(format.size().min(element.len()));
    let part = ElementType::Float(format);
    out.write_all(b"[")?;
    write_number(out, part, real, is_json)?;
    out.write_all(b",")?;
    write_number(out, part, imaginary, is_json)?;
    out.write_all(b"]")
}

// Writes raw bits as text: `0x`, and two hexadecimal digits a byte, in their order.
fn write_digits<W: Write>(out: &mut W, element: &[u8]) -> io::Result<()> {
    out.write_all(b"0x")?;
    for byte in element {
        write!(out, "{:02x}", *byte)?;
    }
    Ok(())
}

// Writes raw bits as JSON: a list of their bytes.
fn write_bytes<W: Write>(out: &mut W, element: &[u8]) -> io::Result<()> {
    out.write_all(b"[")?;
    let mut before = "";
    for byte in element {
        write!(out, "{before}{}", *byte)?;
        before = ",";
    }
    out.write_all(b"]")
}

// Writes an element as text, or as JSON.
fn write_element<W: Write>(
    out: &mut W,
    element_type: ElementType,
    element: &[u8],
    is_json: bool,
) -> io::Result<()> {
    match element_type {
        ElementType::Complex(format) => write_complex(out, format, element, is_json),
        ElementType::Utf8 => write_quoted(out, element, is_json),
        ElementType::Utf32(_) => write_utf32(out, element, is_json),
        ElementType::NullTerminated(_) => write_null_terminated(out, element, is_json),
        ElementType::RawBits(_) | ElementType::Binary if is_json => write_bytes(out, element),
        ElementType::RawBits(_) | ElementType::Binary => write_digits(out, element),
        _ => write_number(out, element_type, element, is_json),
    }
}

// How many bytes a cell of a type has, at least 1.
fn cell_size(element_type: ElementType) -> usize
    ensures { 0 < result }
{
    match element_type.carrier().size() {
        DataTypeSize::Fixed(size) => size.max(1),
        DataTypeSize::Variable => 1,
    }
}

/// Writes a name and numbers behind it, with commas between.
pub fn write_numbers<W: Write>(out: &mut W, name: &str, numbers: &[u64]) -> io::Result<()> {
    write!(out, "{name}:")?;
    let mut before = " ";
    for number in numbers {
        write!(out, "{before}{number}")?;
        before = ",";
    }
    out.write_all(b"\n")
}

/// Cells that are written as text piece by piece: a row of the last axis a line, and an empty line between planes of the last two.
#[derive(Clone, Copy)]
pub struct TextRows {
    // how many cells a row has, and how many rows a plane, before the next of which an empty line stands
    row: u64,
    rows: u64,
    // how many cells of the row are written, and how many rows of the plane
    column: u64,
    line: u64,
}

impl TextRows {
    /// The cells of a subset of a shape, of which none is written.
    pub fn new(shape: &[u64]) -> Self {
        let (row, rows) = match shape {
            [] => (1, u64::MAX),
            [row] | [_, row] => (*row, u64::MAX),
            [.., rows, row] => (*row, *rows),
        };
        TextRows {
            row,
            rows,
            column: 0,
            line: 0,
        }
    }

    // Writes what stands before a cell.
    fn write_before<W: Write>(&mut self, out: &mut W) -> io::Result<()> {
        if self.column > 0 {
            return out.write_all(b" ");
        }
        if self.line >= self.rows {
            self.line = 0;
            return out.write_all(b"\n");
        }
        Ok(())
    }

    // Writes the end of the row behind a cell, if it is the last one.
    fn write_behind<W: Write>(&mut self, out: &mut W) -> io::Result<()> {
        self.column = self.column.saturating_add(1);
        if self.column < self.row {
            return Ok(());
        }
        self.column = 0;
        self.line = self.line.saturating_add(1);
        out.write_all(b"\n")
    }

    /// Writes the next cell, which has these bytes.
    pub fn write_cell<W: Write>(
        &mut self,
        out: &mut W,
        element_type: ElementType,
        element: &[u8],
    ) -> io::Result<()> {
        self.write_before(out)?;
        write_element(out, element_type, element, false)?;
        self.write_behind(out)
    }

    /// Writes the next cells, which have these bytes, and of which each has one size.
    pub fn write<W: Write>(
        &mut self,
        out: &mut W,
        element_type: ElementType,
        bytes: &[u8],
    ) -> io::Result<()> {
        for element in bytes.chunks(cell_size(element_type)) {
            self.write_cell(out, element_type, element)?;
        }
        Ok(())
    }
}

/// Writes a cell as text on a line.
pub fn write_cell_line<W: Write>(
    out: &mut W,
    element_type: ElementType,
    element: &[u8],
) -> io::Result<()> {
    write_element(out, element_type, element, false)?;
    out.write_all(b"\n")
}

/// Writes a cell as JSON does.
pub fn write_json_cell<W: Write>(
    out: &mut W,
    element_type: ElementType,
    element: &[u8],
) -> io::Result<()> {
    write_element(out, element_type, element, true)
}

/// Begins the elements of a subset as an object of JSON on a line, with the keys in order: its `cells` in row-major order, its
/// `data_type`, and its `shape`.
pub fn begin_json<W: Write>(out: &mut W) -> io::Result<()> {
    out.write_all(b"{\"cells\":[")
}

/// Writes the next cells of an object of JSON, which have these bytes, and of which each has one size; they are its first ones, or others
/// stand before them.
pub fn write_json_cells<W: Write>(
    out: &mut W,
    element_type: ElementType,
    bytes: &[u8],
    is_first: bool,
) -> io::Result<()> {
    let mut before = !is_first;
    for element in bytes.chunks(cell_size(element_type)) {
        if before {
            out.write_all(b",")?;
        }
        before = true;
        write_json_cell(out, element_type, element)?;
    }
    Ok(())
}

/// Ends the object of JSON of a subset of a shape, behind its last cell.
pub fn end_json<W: Write>(out: &mut W, element_type: ElementType, shape: &[u64]) -> io::Result<()> {
    out.write_all(b"],\"data_type\":\"")?;
    write!(out, "{element_type}\",\"shape\":")?;
    write_json_numbers(out, shape)?;
    out.write_all(b"}\n")
}
