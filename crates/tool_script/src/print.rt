// The answers of a script, each a line.
ghost use Rattle.std.specs.Prelude.{◌≡◌, IsErr, IfOk};
ghost use Rattle.std.specs.Result.{ForOk};
ghost use Rattle.tool_script.specs.Answers.{IsShort, AreShort, HasShortCells};
ghost use Rattle.tool_script.specs.declared.answer.Outcome.TheVariants.{Refused};

use crate::answer::{Answer, Outcome};
use crate::configure::ConfigureError;
use crate::elements::number_of;
use std::io;
use std::io::Write;
use zarr_parts::{ArrayBytes, CodecError, DataTypeSize};

// The comma before each member of a list but the first.
fn write_comma<W: Write>(out: &mut W, place: usize) -> io::Result<()> {
    if place > 0 {
        out.write_all(b",")?;
    }
    Ok(())
}

// A number of the index, where the greatest stands for absence.
fn write_index_number<W: Write>(out: &mut W, number: u64) -> io::Result<()> {
    if number == u64::MAX {
        out.write_all(b"M")
    } else {
        write!(out, "{number}")
    }
}

// Writes the numbers of an index.
fn write_index<W: Write>(out: &mut W, numbers: &[u64]) -> io::Result<()> {
    out.write_all(b"index ")?;
    for (place, number) in numbers.iter().enumerate() {
        write_comma(out, place)?;
        write_index_number(out, *number)?;
    }
    out.write_all(b"\n")
}

// Writes bytes: `x`, and two hexadecimal digits for each. It takes no memory: `out` is to buffer.
fn write_bytes<W: Write>(out: &mut W, bytes: &[u8]) -> io::Result<()> {
    out.write_all(b"x")?;
    for byte in bytes {
        write!(out, "{byte:02x}")?;
    }
    Ok(())
}

// Writes an element: a number where its kind has one size, else its bytes.
fn write_element<W: Write>(out: &mut W, kind: DataTypeSize, element: &[u8]) -> io::Result<()>
    requires { IsShort kind element.now }
{
    match kind {
        DataTypeSize::Fixed(_) => write!(out, "{}", number_of(element)),
        DataTypeSize::Variable => write_bytes(out, element),
    }
}

// Writes the elements of an array; `-` where there are none.
fn write_cells<W: Write>(out: &mut W, cells: &ArrayBytes) -> io::Result<()>
    requires { AreShort cells.now }
{
    out.write_all(b"cells ")?;
    if cells.len() == 0 {
        out.write_all(b"-")?;
    }
    let kind = cells.kind();
    for place in 0..cells.len() {
        write_comma(out, place)?;
        write_element(out, kind, cells.element(place))?;
    }
    out.write_all(b"\n")
}

// Writes the length and the bytes of an object.
fn write_object<W: Write>(out: &mut W, object: &[u8]) -> io::Result<()> {
    write!(out, "object {} ", object.len())?;
    write_bytes(out, object)?;
    out.write_all(b"\n")
}

// Writes what a command answers.
fn write_answer<W: Write>(out: &mut W, answer: &Answer) -> io::Result<()>
    requires { HasShortCells answer.now }
{
    match answer {
        Answer::Done => out.write_all(b"ok\n"),
        Answer::Stored(Some(len)) => writeln!(out, "ok {len}"),
        Answer::Stored(None) => out.write_all(b"ok none\n"),
        Answer::Compacted(Some(len)) => writeln!(out, "compact {len}"),
        Answer::Compacted(None) => out.write_all(b"compact none\n"),
        Answer::NoObject => out.write_all(b"none\n"),
        Answer::Index(numbers) => write_index(out, numbers),
        Answer::Cells(cells) => write_cells(out, cells),
        Answer::Object(object) => write_object(out, object),
    }
}

// Writes that a command was refused, and why.
fn write_refused<W: Write>(out: &mut W, number: u8, name: &str) -> io::Result<Outcome>
    ensures { IfOk result (λ outcome. outcome ≡ Refused) }
{
    writeln!(out, "refused {number} {name}")?;
    Ok(Outcome::Refused)
}

/// Writes what a command answers, or that it was refused, and why; tells which.
pub fn write_answered<W: Write>(
    out: &mut W,
    answered: &Result<Answer<'_>, CodecError>,
) -> io::Result<Outcome>
    requires { ForOk answered.now HasShortCells }
    ensures refused { IfOk result (λ outcome. outcome ≡ Refused → IsErr answered.now) }
    ensures told { IsErr answered.now → IfOk result (λ outcome. outcome ≡ Refused) }
{
    match answered {
        Ok(answer) => {
            write_answer(out, answer)?;
            Ok(Outcome::Answered)
        }
        Err(error) => write_refused(out, error.number(), error.name()),
    }
}

/// Writes what the command `config` answers, or that it was refused, and why; tells which.
pub fn write_configured<W: Write>(
    out: &mut W,
    configured: &Result<(), ConfigureError>,
) -> io::Result<Outcome>
    ensures refused { IfOk result (λ outcome. outcome ≡ Refused → IsErr configured.now) }
    ensures told { IsErr configured.now → IfOk result (λ outcome. outcome ≡ Refused) }
{
    match configured {
        Ok(()) => {
            out.write_all(b"ok\n")?;
            Ok(Outcome::Answered)
        }
        Err(ConfigureError::Create(error)) => write_refused(out, error.number(), error.name()),
        Err(ConfigureError::Codec(error)) => write_refused(out, error.number(), error.name()),
    }
}

/// Writes that a line is no command's.
pub fn write_malformed<W: Write>(out: &mut W, line_number: u64) -> io::Result<()> {
    writeln!(out, "malformed {line_number}")
}
