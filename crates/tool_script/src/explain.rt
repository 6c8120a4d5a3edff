// Messages that say why a line is no command's.
use crate::reason::{Mistake, Reason};
use std::io;
use std::io::Write;

// The most bytes of a line that a message shows.
const MAX_SHOWN: usize = 40;

// Writes the head of a text; bytes that are no visible ASCII as `\x` and two digits.
fn write_text<W: Write>(out: &mut W, text: &[u8]) -> io::Result<()> {
    for byte in &text[..text.len().min(MAX_SHOWN)] {
        if byte.is_ascii_graphic() {
            out.write_all(&[*byte])?;
        } else {
            write!(out, "\\x{byte:02x}")?;
        }
    }
    if text.len() > MAX_SHOWN {
        out.write_all(b"..")?;
    }
    Ok(())
}

// The type whose numbers end at the greatest.
fn type_name(greatest: u64) -> &'static str {
    match greatest {
        0xff => "uint8",
        0xffff => "uint16",
        0xffff_ffff => "uint32",
        _ => "uint64",
    }
}

// Writes what is wrong with a text.
fn write_mistake<W: Write>(out: &mut W, mistake: Mistake) -> io::Result<()> {
    let sentence = match mistake {
        Mistake::PastGreatest(greatest) => return write!(out, "is past {}", type_name(greatest)),
        Mistake::SpaceTooMany => "two spaces in a row, or a space at an end of the line",
        Mistake::WordMissing => "a word is missing",
        Mistake::NumberMissing => "a number is missing",
        Mistake::NoBytes => "bytes are written as x and pairs of the digits 0 to 9 and a to f",
        Mistake::WordTooMany => "is a word too many",
        Mistake::NoCommand => "is no command",
        Mistake::NoShard => "comes before any shard",
        Mistake::NoNumber => "is no number",
        Mistake::NoShape => "has a 0, and is no shape",
        Mistake::NoElementType => "is no type of elements",
        Mistake::NoLocation => "is neither start nor end",
        Mistake::NoOrder => "is no order: c, unordered or morton",
        Mistake::NoRange => "is no range a..b",
        Mistake::Backwards => "has a range whose start passes its end",
        Mistake::OtherAxes => "has another number of axes than the first coordinate",
        Mistake::TooManyCoordinates => "begins more coordinates than can be counted",
        Mistake::NoAscii => "has a byte that is no ASCII",
    };
    out.write_all(sentence.as_bytes())
}

/// Writes the number of a line, and why it is no command's. It takes no memory, and shows at most 40 bytes of the line.
pub fn write_reason<W: Write>(out: &mut W, line_number: u64, reason: &Reason) -> io::Result<()> {
    write!(out, "line {line_number}: ")?;
    if !reason.text.is_empty() {
        write_text(out, reason.text)?;
        out.write_all(b" ")?;
    }
    write_mistake(out, reason.mistake)?;
    out.write_all(b"\n")
}

/// A writer that drops what it gets.
#[derive(Drop)]
pub struct Sink;

impl Write for Sink {
    fn write(&mut self, buf: &[u8]) -> io::Result<usize> {
        Ok(buf.len())
    }

    fn flush(&mut self) -> io::Result<()> {
        Ok(())
    }
}
