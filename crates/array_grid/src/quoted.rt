// Texts of elements, for a terminal and as JSON.
ghost use Rattle.std.specs.Prelude.{◌<◌};

use array_fields::{ElementType, is_printed, write_json_character, write_json_text};
use std::io::Write;
use std::{char, io, str};

// Writes a character of a text for a terminal.
fn write_shown<W: Write>(out: &mut W, character: char) -> io::Result<()> {
    match character {
        '"' => out.write_all(b"\\\""),
        '\\' => out.write_all(b"\\\\"),
        '\n' => out.write_all(b"\\n"),
        '\r' => out.write_all(b"\\r"),
        '\t' => out.write_all(b"\\t"),
        _ if is_printed(character) => write!(out, "{character}"),
        _ => write!(out, "\\u{{{:x}}}", character as u32),
    }
}

// Writes a text between quotes for a terminal: what acts there, or is not seen, as an escape.
fn write_shown_text<W: Write>(out: &mut W, text: &str) -> io::Result<()> {
    out.write_all(b"\"")?;
    for character in text.chars() {
        write_shown(out, character)?;
    }
    out.write_all(b"\"")
}

// Writes a text in UTF-8 between quotes, as JSON or for a terminal; a replacement character in the place of bytes that are none.
pub(crate) fn write_quoted<W: Write>(out: &mut W, bytes: &[u8], is_json: bool) -> io::Result<()> {
    let text = str::from_utf8(bytes).unwrap_or("\u{fffd}");
    if is_json {
        write_json_text(out, text)
    } else {
        write_shown_text(out, text)
    }
}

// What stands in place of a character that a text cannot have.
const REPLACEMENT: char = '\u{fffd}';

// The character that a code in four bytes is, least significant first.
fn character_of(code: &[u8]) -> Option<char> {
    match code {
        [a, b, c, d] => char::from_u32(u32::from_le_bytes([*a, *b, *c, *d])),
        _ => None,
    }
}

// The characters before the zeros at the end, of which each has as many bytes.
fn before_zeros(bytes: &[u8], each: usize) -> &[u8]
    requires { 0 < each }
{
    match bytes.iter().rposition(|byte| *byte != 0) {
        Some(last) => {
            let end = (last - last % each).saturating_add(each);
            &bytes[..end.min(bytes.len())]
        }
        None => &[],
    }
}

/// Whether an element has the text that its type says it is: in UTF-8, or in UTF-32, up to the zeros behind it.
pub fn is_text(element_type: ElementType, element: &[u8]) -> bool {
    match element_type {
        ElementType::Utf8 => str::from_utf8(element).is_ok(),
        ElementType::NullTerminated(_) => str::from_utf8(before_zeros(element, 1)).is_ok(),
        ElementType::Utf32(_) => before_zeros(element, 4)
            .chunks(4)
            .all(|code| character_of(code).is_some()),
        _ => true,
    }
}

// Writes a text in UTF-8 between quotes, up to the zeros behind it.
pub(crate) fn write_null_terminated<W: Write>(
    out: &mut W,
    bytes: &[u8],
    is_json: bool,
) -> io::Result<()> {
    write_quoted(out, before_zeros(bytes, 1), is_json)
}

// Writes a text in UTF-32, least significant byte first, between quotes, up to the zeros behind it.
pub(crate) fn write_utf32<W: Write>(out: &mut W, bytes: &[u8], is_json: bool) -> io::Result<()> {
    out.write_all(b"\"")?;
    for code in before_zeros(bytes, 4).chunks(4) {
        let character = character_of(code).unwrap_or(REPLACEMENT);
        if is_json {
            write_json_character(out, character)?;
        } else {
            write_shown(out, character)?;
        }
    }
    out.write_all(b"\"")
}
