// An object of JSON on a line of its own.
use std::io;
use std::io::Write;

/// An object of JSON that is written member by member, on a line of its own. Its first member, `kind`, says what it tells of.
#[derive(Drop)]
pub struct JsonLine<'w, W> {
    out: &'w mut W,
}

/// Writes a character of a text as JSON does (RFC 8259, 7); a control character as an escape.
pub fn write_json_character<W: Write>(out: &mut W, character: char) -> io::Result<()> {
    match character {
        '"' => out.write_all(b"\\\""),
        '\\' => out.write_all(b"\\\\"),
        '\n' => out.write_all(b"\\n"),
        '\u{0}'..='\u{1f}' | '\u{7f}'..='\u{9f}' => write!(out, "\\u{:04x}", character as u32),
        _ => write!(out, "{character}"),
    }
}

/// Writes a text as JSON does, between quotes (RFC 8259, 7); control characters as escapes.
pub fn write_json_text<W: Write>(out: &mut W, text: &str) -> io::Result<()> {
    out.write_all(b"\"")?;
    for character in text.chars() {
        write_json_character(out, character)?;
    }
    out.write_all(b"\"")
}

/// Writes numbers as a list of JSON.
pub fn write_json_numbers<W: Write>(out: &mut W, numbers: &[u64]) -> io::Result<()> {
    out.write_all(b"[")?;
    let mut before = "";
    for number in numbers {
        write!(out, "{before}{number}")?;
        before = ",";
    }
    out.write_all(b"]")
}

impl<'w, W: Write> JsonLine<'w, W> {
    /// Begins an object of a kind.
    pub fn new(out: &'w mut W, kind: &str) -> io::Result<Self> {
        write!(out, "{{\"kind\":\"{kind}\"")?;
        Ok(JsonLine { out })
    }

    /// Begins a member, of which the value is to be written.
    pub fn member(&mut self, name: &str) -> io::Result<&mut W> {
        write!(self.out, ",\"{name}\":")?;
        Ok(self.out)
    }

    /// Writes a member that is a number.
    pub fn number(&mut self, name: &str, number: u64) -> io::Result<()> {
        write!(self.member(name)?, "{number}")
    }

    /// Writes a member that is a text.
    pub fn text(&mut self, name: &str, text: &str) -> io::Result<()> {
        write_json_text(self.member(name)?, text)
    }

    /// Writes a member that is true or false.
    pub fn flag(&mut self, name: &str, is_set: bool) -> io::Result<()> {
        write!(self.member(name)?, "{is_set}")
    }

    /// Writes a member that is a list of numbers.
    pub fn numbers(&mut self, name: &str, numbers: &[u64]) -> io::Result<()> {
        write_json_numbers(self.member(name)?, numbers)
    }

    /// Writes members that are numbers, each with its name.
    pub fn each(&mut self, members: &[(&str, u64)]) -> io::Result<()> {
        for (name, number) in members {
            self.number(name, *number)?;
        }
        Ok(())
    }

    /// Ends the object and the line.
    pub fn end(self) -> io::Result<()> {
        self.out.write_all(b"}\n")
    }
}
