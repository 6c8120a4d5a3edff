// The value that a text is, and why a text is none.
ghost use Rattle.std.specs.Prelude.{◌≡◌, ◌≤◌, Some, IfOk};
ghost use Rattle.serde_json.specs.Data.{depth};
ghost use Rattle.serde_json.specs.Read.{read as read_text, max_depth};
ghost use Rattle.serde_json.specs.View.{view};

use crate::error::MetadataError;
use codec_metadata::PluginCreateError;
use serde_json::{Error, Value};
use std::alloc::{AllocError, Global};

// How deep values may nest: as many brackets as JSON is read with here.
const MOST_BRACKETS: usize = 127;

// A place in a text, whose lines and columns count from 1; columns are in bytes.
#[derive(Clone, Copy)]
struct Position {
    line: usize,
    column: usize,
}

// What stands before a place in a text: how many brackets are open, and whether a string is.
#[derive(Clone, Copy)]
struct Scan {
    position: Position,
    brackets: usize,
    in_string: bool,
    is_escaped: bool,
}

impl Scan {
    // Before the first byte.
    fn start() -> Self {
        Scan {
            position: Position { line: 1, column: 0 },
            brackets: 0,
            in_string: false,
            is_escaped: false,
        }
    }

    // One byte of a string more.
    fn step_in_string(&mut self, byte: u8) {
        if self.is_escaped {
            self.is_escaped = false;
        } else if byte == b'\\' {
            self.is_escaped = true;
        } else if byte == b'"' {
            self.in_string = false;
        }
    }

    // One byte more.
    fn step(&mut self, byte: u8) {
        self.position.column = self.position.column.saturating_add(1);
        if self.in_string {
            self.step_in_string(byte);
            return;
        }
        match byte {
            b'"' => self.in_string = true,
            b'[' | b'{' => self.brackets = self.brackets.saturating_add(1),
            b']' | b'}' => self.brackets = self.brackets.saturating_sub(1),
            b'\n' => {
                self.position.line = self.position.line.saturating_add(1);
                self.position.column = 0;
            }
            _ => {}
        }
    }
}

// Where the first bracket stands that nests too deep, if one does.
fn first_too_deep(text: &str) -> Option<Position> {
    let mut scan = Scan::start();
    for byte in text.as_bytes() {
        scan.step(*byte);
        if scan.brackets > MOST_BRACKETS {
            return Some(scan.position);
        }
    }
    None
}

// The word that stands in front of a text, where it is one that Python writes for a float which JSON cannot say.
fn word_of_float(rest: &[u8]) -> Option<&'static str> {
    if rest.starts_with(b"NaN") {
        return Some("NaN");
    }
    if rest.starts_with(b"Infinity") {
        return Some("Infinity");
    }
    None
}

// The first such word that stands in no string, and where.
fn first_word_of_float(text: &str) -> Option<(&'static str, Position)> {
    let bytes = text.as_bytes();
    let mut scan = Scan::start();
    for (at, byte) in bytes.iter().enumerate() {
        let in_string = scan.in_string;
        scan.step(*byte);
        if !in_string {
            if let Some(word) = word_of_float(bytes.get(at..).unwrap_or(&[])) {
                return Some((word, scan.position));
            }
        }
    }
    None
}

// Whether a text that is refused at a place was read up to another one.
fn reaches(refused: Position, position: Position) -> bool {
    let is_later = refused.line > position.line;
    let is_there = refused.line == position.line && refused.column >= position.column;
    is_later || is_there
}

// What is wrong with a text that is no JSON, or none that is read.
fn sentence_of(alloc: Global, text: &str, error: &Error) -> Result<String, AllocError> {
    let (line, column) = (error.line(), error.column());
    let refused = Position { line, column };
    if let Some(deep) = first_too_deep(text).filter(|deep| reaches(refused, *deep)) {
        let Position { line, column } = deep;
        return format!(in alloc;
            "the text nests deeper than {MOST_BRACKETS} brackets, at line {line}, column {column}"
        );
    }
    let told = format!(in alloc; "{error}")?;
    if told.starts_with("number out of range") {
        return format!(in alloc;
            "a number near line {line}, column {column} is past the range of a 64-bit float"
        );
    }
    let word = first_word_of_float(text).filter(|(_, position)| reaches(refused, *position));
    if let Some((word, Position { line, column })) = word {
        return format!(in alloc;
            "the text is no JSON, which has no {word}, as at line {line}, column {column}"
        );
    }
    String::from_str(alloc, "the text is no JSON")
}

/// The value that a text is. Refused as `BadField` where it is no JSON, nests too deep, or has a number past a float's range.
pub fn value_in(alloc: Global, text: &str) -> Result<Value, MetadataError>
    ensures read { IfOk result (λ value. read_text text.now ≡ Some (view value)) }
    ensures nests { IfOk result (λ value. depth (view value) ≤ max_depth) }
{
    match Value::from_str(alloc, text) {
        Ok(value) => Ok(value),
        Err(error) if error.is_memory() => Err(MetadataError::OutOfMemory),
        Err(error) => {
            let sentence = sentence_of(alloc, text, &error)?;
            let error = PluginCreateError::bad_field(alloc, "zarr.json");
            Err(MetadataError::refused(alloc, error, "zarr.json", sentence.as_str()))
        }
    }
}
