// A text for a terminal.
ghost use Rattle.std.specs.Prelude.{◌≡◌, ◌≤◌, ◌∷◌, [], false, IfOk, OnOk, chars, length, string_bytes};
ghost use Rattle.std.specs.List.{All};
ghost use Rattle.array_fields.specs.Printed.{IsPrinted, IsShown};

use crate::printed::is_printed;
use std::alloc::{AllocError, Global};

// How many characters of a text are shown.
const LIMIT: usize = 200;

// A character, or a question mark in its place where a terminal does not show it.
fn marked(c: char) -> char
    ensures printed { IsPrinted result }
    ensures same { IsPrinted c → result ≡ c }
{
    if is_printed(c) { c } else { '?' }
}

// Puts a character after others.
fn push_printed(shown: &mut String, c: char) -> Result<(), AllocError>
    requires { IsPrinted c }
    ensures { OnOk result (IsShown (c ∷ []) (string_bytes shown.old) (string_bytes shown.new)) }
{
    shown.push(c)?;
    Ok(())
}

// Puts a text after another, with question marks in the place of what a terminal does not show.
fn push_text(shown: &mut String, text: &str) -> Result<(), AllocError>
    ensures { OnOk result (IsShown (chars text.now) (string_bytes shown.old) (string_bytes shown.new)) }
{
    for c in text.chars() {
        push_printed(shown, marked(c))?;
    }
    Ok(())
}

// How a character is written that a terminal does not show.
fn escape_of(alloc: Global, c: char) -> Result<String, AllocError> {
    match c {
        '\n' => String::from_str(alloc, "\\n"),
        '\r' => String::from_str(alloc, "\\r"),
        '\t' => String::from_str(alloc, "\\t"),
        _ => format!(in alloc; "\\u{{{:x}}}", c as u32),
    }
}

// Puts a character after others, or an escape in its place where a terminal does not show it.
fn push_escaped(alloc: Global, shown: &mut String, c: char) -> Result<(), AllocError>
    ensures { OnOk result (IsShown (c ∷ []) (string_bytes shown.old) (string_bytes shown.new)) }
{
    if is_printed(c) {
        return push_printed(shown, c);
    }
    let escape = escape_of(alloc, c)?;
    push_text(shown, escape.as_str())?;
    Ok(())
}

// The first characters of a text, with escapes, and whether it has more.
fn escaped_front(alloc: Global, text: &str) -> Result<(String, bool), AllocError>
    ensures printed { IfOk result (λ front. All IsPrinted (chars (string_bytes front.0))) }
    ensures same { All IsPrinted (chars text.now) → length (chars text.now) ≤ 200 → IfOk result (λ front. (string_bytes front.0 ≡ text.now) × (front.1 ≡ false)) }
{
    let mut shown = String::new(alloc);
    let mut count = 0;
    for c in text.chars() {
        if count == LIMIT {
            return Ok((shown, true));
        }
        push_escaped(alloc, &mut shown, c)?;
        count += 1;
    }
    Ok((shown, false))
}

/// A text as `escaped` shows it, but whole, however long it is. Refused only as out of memory.
pub fn escaped_whole(alloc: Global, text: &str) -> Result<String, AllocError>
    ensures printed { IfOk result (λ shown. All IsPrinted (chars (string_bytes shown))) }
    ensures same { All IsPrinted (chars text.now) → IfOk result (λ shown. string_bytes shown ≡ text.now) }
{
    let mut shown = String::new(alloc);
    for c in text.chars() {
        push_escaped(alloc, &mut shown, c)?;
    }
    Ok(shown)
}

/// A text of somebody else for a terminal: what would act there, as a newline, an escape sequence or a mark that turns the direction
/// of a text, and what is not seen there, stands as an escape (`\n`, `\u{1b}`). Of a longer text the first 200 characters are shown,
/// and how many it has. Refused only as out of memory.
pub fn escaped(alloc: Global, text: &str) -> Result<String, AllocError>
    ensures printed { IfOk result (λ shown. All IsPrinted (chars (string_bytes shown))) }
    ensures same { All IsPrinted (chars text.now) → length (chars text.now) ≤ 200 → IfOk result (λ shown. string_bytes shown ≡ text.now) }
{
    let (mut shown, is_cut) = escaped_front(alloc, text)?;
    if !is_cut {
        return Ok(shown);
    }
    let length = text.chars().count();
    let told = format!(in alloc; "... ({length} characters)")?;
    push_text(&mut shown, told.as_str())?;
    Ok(shown)
}
