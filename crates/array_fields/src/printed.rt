// Which characters a terminal shows as they are.
ghost use Rattle.std.specs.Prelude.{◌↔◌, IsTrue};
ghost use Rattle.array_fields.specs.Printed.{IsControl, IsDirection, IsUnseen, IsPrinted};

// Whether a terminal obeys a character, or ends a line or a paragraph there.
fn is_control(c: char) -> bool
    ensures { IsTrue result ↔ IsControl c }
{
    matches!(c, '\0'..='\u{1f}' | '\u{7f}'..='\u{9f}' | '\u{2028}'..='\u{2029}')
}

// Whether a character turns the direction of a text.
fn is_direction(c: char) -> bool
    ensures { IsTrue result ↔ IsDirection c }
{
    matches!(c, '\u{61c}' | '\u{200e}'..='\u{200f}' | '\u{202a}'..='\u{202e}' | '\u{2066}'..='\u{2069}')
}

// Whether a character has no width.
fn is_unseen(c: char) -> bool
    ensures { IsTrue result ↔ IsUnseen c }
{
    matches!(
        c,
        '\u{ad}' | '\u{200b}'..='\u{200d}' | '\u{2060}'..='\u{206f}' | '\u{feff}' | '\u{fff9}'..='\u{fffb}' | '\u{e0000}'..='\u{e0fff}'
    )
}

/// Whether a terminal shows a character as it is, so that it neither acts there nor is unseen.
pub fn is_printed(c: char) -> bool
    ensures { IsTrue result ↔ IsPrinted c }
{
    !is_control(c) && !is_direction(c) && !is_unseen(c)
}
