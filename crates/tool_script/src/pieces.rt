// The pieces of a text that stand between a separator: lines, words and the members of lists.
ghost use Rattle.std.specs.Prelude.{◌≡◌, ◌==◌, [], position, option_map};
ghost use Rattle.std.specs.Iterator.{YieldsFirstBy, item_count};
ghost use Rattle.std.specs.List.{slice_split};
ghost use Rattle.tool_script.specs.Text.{pieces_left, text_left};

/// The pieces of a text between one separator, first to last. A text without it is one piece, also where it
/// is empty.
#[derive(Drop)]
pub struct Pieces<'a> {
    rest: Option<&'a [u8]>,
    separator: u8,
}

// Where the separator stands first.
fn separator_at(text: &[u8], separator: u8) -> Option<usize>
    ensures { result ≡ position (λ byte. byte == separator) text.now }
{
    text.iter().position(|byte| *byte == separator)
}

impl<'a> Pieces<'a> {
    /// The pieces of a text.
    pub fn new(text: &'a [u8], separator: u8) -> Self
        ensures { pieces_left result ≡ slice_split (λ byte. byte == separator) text.now }
    {
        Pieces {
            rest: Some(text),
            separator,
        }
    }

    /// The text behind the last piece that was taken and its separator, which is left whole; `None` where that piece was the
    /// last. There are no pieces left then.
    pub fn rest(&mut self) -> Option<&'a [u8]>
        ensures rest { option_map (λ text. text.now) result ≡ text_left self.old }
        ensures none { pieces_left self.new ≡ [] }
    {
        self.rest.take()
    }
}

impl<'a> Iterator for Pieces<'a> {
    type Item = &'a [u8];

    ghost next_gives = { YieldsFirstBy (λ piece. piece.now) pieces_left };

    ghost remaining = { item_count pieces_left };

    fn next(&mut self) -> Option<&'a [u8]> {
        let rest = self.rest?;
        match separator_at(rest, self.separator) {
            Some(at) => {
                self.rest = Some(&rest[at + 1..]);
                Some(&rest[..at])
            }
            None => {
                self.rest = None;
                Some(rest)
            }
        }
    }
}
