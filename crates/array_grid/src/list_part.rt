// A part of a list, so that several programs share a work.
ghost use Rattle.std.specs.Prelude.{◌≡◌, ◌<◌, ◌↔◌, IsTrue};
ghost use Rattle.array_grid.specs.ListParts.{IsIn, HoldsAlone, whole_list};

use std::marker::Model;

/// One of the parts to which the places of a list are dealt out in turn: of N parts the K-th, counted from 1, has the K-th place of
/// the list, and from there on each N-th.
#[derive(Drop)]
pub struct ListPart {
    // which part this is, counted from 0
    number: u64,
    parts: u64,
}

impl Model for ListPart {
    ghost use Rattle.std.specs.Prelude.{◌<◌};
    ghost use Rattle.array_grid.specs.ListParts.{PartOfList};

    // which part it is, counted from 0, and of how many
    ghost Value = { PartOfList };

    ghost view = { λ part. record { number = part.number; parts = part.parts } };

    ghost invariant = { λ part. part.number < part.parts };
}

impl ListPart {
    /// The only part: all of a list.
    pub fn whole() -> Self
        ensures { result ≡ whole_list }
    {
        ListPart {
            number: 0,
            parts: 1,
        }
    }

    /// The part that a word names: `K/N` the K-th of N, counted from 1. `None` where a word is no such pair of numbers.
    pub fn named(word: &str) -> Option<Self> {
        let (number, parts) = word.split_once('/')?;
        let number: u64 = number.parse().ok()?;
        let parts: u64 = parts.parse().ok()?;
        let number = number.checked_sub(1)?;
        if number < parts {
            Some(ListPart { number, parts })
        } else {
            None
        }
    }

    /// Whether the part has a place of a list, counted from 0.
    pub fn has(&self, place: u64) -> bool
        ensures { IsTrue result ↔ IsIn place self.now }
    {
        place % self.parts == self.number
    }

    /// Whether it is the first of the parts.
    pub fn is_first(&self) -> bool
        ensures { IsTrue result ↔ self.now.number ≡ 0 }
    {
        self.number == 0
    }

    /// The law of parts: of as many, each place of a list is in one, and in no other.
    pub fn holding(place: u64, parts: u64) -> Self
        requires some { 0 < parts }
        ensures { HoldsAlone place parts result }
    {
        ListPart {
            number: place % parts,
            parts,
        }
    }
}
