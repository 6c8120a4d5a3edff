// The parts into which a list of shards is dealt out.
use crate::compared::same;
use array_grid::ListPart;
use std::process::Abort;

// Words, and whether the part that each names has the places 0 to 6 of a list.
const PARTS: &[(&str, [bool; 7])] = &[
    ("1/1", [true, true, true, true, true, true, true]),
    ("1/3", [true, false, false, true, false, false, true]),
    ("2/3", [false, true, false, false, true, false, false]),
    ("3/3", [false, false, true, false, false, true, false]),
    ("8/9", [false, false, false, false, false, false, false]),
];

// Words that name no part.
const NONE: &[&str] = &[
    "",
    "1",
    "0/3",
    "4/3",
    "1/0",
    "1/",
    "/2",
    "a/2",
    "1/2/3",
    "-1/2",
    "1/18446744073709551616",
];

fn compare_part<R: Abort>(rt: &R, word: &str, wanted: &[bool]) {
    let part = ListPart::named(word).expect(rt, "a part");
    for (place, want) in wanted.iter().enumerate() {
        same(rt, part.has(place as u64), *want);
    }
}

#[test]
fn each_part_has_its_places(rt: HostRuntime) {
    for (word, want) in PARTS {
        compare_part(&rt, word, want);
    }
}

#[test]
fn other_words_name_no_part(rt: HostRuntime) {
    for word in NONE {
        same(&rt, ListPart::named(word).is_none(), true);
    }
    same(&rt, ListPart::whole().is_first(), true);
    same(&rt, ListPart::holding(7, 3).has(4), true);
}
