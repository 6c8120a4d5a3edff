// Subsets as they stand on a command line.
use crate::compared::same_at;
use array_grid::{SubsetError, subset_of};
use std::alloc::{AllocError, Global};

// The start and the shape of what a text picks of an array, and which of its axes are dropped; or why it is refused.
fn picked(alloc: Global, text: &str, shape: &[u64]) -> Result<String, AllocError> {
    match subset_of(alloc, Some(text), shape) {
        Ok(requested) => {
            let (start, shape) = (requested.subset.start(), requested.subset.shape());
            format!(in alloc; "{start:?} {shape:?} {:?}", requested.dropped)
        }
        Err(SubsetError::Malformed { word, column }) => {
            format!(in alloc; "column {column}: {word}")
        }
        Err(error) => format!(in alloc; "{error}"),
    }
}

const TEXTS: &[(&str, &str)] = &[
    // ranges without their end, and with it
    ("0..2,3:5,1..1", "[0, 3, 1] [2, 2, 0] [false, false, false]"),
    (
        "8..8,12:,5..=4",
        "[8, 12, 5] [0, 0, 0] [false, false, false]",
    ),
    (
        "..=4,1..=4,4..=4",
        "[0, 1, 4] [5, 4, 1] [false, false, false]",
    ),
    // ranges without a start or an end
    (":,..,..=4", "[0, 0, 0] [8, 12, 5] [false, false, false]"),
    ("..5,:5,3:", "[0, 0, 3] [5, 5, 2] [false, false, false]"),
    ("3..,0..,5:", "[3, 0, 5] [5, 12, 0] [false, false, false]"),
    // coordinates
    ("7,0,4", "[7, 0, 4] [1, 1, 1] [true, true, true]"),
    ("-8,-12,-5", "[0, 0, 0] [1, 1, 1] [true, true, true]"),
    ("-1,-0,-00", "[7, 0, 0] [1, 1, 1] [true, true, true]"),
    // ranges from the end
    (
        "-3..,:-1,-2:-1",
        "[5, 0, 3] [3, 11, 1] [false, false, false]",
    ),
    (
        "..=-1,-12..=-12,-5:5",
        "[0, 0, 0] [8, 1, 5] [false, false, false]",
    ),
    // whole axes
    ("...", "[0, 0, 0] [8, 12, 5] [false, false, false]"),
    ("...,2", "[0, 0, 2] [8, 12, 1] [false, false, true]"),
    ("2,...", "[2, 0, 0] [1, 12, 5] [true, false, false]"),
    ("2,...,3", "[2, 0, 3] [1, 12, 1] [true, false, true]"),
    ("1,2,...,3", "[1, 2, 3] [1, 1, 1] [true, true, true]"),
    ("2", "[2, 0, 0] [1, 12, 5] [true, false, false]"),
    ("2,1:3", "[2, 1, 0] [1, 2, 5] [true, false, false]"),
    // spaces and brackets
    ("[1]", "[1, 0, 0] [1, 12, 5] [true, false, false]"),
    ("[0:2, 3]", "[0, 3, 0] [2, 1, 5] [false, true, false]"),
    (
        "  [ 0..2 ,  -1 , : ]  ",
        "[0, 11, 0] [2, 1, 5] [false, true, false]",
    ),
    (" 1 , ... ", "[1, 0, 0] [1, 12, 5] [true, false, false]"),
    // past the array
    (
        "0..9",
        "the subset passes the array, whose shape is [8, 12, 5]",
    ),
    (
        "8",
        "the subset passes the array, whose shape is [8, 12, 5]",
    ),
    (
        "-9",
        "the subset passes the array, whose shape is [8, 12, 5]",
    ),
    (
        "..=8",
        "the subset passes the array, whose shape is [8, 12, 5]",
    ),
    (
        "..=-9",
        "the subset passes the array, whose shape is [8, 12, 5]",
    ),
    (
        "-9..",
        "the subset passes the array, whose shape is [8, 12, 5]",
    ),
    (
        "9..9",
        "the subset passes the array, whose shape is [8, 12, 5]",
    ),
    (
        "5..3,12",
        "the subset passes the array, whose shape is [8, 12, 5]",
    ),
    // a start past its end
    (
        "5..3",
        "a range starts past its end, in an array whose shape is [8, 12, 5]",
    ),
    (
        "...,-1:-2",
        "a range starts past its end, in an array whose shape is [8, 12, 5]",
    ),
    (
        "5..=3",
        "a range starts past its end, in an array whose shape is [8, 12, 5]",
    ),
    // too many
    ("...,1,...", "\"...\" stands more than once"),
    ("1,2,3,4", "the subset names 4 axes, and the array has 3"),
    (
        "1,2,...,3,4",
        "the subset names 4 axes, and the array has 3",
    ),
    // words that are none
    ("", "column 1: "),
    ("[]", "column 2: "),
    ("0..2,", "column 6: "),
    ("0..2, x,3", "column 7: x"),
    ("  [0..2,\u{1b},3", "column 3: [0..2"),
    ("  [ 0..2,\u{1b},3]", "column 10: \\u{1b}"),
    ("1,0 .. 2", "column 3: 0 .. 2"),
    ("1,1:2:3", "column 3: 1:2:3"),
    ("....", "column 1: ...."),
    ("..=", "column 1: ..="),
    ("1,+1", "column 3: +1"),
    ("1,--1", "column 3: --1"),
    ("1,-", "column 3: -"),
    ("1,1.5", "column 3: 1.5"),
    ("1,18446744073709551616", "column 3: 18446744073709551616"),
];

#[test]
fn words_pick_of_axes(rt: HostRuntime) {
    for (text, want) in TEXTS {
        let found = picked(rt.alloc(), text, &[8, 12, 5]).expect(&rt, "refused");
        same_at(&rt, *text, found.as_str(), *want);
    }
}

// Texts for an array of the longest axis.
const LONG_TEXTS: &[(&str, &str)] = &[
    ("-1", "[18446744073709551614] [1] [true]"),
    ("18446744073709551614", "[18446744073709551614] [1] [true]"),
    ("-18446744073709551615", "[0] [1] [true]"),
    ("...", "[0] [18446744073709551615] [false]"),
    (
        "..=18446744073709551615",
        "the subset passes the array, whose shape is [18446744073709551615]",
    ),
];

#[test]
fn words_pick_of_a_long_axis(rt: HostRuntime) {
    for (text, want) in LONG_TEXTS {
        let found = picked(rt.alloc(), text, &[u64::MAX]).expect(&rt, "refused");
        same_at(&rt, *text, found.as_str(), *want);
    }
}

// What is left of the shape of a subset without the axes that one coordinate names.
fn kept(alloc: Global, text: &str) -> Result<String, AllocError> {
    match subset_of(alloc, Some(text), &[8, 12, 5]) {
        Ok(requested) => format!(in alloc; "{:?}", requested.kept_shape(alloc)?),
        Err(error) => format!(in alloc; "{error}"),
    }
}

// Texts, and the shapes that NumPy gives them.
const KEPT: &[(&str, &str)] = &[
    ("...", "[8, 12, 5]"),
    ("2", "[12, 5]"),
    ("-1,1:3", "[2, 5]"),
    ("2..3,...,4", "[1, 12]"),
    ("0,0..0,0", "[0]"),
    ("0,0,0", "[]"),
];

#[test]
fn axes_named_by_one_coordinate_are_dropped(rt: HostRuntime) {
    for (text, want) in KEPT {
        let found = kept(rt.alloc(), text).expect(&rt, "refused");
        same_at(&rt, *text, found.as_str(), *want);
    }
}
