// Texts of anybody for a terminal.
use crate::compared::same;
use array_fields::escaped;
use std::alloc::{AllocError, Global};

// Texts, and how they are shown.
const TEXTS: &[(&str, &str)] = &[
    ("", ""),
    ("weather/temperature", "weather/temperature"),
    (r#"a\n {b} 'c' "d""#, r#"a\n {b} 'c' "d""#),
    ("é漢\u{1f600}", "é漢\u{1f600}"),
    ("a\nb\rc\td", r"a\nb\rc\td"),
    ("\u{1b}[31mred\u{7}\0", r"\u{1b}[31mred\u{7}\u{0}"),
    ("\u{7f}\u{80}\u{9f}\u{a0}", "\\u{7f}\\u{80}\\u{9f}\u{a0}"),
    ("\u{202e}gpj.exe\u{2066}", r"\u{202e}gpj.exe\u{2066}"),
    (
        "a\u{ad}\u{200b}\u{feff}b\u{2028}",
        r"a\u{ad}\u{200b}\u{feff}b\u{2028}",
    ),
    ("\u{e0041}", r"\u{e0041}"),
];

#[test]
fn what_acts_is_escaped(rt: HostRuntime) {
    for (text, want) in TEXTS {
        let shown = escaped(rt.alloc(), text).expect(&rt, "refused");
        same(&rt, shown.as_str(), *want);
    }
}

// A text of this length, as it is shown.
fn shown_of(alloc: Global, characters: usize) -> Result<String, AllocError> {
    let mut text = String::new(alloc);
    for _ in 0..characters {
        text.push('é')?;
    }
    escaped(alloc, text.as_str())
}

// The first 200 characters, and behind them how many there are.
#[test]
fn a_long_text_is_cut(rt: HostRuntime) {
    let whole = shown_of(rt.alloc(), 200).expect(&rt, "refused");
    same(&rt, whole.chars().count(), 200);
    let want = format!(in rt.alloc(); "{whole}... (5000 characters)").expect(&rt, "refused");
    same(
        &rt,
        shown_of(rt.alloc(), 5000).expect(&rt, "refused").as_str(),
        want.as_str(),
    );
}
