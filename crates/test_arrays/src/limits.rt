// What is too much: brackets, axes and bytes of metadata.
use crate::compared::{same, same_at};
use crate::examples::{told, told_with};
use array_fields::MetadataError;
use std::alloc::{AllocError, Global};

// A text, repeated.
fn repeated(alloc: Global, text: &str, times: usize) -> Result<String, AllocError> {
    let mut whole = String::new(alloc);
    for _ in 0..times {
        whole.push_str(text)?;
    }
    Ok(whole)
}

// How a text is read with open brackets after it.
fn told_nested(alloc: Global, text: &str, brackets: usize) -> Result<String, AllocError> {
    let brackets = repeated(alloc, "[", brackets)?;
    let whole = format!(in alloc; "{text}{brackets}")?;
    told(alloc, whole.as_str())
}

// 127 open brackets are read, in a string any number.
#[test]
fn brackets_nest_so_deep(rt: HostRuntime) {
    let rows = [
        ("", 127, "the text is no JSON"),
        (
            "",
            128,
            "the text nests deeper than 127 brackets, at line 1, column 128",
        ),
        (
            "\n",
            200,
            "the text nests deeper than 127 brackets, at line 2, column 128",
        ),
        (
            "{\n\"x\": ",
            127,
            "the text nests deeper than 127 brackets, at line 2, column 132",
        ),
        ("[\"\\\"", 200, "the text is no JSON"),
        ("[[]x", 200, "the text is no JSON"),
        ("[[],", 126, "the text is no JSON"),
        (
            "[[],",
            127,
            "the text nests deeper than 127 brackets, at line 1, column 131",
        ),
    ];
    for (text, brackets, sentence) in rows {
        let told = told_nested(rt.alloc(), text, brackets).expect(&rt, "refused");
        let want = format!(in rt.alloc(); "4 BadField zarr.json: in zarr.json: {sentence}").expect(
            &rt, "refused",
        );
        same_at(&rt, (text, brackets), told.as_str(), want.as_str());
    }
}

// How an array is read that has one axis more than this, whose chunks have two.
fn told_of_axes(alloc: Global, axes: usize) -> Result<String, AllocError> {
    let more = repeated(alloc, ", 1", axes)?;
    let members = format!(in alloc; r#""shape": [1{more}]"#)?;
    told_with(alloc, members.as_str())
}

// The axes are counted before the chunks are looked at.
#[test]
fn axes_are_counted(rt: HostRuntime) {
    let rows = [
        (
            63,
            "4 BadField chunk_shape: in chunk_grid.configuration.chunk_shape: a chunk has other than one number for each axis of the array",
        ),
        (
            64,
            "4 BadField shape: in shape: arrays of more than 64 axes are not read, and this has 65",
        ),
        (
            40_000,
            "4 BadField shape: in shape: arrays of more than 64 axes are not read, and this has 40001",
        ),
    ];
    for (more, want) in rows {
        let told = told_of_axes(rt.alloc(), more).expect(&rt, "refused");
        same_at(&rt, more, told.as_str(), want);
    }
}

// Why a text of this length is refused.
fn refusal_of_length(alloc: Global, length: u64) -> Result<String, AllocError> {
    match MetadataError::test_length(length) {
        Ok(()) => Ok(String::new(alloc)),
        Err(error) => format!(in alloc; "{error}"),
    }
}

#[test]
fn texts_have_a_bound(rt: HostRuntime) {
    let refused = refusal_of_length(rt.alloc(), 16_777_217).expect(&rt, "refused");
    let want =
        "4 BadField zarr.json: in zarr.json: the text has 16777217 bytes, and at most 16777216 are read";
    same(&rt, refused.as_str(), want);
    same(
        &rt,
        refusal_of_length(rt.alloc(), 16_777_216)
            .expect(&rt, "refused")
            .as_str(),
        "",
    );
}
