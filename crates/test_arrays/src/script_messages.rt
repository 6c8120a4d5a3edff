// What is said of a line that is no command's.
use crate::compared::same;
use std::alloc::{AllocError, Global};
use tool_script::run_script_explained;

// What a script answers, the messages on it, and its status behind them.
fn explained(alloc: Global, script: &str) -> Result<String, AllocError> {
    let mut out: Vec<u8> = Vec::new(alloc);
    let mut messages: Vec<u8> = Vec::new(alloc);
    let status = run_script_explained(alloc, script.as_bytes(), &mut out, &mut messages);
    let answers = String::from_utf8_lossy(alloc, &out)?;
    let messages = String::from_utf8_lossy(alloc, &messages)?;
    format!(in alloc; "{answers}{messages}{status}")
}

#[test]
fn messages_name_the_fault(rt: HostRuntime) {
    for (line, message) in [
        ("encode 1,2,3,256", "256 is past uint8"),
        ("encode 1,,3,4", "a number is missing"),
        ("encode 1,2,3,-4", "-4 is no number"),
        ("encode", "a word is missing"),
        (
            "index ",
            "two spaces in a row, or a space at an end of the line",
        ),
        ("index 3", "3 is a word too many"),
        ("index\r", "index\\x0d is no command"),
        ("read 0-4", "0-4 is no range a..b"),
        (
            "read 0..9,3..1",
            "0..9,3..1 has a range whose start passes its end",
        ),
        (
            "cells 1 1,2",
            "1,2 has another number of axes than the first coordinate",
        ),
        (
            "object xF0",
            "bytes are written as x and pairs of the digits 0 to 9 and a to f",
        ),
        ("shard 4,0 2,2 uint8 0 end", "4,0 has a 0, and is no shape"),
        ("shard 4 2 int8 0 end", "int8 is no type of elements"),
        ("shard 4 2 uint16 65536 end", "65536 is past uint16"),
        (
            "shard 4 2 uint8 0 middle",
            "middle is neither start nor end",
        ),
    ] {
        let script = format!(in rt.alloc(); "shard 4 2 uint8 0 end\n\n{line}\nindex\n").expect(
            &rt, "refused",
        );
        let wanted = format!(in rt.alloc(); "ok\nmalformed 3\nline 3: {message}\n2").expect(
            &rt, "refused",
        );
        same(
            &rt,
            explained(rt.alloc(), &script).expect(&rt, "refused"),
            wanted,
        );
    }
}

#[test]
fn a_script_begins_with_a_shard(rt: HostRuntime) {
    same(
        &rt,
        explained(rt.alloc(), "read 0..4\n")
            .expect(&rt, "refused")
            .as_str(),
        "malformed 1\nline 1: read comes before any shard\n2",
    );
}
