// A program over an array on disk whose chunks are shards: says what it holds, checks it, reads its elements and compacts it. On a
// terminal its messages show how far it is.
#![tactic(auto)]

mod command;
mod command_line;
mod usages;

use crate::command::run_command;
use std::io::{ErrorKind, IsTerminal, Write};
use std::process::ExitCode;
use std::{env, io};

// The arguments, of which the first is the program's name.
fn arguments(rt: &HostRuntime) -> io::Result<Vec<String>> {
    Ok(env::args(rt)?.collect(rt.alloc())?)
}

// Why the arguments could not be read.
fn sentence_of(error: io::Error) -> &'static str {
    if error.kind() == ErrorKind::InvalidData {
        "zarr_shard: an argument is not UTF-8\n"
    } else {
        "zarr_shard: out of memory\n"
    }
}

fn main(rt: HostRuntime) -> ExitCode {
    let mut messages = rt.stderr();
    let words = match arguments(&rt) {
        Ok(words) => words,
        Err(error) => {
            let _ = messages.write_all(sentence_of(error).as_bytes());
            return ExitCode::from(2);
        }
    };
    let shows_progress = messages.is_terminal();
    let status = run_command(&rt, &rt, &words, shows_progress);
    ExitCode::from(status)
}
