// A program over lines of text: makes shards, encodes, decodes and compacts them, and tells their index and bytes. On
// standard error it says why a line is no command's.
#![tactic(auto)]

use std::io;
use std::process::ExitCode;
use tool_script::run_script_explained;

fn main(rt: HostRuntime) -> ExitCode {
    let status = run_script_explained(rt.alloc(), rt.stdin(), io::writer(&rt), rt.stderr());
    ExitCode::from(status)
}
