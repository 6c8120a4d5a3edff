// Scripts: lines that are read, run and answered.
ghost use Rattle.std.specs.Prelude.{◌≡◌, ◌≤◌, IfOk, IfErr, IfSome, vec_len};
ghost use Rattle.tool_script.specs.declared.stop.Stop.TheVariants.{Failed};
ghost use Rattle.tool_script.specs.declared.script.TheConstants.{MAX_INPUT};

use crate::explain::{Sink, write_reason};
use crate::pieces::Pieces;
use crate::print::write_malformed;
use crate::stop::Stop;
use crate::tool::Tool;
use std::alloc::Global;
use std::io;
use std::io::{BufWriter, ErrorKind, Read, Write};

/// The most bytes of a script.
pub const MAX_INPUT: usize = 16_777_216;

/// The most calls that read a script.
pub const MAX_READS: u32 = 33_554_432;

/// The bytes of a reader to its end. `Failed` where a read fails, where there are more bytes than `MAX_INPUT` or the
/// end is not met in so many calls, and where memory is refused.
pub fn read_input<R: Read>(
    alloc: Global,
    reader: &mut R,
    most_reads: u32,
) -> Result<Vec<u8>, Stop<'static>>
    ensures bounded { IfOk result (λ input. vec_len input ≤ MAX_INPUT) }
    ensures failed { IfErr result (λ stop. stop ≡ Failed) }
    ensures whole { IfOk result (λ input. IfSome (R.remaining reader.old) (λ bytes. input.items ≡ bytes)) }
{
    let mut input: Vec<u8> = Vec::new(alloc);
    let mut part = [0u8; 4096];
    for _ in 0..most_reads {
        match reader.read(&mut part) {
            Ok(0) => return Ok(input),
            Ok(len) => {
                if len > MAX_INPUT - input.len() {
                    return Err(Stop::Failed);
                }
                input.extend_from_slice(&part[..len])?;
            }
            Err(error) => {
                if error.kind() != ErrorKind::Interrupted {
                    return Err(Stop::Failed);
                }
            }
        }
    }
    Err(Stop::Failed)
}

// Where a script stops at a line that is no command's, writes the line `malformed`, and the reason as a message. A message
// that is not taken is dropped.
fn write_stop<W: Write, M: Write>(
    out: &mut W,
    messages: &mut M,
    line_number: u64,
    stop: &Stop,
) -> io::Result<()> {
    if let Stop::Malformed(reason) = stop {
        write_malformed(out, line_number)?;
        let _ = write_reason(messages, line_number, reason);
    }
    Ok(())
}

// Runs the lines of a script, first to last, up to the first that is no command's.
fn run_lines<'a, W: Write, M: Write>(
    alloc: Global,
    input: &'a [u8],
    out: &mut W,
    messages: &mut M,
) -> Result<(), Stop<'a>> {
    let mut tool = Tool::new();
    let mut line_number: u64 = 0;
    for line in Pieces::new(input, b'\n') {
        line_number = line_number.saturating_add(1);
        if line.is_empty() {
            continue;
        }
        match tool.run(alloc, line, out) {
            Ok(_) => {}
            Err(stop) => {
                write_stop(out, messages, line_number, &stop)?;
                return Err(stop);
            }
        }
    }
    Ok(())
}

// Runs a script, and sees that its answers are written.
fn run_input<'a, W: Write + Drop, M: Write>(
    alloc: Global,
    input: &'a [u8],
    writer: W,
    messages: &mut M,
) -> Result<(), Stop<'a>> {
    let mut out = BufWriter::new(alloc, writer)?;
    let ran = run_lines(alloc, input, &mut out, messages);
    out.flush()?;
    ran
}

/// Runs the script that a reader gives, and writes its answers, one line for each command; returns the status for the
/// program to end with. The script is read to its end first. 0 where every line was run; 2 at the first line that is
/// no command's, after the line `malformed` with its number; 1 where a read or a write fails, where the script has
/// more than 16,777,216 bytes or its end isn't met in 33,554,432 reads, and where a growth of the script's own is
/// refused.
pub fn run_script<R: Read + Drop, W: Write + Drop>(alloc: Global, reader: R, writer: W) -> u8
    ensures { result ≤ 2 }
{
    run_script_explained(alloc, reader, writer, Sink)
}

/// Does as `run_script`, and says by a message why a line is no command's, as `line 3: 256 is past uint8`. A message takes
/// no memory; whether it is taken changes neither the answers nor the status.
pub fn run_script_explained<R: Read + Drop, W: Write + Drop, M: Write + Drop>(
    alloc: Global,
    mut reader: R,
    writer: W,
    mut messages: M,
) -> u8
    ensures { result ≤ 2 }
{
    let input = match read_input(alloc, &mut reader, MAX_READS) {
        Ok(input) => input,
        Err(stop) => return stop.status(),
    };
    match run_input(alloc, &input, writer, &mut messages) {
        Ok(()) => 0,
        Err(stop) => stop.status(),
    }
}
