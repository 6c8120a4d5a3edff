// Readers that are interrupted, end late or fail, and writers that fail.
use crate::compared::{same, same_at};
use std::alloc::{AllocError, Global};
use std::io;
use std::io::{ErrorKind, Read, Write};
use tool_script::{MAX_INPUT, MAX_READS, read_input, run_script};

// Gives a number of whole buffers of a line that is no command's, and then ends or fails.
#[derive(Drop)]
struct Buffers {
    left: usize,
    fails: bool,
}

impl Read for Buffers {
    fn read(&mut self, buf: &mut [u8]) -> io::Result<usize> {
        if self.left > 0 {
            self.left -= 1;
            buf.fill(b'-');
            return Ok(buf.len());
        }
        if self.fails {
            return Err(io::Error::from(ErrorKind::Other));
        }
        Ok(0)
    }
}

// Is interrupted before each byte of a text, and fails at its end where it is to.
#[derive(Drop)]
struct Drops {
    text: &'static [u8],
    rests: bool,
    fails: bool,
}

impl Read for Drops {
    fn read(&mut self, buf: &mut [u8]) -> io::Result<usize> {
        self.rests = !self.rests;
        if self.rests {
            return Err(io::Error::from(ErrorKind::Interrupted));
        }
        if self.fails && self.text.is_empty() {
            return Err(io::Error::from(ErrorKind::Other));
        }
        let len = self.text.len().min(buf.len()).min(1);
        buf[..len].copy_from_slice(&self.text[..len]);
        self.text = &self.text[len..];
        Ok(len)
    }
}

// Takes no byte, or takes each and fails to pass them on.
#[derive(Drop)]
struct Broken {
    takes: bool,
}

impl Write for Broken {
    fn write(&mut self, buf: &[u8]) -> io::Result<usize> {
        if self.takes {
            return Ok(buf.len());
        }
        Err(io::Error::from(ErrorKind::Other))
    }

    fn flush(&mut self) -> io::Result<()> {
        Err(io::Error::from(ErrorKind::Other))
    }
}

// What the script of a reader answers, and its status behind it.
fn answers<R: Read + Drop>(alloc: Global, reader: R) -> Result<String, AllocError> {
    let mut out: Vec<u8> = Vec::new(alloc);
    let status = run_script(alloc, reader, &mut out);
    let lines = String::from_utf8_lossy(alloc, &out)?;
    format!(in alloc; "{lines}{status}")
}

#[test]
fn interrupted_reads_are_made_again(rt: HostRuntime) {
    for (text, fails, expected) in [
        (
            b"shard 4 2 uint8 0 end\nindex".as_slice(),
            false,
            "ok\nnone\n0",
        ),
        (b"shard 4 2 uint8 0 end\nindex\n".as_slice(), true, "1"),
        (b"".as_slice(), true, "1"),
    ] {
        let reader = Drops {
            text,
            rests: false,
            fails,
        };
        same(
            &rt,
            answers(rt.alloc(), reader).expect(&rt, "refused").as_str(),
            expected,
        );
    }
}

// A buffer has 4,096 bytes, and a script has at most 16,777,216.
#[test]
fn a_script_has_a_greatest_length(rt: HostRuntime) {
    for (left, fails, expected) in [
        (4096, false, "malformed 1\n2"),
        (4097, false, "1"),
        (1, true, "1"),
    ] {
        let answered = answers(rt.alloc(), Buffers { left, fails }).expect(&rt, "refused");
        same_at(&rt, left, answered.as_str(), expected);
    }
}

// How many bytes are read of a reader that has three, one a call, in at most `most_reads` calls; none, where it stops before their end.
fn read_in(alloc: Global, most_reads: u32) -> Option<usize> {
    let mut reader = Drops {
        text: b"-\n-",
        rests: true,
        fails: false,
    };
    match read_input(alloc, &mut reader, most_reads) {
        Ok(bytes) => Some(bytes.len()),
        Err(_) => None,
    }
}

// Each byte takes two calls, of which the second is interrupted, and the end takes one.
#[test]
fn a_script_is_read_in_so_many_calls(rt: HostRuntime) {
    for (most_reads, want) in [
        (0, None),
        (3, None),
        (6, None),
        (7, Some(3)),
        (100, Some(3)),
    ] {
        same_at(&rt, most_reads, read_in(rt.alloc(), most_reads), want);
    }
    same(&rt, (MAX_READS, MAX_INPUT), (33_554_432, 16_777_216));
}

// The status of a script whose answers are not taken.
fn status(alloc: Global, script: &[u8], takes: bool) -> u8 {
    run_script(alloc, script, Broken { takes })
}

#[test]
fn answers_that_are_not_taken_end_a_script(rt: HostRuntime) {
    for script in ["shard 4 2 uint8 0 end\n", "none\n"] {
        for takes in [false, true] {
            same_at(&rt, script, status(rt.alloc(), script.as_bytes(), takes), 1);
        }
    }
}
