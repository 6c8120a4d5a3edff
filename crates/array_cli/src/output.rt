// Where a command's answer goes.
use std::alloc::Global;
use std::io;
use std::io::{BufWriter, Stdout, Write};

/// Where a command's answer goes: to the standard output, many bytes at a time, or into memory.
#[derive(Drop)]
pub enum Output {
    Standard(BufWriter<Stdout>),
    Memory(Vec<u8>),
}

impl Output {
    /// The standard output. Refused if memory runs out.
    pub fn standard(rt: &HostRuntime) -> io::Result<Self> {
        Ok(Output::Standard(BufWriter::new(rt.alloc(), rt.stdout())?))
    }

    /// No bytes in memory yet.
    pub fn memory(alloc: Global) -> Self {
        Output::Memory(Vec::new(alloc))
    }

    /// The bytes that are in memory.
    pub fn bytes(&self) -> &[u8] {
        match self {
            Output::Standard(_) => &[],
            Output::Memory(bytes) => bytes,
        }
    }
}

impl Write for Output {
    fn write(&mut self, bytes: &[u8]) -> io::Result<usize> {
        match self {
            Output::Standard(out) => out.write(bytes),
            Output::Memory(out) => out.write(bytes),
        }
    }

    fn write_all(&mut self, bytes: &[u8]) -> io::Result<()> {
        match self {
            Output::Standard(out) => out.write_all(bytes),
            Output::Memory(out) => out.write_all(bytes),
        }
    }

    fn flush(&mut self) -> io::Result<()> {
        match self {
            Output::Standard(out) => out.flush(),
            Output::Memory(_) => Ok(()),
        }
    }
}
