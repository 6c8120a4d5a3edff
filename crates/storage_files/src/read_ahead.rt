// Bytes of a file that are read before they are requested.
use std::alloc::{AllocError, Global};
use std::io::{self, Read};

// A piece of a file in memory: `count` bytes from an offset on.
#[derive(Drop)]
pub(crate) struct ReadAhead {
    // how many bytes are read at once at most
    size: usize,
    offset: u64,
    count: usize,
    room: Vec<u8>,
}

impl ReadAhead {
    // At most `size` bytes are read at once. Takes no memory.
    pub(crate) fn of_size(alloc: Global, size: usize) -> Self {
        ReadAhead {
            size,
            offset: 0,
            count: 0,
            room: Vec::new(alloc),
        }
    }

    // Lets go of what was read.
    pub(crate) fn forget(&mut self) {
        self.count = 0;
    }

    // Whether more is to be read than `requested` bytes: where eight times as many are read at once.
    pub(crate) fn is_worth(&self, requested: usize) -> bool {
        self.size > 0 && requested <= self.size / 8
    }

    // Makes room for what is read at once where `left` bytes are.
    pub(crate) fn make_room(&mut self, left: u64) -> Result<(), AllocError> {
        let size = left.min(self.size as u64) as usize;
        if self.room.len() < size {
            self.room.resize(size, 0)?;
        }
        Ok(())
    }

    // The bytes from an offset on, as far as they were read; none where its byte was not read.
    fn from(&self, offset: u64) -> &[u8] {
        let read = &self.room[..self.count.min(self.room.len())];
        match offset.checked_sub(self.offset) {
            Some(before) if before <= read.len() as u64 => &read[before as usize..],
            _ => &[],
        }
    }

    // Copies the bytes from an offset on, if all of them were read; says whether.
    pub(crate) fn copy(&self, offset: u64, bytes: &mut [u8]) -> bool {
        let read = self.from(offset);
        if read.len() < bytes.len() {
            return false;
        }
        bytes.copy_from_slice(&read[..bytes.len()]);
        true
    }

    // Reads the bytes from an offset on, where the file stands and has `left` of them: as many as there is room for. Gives how many.
    pub(crate) fn read<F: Read>(
        &mut self,
        file: &mut F,
        offset: u64,
        left: u64,
    ) -> io::Result<usize> {
        self.forget();
        let count = left.min(self.room.len() as u64) as usize;
        file.read_exact(&mut self.room[..count])?;
        self.offset = offset;
        self.count = count;
        Ok(count)
    }
}
