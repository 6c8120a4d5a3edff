// A handle over a file.
ghost use Rattle.std.specs.Prelude.{◌≡◌, ◌+◌, ◌-◌, ◌^◌, min, IsTrue, IfOk, IfErr, OnOk};
ghost use Rattle.storage_handles.specs.Handles.{IsRead, IsCounted};
ghost use Rattle.storage_files.specs.Files.{untold, IsRequestedSize};
ghost use Rattle.parts_errors.specs.declared.error.CodecError.TheVariants.{Fault};

mod host_file;
mod writes;

use crate::count::Count;
use crate::interval::interval_of;
use crate::read_ahead::ReadAhead;
use crate::system::{end_of, open_if_there};
pub use host_file::HostFile;
use parts_errors::CodecError;
use std::alloc::{AllocError, Global};
use std::io::{self, Read, Seek, SeekFrom};
use std::marker::Model;
use std::rt::Files;
use storage_handles::{ByteRange, Interval, LendsSlice};

/// An object that is a regular file of the system, maybe through links; where nothing of that name is there, there is no
/// object. It never is transparent, and each error of input or output is a `Fault`, as is anything else that stands there:
/// a folder, a FIFO, a device, a link to nothing, also on the way.
///
/// Read is what is asked for, and nothing else unless `read_ahead` asks for more. The file is opened by the first call that reads, and stays open until it is
/// replaced or erased here: so what another process puts in its place meanwhile is not seen. A range is measured against the
/// file's length as it was told last, and once more where it passes that or the file ends before. `partial_encode_many` writes
/// in place, and makes the folders that are missing. `replace` makes a `Replacement`: whoever reads, and whoever looks after a
/// crash, finds the old object or the new one. It is refused while another one stands there.
pub struct FileHandle<R: Files> {
    files: R,
    path: String,
    // the file, once it was found
    file: Option<R::File>,
    // its length as it was told last, and where the next read of it begins, where that is known
    told_length: Option<u64>,
    place: Option<u64>,
    // what was read last
    room: Vec<u8>,
    ahead: ReadAhead,
    faults: Count,
    // as `u64::MAX` where it would pass that
    fault_count: u64,
    error: Option<io::Error>,
}

impl<R: Files + Drop> Drop for FileHandle<R> {
    fn drop(self) {
        let FileHandle {
            files: _,
            path: _,
            file: _,
            told_length: _,
            place: _,
            room: _,
            ahead: _,
            faults: _,
            fault_count: _,
            error: _,
        } = self;
    }
}

impl<R: Files> Model for FileHandle<R> {
    ghost use Rattle.std.specs.Prelude.{◌≡◌, ◌-◌, ◌^◌, min, length};
    ghost use Rattle.storage_files.specs.Files.{FileUse};

    // how often a call of the system failed, and how many bytes are held
    ghost Value = { FileUse };

    ghost view = { λ handle. record { faults = handle.faults.value; cached = length handle.room.items } };

    ghost invariant = { λ handle. handle.fault_count ≡ min handle.faults.value (2 ^ 64 - 1) };
}

impl<R: Files> FileHandle<R> {
    /// A handle over the file of this path, which need not be there.
    pub fn new(alloc: Global, files: R, path: &str) -> Result<Self, AllocError>
    where
        R: Drop,
        ensures { IfOk result (λ handle. handle ≡ record { faults = 0; cached = 0 }) }
    {
        Ok(FileHandle {
            files,
            path: String::from_str(alloc, path)?,
            file: None,
            told_length: None,
            place: None,
            room: Vec::new(alloc),
            ahead: ReadAhead::of_size(alloc, 0),
            faults: Count::new(),
            fault_count: 0,
            error: None,
        })
    }

    /// From now on, where a range of at most an eighth of `size` bytes is requested, `size` bytes from there on are read, as far as
    /// the file has them, and what lies among them is not read again. Whoever requests all ranges of a file in their order makes fewer
    /// calls of the system so; what another process writes meanwhile may not be seen. 0 where nothing is to be read ahead.
    pub fn read_ahead(&mut self, alloc: Global, size: usize)
        ensures { self.new ≡ self.old }
    {
        self.ahead = ReadAhead::of_size(alloc, size);
    }

    /// How often a call of the system failed, or `u64::MAX` where that is more.
    pub fn faults(&self) -> u64
        ensures { result ≡ min self.now.faults (2 ^ 64 - 1) }
    {
        self.fault_count
    }

    /// What the system said when it failed last.
    pub fn error(&self) -> Option<io::Error> {
        self.error
    }

    // What the system answered, with an error counted.
    fn noted<T>(&mut self, answer: io::Result<T>) -> Result<T, CodecError>
        ensures cached { self.new.cached ≡ self.old.cached }
        ensures same { OnOk result (self.new.faults ≡ self.old.faults) }
        ensures value { IfOk result (λ x. answer ≡ Ok x) }
        ensures counted { IfErr result (λ e. (e ≡ Fault) × (self.new.faults ≡ self.old.faults + 1)) }
    {
        match answer {
            Ok(value) => Ok(value),
            Err(error) => {
                self.error = Some(error);
                self.faults.raise();
                self.fault_count = self.fault_count.saturating_add(1);
                Err(CodecError::Fault)
            }
        }
    }

    // Opens the file where that was not done, and says whether it is there.
    fn open(&mut self) -> io::Result<bool>
        ensures { self.new ≡ self.old }
    {
        if self.file.is_none() {
            if let Some((file, _)) = open_if_there(&self.files, self.path.as_str())? {
                self.file = Some(file);
            }
        }
        Ok(self.file.is_some())
    }

    // The file's length, or none where there is no file.
    fn measured(&mut self) -> io::Result<Option<u64>>
        ensures { self.new ≡ self.old }
    {
        self.open()?;
        self.place = None;
        self.ahead.forget();
        self.told_length = match &mut self.file {
            Some(file) => Some(end_of(file)?),
            None => None,
        };
        Ok(self.told_length)
    }

    // Makes room for the bytes of an interval of the file, which has a length, and for those that are read with them.
    fn make_room(&mut self, interval: Interval, length: u64) -> Result<(), AllocError>
        ensures cached { OnOk result (self.new.cached ≡ interval.size) }
        ensures faults { self.new.faults ≡ self.old.faults }
    {
        let size = interval.size as usize;
        self.room.resize(size, 0)?;
        if self.ahead.is_worth(size) {
            self.ahead
                .make_room(length.saturating_sub(interval.offset))?;
        }
        Ok(())
    }

    // Moves the file to an offset, unless it stands there. Where it stands then is not known until it was read.
    fn move_to(&mut self, offset: u64) -> io::Result<()>
        ensures { self.new ≡ self.old }
    {
        let stands_there = self.place == Some(offset);
        self.place = None;
        match &mut self.file {
            None => Err(io::ErrorKind::NotFound.into()),
            Some(_) if stands_there => Ok(()),
            Some(file) => {
                file.seek(SeekFrom::Start(offset))?;
                Ok(())
            }
        }
    }

    // Reads the bytes from an offset on, where the file stands, into the room, which has its size; or, where that is small, more of
    // them, as many as the file has and are read ahead. Gives how many.
    fn read_there(&mut self, offset: u64) -> io::Result<usize>
        ensures { self.new ≡ self.old }
    {
        let Some(file) = &mut self.file else {
            return Err(io::ErrorKind::NotFound.into());
        };
        if self.ahead.is_worth(self.room.len()) {
            let left = self.told_length.unwrap_or(0).saturating_sub(offset);
            return self.ahead.read(file, offset, left);
        }
        file.read_exact(self.room.as_mut_slice())?;
        Ok(self.room.len())
    }

    // Fills the room, which has its size, with the bytes from an offset on.
    fn fill(&mut self, offset: u64) -> io::Result<()>
        ensures { self.new ≡ self.old }
    {
        if self.ahead.copy(offset, self.room.as_mut_slice()) {
            return Ok(());
        }
        self.move_to(offset)?;
        let count = self.read_there(offset)?;
        self.place = offset.checked_add(count as u64);
        if !self.ahead.is_worth(self.room.len())
            || self.ahead.copy(offset, self.room.as_mut_slice())
        {
            Ok(())
        } else {
            Err(io::ErrorKind::UnexpectedEof.into())
        }
    }

    // Reads a range that begins at an offset and has a size, where the file held it when its length was told last; says whether it was
    // read. The length is not asked once more: where the file is shorter now, the range is not read.
    fn fetch_within(&mut self, range: ByteRange) -> Result<bool, CodecError>
        ensures read { IsRead (untold self.old) (untold self.new) }
        ensures requested { IfOk result (λ there. IsTrue there → IsRequestedSize range self.new.cached) }
        ensures refused { IfErr result (IsCounted (untold self.old) (untold self.new)) }
    {
        let (Some(length), ByteRange::FromStart(_, Some(_))) = (self.told_length, range) else {
            return Ok(false);
        };
        let Ok(interval) = interval_of(range, length) else {
            return Ok(false);
        };
        self.make_room(interval, length)?;
        match self.fill(interval.offset) {
            Ok(()) => Ok(true),
            Err(error) if error.kind() == io::ErrorKind::UnexpectedEof => Ok(false),
            Err(error) => {
                self.noted::<()>(Err(error))?;
                Ok(false)
            }
        }
    }

    // Reads a range into the room, and says whether there is an object.
    fn fetch(&mut self, range: ByteRange) -> Result<bool, CodecError>
        ensures read { IsRead (untold self.old) (untold self.new) }
        ensures requested { IfOk result (λ there. IsTrue there → IsRequestedSize range self.new.cached) }
        ensures refused { IfErr result (IsCounted (untold self.old) (untold self.new)) }
    {
        if self.fetch_within(range)? {
            return Ok(true);
        }
        let length = self.measured();
        let Some(length) = self.noted(length)? else {
            return Ok(false);
        };
        let interval = interval_of(range, length)?;
        self.make_room(interval, length)?;
        let filled = self.fill(interval.offset);
        self.noted(filled)?;
        Ok(true)
    }
}

impl<R: Files> LendsSlice for FileHandle<R> {
    ghost state = { untold };

    fn find(&mut self) -> Result<bool, CodecError> {
        let there = self.open();
        self.noted(there)
    }

    fn measure(&mut self) -> Result<Option<u64>, CodecError> {
        let length = self.measured();
        self.noted(length)
    }

    fn cached_bytes(&self) -> usize {
        self.room.len()
    }

    fn lend(&mut self, _alloc: Global, range: ByteRange) -> Result<Option<&[u8]>, CodecError> {
        if self.fetch(range)? {
            Ok(Some(self.room.as_slice()))
        } else {
            Ok(None)
        }
    }

    fn lends_parts(&self) -> bool {
        true
    }
}
