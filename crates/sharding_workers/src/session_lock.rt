// A session that threads share: a lock, and what is told without it.
ghost use Rattle.std.specs.Prelude.{◌≡◌};

use parts_arrays::DataType;
use std::marker::Model;
use std::sync::{Mutex, MutexGuard, Wait};

/// A session that threads share: each call that looks at it takes the lock. What never changes is told without the lock: its
/// data type, and what its handle can do in part.
#[derive(Drop)]
pub struct SessionLock<S> {
    lock: Mutex<S>,
    data_type: DataType,
    decode: bool,
    encode: bool,
}

impl<S> Model for SessionLock<S> {
    ghost use Rattle.sharding_workers.specs.Told.{Told};

    // what is told without the lock
    ghost Value = { Told };

    ghost view = { λ s. record { data_type = s.data_type; supports = record { decode = s.decode; encode = s.encode } } };
}

impl<S> SessionLock<S> {
    /// Puts a session behind a lock, with its data type, and whether its handle can be read and be written in part.
    pub fn new(session: S, data_type: DataType, decode: bool, encode: bool) -> SessionLock<S>
        ensures { result ≡ record { data_type = data_type; supports = record { decode = decode; encode = encode } } }
    {
        SessionLock {
            data_type,
            decode,
            encode,
            lock: Mutex::new(session),
        }
    }

    /// The data type of the cells. Takes no lock.
    pub fn data_type(&self) -> &DataType
        ensures { result.now ≡ self.now.data_type }
    {
        &self.data_type
    }

    /// Whether the handle can be read in part. Takes no lock.
    pub fn supports_partial_decode(&self) -> bool
        ensures { result ≡ self.now.supports.decode }
    {
        self.decode
    }

    /// Whether the handle can be written in part. Takes no lock.
    pub fn supports_partial_encode(&self) -> bool
        ensures { result ≡ self.now.supports.encode }
    {
        self.encode
    }

    /// Waits for the lock.
    pub fn lock<R: Wait>(&self, rt: &R) -> MutexGuard<'_, S> {
        self.lock.lock(rt)
    }

    /// Gives the session back. Takes no lock.
    pub fn into_inner(self) -> S {
        let SessionLock { lock, .. } = self;
        lock.into_inner()
    }
}
