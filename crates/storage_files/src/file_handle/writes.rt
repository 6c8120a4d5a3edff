// Writes into a file, and in its place.
use super::FileHandle;
use crate::interval::furthest_end;
use crate::system::{remove_if_there, replace_file, write_in_place};
use parts_errors::CodecError;
use std::alloc::Global;
use std::rt::Files;
use storage_handles::BytesPartialEncoderTraits;

impl<R: Files> BytesPartialEncoderTraits for FileHandle<R> {
    fn partial_encode_many(
        &mut self,
        _alloc: Global,
        pieces: &[(u64, &[u8])],
    ) -> Result<(), CodecError> {
        let furthest = furthest_end(pieces)?;
        self.ahead.forget();
        let written = write_in_place(&self.files, self.path.as_str(), pieces, furthest);
        self.noted(written)
    }

    fn replace(&mut self, alloc: Global, bytes: &[u8]) -> Result<(), CodecError> {
        self.file = None;
        self.told_length = None;
        self.ahead.forget();
        let replaced = replace_file(alloc, &self.files, self.path.as_str(), bytes);
        self.noted(replaced)
    }

    fn erase(&mut self) -> Result<(), CodecError> {
        self.file = None;
        self.told_length = None;
        self.ahead.forget();
        let removed = remove_if_there(&self.files, self.path.as_str());
        self.noted(removed)
    }

    fn supports_partial_encode(&self) -> bool {
        true
    }
}
