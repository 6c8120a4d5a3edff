// Why the metadata of an array is refused.
ghost use Rattle.std.specs.Prelude.{◌≡◌, ◌≤◌, ◌<◌, IfErr, OnOk};
ghost use Rattle.array_fields.specs.declared.error.MetadataError.TheVariants.{TooLong};

use crate::escape::escaped;
use codec_metadata::PluginCreateError;
use std::alloc::{AllocError, AllocFailed, Global};
use thiserror::Error;

/// How many bytes a `zarr.json` may have: 16 MiB.
pub const LONGEST_TEXT: u64 = 16_777_216;

/// Why the metadata of an array is refused.
#[derive(Debug, PartialEq, Eq, Drop, Error)]
pub enum MetadataError {
    /// A growth was refused.
    #[error("1 OutOfMemory: memory ran out while the metadata was read")]
    OutOfMemory,
    /// A text of more bytes than `LONGEST_TEXT`: this many.
    #[error("4 BadField zarr.json: in zarr.json: the text has {0} bytes, and at most 16777216 are read")]
    TooLong(u64),
    /// Something in the text is wrong, or is not served.
    #[error("{number} {error}: in {place}: {sentence}", number = .error.number())]
    Refused {
        /// The number and the name of the refusal.
        error: PluginCreateError,
        /// Where in the text, as `codecs[0].configuration.codecs[1]`.
        place: String,
        /// What is wrong, or is not served.
        sentence: String,
    },
}

// The same error, for a terminal: the name or the key in it may be anybody's.
fn shown(alloc: Global, error: PluginCreateError) -> Result<PluginCreateError, AllocError> {
    match error {
        PluginCreateError::UnsupportedCodec(name) => {
            Ok(PluginCreateError::UnsupportedCodec(escaped(alloc, name.as_str())?))
        }
        PluginCreateError::MissingField(key) => {
            Ok(PluginCreateError::MissingField(escaped(alloc, key.as_str())?))
        }
        PluginCreateError::BadField(key) => {
            Ok(PluginCreateError::BadField(escaped(alloc, key.as_str())?))
        }
        PluginCreateError::OutOfMemory | PluginCreateError::UnsupportedChain => Ok(error),
    }
}

// The refusal of these parts.
fn refusal(
    alloc: Global,
    error: PluginCreateError,
    place: &str,
    sentence: &str,
) -> Result<MetadataError, AllocError> {
    Ok(MetadataError::Refused {
        error: shown(alloc, error)?,
        place: escaped(alloc, place)?,
        sentence: String::from_str(alloc, sentence)?,
    })
}

impl MetadataError {
    /// Tests how many bytes a text has, which need not be read before. Refused as `TooLong`.
    pub fn test_length(length: u64) -> Result<(), MetadataError>
        ensures fits { OnOk result (length ≤ 16777216) }
        ensures refused { IfErr result (λ e. (16777216 < length) × (e ≡ TooLong length)) }
    {
        if length > LONGEST_TEXT {
            return Err(MetadataError::TooLong(length));
        }
        Ok(())
    }

    /// The refusal of these parts, or `OutOfMemory`. The error and the place are escaped, the sentence is not.
    pub fn refused(alloc: Global, error: PluginCreateError, place: &str, sentence: &str) -> Self {
        if error == PluginCreateError::OutOfMemory {
            return MetadataError::OutOfMemory;
        }
        match refusal(alloc, error, place, sentence) {
            Ok(refusal) => refusal,
            Err(_) => MetadataError::OutOfMemory,
        }
    }
}

impl From<AllocError> for MetadataError {
    ghost use Rattle.std.specs.Prelude.{◌≡◌};
    ghost use Rattle.array_fields.specs.declared.error.MetadataError.TheVariants.{OutOfMemory};

    ghost from_gives = { λ _ error. error ≡ OutOfMemory };

    fn from(_error: AllocError) -> MetadataError {
        MetadataError::OutOfMemory
    }
}

impl<T: Drop> From<AllocFailed<T>> for MetadataError {
    ghost use Rattle.std.specs.Prelude.{◌≡◌};
    ghost use Rattle.array_fields.specs.declared.error.MetadataError.TheVariants.{OutOfMemory};

    ghost from_gives = { λ _ error. error ≡ OutOfMemory };

    fn from(_error: AllocFailed<T>) -> MetadataError {
        MetadataError::OutOfMemory
    }
}
