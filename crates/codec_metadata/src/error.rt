// The reasons to refuse metadata.
ghost use Rattle.std.specs.Prelude.{◌≡◌, ◌⊎◌};
ghost use Rattle.codec_metadata.specs.CreateErrors.{refusal_number, refusal_name, refusal_of, unsupported_codec, missing_field, bad_field};
ghost use Rattle.codec_metadata.specs.declared.error.PluginCreateError.TheVariants.{OutOfMemory};

use std::alloc::{AllocError, AllocFailed, Global};
use thiserror::Error;

/// Why a codec was not made from its metadata.
#[derive(Debug, PartialEq, Eq, Drop, Error)]
pub enum PluginCreateError {
    /// 1: a growth was refused.
    #[error("OutOfMemory")]
    OutOfMemory,
    /// 2: the name is not one of the codec that is wanted.
    #[error("UnsupportedCodec {0}")]
    UnsupportedCodec(String),
    /// 3: what must be there under this key is not.
    #[error("MissingField {0}")]
    MissingField(String),
    /// 4: the key is unknown, or its value has another form.
    #[error("BadField {0}")]
    BadField(String),
    /// 5: a list of codecs has other than one member.
    #[error("UnsupportedChain")]
    UnsupportedChain,
}

impl PluginCreateError {
    /// The number of a refusal, 1 to 5.
    pub fn number(&self) -> u8
        ensures { result ≡ refusal_number self.now }
    {
        match self {
            PluginCreateError::OutOfMemory => 1,
            PluginCreateError::UnsupportedCodec(_) => 2,
            PluginCreateError::MissingField(_) => 3,
            PluginCreateError::BadField(_) => 4,
            PluginCreateError::UnsupportedChain => 5,
        }
    }

    /// The name of a refusal, without the text that it carries.
    pub fn name(&self) -> &'static str
        ensures { result.now ≡ refusal_name self.now }
    {
        match self {
            PluginCreateError::OutOfMemory => "OutOfMemory",
            PluginCreateError::UnsupportedCodec(_) => "UnsupportedCodec",
            PluginCreateError::MissingField(_) => "MissingField",
            PluginCreateError::BadField(_) => "BadField",
            PluginCreateError::UnsupportedChain => "UnsupportedChain",
        }
    }

    /// `UnsupportedCodec` with this name, or `OutOfMemory`.
    pub fn unsupported_codec(alloc: Global, name: &str) -> Self
        ensures { (result ≡ OutOfMemory) ⊎ (refusal_of result ≡ unsupported_codec name.now) }
    {
        match String::from_str(alloc, name) {
            Ok(name) => PluginCreateError::UnsupportedCodec(name),
            Err(_) => PluginCreateError::OutOfMemory,
        }
    }

    /// `MissingField` with this key, or `OutOfMemory`.
    pub fn missing_field(alloc: Global, key: &str) -> Self
        ensures { (result ≡ OutOfMemory) ⊎ (refusal_of result ≡ missing_field key.now) }
    {
        match String::from_str(alloc, key) {
            Ok(key) => PluginCreateError::MissingField(key),
            Err(_) => PluginCreateError::OutOfMemory,
        }
    }

    /// `BadField` with this key, or `OutOfMemory`.
    pub fn bad_field(alloc: Global, key: &str) -> Self
        ensures { (result ≡ OutOfMemory) ⊎ (refusal_of result ≡ bad_field key.now) }
    {
        match String::from_str(alloc, key) {
            Ok(key) => PluginCreateError::BadField(key),
            Err(_) => PluginCreateError::OutOfMemory,
        }
    }
}

impl From<AllocError> for PluginCreateError {
    ghost use Rattle.std.specs.Prelude.{◌≡◌};
    ghost use Rattle.codec_metadata.specs.declared.error.PluginCreateError.TheVariants.{OutOfMemory};

    ghost from_gives = { λ _ error. error ≡ OutOfMemory };

    fn from(_error: AllocError) -> PluginCreateError {
        PluginCreateError::OutOfMemory
    }
}

impl<T: Drop> From<AllocFailed<T>> for PluginCreateError {
    ghost use Rattle.std.specs.Prelude.{◌≡◌};
    ghost use Rattle.codec_metadata.specs.declared.error.PluginCreateError.TheVariants.{OutOfMemory};

    ghost from_gives = { λ _ error. error ≡ OutOfMemory };

    fn from(_error: AllocFailed<T>) -> PluginCreateError {
        PluginCreateError::OutOfMemory
    }
}
