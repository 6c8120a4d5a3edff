// The metadata of the default codec: that of the codec that it holds.

use crate::default_codec::DefaultArrayToBytesCodec;
use crate::vlen_codec::VlenCodec;
use codec_bytes::BytesCodec;
use codec_metadata::{CodecTraitsV3, PluginCreateError};
use serde_json::{Map, Value};
use std::alloc::{AllocError, Global};

impl CodecTraitsV3 for DefaultArrayToBytesCodec {
    ghost use Rattle.std.specs.Prelude.{⊤, refl};
    ghost use Rattle.codec_vlen.specs.DefaultMetadata.{is_default_name, default_name, default_configured, default_written};
    ghost use Rattle.codec_vlen.specs.DefaultMetadataLaws.{default_remembers, default_names_itself};

    ghost named = { is_default_name };

    ghost own_name = { default_name };

    ghost configured = { default_configured };

    ghost written = { default_written };

    ghost valid = { λ codec. ⊤ };

    ghost told = { λ codec. codec };

    /// A name of `BytesCodec` or of `VlenCodec`.
    fn has_name(name: &str) -> bool {
        BytesCodec::has_name(name) || VlenCodec::has_name(name)
    }

    /// The name of the codec that it holds.
    fn written_name(&self) -> &'static str {
        match self {
            DefaultArrayToBytesCodec::Bytes(codec) => codec.written_name(),
            DefaultArrayToBytesCodec::Vlen(codec) => codec.written_name(),
        }
    }

    /// The codec whose name it is. Refused as that codec refuses its configuration.
    fn from_configuration(
        alloc: Global,
        name: &str,
        configuration: Option<&Value>,
    ) -> Result<Self, PluginCreateError> {
        if VlenCodec::has_name(name) {
            let codec = VlenCodec::from_configuration(alloc, name, configuration)?;
            return Ok(DefaultArrayToBytesCodec::Vlen(codec));
        }
        let codec = BytesCodec::from_configuration(alloc, name, configuration)?;
        Ok(DefaultArrayToBytesCodec::Bytes(codec))
    }

    /// The configuration of the codec that it holds.
    fn to_configuration(&self, alloc: Global) -> Result<Option<Map<String, Value>>, AllocError> {
        match self {
            DefaultArrayToBytesCodec::Bytes(codec) => codec.to_configuration(alloc),
            DefaultArrayToBytesCodec::Vlen(codec) => codec.to_configuration(alloc),
        }
    }

    ghost remembers = { λ codec valid. default_remembers codec };

    ghost names_itself = { default_names_itself };

    ghost told_again = { λ codec. (refl, refl) };
}
