// The metadata of `VlenCodec`: its name alone.
ghost use Rattle.std.specs.Prelude.{◌≡◌};

use crate::vlen_codec::VlenCodec;
use codec_metadata::{CodecTraitsV3, MemberTest, PluginCreateError, test_members};
use serde_json::{Map, Value};
use std::alloc::{AllocError, Global};

// The members of a configuration of the codec: none.
struct NoMembers;

impl MemberTest for NoMembers {
    ghost use Rattle.codec_vlen.specs.VlenMetadata.{is_vlen_member};

    ghost passes = { is_vlen_member };

    fn may_have(_key: &str, _value: &Value) -> bool {
        false
    }
}

impl CodecTraitsV3 for VlenCodec {
    ghost use Rattle.std.specs.Prelude.{⊤, None, codes, refl};
    ghost use Rattle.codec_vlen.specs.VlenMetadata.{is_vlen_name, vlen_configured};

    ghost named = { is_vlen_name };

    ghost own_name = { λ codec. codes "zarr_parts.vlen" };

    ghost configured = { λ name. vlen_configured };

    ghost written = { λ _. None };

    ghost valid = { λ _. ⊤ };

    ghost told = { λ codec. codec };

    /// `zarr_parts.vlen`.
    fn has_name(name: &str) -> bool {
        name == "zarr_parts.vlen"
    }

    /// `zarr_parts.vlen`.
    fn written_name(&self) -> &'static str {
        "zarr_parts.vlen"
    }

    /// The configuration has no member. Refused as `BadField` with the first key, in the order of keys; or as `OutOfMemory`.
    fn from_configuration(
        alloc: Global,
        _name: &str,
        configuration: Option<&Value>,
    ) -> Result<Self, PluginCreateError> {
        let Some(configuration) = configuration else {
            return Ok(VlenCodec);
        };
        test_members::<NoMembers>(alloc, configuration)?;
        Ok(VlenCodec)
    }

    /// None.
    fn to_configuration(&self, _alloc: Global) -> Result<Option<Map<String, Value>>, AllocError> {
        Ok(None)
    }

    ghost remembers = { λ codec valid. refl };

    ghost names_itself = { λ codec. refl };

    ghost told_again = { λ codec. (refl, refl) };
}
