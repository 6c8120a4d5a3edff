// The metadata of the codec `bytes`.
ghost use Rattle.std.specs.Prelude.{◌≡◌, option_map};
ghost use Rattle.serde_json.specs.View.{view};
ghost use Rattle.codec_metadata.specs.BytesMetadata.{byte_order_in, order_word};

use crate::error::PluginCreateError;
use crate::members::{MemberTest, test_members};
use crate::named_codec::CodecTraitsV3;
use codec_bytes::{BytesCodec, Endianness};
use serde_json::{Map, Value, put};
use std::alloc::{AllocError, Global};

// The byte order of a value.
fn endianness_in(value: &Value) -> Option<Endianness>
    ensures { result ≡ byte_order_in (view value.now) }
{
    match value.as_str() {
        Some("little") => Some(Endianness::Little),
        Some("big") => Some(Endianness::Big),
        _ => None,
    }
}

// The word of a byte order.
fn endianness_word(endianness: Endianness) -> &'static str
    ensures { result.now ≡ order_word endianness }
{
    match endianness {
        Endianness::Little => "little",
        Endianness::Big => "big",
    }
}

// The members of a configuration of the codec `bytes`.
struct BytesMembers;

impl MemberTest for BytesMembers {
    ghost use Rattle.codec_metadata.specs.BytesMetadata.{is_bytes_member};

    ghost passes = { is_bytes_member };

    fn may_have(key: &str, value: &Value) -> bool {
        key == "endian" && endianness_in(value).is_some()
    }
}

impl CodecTraitsV3 for BytesCodec {
    ghost use Rattle.std.specs.Prelude.{⊤, codes, refl};
    ghost use Rattle.codec_metadata.specs.BytesMetadata.{is_bytes_name, bytes_configured, bytes_written};
    ghost use Rattle.codec_metadata.specs.BytesMetadataLaws.{bytes_remembers};

    ghost named = { is_bytes_name };

    ghost own_name = { λ codec. codes "bytes" };

    ghost configured = { λ name. bytes_configured };

    ghost written = { bytes_written };

    ghost valid = { λ codec. ⊤ };

    ghost told = { λ codec. codec };

    /// `bytes`, or `endian`, which is read too.
    fn has_name(name: &str) -> bool {
        name == "bytes" || name == "endian"
    }

    /// `bytes`.
    fn written_name(&self) -> &'static str {
        "bytes"
    }

    /// The configuration may have "endian", which is "little" or "big"; without it the codec has no byte order. Refused as
    /// `BadField` with the first key, in the order of keys, that is another or has another value; or as `OutOfMemory`.
    fn from_configuration(
        alloc: Global,
        _name: &str,
        configuration: Option<&Value>,
    ) -> Result<Self, PluginCreateError> {
        let Some(configuration) = configuration else {
            return Ok(BytesCodec::new(None));
        };
        test_members::<BytesMembers>(alloc, configuration)?;
        Ok(BytesCodec::new(configuration.get("endian").and_then(endianness_in)))
    }

    /// The byte order under "endian", where there is one.
    fn to_configuration(&self, alloc: Global) -> Result<Option<Map<String, Value>>, AllocError> {
        let Some(endianness) = self.endianness() else {
            return Ok(None);
        };
        let word = Value::try_from_str(alloc, endianness_word(endianness))?;
        let mut members = Map::new(alloc);
        put(&mut members, alloc, "endian", word)?;
        Ok(Some(members))
    }

    ghost remembers = { λ codec valid. bytes_remembers codec };

    ghost names_itself = { λ codec. refl };

    ghost told_again = { λ codec. (refl, refl) };
}
