// Codecs that metadata names.
ghost use Rattle.std.specs.Prelude.{◌≡◌, ◌⊎◌, Bool, Option, true, Ok, IfOk, IfErr, OnOk, option_map, is_some};
ghost use Rattle.parts_errors.specs.Words.{Bytes};
ghost use Rattle.serde_json.specs.Data.{Data, Members, object};
ghost use Rattle.serde_json.specs.Find.{as_object};
ghost use Rattle.serde_json.specs.View.{view, members_view};
ghost use Rattle.codec_metadata.specs.Metadata.{name_in, metadata_of, codec_of};
ghost use Rattle.codec_metadata.specs.CreateErrors.{Reading, RefusedAs};

use crate::error::PluginCreateError;
use crate::members::{MemberTest, test_members};
use serde_json::{Map, Value, put};
use std::alloc::{AllocError, Global};

/// The name that a codec's metadata gives: the metadata itself where it is a string, or the string under "name".
pub fn metadata_name(metadata: &Value) -> Option<&str>
    ensures { option_map (λ name. name.now) result ≡ name_in (view metadata.now) }
{
    match metadata.as_str() {
        Some(name) => Some(name),
        None => metadata.get("name").and_then(Value::as_str),
    }
}

// The members of a codec's metadata.
struct MetadataMembers;

impl MemberTest for MetadataMembers {
    ghost use Rattle.codec_metadata.specs.Metadata.{is_metadata_member};

    ghost passes = { is_metadata_member };

    fn may_have(key: &str, value: &Value) -> bool {
        match key {
            "name" => value.is_string(),
            "configuration" => value.is_object(),
            "must_understand" => value.is_boolean(),
            _ => false,
        }
    }
}

/// A codec that has metadata (Zarr V3 core, "Metadata", "codecs"): a JSON string, its name, or an object with
/// `name`, optionally `configuration` and optionally `must_understand`, which is not used.
pub trait CodecTraitsV3: Sized {
    // whether the codec has a name
    ghost named: { Bytes → Bool };

    // the name that is written
    ghost own_name: { Self → Bytes };

    // the codec of a name and a configuration, or of none
    ghost configured: { Bytes → Option Data → Reading Self };

    // the members of the configuration that is written, where there is one
    ghost written: { Self → Option Members };

    // what each codec of the type keeps
    ghost valid: { Self → Type 0 };

    // the codec without what its metadata does not tell
    ghost told: { Self → Self };

    /// Whether the codec has this name.
    fn has_name(name: &str) -> bool
        ensures { result ≡ named name.now };

    /// The name that is written.
    fn written_name(&self) -> &'static str
        ensures { result.now ≡ own_name self.now };

    /// The codec of one of its names and the configuration under "configuration", where there is one. Each codec says why it
    /// refuses.
    fn from_configuration(
        alloc: Global,
        name: &str,
        configuration: Option<&Value>,
    ) -> Result<Self, PluginCreateError>
        ensures made { IfOk result (λ codec. configured name.now (option_map (λ v. view v.now) configuration.entry) ≡ Ok codec) }
        ensures refused { IfErr result (RefusedAs (configured name.now (option_map (λ v. view v.now) configuration.entry))) };

    /// The configuration that is written under "configuration"; `None` where it would be empty.
    fn to_configuration(&self, alloc: Global) -> Result<Option<Map<String, Value>>, AllocError>
        ensures written { IfOk result (λ answer. option_map (λ m. members_view m.entries) answer ≡ written self.now) }
        ensures valid { OnOk result (valid self.now) };

    /// The codec that metadata names. Refused, in this order, as `BadField("name")` where the metadata is neither a string nor
    /// an object with a string under "name", as `UnsupportedCodec` with the name where it is not one of this codec's, as
    /// `BadField` with the first other key, in the order of keys, that is unknown or whose value has another form, and as the
    /// codec refuses its configuration; or as `OutOfMemory`.
    fn create(alloc: Global, metadata: &Value) -> Result<Self, PluginCreateError>
        ensures made { IfOk result (λ codec. codec_of named configured (view metadata.now) ≡ Ok codec) }
        ensures refused { IfErr result (RefusedAs (codec_of named configured (view metadata.now))) }
    {
        let Some(name) = metadata_name(metadata) else {
            return Err(PluginCreateError::bad_field(alloc, "name"));
        };
        if !Self::has_name(name) {
            return Err(PluginCreateError::unsupported_codec(alloc, name));
        }
        test_members::<MetadataMembers>(alloc, metadata)?;
        Self::from_configuration(alloc, name, metadata.get("configuration"))
    }

    /// The codec's metadata: an object with `configuration`, where it would not be empty, and `name`.
    fn metadata(&self, alloc: Global) -> Result<Value, AllocError>
        ensures written { IfOk result (λ v. view v ≡ metadata_of (own_name self.now) (written self.now)) }
        ensures valid { OnOk result (valid self.now) }
    {
        let mut members = Map::new(alloc);
        if let Some(configuration) = self.to_configuration(alloc)? {
            put(
                &mut members,
                alloc,
                "configuration",
                Value::Object(configuration),
            )?;
        }
        let name = Value::try_from_str(alloc, self.written_name())?;
        put(&mut members, alloc, "name", name)?;
        Ok(Value::Object(members))
    }

    // what is written is read as the codec, but for what metadata does not tell
    ghost remembers: { (codec : Self) → valid codec → configured (own_name codec) (option_map object (written codec)) ≡ Ok (told codec) };

    // the name that is written is one of the codec's names
    ghost names_itself: { (codec : Self) → named (own_name codec) ≡ true };

    // what metadata does not tell is not written, nor is it in the name
    ghost told_again: { (codec : Self) → (own_name (told codec) ≡ own_name codec) × (written (told codec) ≡ written codec) };
}
