// The values of the metadata, and where they stand.
ghost use Rattle.std.specs.Prelude.{◌≡◌, Some, None, IfOk, length, option_map};
ghost use Rattle.serde_json.specs.Find.{get};
ghost use Rattle.serde_json.specs.View.{view, items_view};
ghost use Rattle.codec_metadata.specs.Metadata.{name_in, is_metadata_member, first_refused, members_in};
ghost use Rattle.array_fields.specs.MetadataFields.{whole_numbers_of, whole_numbers_in};

use crate::error::MetadataError;
use codec_metadata::{MemberTest, PluginCreateError, metadata_name, test_members};
use parts_subsets::ChunkShape;
use serde_json::Value;
use std::alloc::{AllocError, Global};

/// A value of the metadata, and where it stands.
#[derive(Drop)]
pub struct Placed<'a> {
    /// The value.
    pub value: &'a Value,
    /// The key that it stands under, or that its list stands under.
    pub key: &'static str,
    /// Where it stands, as `codecs[0].configuration`.
    pub place: String,
}

// The members of an extension: of a codec, a chunk grid or a chunk key encoding.
struct ExtensionMembers;

impl MemberTest for ExtensionMembers {
    ghost use Rattle.codec_metadata.specs.Metadata.{is_metadata_member};

    ghost passes = { is_metadata_member };

    fn may_have(key: &str, value: &Value) -> bool {
        match key {
            "name" => value.is_string(),
            "configuration" => value.is_object(),
            "must_understand" => value.is_boolean(),
            _ => false,
        }
    }
}

// The whole numbers that values are, or `None` where some value is none.
fn whole_numbers(alloc: Global, values: &[Value]) -> Result<Option<Vec<u64>>, AllocError>
    ensures { IfOk result (λ numbers. option_map (λ v. v.items) numbers ≡ whole_numbers_of (items_view values.now)) }
{
    let mut numbers = Vec::new(alloc);
    for value in values {
        let Some(number) = value.as_u64() else {
            return Ok(None);
        };
        numbers.push(number)?;
    }
    Ok(Some(numbers))
}

impl<'a> Placed<'a> {
    /// The whole text's value.
    pub fn whole(alloc: Global, value: &'a Value) -> Result<Self, MetadataError>
        ensures { IfOk result (λ whole. view whole.value.now ≡ view value.now) }
    {
        Ok(Placed {
            value,
            key: "zarr.json",
            place: String::from_str(alloc, "zarr.json")?,
        })
    }

    /// What stands under a key of an object, where anything does.
    pub fn member(
        &self,
        alloc: Global,
        key: &'static str,
    ) -> Result<Option<Placed<'a>>, MetadataError>
        ensures { IfOk result (λ found. option_map (λ member. view member.value.now) found ≡ get key.now (view self.now.value.now)) }
    {
        let Some(value) = self.value.get(key) else {
            return Ok(None);
        };
        let outer = self.place.as_str();
        let place = if outer == "zarr.json" {
            String::from_str(alloc, key)?
        } else {
            format!(in alloc; "{outer}.{key}")?
        };
        Ok(Some(Placed { value, key, place }))
    }

    /// What stands under a key of an object. Refused as `MissingField`.
    pub fn required(&self, alloc: Global, key: &'static str) -> Result<Placed<'a>, MetadataError>
        ensures { IfOk result (λ member. get key.now (view self.now.value.now) ≡ Some (view member.value.now)) }
    {
        match self.member(alloc, key)? {
            Some(member) => Ok(member),
            None => {
                let error = PluginCreateError::missing_field(alloc, key);
                let sentence = format!(in alloc; "the key {key} is missing")?;
                Err(self.refused(alloc, error, sentence.as_str()))
            }
        }
    }

    /// The refusal of this value.
    pub fn refused(
        &self,
        alloc: Global,
        error: PluginCreateError,
        sentence: &str,
    ) -> MetadataError {
        MetadataError::refused(alloc, error, self.place.as_str(), sentence)
    }

    /// The refusal of this value as `BadField` with its key.
    pub fn bad(&self, alloc: Global, sentence: &str) -> MetadataError {
        self.refused(
            alloc,
            PluginCreateError::bad_field(alloc, self.key),
            sentence,
        )
    }

    /// The refusal of this value by a call that says no more than its number and the key.
    pub fn refused_by(&self, alloc: Global, error: PluginCreateError) -> MetadataError {
        let sentence = match &error {
            PluginCreateError::OutOfMemory => "memory ran out",
            PluginCreateError::UnsupportedCodec(_) => "this codec is not served",
            PluginCreateError::MissingField(_) => "a key that must be there is missing",
            PluginCreateError::BadField(_) => "the key is not known, or its value has another form",
            PluginCreateError::UnsupportedChain => "this list of codecs is not served",
        };
        self.refused(alloc, error, sentence)
    }

    /// The name of an extension: the value itself where it is a string, or the string under "name". Refused as `BadField`, as is
    /// an object with unknown members.
    pub fn extension_name(&self, alloc: Global) -> Result<&'a str, MetadataError>
        ensures named { IfOk result (λ name. name_in (view self.now.value.now) ≡ Some name.now) }
        ensures tested { IfOk result (λ name. first_refused is_metadata_member (members_in (view self.now.value.now)) ≡ None) }
    {
        let Some(name) = metadata_name(self.value) else {
            return Err(self.bad(alloc, "this is neither a name nor an object with a name"));
        };
        match test_members::<ExtensionMembers>(alloc, self.value) {
            Ok(()) => Ok(name),
            Err(error) => Err(self.refused_by(alloc, error)),
        }
    }

    /// Refused as `BadField` with the first member of an object, in the order of keys, that has none of these keys.
    pub fn only_members(&self, alloc: Global, keys: &[&str]) -> Result<(), MetadataError> {
        let Some(members) = self.value.as_object() else {
            return Err(self.bad(alloc, "this is no object"));
        };
        for (other, _) in members.iter() {
            if !keys.iter().any(|key| *key == other.as_str()) {
                let error = PluginCreateError::bad_field(alloc, other.as_str());
                return Err(self.refused(alloc, error, "the key is not known"));
            }
        }
        Ok(())
    }

    /// The whole numbers that a list holds. Refused as `BadField`.
    pub fn numbers(&self, alloc: Global) -> Result<Vec<u64>, MetadataError>
        ensures { IfOk result (λ numbers. whole_numbers_in (view self.now.value.now) ≡ Some numbers.items) }
    {
        let Some(list) = self.value.as_array() else {
            return Err(self.bad(alloc, "this is no list of whole numbers"));
        };
        match whole_numbers(alloc, list)? {
            Some(numbers) => Ok(numbers),
            None => Err(self.bad(alloc, "this is no list of whole numbers from 0 to 2^64 - 1")),
        }
    }

    /// The shape of a chunk with this number of axes. Refused as `BadField`.
    pub fn chunk_shape(&self, alloc: Global, axes: usize) -> Result<ChunkShape, MetadataError>
        ensures axes { IfOk result (λ shape. length shape ≡ axes) }
        ensures read { IfOk result (λ shape. whole_numbers_in (view self.now.value.now) ≡ Some shape) }
    {
        let numbers = self.numbers(alloc)?;
        let Some(shape) = ChunkShape::new(alloc, numbers.as_slice())? else {
            return Err(self.bad(alloc, "an axis of a chunk is 0"));
        };
        if shape.as_slice().len() != axes {
            return Err(self.bad(
                alloc,
                "a chunk has other than one number for each axis of the array",
            ));
        }
        Ok(shape)
    }
}
