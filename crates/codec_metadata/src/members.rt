// The members of a JSON object, tested one by one.
ghost use Rattle.std.specs.Prelude.{◌≡◌, ◌⊎◌, Bool, None, Some, IfErr, OnOk, option_map};
ghost use Rattle.parts_errors.specs.Words.{Bytes};
ghost use Rattle.serde_json.specs.Data.{Data};
ghost use Rattle.serde_json.specs.View.{view, members_view};
ghost use Rattle.codec_metadata.specs.Metadata.{first_refused, members_in};
ghost use Rattle.codec_metadata.specs.CreateErrors.{refusal_of, bad_field};
ghost use Rattle.codec_metadata.specs.declared.error.PluginCreateError.TheVariants.{OutOfMemory};

use crate::error::PluginCreateError;
use serde_json::{Map, Value};
use std::alloc::Global;

/// Which members an object may have.
pub trait MemberTest {
    // whether the object may have a member of this key and value
    ghost passes: { Bytes → Data → Bool };

    /// Whether the object may have this member.
    fn may_have(key: &str, value: &Value) -> bool
        ensures { result ≡ passes key.now (view value.now) };
}

// The key of the first member, in the order of keys, that an object may not have.
fn first_failing<T: MemberTest>(members: &Map<String, Value>) -> Option<&str>
    ensures { option_map (λ key. key.now) result ≡ first_refused T.passes (members_view members.now.entries) }
{
    for (key, value) in members.iter() {
        if !T::may_have(key.as_str(), value) {
            return Some(key.as_str());
        }
    }
    None
}

/// Refused as `BadField` with the first key, in the order of keys, whose member the object may not have; or as
/// `OutOfMemory`. What is no object has no members.
pub fn test_members<T: MemberTest>(alloc: Global, object: &Value) -> Result<(), PluginCreateError>
    ensures tested { OnOk result (first_refused T.passes (members_in (view object.now)) ≡ None) }
    ensures refused { IfErr result (λ e. (e ≡ OutOfMemory) ⊎ ((key : Bytes)
        × (first_refused T.passes (members_in (view object.now)) ≡ Some key) × (refusal_of e ≡ bad_field key))) }
{
    let Some(members) = object.as_object() else {
        return Ok(());
    };
    match first_failing::<T>(members) {
        Some(key) => Err(PluginCreateError::bad_field(alloc, key)),
        None => Ok(()),
    }
}
