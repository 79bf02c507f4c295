//! The text of a value, and texts that are values.

ghost use Rattle.std.specs.Prelude.{◌≡◌, false, IfOk, OnOk};
ghost use Rattle.std.specs.String.{string_bytes};
ghost use Rattle.serde_json.specs.Data.{put as with_member, string};
ghost use Rattle.serde_json.specs.View.{members_view, view};
ghost use Rattle.serde_json.specs.Written.{has_float};
ghost use Rattle.gm_json.specs.Fields.{text_of};

use serde_json::{Map, Value, put};
use std::alloc::{AllocError, Global};

/// The compact text of a value that has no float.
#[tactic(auto, unfolding(crate::specs::Fields::text_of))]
pub(crate) fn text_of(alloc: Global, value: &Value) -> Result<String, AllocError>
    requires { has_float (view value.now) ≡ false }
    ensures { IfOk result (λ text. string_bytes text ≡ text_of (view value.now)) }
{
    value.to_string(alloc)
}

/// Puts a text into an object, under this key.
pub(crate) fn put_text(
    map: &mut Map<String, Value>,
    alloc: Global,
    key: &str,
    text: &str,
) -> Result<(), AllocError>
    ensures { OnOk result (members_view map.new.entries
        ≡ with_member key.now (string text.now) (members_view map.old.entries)) }
{
    put(map, alloc, key, Value::try_from_str(alloc, text)?)
}
