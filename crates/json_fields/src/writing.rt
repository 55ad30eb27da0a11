//! Writing: each value under its key.

ghost use Rattle.std.specs.Prelude.{◌≡◌, OnErr, OnOk};
ghost use Rattle.serde_json.specs.View.{view, members_view};
ghost use Rattle.json_fields.specs.Written as written;
ghost use Rattle.json_fields.specs.Written.{set_member};

use crate::reading::Json;
use serde_json::{Map, Value};
use std::alloc::{AllocError, Global};

/// Puts what is written of the value under the key. Out of memory the members stay as they were.
pub fn set<T: Json>(
    alloc: Global,
    members: &mut Map<String, Value>,
    key: &str,
    value: &T,
) -> Result<(), AllocError>
    ensures set { OnOk result (members_view members.new.entries
        ≡ set_member key.now (T.writes value.now) (members_view members.old.entries)) }
    ensures unchanged { OnErr result (members.new.entries ≡ members.old.entries) }
{
    let written = value.write(alloc)?;
    set_value(alloc, members, key, written)
}

/// Puts a written value under the key. Out of memory the members stay as they were.
#[tactic(auto, unfolding(crate::specs::Written::set_member))]
pub fn set_value(
    alloc: Global,
    members: &mut Map<String, Value>,
    key: &str,
    value: Value,
) -> Result<(), AllocError>
    ensures set { OnOk result (members_view members.new.entries
        ≡ set_member key.now (view value) (members_view members.old.entries)) }
    ensures unchanged { OnErr result (members.new.entries ≡ members.old.entries) }
{
    serde_json::put(members, alloc, key, value)
}

/// Puts what is written of the value under the key, unless that is null. Out of memory the members
/// stay as they were.
#[tactic(auto, unfolding(crate::specs::Written::set_unless_null))]
pub fn set_unless_null<T: Json>(
    alloc: Global,
    members: &mut Map<String, Value>,
    key: &str,
    value: &T,
) -> Result<(), AllocError>
    ensures set { OnOk result (members_view members.new.entries
        ≡ written.set_unless_null key.now (T.writes value.now) (members_view members.old.entries)) }
    ensures unchanged { OnErr result (members.new.entries ≡ members.old.entries) }
{
    let written = value.write(alloc)?;
    if written.is_null() {
        return Ok(());
    }
    set_value(alloc, members, key, written)
}
