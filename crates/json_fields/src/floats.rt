//! Whether a value holds a float anywhere, also where no table looks.

ghost use Rattle.std.specs.Prelude.{◌≡◌};
ghost use Rattle.serde_json.specs.View.{view, items_view, members_view};
ghost use Rattle.serde_json.specs.Written.{has_float, items_have_float, members_have_float};

use serde_json::{Map, Value};

/// A float is a number that is no whole number of 64 bits.
#[cycle(floats)]
#[inline(always)]
pub fn holds_float(value: &Value) -> bool
    ensures { result ≡ has_float (view value.now) }
{
    match value {
        Value::Number(number) => number.is_f64(),
        Value::Array(items) => items_hold_float(items.as_slice()),
        Value::Object(members) => members_hold_float(members),
        _ => false,
    }
}

#[cycle(floats)]
#[inline(never)]
fn items_hold_float(items: &[Value]) -> bool
    ensures { result ≡ items_have_float (items_view items.now) }
{
    for item in items {
        if holds_float(item) {
            return true;
        }
    }
    false
}

#[cycle(floats)]
#[inline(never)]
fn members_hold_float(members: &Map<String, Value>) -> bool
    ensures { result ≡ members_have_float (members_view members.now.entries) }
{
    for (_, member) in members {
        if holds_float(member) {
            return true;
        }
    }
    false
}
