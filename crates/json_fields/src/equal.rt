//! Equality of JSON values by content, where `Value`'s own says nothing of what it compares.

ghost use Rattle.std.specs.Prelude.{◌≡◌, None};
ghost use Rattle.serde_json.specs.Find.{as_integer};
ghost use Rattle.serde_json.specs.View.{view, number_view, items_view, members_view};
ghost use Rattle.json_fields.specs.Equal.{data_eq, items_eq, members_eq, num_eq};

use serde_json::{Map, Number, Value};
use std::cmp::OrderedFloat;

/// Whole numbers are equal by value, floats as numbers, and objects member by member.
#[cycle(equal)]
pub fn same_value(a: &Value, b: &Value) -> bool
    ensures { result ≡ data_eq (view a.now) (view b.now) }
{
    match a {
        Value::Null => b.is_null(),
        Value::Bool(x) => match b {
            Value::Bool(y) => *x == *y,
            _ => false,
        },
        Value::Number(x) => match b {
            Value::Number(y) => same_number(x, y),
            _ => false,
        },
        Value::String(x) => match b {
            Value::String(y) => x.as_str() == y.as_str(),
            _ => false,
        },
        Value::Array(xs) => match b {
            Value::Array(ys) => same_items(xs.as_slice(), ys.as_slice()),
            _ => false,
        },
        Value::Object(xs) => match b {
            Value::Object(ys) => same_members(xs, ys),
            _ => false,
        },
    }
}

#[cycle(equal)]
fn same_items(a: &[Value], b: &[Value]) -> bool
    ensures { result ≡ items_eq (items_view a.now) (items_view b.now) }
{
    let mut rest = b.iter();
    for x in a {
        let Some(y) = rest.next() else {
            return false;
        };
        if !same_value(x, y) {
            return false;
        }
    }
    rest.next().is_none()
}

#[cycle(equal)]
fn same_members(a: &Map<String, Value>, b: &Map<String, Value>) -> bool
    ensures { result
        ≡ members_eq (members_view a.now.entries) (members_view b.now.entries) }
{
    let mut rest = b.iter();
    for (key, x) in a {
        let Some((other, y)) = rest.next() else {
            return false;
        };
        if key.as_str() != other.as_str() || !same_value(x, y) {
            return false;
        }
    }
    rest.next().is_none()
}

fn same_number(a: &Number, b: &Number) -> bool
    ensures { result ≡ num_eq (number_view a.now) (number_view b.now) }
{
    match (a.as_i128(), b.as_i128()) {
        (Some(m), Some(n)) => m == n,
        (None, None) => same_float(a, b),
        _ => false,
    }
}

fn same_float(a: &Number, b: &Number) -> bool
    requires a_is_float { as_integer (number_view a.now) ≡ None }
    requires b_is_float { as_integer (number_view b.now) ≡ None }
    ensures { result ≡ num_eq (number_view a.now) (number_view b.now) }
{
    match (a.as_f64(), b.as_f64()) {
        (Some(x), Some(y)) => OrderedFloat(x) == OrderedFloat(y),
        _ => false,
    }
}
