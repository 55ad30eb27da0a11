//! Reading: the trait of what a table reads and writes, and one function for each kind of row.

ghost use Rattle.std.specs.Prelude.{◌≡◌, ℕ, false, [], Err, Ok, IfOk, option_map};
ghost use Rattle.serde_json.specs.Data.{Data};
ghost use Rattle.serde_json.specs.Find.{get_member};
ghost use Rattle.serde_json.specs.View.{view, members_view};
ghost use Rattle.json_fields.specs.Fields as fields;
ghost use Rattle.json_fields.specs.Fields.{list_at, map_at, members_at};
ghost use Rattle.json_fields.specs.Outcome.{Gives, GivesBy, Reading};
ghost use Rattle.json_fields.specs.RoundTrip.{RoundTrips};
ghost use Rattle.json_fields.specs.Written.{is_null};

use crate::place::{ReadError, below};
use base_values::{ByText, Items, Text};
use serde_json::{Map, Value};
use std::alloc::{AllocError, Global};

/// A type that is read from a document by a table.
pub trait ReadJson: Sized + Drop {
    /// The table: the value, or the first place that it misses.
    ghost reads: { Data → Reading Self };

    fn read(alloc: Global, value: &Value) -> Result<Self, ReadError>
        ensures exact { Gives result (reads (view value.now)) };
}

/// A type that is also written, so that what was read of any document is read again from what is
/// written of it. That holds no float unless the document holds one, and nests no deeper than the
/// document or the defaults that its table fills in.
pub trait Json: ReadJson {
    /// The document that is written.
    ghost writes: { Self → Data };

    /// How deep the defaults nest that the table fills in: 0 where no document is outgrown.
    ghost height: { ℕ };

    fn write(&self, alloc: Global) -> Result<Value, AllocError>
        ensures { IfOk result (λ value. view value ≡ writes self.now) };

    ghost round_trips: { RoundTrips Self.reads writes height };
}

/// A type that is never written as null, so that null can stand for no value.
pub trait Present: Json {
    ghost present: { (x : Self) → is_null (Self.writes x) ≡ false };
}

/// A miss of this very place.
pub fn miss<T>(alloc: Global) -> Result<T, ReadError>
    ensures { Gives result (Err []) }
{
    Err(ReadError::Missed(Text::new(String::new(alloc))))
}

/// The members of an object.
pub fn members(alloc: Global, value: &Value) -> Result<&Map<String, Value>, ReadError>
    ensures exact { GivesBy (λ m. members_view m.now.entries) result (members_at (view value.now)) }
{
    match value {
        Value::Object(fields) => Ok(fields),
        _ => Err(ReadError::Missed(Text::new(String::new(alloc)))),
    }
}

/// What stands at a key.
pub fn member<'v>(fields: &'v Map<String, Value>, key: &str) -> Option<&'v Value>
    ensures found { option_map (λ v. view v.now) result
        ≡ get_member key.now (members_view fields.now.entries) }
{
    fields.get(key)
}

/// A member that must be there.
#[tactic(auto, unfolding(crate::specs::Fields::required_member))]
pub fn required_member<T: ReadJson>(
    alloc: Global,
    members: &Map<String, Value>,
    key: &str,
) -> Result<T, ReadError>
    ensures exact { Gives result
        (fields.required_member key.now T.reads (members_view members.now.entries)) }
{
    let answer = match member(members, key) {
        Some(value) => T::read(alloc, value),
        None => miss(alloc),
    };
    below(alloc, key, answer)
}

/// A member that may be missing or null.
#[tactic(auto, unfolding(crate::specs::Fields::optional_member))]
pub fn optional_member<T: ReadJson>(
    alloc: Global,
    members: &Map<String, Value>,
    key: &str,
) -> Result<Option<T>, ReadError>
    ensures exact { Gives result
        (fields.optional_member key.now T.reads (members_view members.now.entries)) }
{
    let answer = match member(members, key) {
        Some(value) => Option::read(alloc, value),
        None => Ok(None),
    };
    below(alloc, key, answer)
}

/// A member that may be missing, and is then the default.
#[tactic(auto, unfolding(crate::specs::Fields::default_member))]
pub fn default_member<T: ReadJson>(
    alloc: Global,
    members: &Map<String, Value>,
    key: &str,
    default: T,
) -> Result<T, ReadError>
    ensures exact { Gives result
        (fields.default_member key.now default T.reads (members_view members.now.entries)) }
{
    let answer = match member(members, key) {
        Some(value) => T::read(alloc, value),
        None => Ok(default),
    };
    below(alloc, key, answer)
}

/// A list that may be missing, and is then empty.
#[tactic(auto, unfolding(crate::specs::Fields::default_member))]
pub fn list_member<T: ReadJson>(
    alloc: Global,
    members: &Map<String, Value>,
    key: &str,
) -> Result<Items<T>, ReadError>
    ensures exact { Gives result
        (fields.default_member key.now [] (list_at T.reads) (members_view members.now.entries)) }
{
    default_member(alloc, members, key, Items::empty(alloc))
}

/// A map that may be missing, and is then empty.
#[tactic(auto, unfolding(crate::specs::Fields::default_member))]
pub fn map_member<T: ReadJson>(
    alloc: Global,
    members: &Map<String, Value>,
    key: &str,
) -> Result<ByText<T>, ReadError>
    ensures exact { Gives result
        (fields.default_member key.now [] (map_at T.reads) (members_view members.now.entries)) }
{
    default_member(alloc, members, key, ByText::empty(alloc))
}
