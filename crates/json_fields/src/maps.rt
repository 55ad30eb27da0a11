//! A map from text as an object, read by ascending key.

ghost use Rattle.std.specs.Prelude.{◌≡◌, refl};
ghost use Rattle.serde_json.specs.View.{view, members_view};
ghost use Rattle.json_fields.specs.Fields.{map_at, members_from};
ghost use Rattle.json_fields.specs.Outcome.{Gives, below_key};
ghost use Rattle.json_fields.specs.RoundTrip.{outer_height};
ghost use Rattle.json_fields.specs.Written.{map_data};
ghost use Rattle.json_fields.specs.Laws.RoundTrips.{map-round_trips};

use crate::place::{ReadError, below};
use crate::reading::{Json, Present, ReadJson, members};
use crate::writing::set;
use base_values::ByText;
use serde_json::{Map, Value};
use std::alloc::{AllocError, Global};

impl<T: ReadJson> ReadJson for ByText<T> {
    ghost reads = { map_at T.reads };

    fn read(alloc: Global, value: &Value) -> Result<ByText<T>, ReadError> {
        let fields = members(alloc, value)?;
        read_members(alloc, fields)
    }
}

impl<T: Json> Json for ByText<T> {
    ghost writes = { map_data T.writes };

    ghost height = { outer_height T.height };

    fn write(&self, alloc: Global) -> Result<Value, AllocError> {
        let mut fields = Map::new(alloc);
        for (key, value) in self.as_map().iter() {
            set(alloc, &mut fields, key.as_str(), value)?;
        }
        Ok(Value::Object(fields))
    }

    ghost round_trips = { map-round_trips T.reads T.writes T.height T.round_trips };
}

impl<T: Json> Present for ByText<T> {
    ghost present = { λ x. refl };
}

fn read_members<T: ReadJson>(
    alloc: Global,
    fields: &Map<String, Value>,
) -> Result<ByText<T>, ReadError>
    ensures exact { Gives result (members_from T.reads (members_view fields.now.entries)) }
{
    let mut found = ByText::empty(alloc);
    for (key, value) in fields.iter() {
        let answer = read_member(alloc, key.as_str(), value)?;
        drop(found.insert(key.clone()?, answer)?);
    }
    Ok(found)
}

fn read_member<T: ReadJson>(alloc: Global, key: &str, value: &Value) -> Result<T, ReadError>
    ensures exact { Gives result (below_key key.now (T.reads (view value.now))) }
{
    below(alloc, key, T::read(alloc, value))
}
